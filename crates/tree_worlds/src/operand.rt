//! What a word of a command names.
//!
//! In the task of the package `foo` the word `/output/target/etc/fstab` names a place in the target tree,
//! `/output/build/foo/Makefile` one in the task's own build tree, and `package/foo/src` a folder of the input. All else is
//! outside.
ghost use Rattle.std.specs.Prelude.{◌≡◌, ◌≤◌, ◌<◌, ◌&&◌, ◌==◌, not, nat_le, length, position, IfOk, IfSome};
ghost use Rattle.std.specs.List.{list_all};
ghost use Rattle.br_path.specs.Gives.{Gives};
ghost use Rattle.tree_ops.specs.Walk.{begins_at_root};
ghost use Rattle.tree_worlds.specs.World.{world_data};
ghost use Rattle.tree_worlds.specs.Naming.{shown_task};
ghost use Rattle.tree_worlds.specs.Operand.{up_to, first_of, behind, area_of, in_area, readable_of, in_readable, in_build, in_output, place_of, is_operand, operand_of, told, HasWalk};
ghost use Rattle.tree_worlds.specs.declared.reason.CommandError.TheVariants.{Memory as no_memory};

use crate::acts::error_of;
use crate::input::input;
use crate::reason::{CommandError, Reason};
use crate::world::{Shown, World};
use br_path::{Area, Bytes, Files, Path, is_text};
use std::alloc::Global;
use tree_ops::{ChangeFault, TreeOps};

/// What a word names.
pub enum Operand {
    /// A file or folder of the input.
    Input(Path),
    /// A place in the tree of an area. The walk is what follows the area's folder in the word, with the slash between them and
    /// any slash at the end: `/etc/` of `/output/target/etc/`.
    Place { area: Area, walk: Bytes },
    /// A place in the readable build tree of a task, with the walk likewise.
    Readable { task: u32, walk: Bytes },
}

// A proof then has one call at each place that lets an operand go, and not one for each of its variants.
impl Drop for Operand {
    fn drop(self) {
        match self {
            Operand::Input(_)
            | Operand::Place { area: _, walk: _ }
            | Operand::Readable { task: _, walk: _ } => {}
        }
    }
}

impl<T: TreeOps> World<T> {
    /// What a word names.
    ///
    /// An empty word, or one with a byte that isn't printable ASCII, is no operand. A word that begins with `/` names a place:
    /// after `/output/target`, `/output/staging`, `/output/host`, or `/output/build` and the task's own package, or, in a
    /// prep task, a patch dependency. Any other word names a file or folder of the input, in the package's folder or in
    /// `board`; `.` in it is dropped. What is elsewhere, or has `..`, is `Outside`; an input that isn't there is `Absent`.
    ///
    /// The walk of a place can be given to `TreeOps::resolve`.
    ///
    /// The time is that of the word and of a look-up, and for a build place also that of the readable trees.
    pub fn operand(
        &self,
        alloc: Global,
        files: &Files,
        word: &[u8],
    ) -> Result<Operand, CommandError>
        ensures named { Gives no_memory (told (operand_of (world_data T.tree self.now) files.now word.now)) result }
        ensures walk { IfOk result HasWalk }
    {
        self.named(alloc, files, word)
    }

    fn named(&self, alloc: Global, files: &Files, word: &[u8]) -> Result<Operand, CommandError>
        ensures { Gives no_memory (told (operand_of (world_data T.tree self.now) files.now word.now)) result }
    {
        if !is_operand(word) {
            return Err(CommandError::Failed(Reason::Operand));
        }
        if begins_at_root(word) {
            return self.place(alloc, word);
        }
        input(alloc, &self.folder, files, word)
    }

    /// The place that a text from the root names.
    fn place(&self, alloc: Global, text: &[u8]) -> Result<Operand, CommandError>
        ensures { Gives no_memory (told (place_of (world_data T.tree self.now) text.now)) result }
    {
        let (name, rest) = cut(text);
        if !is_text(name, b"output") {
            return Err(error_of(ChangeFault::Outside));
        }
        self.in_output(alloc, rest)
    }

    /// The place that a text below `output` names.
    fn in_output(&self, alloc: Global, text: &[u8]) -> Result<Operand, CommandError>
        ensures { Gives no_memory (told (in_output (world_data T.tree self.now) text.now)) result }
    {
        let (name, rest) = cut(text);
        if is_text(name, b"build") {
            return self.in_build(alloc, rest);
        }
        in_area(alloc, area_of(name), rest)
    }

    /// The place that a text below `output/build` names.
    fn in_build(&self, alloc: Global, text: &[u8]) -> Result<Operand, CommandError>
        ensures { Gives no_memory (told (in_build (world_data T.tree self.now) text.now)) result }
    {
        let (name, rest) = cut(text);
        if name.is_empty() {
            return Err(error_of(ChangeFault::Outside));
        }
        if is_text(name, self.package.as_slice()) {
            return in_area(alloc, Some(Area::Build), rest);
        }
        if !self.prep {
            return Err(error_of(ChangeFault::Outside));
        }
        in_readable(alloc, self.readable(name), rest)
    }

    /// The task whose readable tree is that of a package.
    fn readable(&self, name: &[u8]) -> Option<u32>
        ensures { result ≡ readable_of (world_data T.tree self.now).shown name.now }
    {
        self.shown.task_of(name)
    }
}

impl<T: TreeOps> Shown<T> {
    /// The task whose readable tree is that of a package.
    fn task_of(&self, name: &[u8]) -> Option<u32>
        ensures { result ≡ shown_task self.now name.now }
    {
        for shown in self.items.as_slice() {
            if is_text(name, shown.package.as_slice()) {
                return Some(shown.task);
            }
        }
        None
    }
}

/// Whether a text can be an operand.
fn is_operand(word: &[u8]) -> bool
    ensures { result ≡ is_operand word.now }
{
    !word.is_empty() && is_printable(word)
}

fn is_printable(word: &[u8]) -> bool
    ensures { result ≡ list_all (λ byte. nat_le 32 byte && nat_le byte 126) word.now }
{
    word.iter().all(|byte| b' ' <= *byte && *byte <= b'~')
}

fn begins_at_root(text: &[u8]) -> bool
    ensures { result ≡ begins_at_root text.now }
{
    text.starts_with(b"/")
}

/// A text's first component, and what stands after it.
fn cut(text: &[u8]) -> (&[u8], &[u8])
    ensures first { result.0.now ≡ first_of text.now }
    ensures behind { result.1.now ≡ behind text.now }
{
    let text = &text[root_length(text)..];
    text.split_at(name_length(text))
}

/// How many slashes stand in front of a text.
fn root_length(text: &[u8]) -> usize
    ensures length { result ≡ up_to (λ byte. not (byte == 47)) text.now }
    ensures within { result ≤ length text.now }
{
    match first_other(text) {
        None => text.len(),
        Some(at) => at,
    }
}

/// How far a text goes before its first slash.
fn name_length(text: &[u8]) -> usize
    ensures length { result ≡ up_to (λ byte. byte == 47) text.now }
    ensures within { result ≤ length text.now }
{
    match first_slash(text) {
        None => text.len(),
        Some(at) => at,
    }
}

fn first_other(text: &[u8]) -> Option<usize>
    ensures first { result ≡ position (λ byte. not (byte == 47)) text.now }
    ensures within { IfSome result (λ at. at < length text.now) }
{
    text.iter().position(|byte| *byte != b'/')
}

fn first_slash(text: &[u8]) -> Option<usize>
    ensures first { result ≡ position (λ byte. byte == 47) text.now }
    ensures within { IfSome result (λ at. at < length text.now) }
{
    text.iter().position(|byte| *byte == b'/')
}

/// The area that a folder of the output is.
fn area_of(name: &[u8]) -> Option<Area>
    ensures { result ≡ area_of name.now }
{
    if is_text(name, b"target") {
        Some(Area::Target)
    } else if is_text(name, b"staging") {
        Some(Area::Staging)
    } else if is_text(name, b"host") {
        Some(Area::Host)
    } else {
        None
    }
}

fn in_area(alloc: Global, area: Option<Area>, walk: &[u8]) -> Result<Operand, CommandError>
    ensures { Gives no_memory (told (in_area area walk.now)) result }
{
    match area {
        None => Err(error_of(ChangeFault::Outside)),
        Some(area) => {
            let walk = Bytes::from_slice(alloc, walk)?;
            Ok(Operand::Place { area, walk })
        }
    }
}

fn in_readable(alloc: Global, task: Option<u32>, walk: &[u8]) -> Result<Operand, CommandError>
    ensures { Gives no_memory (told (in_readable task walk.now)) result }
{
    match task {
        None => Err(error_of(ChangeFault::Outside)),
        Some(task) => {
            let walk = Bytes::from_slice(alloc, walk)?;
            Ok(Operand::Readable { task, walk })
        }
    }
}
