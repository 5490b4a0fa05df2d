//! Where the sources of install, cp, mv and ln go.
//!
//! In `cp a b /output/target/etc` the last operand is a folder, so `a` goes to `/output/target/etc/a` and `b` beside it. In
//! `cp a /output/target/b` it is no folder, so the one source goes to that place itself.
ghost use Rattle.std.specs.Prelude.{◌≡◌, ◌≤◌, length, true, IfOk, Some, None, if◌then◌else◌};
ghost use Rattle.std.specs.List.{list_all};
ghost use Rattle.std.specs.Option.{option_copied};
ghost use Rattle.br_path.specs.Path.{is_name_byte};
ghost use Rattle.br_path.specs.Gives.{Gives};
ghost use Rattle.sh_places.specs.Parts.{choose, told};
ghost use Rattle.tree_worlds.specs.World.{WorldData, world_data};
ghost use Rattle.tree_worlds.specs.Program.{run, Ran, Done};
ghost use Rattle.tree_worlds.specs.HeldWorld.{IsHeldWorld};
ghost use Rattle.tree_worlds.specs.Operand.{HasWalk};
ghost use Rattle.tree_worlds.specs.declared.reason.CommandError.TheVariants.{Memory as no_memory};
ghost use Rattle.sh_places.specs.Finding.{IsStep, spot_of};
ghost use Rattle.sh_files.specs.Folders as folders;
ghost use Rattle.sh_files.specs.Goals as goals;

use crate::folders::{but_last, is_dots, make_parents, make_path};
use br_path::{Bytes, Files, Memory};
use sh_places::{Kind, Spot, components, is_name_byte, kind_at, place_below, read, resolve};
use std::alloc::Global;
use tree_ops::{ChangeFault, TreeOps};
use tree_worlds::{CommandError, Operand, Reason, World, error_of};

/// Where sources go.
pub(crate) enum Goal {
    /// Into a folder, each with its base.
    Into(Spot),
    /// The one source to a place.
    Onto(Spot),
}

// A proof then has one call at each place that lets a goal go, and not one for each of its variants.
impl Drop for Goal {
    fn drop(self) {
        match self {
            Goal::Into(_) | Goal::Onto(_) => {}
        }
    }
}

/// The name that a source gets in the folder into which it goes: its last component. At a place it gets none.
pub(crate) fn base_for(alloc: Global, goal: &Goal, word: &[u8]) -> Result<Bytes, CommandError>
    ensures base { Gives no_memory (told (goals.base_for goal.now word.now)) result }
    ensures name { IfOk result (goals.IsBase goal.now) }
{
    match goal {
        Goal::Into(_) => base_of(alloc, word),
        Goal::Onto(_) => Ok(Bytes {
            items: Vec::new(alloc),
        }),
    }
}

/// The last component of a word, which is neither `.` nor `..`.
fn base_of(alloc: Global, word: &[u8]) -> Result<Bytes, CommandError>
    ensures base { Gives no_memory (told (goals.base_of word.now)) result }
    ensures name { IfOk result IsStep }
{
    let names = components(alloc, word)?;
    match last_of(names.items.as_slice()) {
        None => Err(CommandError::Failed(Reason::Operand)),
        Some(name) => plain(name.copy()?),
    }
}

/// The last of some names.
pub(crate) fn last_of(names: &[Bytes]) -> Option<&Bytes>
    ensures { option_copied result ≡ goals.last_of names.now }
{
    match names.split_last() {
        None => None,
        Some((last, _)) => Some(last),
    }
}

/// The name, unless it is `.` or `..`, or has a byte that no name has.
fn plain(name: Bytes) -> Result<Bytes, CommandError>
    requires filled { 1 ≤ length name }
    ensures base { result ≡ told (goals.plain (Some name)) }
    ensures name { IfOk result IsStep }
{
    if is_plain(name.as_slice()) {
        return Ok(name);
    }
    Err(CommandError::Failed(Reason::Operand))
}

fn is_plain(name: &[u8]) -> bool
    ensures { result ≡ goals.is_plain name.now }
{
    has_name_bytes(name) && !is_dots(name)
}

fn has_name_bytes(name: &[u8]) -> bool
    ensures { result ≡ list_all is_name_byte name.now }
{
    name.iter().all(|byte| is_name_byte(*byte))
}

/// The place of a source with this base.
pub(crate) fn place_for(alloc: Global, goal: &Goal, base: &[u8]) -> Result<Spot, CommandError>
    requires base { goals.IsBase goal.now base.now }
    ensures { Gives no_memory (told (goals.place_for goal.now base.now)) result }
{
    match goal {
        Goal::Into(folder) => place_below(alloc, folder, base),
        Goal::Onto(place) => Ok(place.copy()?),
    }
}

/// Into the folder to which the last operand leads; else onto its place, if there is one source alone.
pub(crate) fn last_goal<T: TreeOps>(
    alloc: Global,
    world: &mut World<T>,
    files: &Files,
    parents: bool,
    sources: usize,
    word: &[u8],
) -> Result<Goal, CommandError>
    requires held { IsHeldWorld T.tree T.sealed world.old }
    ensures ran { Ran (run (goals.last_goal files.now parents sources word.now) (world_data T.tree world.old)) result (world_data T.tree world.new) }
    ensures held { IsHeldWorld T.tree T.sealed world.new }
{
    let operand = read(alloc, world, files, word)?;
    let dotted = ends_in_dots(alloc, word)?;
    let folder = folder_there(alloc, world, files, &operand)?;
    goal_of(
        alloc, world, files, parents, sources, dotted, &operand, folder,
    )
}

/// Whether the last component of a word is `.` or `..`.
fn ends_in_dots(alloc: Global, word: &[u8]) -> Result<bool, Memory>
    ensures { IfOk result (λ dotted. dotted ≡ goals.ends_in_dots word.now) }
{
    let names = components(alloc, word)?;
    Ok(is_dotted(last_of(names.items.as_slice())))
}

fn is_dotted(name: Option<&Bytes>) -> bool
    ensures { result ≡ goals.is_dotted (option_copied name.entry) }
{
    match name {
        None => false,
        Some(name) => is_dots(name.as_slice()),
    }
}

/// Into the folder; without one, onto the place of the operand, for one source alone.
fn goal_of<T: TreeOps>(
    alloc: Global,
    world: &mut World<T>,
    files: &Files,
    parents: bool,
    sources: usize,
    dotted: bool,
    operand: &Operand,
    folder: Option<Spot>,
) -> Result<Goal, CommandError>
    requires walk { HasWalk operand.now }
    requires held { IsHeldWorld T.tree T.sealed world.old }
    ensures ran { Ran (run (goals.goal_of files.now parents sources dotted operand.now folder) (world_data T.tree world.old)) result (world_data T.tree world.new) }
    ensures held { IsHeldWorld T.tree T.sealed world.new }
{
    match folder {
        Some(folder) => Ok(Goal::Into(folder)),
        None => {
            if 2 <= sources {
                return Err(error_of(ChangeFault::NotDir));
            }
            goal_at_place(alloc, world, files, parents, dotted, operand)
        }
    }
}

/// The folder to which an operand leads, if it leads to one.
pub(crate) fn folder_there<T: TreeOps>(
    alloc: Global,
    world: &World<T>,
    files: &Files,
    operand: &Operand,
) -> Result<Option<Spot>, Memory>
    requires walk { HasWalk operand.now }
    requires held { IsHeldWorld T.tree T.sealed world.now }
    ensures { IfOk result (λ folder. folder ≡ goals.folder_there (world_data T.tree world.now) files.now (spot_of (world_data T.tree world.now) true operand.now)) }
{
    match resolve(alloc, world, operand, true) {
        Ok(place) => Ok(only_folder(kind_at(world, files, &place), place)),
        Err(CommandError::Memory) => Err(Memory),
        Err(CommandError::Failed(_)) => Ok(None),
    }
}

fn only_folder(kind: Option<Kind>, place: Spot) -> Option<Spot>
    ensures { result ≡ (if goals.is_dir kind then Some place else None) }
{
    match kind {
        Some(Kind::Dir(_)) => Some(place),
        _ => None,
    }
}

/// The place of an operand itself, after the folders above it if they are asked for.
fn goal_at_place<T: TreeOps>(
    alloc: Global,
    world: &mut World<T>,
    files: &Files,
    parents: bool,
    dotted: bool,
    operand: &Operand,
) -> Result<Goal, CommandError>
    requires walk { HasWalk operand.now }
    requires held { IsHeldWorld T.tree T.sealed world.old }
    ensures ran { Ran (run (goals.goal_at_place files.now parents dotted operand.now) (world_data T.tree world.old)) result (world_data T.tree world.new) }
    ensures held { IsHeldWorld T.tree T.sealed world.new }
{
    parents_first(alloc, world, files, parents, dotted, operand)?;
    let place = resolve(alloc, world, operand, false)?;
    Ok(Goal::Onto(place))
}

/// The folders above an operand, if they are asked for.
fn parents_first<T: TreeOps>(
    alloc: Global,
    world: &mut World<T>,
    files: &Files,
    parents: bool,
    dotted: bool,
    operand: &Operand,
) -> Result<(), CommandError>
    requires walk { HasWalk operand.now }
    requires held { IsHeldWorld T.tree T.sealed world.old }
    ensures ran { Ran (run (choose parents (folders.make_parents files.now dotted operand.now) (Done tt)) (world_data T.tree world.old)) result (world_data T.tree world.new) }
    ensures held { IsHeldWorld T.tree T.sealed world.new }
{
    if !parents {
        return Ok(());
    }
    make_parents(alloc, world, files, dotted, operand)
}

/// Into the folder that a word names, which is made first if that is asked for.
pub(crate) fn named_goal<T: TreeOps>(
    alloc: Global,
    world: &mut World<T>,
    files: &Files,
    make: bool,
    word: &[u8],
) -> Result<Goal, CommandError>
    requires held { IsHeldWorld T.tree T.sealed world.old }
    ensures ran { Ran (run (goals.named_goal files.now make word.now) (world_data T.tree world.old)) result (world_data T.tree world.new) }
    ensures held { IsHeldWorld T.tree T.sealed world.new }
{
    let operand = read(alloc, world, files, word)?;
    folders_first(alloc, world, files, make, &operand)?;
    let folder = resolve(alloc, world, &operand, true)?;
    into(kind_at(world, files, &folder), folder)
}

/// All folders of an operand, if they are asked for.
fn folders_first<T: TreeOps>(
    alloc: Global,
    world: &mut World<T>,
    files: &Files,
    make: bool,
    operand: &Operand,
) -> Result<(), CommandError>
    requires walk { HasWalk operand.now }
    requires held { IsHeldWorld T.tree T.sealed world.old }
    ensures ran { Ran (run (choose make (folders.make_path files.now 493 operand.now) (Done tt)) (world_data T.tree world.old)) result (world_data T.tree world.new) }
    ensures held { IsHeldWorld T.tree T.sealed world.new }
{
    if !make {
        return Ok(());
    }
    make_path(alloc, world, files, 0o755, operand)
}

/// Into a place, if a folder stands there.
fn into(kind: Option<Kind>, folder: Spot) -> Result<Goal, CommandError>
    ensures { (world : WorldData) → Ran (run (goals.into folder kind) world) result world }
{
    match kind {
        None => Err(error_of(ChangeFault::Absent)),
        Some(Kind::Dir(_)) => Ok(Goal::Into(folder)),
        Some(_) => Err(error_of(ChangeFault::NotDir)),
    }
}

/// The goal of one source or more. The option `t` names its folder, else the last operand its place. `make` makes the folders
/// that lead to it.
pub(crate) fn goal_for<T: TreeOps>(
    alloc: Global,
    world: &mut World<T>,
    files: &Files,
    make: bool,
    named: Option<&[u8]>,
    operands: &[Bytes],
) -> Result<Goal, CommandError>
    requires held { IsHeldWorld T.tree T.sealed world.old }
    ensures ran { Ran (run (goals.goal_for files.now make (option_copied named.entry) operands.now) (world_data T.tree world.old)) result (world_data T.tree world.new) }
    ensures held { IsHeldWorld T.tree T.sealed world.new }
{
    let sources = sources_of(named, operands);
    if sources.is_empty() {
        return Err(CommandError::Failed(Reason::Operand));
    }
    goal_by(
        alloc,
        world,
        files,
        make,
        sources.len(),
        named,
        last_of(operands),
    )
}

/// The goal that an option names, else the last operand.
fn goal_by<T: TreeOps>(
    alloc: Global,
    world: &mut World<T>,
    files: &Files,
    make: bool,
    sources: usize,
    named: Option<&[u8]>,
    last: Option<&Bytes>,
) -> Result<Goal, CommandError>
    requires held { IsHeldWorld T.tree T.sealed world.old }
    ensures ran { Ran (run (goals.goal_by files.now make sources (option_copied named.entry) (option_copied last.entry)) (world_data T.tree world.old)) result (world_data T.tree world.new) }
    ensures held { IsHeldWorld T.tree T.sealed world.new }
{
    match named {
        Some(word) => named_goal(alloc, world, files, make, word),
        None => match last {
            Some(word) => last_goal(alloc, world, files, make, sources, word.as_slice()),
            None => Err(CommandError::Failed(Reason::Operand)),
        },
    }
}

/// The sources among the operands: all, if the goal is named by an option, else all but the last.
pub(crate) fn sources_of<'a>(named: Option<&[u8]>, operands: &'a [Bytes]) -> &'a [Bytes]
    ensures { result.now ≡ goals.sources_of (option_copied named.entry) operands.now }
{
    match named {
        Some(_) => operands,
        None => but_last(operands),
    }
}

impl Goal {
    /// The folder, or the place.
    pub(crate) fn place(&self) -> &Spot
        ensures { result.now ≡ goals.goal_place self.now }
    {
        match self {
            Goal::Into(folder) => folder,
            Goal::Onto(place) => place,
        }
    }
}
