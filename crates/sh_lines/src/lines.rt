//! A line by its words.
ghost use Rattle.std.specs.Prelude.{◌≡◌, ◌<◌, ◌^◌, length, IfOk};
ghost use Rattle.tree_worlds.specs.World.{WorldData, world_data};
ghost use Rattle.tree_worlds.specs.Program.{run, Ran};
ghost use Rattle.tree_worlds.specs.HeldWorld.{IsHeldWorld};
ghost use Rattle.tree_worlds.specs.Kept.{KeepsUnlessMemory};
ghost use Rattle.sh_places.specs.Parts.{attempt};
ghost use Rattle.sh_lines.specs.Lines as lines;

use crate::names::{is_shell_word, is_text_command};
use br_path::{Bytes, Files};
use sh_words::{Line, WordFault, split};
use std::alloc::Global;
use tree_ops::TreeOps;
use tree_worlds::{CommandError, Reason, World};

/// Runs a line, without its leading blanks, `@` and `-`.
///
/// A line without words does nothing. A first word that names no command is `NotFound`. After a failure the world has the
/// changes made before it; if it is out of memory, the world can only be let go. The time is that of the command.
pub fn run<T: TreeOps>(
    alloc: Global,
    world: &mut World<T>,
    files: &Files,
    text: &[u8],
) -> Result<(), CommandError>
    requires short { length text.now < 2 ^ 32 }
    requires held { IsHeldWorld T.tree T.sealed world.old }
    ensures ran { Ran (run (lines.line files.now text.now) (world_data T.tree world.old)) result (world_data T.tree world.new) }
    ensures keeps { KeepsUnlessMemory (world_data T.tree world.old) result (world_data T.tree world.new) }
    ensures held { IsHeldWorld T.tree T.sealed world.new }
{
    run_text(alloc, world, files, text)
}

fn run_text<T: TreeOps>(
    alloc: Global,
    world: &mut World<T>,
    files: &Files,
    text: &[u8],
) -> Result<(), CommandError>
    requires short { length text.now < 2 ^ 32 }
    requires held { IsHeldWorld T.tree T.sealed world.old }
    ensures ran { Ran (run (lines.line files.now text.now) (world_data T.tree world.old)) result (world_data T.tree world.new) }
    ensures held { IsHeldWorld T.tree T.sealed world.new }
{
    match line_of(alloc, text) {
        Ok(line) => run_line(alloc, world, files, &line),
        Err(error) => Err(error),
    }
}

/// The words and the target of a line. What can't be split is `Syntax`.
#[tactic(auto, using(crate::proofs::Few::few_words))]
fn line_of(alloc: Global, text: &[u8]) -> Result<Line, CommandError>
    requires short { length text.now < 2 ^ 32 }
    ensures read { (world : WorldData) → Ran (run (attempt (lines.words_of text.now)) world) result world }
    ensures few { IfOk result (λ line. length line.words < 2 ^ 32) }
{
    match split(alloc, text) {
        Ok(line) => Ok(line),
        Err(WordFault::Memory) => Err(CommandError::Memory),
        Err(_) => Err(CommandError::Failed(Reason::Syntax)),
    }
}

fn run_line<T: TreeOps>(
    alloc: Global,
    world: &mut World<T>,
    files: &Files,
    line: &Line,
) -> Result<(), CommandError>
    requires few { length line.now.words < 2 ^ 32 }
    requires held { IsHeldWorld T.tree T.sealed world.old }
    ensures ran { Ran (run (lines.does files.now line.now line.now.words) (world_data T.tree world.old)) result (world_data T.tree world.new) }
    ensures held { IsHeldWorld T.tree T.sealed world.new }
{
    match line.words.items.split_first() {
        None => no_words(line),
        Some((name, words)) => run_named(alloc, world, files, line, name.as_slice(), words),
    }
}

/// A target without words is refused.
fn no_words(line: &Line) -> Result<(), CommandError>
    ensures { (world : WorldData) → Ran (run (lines.no_words line.now.into) world) result world }
{
    match line.into {
        None => Ok(()),
        Some(_) => Err(CommandError::Failed(Reason::Syntax)),
    }
}

fn run_named<T: TreeOps>(
    alloc: Global,
    world: &mut World<T>,
    files: &Files,
    line: &Line,
    name: &[u8],
    words: &[Bytes],
) -> Result<(), CommandError>
    requires few { length line.now.words < 2 ^ 32 }
    requires fewer { length words.now < 2 ^ 32 }
    requires held { IsHeldWorld T.tree T.sealed world.old }
    ensures ran { Ran (run (lines.named files.now line.now name.now words.now) (world_data T.tree world.old)) result (world_data T.tree world.new) }
    ensures held { IsHeldWorld T.tree T.sealed world.new }
{
    if is_shell_word(name) {
        Err(CommandError::Failed(Reason::Syntax))
    } else if is_text_command(name) {
        sh_text::run(alloc, world, files, line)
    } else if line.into.is_some() {
        Err(CommandError::Failed(Reason::Syntax))
    } else {
        sh_files::run(alloc, world, files, name, words)
    }
}
