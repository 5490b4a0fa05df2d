//! A command by its name.
ghost use Rattle.std.specs.Prelude.{◌≡◌, ◌<◌, ◌^◌, length};
ghost use Rattle.tree_worlds.specs.World.{WorldData, world_data};
ghost use Rattle.tree_worlds.specs.Program.{run, Ran};
ghost use Rattle.tree_worlds.specs.HeldWorld.{IsHeldWorld};
ghost use Rattle.tree_worlds.specs.Kept.{KeepsUnlessMemory};
ghost use Rattle.sh_places.specs.Parts.{attempt};
ghost use Rattle.sh_text.specs.Redirection.{put_through};
ghost use Rattle.sh_text.specs.Printing as printing;
ghost use Rattle.sh_text.specs.Commands as texts;

use crate::echo::echo;
use crate::printf::printf;
use crate::redirection::{open_into, put_output};
use crate::sed::sed;
use br_path::{Bytes, Files, is_text};
use sh_words::{Line, Redirect};
use std::alloc::Global;
use tree_ops::TreeOps;
use tree_worlds::{CommandError, Reason, World};

/// Runs a command on texts: printf, echo or sed. Any other name is `NotFound`.
///
/// The target of the line is made, or emptied, before the command runs, and the output is appended to it at the end. Without a
/// target the output is dropped. A line without words asks for nothing; if it has a target, it is refused. After a failure the
/// world has the changes made before it; if it is out of memory, the world can only be let go.
pub fn run<T: TreeOps>(
    alloc: Global,
    world: &mut World<T>,
    files: &Files,
    line: &Line,
) -> Result<(), CommandError>
    requires words { length line.now.words < 2 ^ 32 }
    requires held { IsHeldWorld T.tree T.sealed world.old }
    ensures ran { Ran (run (texts.command files.now line.now) (world_data T.tree world.old)) result (world_data T.tree world.new) }
    ensures keeps { KeepsUnlessMemory (world_data T.tree world.old) result (world_data T.tree world.new) }
    ensures held { IsHeldWorld T.tree T.sealed world.new }
{
    run_line(alloc, world, files, line)
}

fn run_line<T: TreeOps>(
    alloc: Global,
    world: &mut World<T>,
    files: &Files,
    line: &Line,
) -> Result<(), CommandError>
    requires words { length line.now.words < 2 ^ 32 }
    requires held { IsHeldWorld T.tree T.sealed world.old }
    ensures ran { Ran (run (texts.command files.now line.now) (world_data T.tree world.old)) result (world_data T.tree world.new) }
    ensures held { IsHeldWorld T.tree T.sealed world.new }
{
    run_words(alloc, world, files, &line.into, line.words.items.as_slice())
}

fn run_words<T: TreeOps>(
    alloc: Global,
    world: &mut World<T>,
    files: &Files,
    into: &Option<Redirect>,
    words: &[Bytes],
) -> Result<(), CommandError>
    requires words { length words.now < 2 ^ 32 }
    requires held { IsHeldWorld T.tree T.sealed world.old }
    ensures ran { Ran (run (texts.by_words files.now into.now words.now) (world_data T.tree world.old)) result (world_data T.tree world.new) }
    ensures held { IsHeldWorld T.tree T.sealed world.new }
{
    match words.split_first() {
        None => no_words(into),
        Some((name, words)) => run_named(alloc, world, files, into, name.as_slice(), words),
    }
}

/// What a line without words asks for: nothing, but it has no output for a target.
fn no_words(into: &Option<Redirect>) -> Result<(), CommandError>
    ensures { (world : WorldData) → Ran (run (texts.no_words into.now) world) result world }
{
    match into {
        None => Ok(()),
        Some(_) => Err(CommandError::Failed(Reason::Syntax)),
    }
}

fn run_named<T: TreeOps>(
    alloc: Global,
    world: &mut World<T>,
    files: &Files,
    into: &Option<Redirect>,
    name: &[u8],
    words: &[Bytes],
) -> Result<(), CommandError>
    requires words { length words.now < 2 ^ 32 }
    requires held { IsHeldWorld T.tree T.sealed world.old }
    ensures ran { Ran (run (texts.named files.now into.now name.now words.now) (world_data T.tree world.old)) result (world_data T.tree world.new) }
    ensures held { IsHeldWorld T.tree T.sealed world.new }
{
    if is_text(name, b"printf") {
        run_printf(alloc, world, files, into, words)
    } else if is_text(name, b"echo") {
        run_echo(alloc, world, files, into, words)
    } else if is_text(name, b"sed") {
        sed(alloc, world, files, into, words)
    } else {
        Err(CommandError::Failed(Reason::NotFound))
    }
}

fn run_printf<T: TreeOps>(
    alloc: Global,
    world: &mut World<T>,
    files: &Files,
    into: &Option<Redirect>,
    words: &[Bytes],
) -> Result<(), CommandError>
    requires held { IsHeldWorld T.tree T.sealed world.old }
    ensures ran { Ran (run (put_through files.now into.now (attempt (printing.printed words.now))) (world_data T.tree world.old)) result (world_data T.tree world.new) }
    ensures held { IsHeldWorld T.tree T.sealed world.new }
{
    let place = open_into(alloc, world, files, into)?;
    let output = printf(alloc, words)?;
    put_output(alloc, world, &place, output.as_slice())
}

fn run_echo<T: TreeOps>(
    alloc: Global,
    world: &mut World<T>,
    files: &Files,
    into: &Option<Redirect>,
    words: &[Bytes],
) -> Result<(), CommandError>
    requires held { IsHeldWorld T.tree T.sealed world.old }
    ensures ran { Ran (run (put_through files.now into.now (attempt (printing.echoed words.now))) (world_data T.tree world.old)) result (world_data T.tree world.new) }
    ensures held { IsHeldWorld T.tree T.sealed world.new }
{
    let place = open_into(alloc, world, files, into)?;
    let output = echo(alloc, words)?;
    put_output(alloc, world, &place, output.as_slice())
}
