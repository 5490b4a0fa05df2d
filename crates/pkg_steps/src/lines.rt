//! The lines of a step, in their order.
ghost use Rattle.std.specs.Prelude.{◌≡◌, ◌+◌, ◌≤◌, length};
ghost use Rattle.tree_worlds.specs.HeldWorld.{IsHeldWorld};
ghost use Rattle.tree_worlds.specs.World.{world_data};
ghost use Rattle.pkg_steps.specs.Lines.{past, lines_run, copied};
ghost use Rattle.pkg_steps.specs.Stepping.{Progressed, passed};

use crate::commands::Commands;
use plan_rows::CommandLine;
use std::alloc::Global;
use tree_ops::TreeOps;
use tree_worlds::{CommandError, Reason, World};

/// The line of a step that failed.
#[derive(Clone, Copy)]
pub(crate) enum LineFault {
    Failed { line: u32, reason: Reason },
    Memory,
}

/// Runs lines, the first of which has this number.
pub(crate) fn run_lines<T: TreeOps, C: Commands<T>>(
    alloc: Global,
    commands: &C,
    world: &mut World<T>,
    first: u32,
    lines: &[CommandLine],
) -> Result<(), LineFault>
    requires few { first + length lines.now ≤ 4294967295 }
    requires held { IsHeldWorld T.tree T.sealed world.old }
    ensures progress { Progressed (lines_run (C.shell commands.now) first lines.now (world_data T.tree world.old)) result (world_data T.tree world.new) }
    ensures held { IsHeldWorld T.tree T.sealed world.new }
{
    let mut number = first;
    for line in lines {
        run_line(alloc, commands, world, number, line)?;
        number += 1;
    }
    Ok(())
}

fn run_line<T: TreeOps, C: Commands<T>>(
    alloc: Global,
    commands: &C,
    world: &mut World<T>,
    number: u32,
    line: &CommandLine,
) -> Result<(), LineFault>
    requires held { IsHeldWorld T.tree T.sealed world.old }
    ensures progress { Progressed (past line.now.ignore number ((C.shell commands.now).line line.now.text (world_data T.tree world.old))) result (world_data T.tree world.new) }
    ensures held { IsHeldWorld T.tree T.sealed world.new }
{
    passed(
        line.ignore,
        number,
        commands.line(alloc, world, line.text.as_slice()),
    )
}

/// Copies the source, if the step does.
pub(crate) fn run_copy<T: TreeOps, C: Commands<T>>(
    alloc: Global,
    commands: &C,
    world: &mut World<T>,
    copies: bool,
) -> Result<(), LineFault>
    requires held { IsHeldWorld T.tree T.sealed world.old }
    ensures progress { Progressed (copied (C.shell commands.now) copies (world_data T.tree world.old)) result (world_data T.tree world.new) }
    ensures held { IsHeldWorld T.tree T.sealed world.new }
{
    if !copies {
        return Ok(());
    }
    passed(false, 0, commands.copy_source(alloc, world))
}

/// What a line's outcome is for its step.
fn passed(ignored: bool, number: u32, outcome: Result<(), CommandError>) -> Result<(), LineFault>
    ensures { result ≡ passed ignored number outcome }
{
    match outcome {
        Ok(()) => Ok(()),
        Err(CommandError::Memory) => Err(LineFault::Memory),
        Err(CommandError::Failed(reason)) => {
            if ignored {
                Ok(())
            } else {
                Err(LineFault::Failed {
                    line: number,
                    reason,
                })
            }
        }
    }
}
