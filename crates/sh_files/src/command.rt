//! A command by its name.
ghost use Rattle.std.specs.Prelude.{◌≡◌, ◌<◌, ◌^◌, length};
ghost use Rattle.tree_worlds.specs.World.{world_data};
ghost use Rattle.tree_worlds.specs.Program.{run, Ran};
ghost use Rattle.tree_worlds.specs.HeldWorld.{IsHeldWorld};
ghost use Rattle.tree_worlds.specs.Kept.{KeepsUnlessMemory};
ghost use Rattle.br_path.specs.Gives.{Gives};
ghost use Rattle.tree_worlds.specs.declared.reason.CommandError.TheVariants.{Memory as no_memory};
ghost use Rattle.sh_places.specs.Parts.{told};
ghost use Rattle.sh_files.specs.Commands as commands;

use crate::changing_modes::chmod;
use crate::copying::{Manner, cp};
use crate::folders::mkdir;
use crate::install::{self, install};
use crate::linking::{self, ln};
use crate::moving::mv;
use crate::removing::rm;
use crate::touching::touch;
use br_path::{Bytes, Files, is_text};
use opt_table::{OptFault, OptTable, Options, letters, read_options};
use std::alloc::Global;
use tree_ops::TreeOps;
use tree_worlds::{CommandError, Reason, World};

/// Runs a command on files: install, cp, ln, mkdir, rm, mv, chmod, touch, true or false. Any other name is `NotFound`.
///
/// Each command takes the letters of its row and no `--word`; all else is `Option`. Operands are read one after another, so
/// what was done for those before a fault stays. After a failure the world has the changes made before it; if it is out of
/// memory, the world can only be let go.
pub fn run<T: TreeOps>(
    alloc: Global,
    world: &mut World<T>,
    files: &Files,
    name: &[u8],
    words: &[Bytes],
) -> Result<(), CommandError>
    requires words { length words.now < 2 ^ 32 }
    requires held { IsHeldWorld T.tree T.sealed world.old }
    ensures ran { Ran (run (commands.command files.now name.now words.now) (world_data T.tree world.old)) result (world_data T.tree world.new) }
    ensures keeps { KeepsUnlessMemory (world_data T.tree world.old) result (world_data T.tree world.new) }
    ensures held { IsHeldWorld T.tree T.sealed world.new }
{
    run_named(alloc, world, files, name, words)
}

fn run_named<T: TreeOps>(
    alloc: Global,
    world: &mut World<T>,
    files: &Files,
    name: &[u8],
    words: &[Bytes],
) -> Result<(), CommandError>
    requires words { length words.now < 2 ^ 32 }
    requires held { IsHeldWorld T.tree T.sealed world.old }
    ensures ran { Ran (run (commands.command files.now name.now words.now) (world_data T.tree world.old)) result (world_data T.tree world.new) }
    ensures held { IsHeldWorld T.tree T.sealed world.new }
{
    if is_text(name, b"install") {
        run_install(alloc, world, files, words)
    } else if is_text(name, b"cp") {
        run_cp(alloc, world, files, words)
    } else if is_text(name, b"ln") {
        run_ln(alloc, world, files, words)
    } else if is_text(name, b"mkdir") {
        run_mkdir(alloc, world, files, words)
    } else if is_text(name, b"rm") {
        run_rm(alloc, world, files, words)
    } else if is_text(name, b"mv") {
        run_mv(alloc, world, files, words)
    } else if is_text(name, b"chmod") {
        run_chmod(alloc, world, files, words)
    } else if is_text(name, b"touch") {
        run_touch(alloc, world, files, words)
    } else if is_text(name, b"true") {
        Ok(())
    } else if is_text(name, b"false") {
        Err(CommandError::Failed(Reason::False))
    } else {
        Err(CommandError::Failed(Reason::NotFound))
    }
}

#[tactic(auto, using(crate::proofs::Optioned::read_on, crate::proofs::Optioned::read_err))]
fn run_install<T: TreeOps>(
    alloc: Global,
    world: &mut World<T>,
    files: &Files,
    words: &[Bytes],
) -> Result<(), CommandError>
    requires words { length words.now < 2 ^ 32 }
    requires held { IsHeldWorld T.tree T.sealed world.old }
    ensures ran { Ran (run (commands.install_words files.now words.now) (world_data T.tree world.old)) result (world_data T.tree world.new) }
    ensures held { IsHeldWorld T.tree T.sealed world.new }
{
    let table = letters![b'D', b'c', b'd', b'm' value, b'p', b't' value, b'v'];
    let options = read(alloc, &table, words)?;
    let choices = install::Choices {
        folders: options.has(b'd'),
        make: options.has(b'D'),
        into: options.value(b't'),
        mode: options.value(b'm'),
    };
    install(alloc, world, files, &choices, options.operands())
}

#[tactic(auto, using(crate::proofs::Optioned::read_on, crate::proofs::Optioned::read_err))]
fn run_cp<T: TreeOps>(
    alloc: Global,
    world: &mut World<T>,
    files: &Files,
    words: &[Bytes],
) -> Result<(), CommandError>
    requires words { length words.now < 2 ^ 32 }
    requires held { IsHeldWorld T.tree T.sealed world.old }
    ensures ran { Ran (run (commands.cp_words files.now words.now) (world_data T.tree world.old)) result (world_data T.tree world.new) }
    ensures held { IsHeldWorld T.tree T.sealed world.new }
{
    let table = letters![b'P', b'R', b'a', b'd', b'f', b'p', b'r', b't' value, b'v'];
    let options = read(alloc, &table, words)?;
    cp(
        alloc,
        world,
        files,
        manner_of(&options),
        options.value(b't'),
        options.operands(),
    )
}

/// Whether one of two letters was given.
fn either(options: &Options, letter: u8, other: u8) -> bool
    ensures { result ≡ commands.either options.now letter other }
{
    options.has(letter) || options.has(other)
}

/// How cp copies by its options.
fn manner_of(options: &Options) -> Manner
    ensures { result ≡ commands.manner_of options.now }
{
    let links = either(options, b'd', b'a');
    let folders = either(options, b'r', b'R') || options.has(b'a');
    Manner {
        links,
        modes: either(options, b'p', b'a'),
        folders,
        follow: !(options.has(b'P') || links || folders),
    }
}

#[tactic(auto, using(crate::proofs::Optioned::read_on, crate::proofs::Optioned::read_err))]
fn run_ln<T: TreeOps>(
    alloc: Global,
    world: &mut World<T>,
    files: &Files,
    words: &[Bytes],
) -> Result<(), CommandError>
    requires words { length words.now < 2 ^ 32 }
    requires held { IsHeldWorld T.tree T.sealed world.old }
    ensures ran { Ran (run (commands.ln_words files.now words.now) (world_data T.tree world.old)) result (world_data T.tree world.new) }
    ensures held { IsHeldWorld T.tree T.sealed world.new }
{
    let table = letters![b'f', b'n', b's', b'v'];
    let options = read(alloc, &table, words)?;
    let choices = linking::Choices {
        force: options.has(b'f'),
        itself: options.has(b'n'),
        symbolic: options.has(b's'),
    };
    ln(alloc, world, files, choices, options.operands())
}

#[tactic(auto, using(crate::proofs::Optioned::read_on, crate::proofs::Optioned::read_err))]
fn run_mkdir<T: TreeOps>(
    alloc: Global,
    world: &mut World<T>,
    files: &Files,
    words: &[Bytes],
) -> Result<(), CommandError>
    requires words { length words.now < 2 ^ 32 }
    requires held { IsHeldWorld T.tree T.sealed world.old }
    ensures ran { Ran (run (commands.mkdir_words files.now words.now) (world_data T.tree world.old)) result (world_data T.tree world.new) }
    ensures held { IsHeldWorld T.tree T.sealed world.new }
{
    let table = letters![b'm' value, b'p', b'v'];
    let options = read(alloc, &table, words)?;
    mkdir(
        alloc,
        world,
        files,
        options.has(b'p'),
        options.value(b'm'),
        options.operands(),
    )
}

#[tactic(auto, using(crate::proofs::Optioned::read_on, crate::proofs::Optioned::read_err))]
fn run_rm<T: TreeOps>(
    alloc: Global,
    world: &mut World<T>,
    files: &Files,
    words: &[Bytes],
) -> Result<(), CommandError>
    requires words { length words.now < 2 ^ 32 }
    requires held { IsHeldWorld T.tree T.sealed world.old }
    ensures ran { Ran (run (commands.rm_words files.now words.now) (world_data T.tree world.old)) result (world_data T.tree world.new) }
    ensures held { IsHeldWorld T.tree T.sealed world.new }
{
    let table = letters![b'R', b'f', b'r', b'v'];
    let options = read(alloc, &table, words)?;
    let recursive = either(&options, b'r', b'R');
    rm(
        alloc,
        world,
        files,
        options.has(b'f'),
        recursive,
        options.operands(),
    )
}

#[tactic(auto, using(crate::proofs::Optioned::read_on, crate::proofs::Optioned::read_err))]
fn run_mv<T: TreeOps>(
    alloc: Global,
    world: &mut World<T>,
    files: &Files,
    words: &[Bytes],
) -> Result<(), CommandError>
    requires words { length words.now < 2 ^ 32 }
    requires held { IsHeldWorld T.tree T.sealed world.old }
    ensures ran { Ran (run (commands.mv_words files.now words.now) (world_data T.tree world.old)) result (world_data T.tree world.new) }
    ensures held { IsHeldWorld T.tree T.sealed world.new }
{
    let table = letters![b'f', b'v'];
    let options = read(alloc, &table, words)?;
    mv(alloc, world, files, options.operands())
}

#[tactic(auto, using(crate::proofs::Optioned::read_on, crate::proofs::Optioned::read_err))]
fn run_chmod<T: TreeOps>(
    alloc: Global,
    world: &mut World<T>,
    files: &Files,
    words: &[Bytes],
) -> Result<(), CommandError>
    requires words { length words.now < 2 ^ 32 }
    requires held { IsHeldWorld T.tree T.sealed world.old }
    ensures ran { Ran (run (commands.chmod_words files.now words.now) (world_data T.tree world.old)) result (world_data T.tree world.new) }
    ensures held { IsHeldWorld T.tree T.sealed world.new }
{
    let table = letters![b'R', b'f', b'v'];
    let options = read(alloc, &table, words)?;
    chmod(alloc, world, files, options.has(b'R'), options.operands())
}

#[tactic(auto, using(crate::proofs::Optioned::read_on, crate::proofs::Optioned::read_err))]
fn run_touch<T: TreeOps>(
    alloc: Global,
    world: &mut World<T>,
    files: &Files,
    words: &[Bytes],
) -> Result<(), CommandError>
    requires words { length words.now < 2 ^ 32 }
    requires held { IsHeldWorld T.tree T.sealed world.old }
    ensures ran { Ran (run (commands.touch_words files.now words.now) (world_data T.tree world.old)) result (world_data T.tree world.new) }
    ensures held { IsHeldWorld T.tree T.sealed world.new }
{
    let table = letters![b'c'];
    let options = read(alloc, &table, words)?;
    touch(alloc, world, files, options.has(b'c'), options.operands())
}

/// Reads the words of a command by the table of its letters.
fn read<const N: usize>(
    alloc: Global,
    table: &OptTable<N>,
    words: &[Bytes],
) -> Result<Options, CommandError>
    requires words { length words.now < 2 ^ 32 }
    ensures { Gives no_memory (told (commands.read_by table.now words.now)) result }
{
    match read_options(alloc, table, words) {
        Ok(options) => Ok(options),
        Err(OptFault::Memory) => Err(CommandError::Memory),
        Err(_) => Err(CommandError::Failed(Reason::Option)),
    }
}
