//! sed.
ghost use Rattle.std.specs.Prelude.{◌≡◌, ◌++◌, ◌<◌, ◌≤◌, ◌^◌, false, [], length, OnOk, option_copied};
ghost use Rattle.tree_worlds.specs.World.{WorldData, world_data};
ghost use Rattle.tree_worlds.specs.Program.{run, Ran};
ghost use Rattle.tree_worlds.specs.HeldWorld.{IsHeldWorld};
ghost use Rattle.sh_places.specs.Finding.{HasWalk};
ghost use Rattle.sh_places.specs.Looks as looks;
ghost use Rattle.sh_places.specs.Parts.{each, attempt};
ghost use Rattle.sh_text.specs.Sed as sed;

use crate::redirection::{open_into, put_output};
use crate::script::Script;
use br_path::{Bytes, Files, Memory, is_text};
use opt_table::{OptFault, Options, letters, read_options};
use sh_places::{Kind, Spot, act_in, bytes_at, find, kind_at, mode_at, read, resolve};
use sh_words::Redirect;
use std::alloc::Global;
use tree_ops::{ChangeFault, TreeOps};
use tree_worlds::{CommandError, Operand, Reason, Step, World, error_of};

/// Edits files line by line by a script: in place with `i`, else to the output.
pub(crate) fn sed<T: TreeOps>(
    alloc: Global,
    world: &mut World<T>,
    files: &Files,
    into: &Option<Redirect>,
    words: &[Bytes],
) -> Result<(), CommandError>
    requires words { length words.now < 2 ^ 32 }
    requires held { IsHeldWorld T.tree T.sealed world.old }
    ensures ran { Ran (run (sed.sed files.now into.now words.now) (world_data T.tree world.old)) result (world_data T.tree world.new) }
    ensures held { IsHeldWorld T.tree T.sealed world.new }
{
    let options = options(alloc, words)?;
    sed_with(alloc, world, files, into, &options)
}

fn sed_with<T: TreeOps>(
    alloc: Global,
    world: &mut World<T>,
    files: &Files,
    into: &Option<Redirect>,
    options: &Options,
) -> Result<(), CommandError>
    requires held { IsHeldWorld T.tree T.sealed world.old }
    ensures ran { Ran (run (sed.sed_with files.now into.now options.now) (world_data T.tree world.old)) result (world_data T.tree world.new) }
    ensures held { IsHeldWorld T.tree T.sealed world.new }
{
    if options.has(b'i') {
        sed_in_place(alloc, world, files, into, options)
    } else {
        sed_through(alloc, world, files, into, options)
    }
}

fn sed_in_place<T: TreeOps>(
    alloc: Global,
    world: &mut World<T>,
    files: &Files,
    into: &Option<Redirect>,
    options: &Options,
) -> Result<(), CommandError>
    requires held { IsHeldWorld T.tree T.sealed world.old }
    ensures ran { Ran (run (sed.sed_in_place files.now into.now options.now) (world_data T.tree world.old)) result (world_data T.tree world.new) }
    ensures held { IsHeldWorld T.tree T.sealed world.new }
{
    match into {
        None => edit_all(alloc, world, files, options),
        Some(_) => Err(CommandError::Failed(Reason::Syntax)),
    }
}

/// Edits the files in place by the script.
fn edit_all<T: TreeOps>(
    alloc: Global,
    world: &mut World<T>,
    files: &Files,
    options: &Options,
) -> Result<(), CommandError>
    requires held { IsHeldWorld T.tree T.sealed world.old }
    ensures ran { Ran (run (sed.edit_all files.now options.now) (world_data T.tree world.old)) result (world_data T.tree world.new) }
    ensures held { IsHeldWorld T.tree T.sealed world.new }
{
    let script = script_for(alloc, options)?;
    edit_files(alloc, world, files, &script, file_words(options))
}

fn sed_through<T: TreeOps>(
    alloc: Global,
    world: &mut World<T>,
    files: &Files,
    into: &Option<Redirect>,
    options: &Options,
) -> Result<(), CommandError>
    requires held { IsHeldWorld T.tree T.sealed world.old }
    ensures ran { Ran (run (sed.sed_through files.now into.now options.now) (world_data T.tree world.old)) result (world_data T.tree world.new) }
    ensures held { IsHeldWorld T.tree T.sealed world.new }
{
    let place = open_into(alloc, world, files, into)?;
    put_edited(alloc, world, files, &place, options)
}

/// Puts the edited texts of the files to the target.
fn put_edited<T: TreeOps>(
    alloc: Global,
    world: &mut World<T>,
    files: &Files,
    place: &Option<Spot>,
    options: &Options,
) -> Result<(), CommandError>
    requires held { IsHeldWorld T.tree T.sealed world.old }
    ensures ran { Ran (run (sed.put_edited files.now place.now options.now) (world_data T.tree world.old)) result (world_data T.tree world.new) }
    ensures held { IsHeldWorld T.tree T.sealed world.new }
{
    let script = script_for(alloc, options)?;
    let output = edited_files(alloc, world, files, &script, file_words(options))?;
    put_output(alloc, world, place, output.as_slice())
}

/// What the words say. A word longer than `-i` that begins so is refused.
fn options(alloc: Global, words: &[Bytes]) -> Result<Options, CommandError>
    requires { length words.now < 2 ^ 32 }
    ensures { (world : WorldData) → Ran (run (attempt (sed.options words.now)) world) result world }
{
    if has_suffix(words) {
        return Err(CommandError::Failed(Reason::Option));
    }
    let table = letters![b'e' value, b'i'];
    match read_options(alloc, &table, words) {
        Ok(options) => Ok(options),
        Err(OptFault::Memory) => Err(CommandError::Memory),
        Err(_) => Err(CommandError::Failed(Reason::Option)),
    }
}

/// Whether a word of letters begins with `-i` and is longer.
fn has_suffix(words: &[Bytes]) -> bool
    ensures { result ≡ sed.has_suffix false words.now }
{
    let mut waiting = false;
    for word in words {
        if waiting {
            waiting = false;
            continue;
        }
        if is_text(word.as_slice(), b"--") {
            return false;
        }
        if is_suffixed(word.as_slice()) {
            return true;
        }
        waiting = is_text(word.as_slice(), b"-e");
    }
    false
}

fn is_suffixed(word: &[u8]) -> bool
    ensures { result ≡ sed.is_suffixed word.now }
{
    word.starts_with(b"-i") && word.len() > 2
}

/// The script, which is the value of `e` or the first operand, where files are named.
fn script_for(alloc: Global, options: &Options) -> Result<Script, CommandError>
    ensures { (world : WorldData) → Ran (run (attempt (sed.script_for options.now)) world) result world }
{
    let Some(text) = script_word(options) else {
        return Err(CommandError::Failed(Reason::Operand));
    };
    if file_words(options).is_empty() {
        return Err(CommandError::Failed(Reason::Operand));
    }
    match Script::read(alloc, text)? {
        Some(script) => Ok(script),
        None => Err(CommandError::Failed(Reason::Operand)),
    }
}

fn script_word(options: &Options) -> Option<&[u8]>
    ensures { option_copied result ≡ sed.script_word options.now }
{
    match options.value(b'e') {
        Some(text) => Some(text),
        None => Some(options.operands().first()?.as_slice()),
    }
}

/// The words that name files.
fn file_words(options: &Options) -> &[Bytes]
    ensures { result.now ≡ sed.file_words options.now }
{
    let operands = options.operands();
    if options.value(b'e').is_some() {
        return operands;
    }
    match operands.split_first() {
        None => operands,
        Some((_, files)) => files,
    }
}

/// The edited texts of files, joined.
fn edited_files<T: TreeOps>(
    alloc: Global,
    world: &World<T>,
    files: &Files,
    script: &Script,
    words: &[Bytes],
) -> Result<Bytes, CommandError>
    requires held { IsHeldWorld T.tree T.sealed world.now }
    ensures { Ran (run (sed.edited_files files.now script.now [] words.now) (world_data T.tree world.now)) result (world_data T.tree world.now) }
{
    let mut output = Bytes {
        items: Vec::new(alloc),
    };
    for word in words {
        let text = edited_file(alloc, world, files, script, word.as_slice())?;
        append(&mut output, text.as_slice())?;
    }
    Ok(output)
}

fn append(output: &mut Bytes, text: &[u8]) -> Result<(), Memory>
    ensures { OnOk result (output.new ≡ output.old ++ text.now) }
{
    Ok(output.items.extend_from_slice(text)?)
}

fn edited_file<T: TreeOps>(
    alloc: Global,
    world: &World<T>,
    files: &Files,
    script: &Script,
    word: &[u8],
) -> Result<Bytes, CommandError>
    requires held { IsHeldWorld T.tree T.sealed world.now }
    ensures { Ran (run (sed.edited_file files.now script.now word.now) (world_data T.tree world.now)) result (world_data T.tree world.now) }
{
    let place = find(alloc, world, files, word, true)?;
    edited_at(alloc, world, files, script, &place)
}

/// The edited text of the file at a place.
fn edited_at<T: TreeOps>(
    alloc: Global,
    world: &World<T>,
    files: &Files,
    script: &Script,
    place: &Spot,
) -> Result<Bytes, CommandError>
    requires held { IsHeldWorld T.tree T.sealed world.now }
    ensures { Ran (run (sed.edited_at script.now (looks.bytes_at (world_data T.tree world.now) files.now place.now) (looks.kind_at (world_data T.tree world.now) files.now place.now)) (world_data T.tree world.now)) result (world_data T.tree world.now) }
{
    match kind_at(world, files, place) {
        None | Some(Kind::Link) => Err(error_of(ChangeFault::Absent)),
        Some(Kind::Dir(_)) => Err(error_of(ChangeFault::IsDir)),
        Some(Kind::File(_)) => Ok(script.edited(alloc, bytes_at(world, files, place))?),
    }
}

/// Edits files in place, one after another.
fn edit_files<T: TreeOps>(
    alloc: Global,
    world: &mut World<T>,
    files: &Files,
    script: &Script,
    words: &[Bytes],
) -> Result<(), CommandError>
    requires held { IsHeldWorld T.tree T.sealed world.old }
    ensures ran { Ran (run (each (sed.edit_file files.now script.now) words.now) (world_data T.tree world.old)) result (world_data T.tree world.new) }
    ensures held { IsHeldWorld T.tree T.sealed world.new }
{
    for word in words {
        edit_file(alloc, world, files, script, word.as_slice())?;
    }
    Ok(())
}

/// Puts a new file, with the edited text and the mode of the file that a word leads to, in the place of the word's own name.
fn edit_file<T: TreeOps>(
    alloc: Global,
    world: &mut World<T>,
    files: &Files,
    script: &Script,
    word: &[u8],
) -> Result<(), CommandError>
    requires held { IsHeldWorld T.tree T.sealed world.old }
    ensures ran { Ran (run (sed.edit_file files.now script.now word.now) (world_data T.tree world.old)) result (world_data T.tree world.new) }
    ensures held { IsHeldWorld T.tree T.sealed world.new }
{
    let operand = read(alloc, world, files, word)?;
    edit_operand(alloc, world, files, script, &operand)
}

/// The same of what was read of a word.
fn edit_operand<T: TreeOps>(
    alloc: Global,
    world: &mut World<T>,
    files: &Files,
    script: &Script,
    operand: &Operand,
) -> Result<(), CommandError>
    requires walk { HasWalk operand.now }
    requires held { IsHeldWorld T.tree T.sealed world.old }
    ensures ran { Ran (run (sed.edit_operand files.now script.now operand.now) (world_data T.tree world.old)) result (world_data T.tree world.new) }
    ensures held { IsHeldWorld T.tree T.sealed world.new }
{
    let source = resolve(alloc, world, operand, true)?;
    let text = edited_at(alloc, world, files, script, &source)?;
    let mode = mode_at(world, &source);
    let place = resolve(alloc, world, operand, false)?;
    replace(alloc, world, &place, mode, text.as_slice())
}

/// Puts a new file in the place of what stands there.
fn replace<T: TreeOps>(
    alloc: Global,
    world: &mut World<T>,
    place: &Spot,
    mode: u16,
    text: &[u8],
) -> Result<(), CommandError>
    requires mode { mode ≤ 4095 }
    requires held { IsHeldWorld T.tree T.sealed world.old }
    ensures ran { Ran (run (sed.replace place.now mode text.now) (world_data T.tree world.old)) result (world_data T.tree world.new) }
    ensures held { IsHeldWorld T.tree T.sealed world.new }
{
    act_in(alloc, world, place.site, Step::Remove(&place.path))?;
    act_in(
        alloc,
        world,
        place.site,
        Step::MakeFile(&place.path, mode, text),
    )
}
