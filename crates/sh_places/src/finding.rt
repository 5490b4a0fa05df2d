//! Where a word of a command leads.
ghost use Rattle.std.specs.Prelude.{◌≡◌, ◌≤◌, ◌++◌, ◌∷◌, [], length, map, All, IfOk, Ok, Err, if◌then◌else◌};
ghost use Rattle.tree_ops.specs.Change.{is_too_long};
ghost use Rattle.tree_ops.specs.declared.change.ChangeFault.TheVariants.{TooLong as too_long};
ghost use Rattle.tree_worlds.specs.declared.reason.CommandError.TheVariants.{Failed};
ghost use Rattle.tree_worlds.specs.declared.reason.Reason.TheVariants.{Change as for_change};
ghost use Rattle.tree_ops.specs.Walk.{IsWalk, components};
ghost use Rattle.br_path.specs.Path.{IsPath, parts as parts_of, rooted_text, is_name_byte};
ghost use Rattle.tree_worlds.specs.World.{world_data};
ghost use Rattle.tree_worlds.specs.Program.{run, Ran};
ghost use Rattle.tree_worlds.specs.HeldWorld.{IsHeldWorld};
ghost use Rattle.tree_worlds.specs.HeldWorld.{error_of as error_of_fault};
ghost use Rattle.tree_ops.specs.Walking.{refused};
ghost use Rattle.sh_places.specs.Finding as finding;
ghost use Rattle.sh_places.specs.Finding.{HasWalk};
ghost use Rattle.br_path.specs.Gives.{Gives};
ghost use Rattle.sh_places.specs.Parts.{told};
ghost use Rattle.tree_worlds.specs.declared.reason.CommandError.TheVariants.{Memory as no_memory};
ghost use Rattle.sh_places.specs.Parts as parts;

use crate::looks::tree_of;
use crate::spot::{Site, Spot};
use br_path::{Bytes, Files, Memory, Names, Path, PathFault};
use std::alloc::{AllocError, Global};
use tree_ops::{ChangeFault, LENGTH_LIMIT, TreeOps, rooted_length};
use tree_worlds::{CommandError, Operand, World, error_of};

/// What a word is an operand of.
pub fn read<T: TreeOps>(
    alloc: Global,
    world: &World<T>,
    files: &Files,
    word: &[u8],
) -> Result<Operand, CommandError>
    requires held { IsHeldWorld T.tree T.sealed world.now }
    ensures ran { Ran (run (parts.read files.now word.now) (world_data T.tree world.now)) result (world_data T.tree world.now) }
    ensures walk { IfOk result HasWalk }
{
    world.operand(alloc, files, word)
}

/// The place that a word names. At a last link its walk goes on only if it is to follow.
pub fn find<T: TreeOps>(
    alloc: Global,
    world: &World<T>,
    files: &Files,
    word: &[u8],
    follow: bool,
) -> Result<Spot, CommandError>
    requires held { IsHeldWorld T.tree T.sealed world.now }
    ensures { Ran (run (parts.find files.now word.now follow) (world_data T.tree world.now)) result (world_data T.tree world.now) }
{
    let operand = read(alloc, world, files, word)?;
    resolve(alloc, world, &operand, follow)
}

/// The place of an operand, likewise.
pub fn resolve<T: TreeOps>(
    alloc: Global,
    world: &World<T>,
    operand: &Operand,
    follow: bool,
) -> Result<Spot, CommandError>
    requires walk { HasWalk operand.now }
    requires held { IsHeldWorld T.tree T.sealed world.now }
    ensures { Ran (run (parts.resolve operand.now follow) (world_data T.tree world.now)) result (world_data T.tree world.now) }
{
    match operand {
        Operand::Input(path) => Ok(Spot {
            site: Site::Input,
            path: path.copy()?,
        }),
        Operand::Place { area, walk } => walk_in(
            alloc,
            world,
            Site::Tree(*area),
            walk.as_slice(),
            follow,
        ),
        Operand::Readable { task, walk } => walk_in(
            alloc,
            world,
            Site::Readable(*task),
            walk.as_slice(),
            follow,
        ),
    }
}

/// The place to which a walk leads in the tree of a site.
pub fn walk_in<T: TreeOps>(
    alloc: Global,
    world: &World<T>,
    site: Site,
    walk: &[u8],
    follow: bool,
) -> Result<Spot, CommandError>
    requires walk { IsWalk walk.now }
    requires held { IsHeldWorld T.tree T.sealed world.now }
    ensures { Ran (run (parts.walk site walk.now follow) (world_data T.tree world.now)) result (world_data T.tree world.now) }
{
    match tree_of(world, site) {
        None => Err(error_of(ChangeFault::Outside)),
        Some(tree) => match tree.resolve(alloc, walk, follow) {
            Ok(path) => Ok(Spot { site, path }),
            Err(fault) => Err(error_of(fault)),
        },
    }
}

/// The place of a name in a folder.
pub fn place_below(alloc: Global, folder: &Spot, name: &[u8]) -> Result<Spot, CommandError>
    requires name { finding.IsStep name.now }
    ensures { Gives no_memory (told (finding.place_below folder.now name.now)) result }
{
    match folder.path.child(alloc, name) {
        Ok(path) => fitting(Spot {
            site: folder.site,
            path,
        }),
        Err(fault) => Err(refused(fault)),
    }
}

/// What refuses a name: of the faults of a name it can only be too long.
fn refused(fault: PathFault) -> CommandError
    ensures { result ≡ error_of_fault (refused fault) }
{
    match fault {
        PathFault::Memory => CommandError::Memory,
        _ => error_of(ChangeFault::TooLong),
    }
}

/// The place, unless its path's text is too long for a tree.
fn fitting(place: Spot) -> Result<Spot, CommandError>
    ensures { result ≡ (if is_too_long place.path then Err (Failed (for_change too_long)) else Ok place) }
{
    if rooted_length(&place.path) > LENGTH_LIMIT {
        return Err(error_of(ChangeFault::TooLong));
    }
    Ok(place)
}

/// Whether a name may have this byte.
pub fn is_name_byte(byte: u8) -> bool
    ensures { result ≡ is_name_byte byte }
{
    b' ' <= byte && byte <= b'~' && byte != b'/'
}

/// The components of a walk or of a word: its parts between slashes, empty ones left out.
pub fn components(alloc: Global, text: &[u8]) -> Result<Names, Memory>
    ensures names { IfOk result (λ names. names ≡ components text.now) }
    ensures filled { IfOk result (λ names. All (λ name. 1 ≤ length name) names) }
    ensures walks { IsWalk text.now → IfOk result (λ names. All IsWalk names) }
{
    let mut parts = parts(alloc, text)?;
    let mut names = Vec::new(alloc);
    while let Some(part) = parts.pop() {
        if !part.is_empty() {
            names.push(Bytes::from_slice(alloc, part)?)?;
        }
    }
    names.reverse();
    Ok(Names { items: names })
}

/// The parts of a text between its slashes.
fn parts(alloc: Global, text: &[u8]) -> Result<Vec<&[u8]>, AllocError>
    ensures { IfOk result (λ all. map (λ part. part.now) all.items ≡ parts_of text.now) }
{
    text.split(|byte| *byte == b'/').collect(alloc)
}

/// The place of an entry of a folder.
pub fn entry_of(alloc: Global, folder: &Spot, name: &[u8]) -> Result<Spot, Memory>
    requires path { IsPath (folder.now.path ++ name.now ∷ []) }
    ensures { IfOk result (λ entry. entry ≡ finding.spot folder.now.site (folder.now.path ++ name.now ∷ [])) }
{
    match folder.path.child(alloc, name) {
        Ok(path) => Ok(Spot {
            site: folder.site,
            path,
        }),
        Err(_) => Err(Memory),
    }
}

/// The walk from the root to a path: its names, each after a slash.
pub fn rooted_walk(alloc: Global, path: &Path) -> Result<Bytes, Memory>
    ensures walk { IfOk result (λ walk. walk ≡ rooted_text path.now) }
    ensures bytes { IfOk result IsWalk }
{
    let mut walk = Vec::new(alloc);
    for name in path.names() {
        walk.push(b'/')?;
        walk.extend_from_slice(name.as_slice())?;
    }
    Ok(Bytes { items: walk })
}
