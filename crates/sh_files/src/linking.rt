//! ln.
ghost use Rattle.std.specs.Prelude.{◌≡◌, ◌==◌, ◌||◌, false, IfOk, Some};
ghost use Rattle.std.specs.List.{list_all};
ghost use Rattle.br_path.specs.Path.{is_name_byte as name_byte};
ghost use Rattle.tree_ops.specs.Tree.{IsLinkText};
ghost use Rattle.sh_places.specs.Parts.{attempt, act_in as act};
ghost use Rattle.tree_worlds.specs.World.{WorldData, world_data};
ghost use Rattle.tree_worlds.specs.Program.{run, Ran};
ghost use Rattle.tree_worlds.specs.HeldWorld.{IsHeldWorld};
ghost use Rattle.sh_places.specs.Finding.{HasWalk, spot_of};
ghost use Rattle.sh_places.specs.declared.kind.Kind.TheVariants.{Link as link_kind};
ghost use Rattle.sh_files.specs.Goals.{IsBase};
ghost use Rattle.sh_files.specs.Linking as linking;

use crate::folders::but_last;
use crate::goal::{Goal, base_for, folder_there, last_of, place_for};
use crate::install::is_source;
use crate::room::{is_link, make_room};
use br_path::{Bytes, Files, Memory};
use sh_places::{
    Kind, Site, Spot, act_in, find, is_area, is_name_byte, kind_at, read, resolve, text_at,
};
use std::alloc::Global;
use tree_ops::{ChangeFault, TreeOps};
use tree_worlds::{CommandError, Operand, Reason, Step, World, error_of};

/// What the options of ln say.
#[derive(Clone, Copy)]
pub(crate) struct Choices {
    /// `f`: a file or link at the place makes room.
    pub(crate) force: bool,
    /// `n`: a last operand that is a link is no folder, wherever it leads.
    pub(crate) itself: bool,
    /// `s`: symbolic links.
    pub(crate) symbolic: bool,
}

/// Makes a name or link for each source.
pub(crate) fn ln<T: TreeOps>(
    alloc: Global,
    world: &mut World<T>,
    files: &Files,
    choices: Choices,
    operands: &[Bytes],
) -> Result<(), CommandError>
    requires held { IsHeldWorld T.tree T.sealed world.old }
    ensures ran { Ran (run (linking.ln files.now choices.force choices.itself choices.symbolic operands.now) (world_data T.tree world.old)) result (world_data T.tree world.new) }
    ensures held { IsHeldWorld T.tree T.sealed world.new }
{
    match last_of(operands) {
        None => Err(CommandError::Failed(Reason::Operand)),
        Some(word) => link_to(
            alloc,
            world,
            files,
            choices,
            but_last(operands),
            word.as_slice(),
        ),
    }
}

/// Links sources, of which there must be some, at the goal that a word names.
fn link_to<T: TreeOps>(
    alloc: Global,
    world: &mut World<T>,
    files: &Files,
    choices: Choices,
    sources: &[Bytes],
    word: &[u8],
) -> Result<(), CommandError>
    requires held { IsHeldWorld T.tree T.sealed world.old }
    ensures ran { Ran (run (linking.link_to files.now choices.force choices.itself choices.symbolic sources.now (Some word.now)) (world_data T.tree world.old)) result (world_data T.tree world.new) }
    ensures held { IsHeldWorld T.tree T.sealed world.new }
{
    if sources.is_empty() {
        return Err(CommandError::Failed(Reason::Operand));
    }
    link_all(alloc, world, files, choices, sources, word)
}

fn link_all<T: TreeOps>(
    alloc: Global,
    world: &mut World<T>,
    files: &Files,
    choices: Choices,
    sources: &[Bytes],
    word: &[u8],
) -> Result<(), CommandError>
    requires held { IsHeldWorld T.tree T.sealed world.old }
    ensures ran { Ran (run (linking.link_all files.now choices.force choices.itself choices.symbolic sources.now word.now) (world_data T.tree world.old)) result (world_data T.tree world.new) }
    ensures held { IsHeldWorld T.tree T.sealed world.new }
{
    let goal = link_goal(alloc, world, files, choices.itself, sources.len(), word)?;
    link_each(alloc, world, files, choices, sources, &goal)
}

/// Into the folder to which the last operand leads; else onto its place, if there is one source alone.
fn link_goal<T: TreeOps>(
    alloc: Global,
    world: &World<T>,
    files: &Files,
    itself: bool,
    sources: usize,
    word: &[u8],
) -> Result<Goal, CommandError>
    requires held { IsHeldWorld T.tree T.sealed world.now }
    ensures { Ran (run (linking.link_goal files.now itself sources word.now) (world_data T.tree world.now)) result (world_data T.tree world.now) }
{
    let operand = read(alloc, world, files, word)?;
    match link_folder(alloc, world, files, itself, &operand)? {
        Some(folder) => Ok(Goal::Into(folder)),
        None if 2 <= sources => Err(CommandError::Failed(Reason::Operand)),
        None => {
            let place = resolve(alloc, world, &operand, false)?;
            Ok(Goal::Onto(place))
        }
    }
}

/// The folder to which an operand leads. With `itself` a link leads to none.
fn link_folder<T: TreeOps>(
    alloc: Global,
    world: &World<T>,
    files: &Files,
    itself: bool,
    operand: &Operand,
) -> Result<Option<Spot>, Memory>
    requires walk { HasWalk operand.now }
    requires held { IsHeldWorld T.tree T.sealed world.now }
    ensures { IfOk result (λ folder. folder ≡ linking.link_folder (world_data T.tree world.now) files.now itself operand.now) }
{
    if itself && is_link_there(alloc, world, files, operand)? {
        return Ok(None);
    }
    folder_there(alloc, world, files, operand)
}

/// Whether an operand is a link itself.
fn is_link_there<T: TreeOps>(
    alloc: Global,
    world: &World<T>,
    files: &Files,
    operand: &Operand,
) -> Result<bool, Memory>
    requires walk { HasWalk operand.now }
    requires held { IsHeldWorld T.tree T.sealed world.now }
    ensures { IfOk result (λ there. there ≡ linking.link_there (world_data T.tree world.now) files.now (spot_of (world_data T.tree world.now) false operand.now)) }
{
    match resolve(alloc, world, operand, false) {
        Ok(place) => Ok(is_link(kind_at(world, files, &place))),
        Err(CommandError::Memory) => Err(Memory),
        Err(CommandError::Failed(_)) => Ok(false),
    }
}

fn link_each<T: TreeOps>(
    alloc: Global,
    world: &mut World<T>,
    files: &Files,
    choices: Choices,
    sources: &[Bytes],
    goal: &Goal,
) -> Result<(), CommandError>
    requires held { IsHeldWorld T.tree T.sealed world.old }
    ensures ran { Ran (run (linking.link_each files.now choices.symbolic choices.force sources.now goal.now) (world_data T.tree world.old)) result (world_data T.tree world.new) }
    ensures held { IsHeldWorld T.tree T.sealed world.new }
{
    for word in sources {
        link_one(alloc, world, files, choices, goal, word.as_slice())?;
    }
    Ok(())
}

fn link_one<T: TreeOps>(
    alloc: Global,
    world: &mut World<T>,
    files: &Files,
    choices: Choices,
    goal: &Goal,
    word: &[u8],
) -> Result<(), CommandError>
    requires held { IsHeldWorld T.tree T.sealed world.old }
    ensures ran { Ran (run (linking.link_one files.now choices.symbolic choices.force goal.now word.now) (world_data T.tree world.old)) result (world_data T.tree world.new) }
    ensures held { IsHeldWorld T.tree T.sealed world.new }
{
    if choices.symbolic {
        link_to_text(alloc, world, files, choices.force, goal, word)
    } else {
        link_source(alloc, world, files, choices.force, goal, word)
    }
}

/// Makes one more name of a file, or a link with the text of a link.
fn link_source<T: TreeOps>(
    alloc: Global,
    world: &mut World<T>,
    files: &Files,
    force: bool,
    goal: &Goal,
    word: &[u8],
) -> Result<(), CommandError>
    requires held { IsHeldWorld T.tree T.sealed world.old }
    ensures ran { Ran (run (linking.link_source files.now force goal.now word.now) (world_data T.tree world.old)) result (world_data T.tree world.new) }
    ensures held { IsHeldWorld T.tree T.sealed world.new }
{
    let base = base_for(alloc, goal, word)?;
    let source = find(alloc, world, files, word, false)?;
    link_from(alloc, world, files, force, goal, base.as_slice(), &source)
}

fn link_from<T: TreeOps>(
    alloc: Global,
    world: &mut World<T>,
    files: &Files,
    force: bool,
    goal: &Goal,
    base: &[u8],
    source: &Spot,
) -> Result<(), CommandError>
    requires base { IsBase goal.now base.now }
    requires held { IsHeldWorld T.tree T.sealed world.old }
    ensures ran { Ran (run (linking.link_from files.now force goal.now base.now source.now) (world_data T.tree world.old)) result (world_data T.tree world.new) }
    ensures held { IsHeldWorld T.tree T.sealed world.new }
{
    let kind = linkable(kind_at(world, files, source))?;
    let place = place_within(alloc, source.site, goal, base)?;
    let text = Bytes::from_slice(alloc, text_at(world, source))?;
    let there = kind_at(world, files, &place);
    let same = is_same(source, kind, &place, there);
    clear(alloc, world, force, same, &place, there)?;
    put_name(alloc, world, source, text.as_slice(), &place, kind)
}

/// Makes a link with a text, where the source is a link; else one more name of the source.
fn put_name<T: TreeOps>(
    alloc: Global,
    world: &mut World<T>,
    source: &Spot,
    text: &[u8],
    place: &Spot,
    kind: Kind,
) -> Result<(), CommandError>
    requires text { kind ≡ link_kind → IsLinkText text.now }
    requires held { IsHeldWorld T.tree T.sealed world.old }
    ensures ran { Ran (run (act place.now.site (linking.name_of source.now text.now place.now kind)) (world_data T.tree world.old)) result (world_data T.tree world.new) }
    ensures held { IsHeldWorld T.tree T.sealed world.new }
{
    match kind {
        Kind::Link => act_in(alloc, world, place.site, Step::MakeLink(&place.path, text)),
        _ => act_in(
            alloc,
            world,
            place.site,
            Step::AddName(&source.path, &place.path),
        ),
    }
}

/// Makes a link with a word as its text.
fn link_to_text<T: TreeOps>(
    alloc: Global,
    world: &mut World<T>,
    files: &Files,
    force: bool,
    goal: &Goal,
    word: &[u8],
) -> Result<(), CommandError>
    requires held { IsHeldWorld T.tree T.sealed world.old }
    ensures ran { Ran (run (linking.link_to_text files.now force goal.now word.now) (world_data T.tree world.old)) result (world_data T.tree world.new) }
    ensures held { IsHeldWorld T.tree T.sealed world.new }
{
    let base = base_for(alloc, goal, word)?;
    link_text(word)?;
    let place = place_for(alloc, goal, base.as_slice())?;
    put_link(alloc, world, files, force, word, &place)
}

/// Makes a link in the room of what stands at its place.
fn put_link<T: TreeOps>(
    alloc: Global,
    world: &mut World<T>,
    files: &Files,
    force: bool,
    text: &[u8],
    place: &Spot,
) -> Result<(), CommandError>
    requires text { IsLinkText text.now }
    requires held { IsHeldWorld T.tree T.sealed world.old }
    ensures ran { Ran (run (linking.put_link files.now force text.now place.now) (world_data T.tree world.old)) result (world_data T.tree world.new) }
    ensures held { IsHeldWorld T.tree T.sealed world.new }
{
    let there = kind_at(world, files, place);
    clear(alloc, world, force, false, place, there)?;
    act_in(alloc, world, place.site, Step::MakeLink(&place.path, text))
}

/// Refuses a place at which something stands. With `force` a file or link there is taken away, if it isn't the source itself.
fn clear<T: TreeOps>(
    alloc: Global,
    world: &mut World<T>,
    force: bool,
    is_same: bool,
    place: &Spot,
    there: Option<Kind>,
) -> Result<(), CommandError>
    requires held { IsHeldWorld T.tree T.sealed world.old }
    ensures ran { Ran (run (linking.clear force is_same place.now there) (world_data T.tree world.old)) result (world_data T.tree world.new) }
    ensures held { IsHeldWorld T.tree T.sealed world.new }
{
    match there {
        None => Ok(()),
        Some(_) if !force => Err(error_of(ChangeFault::Present)),
        Some(_) if is_same => Err(CommandError::Failed(Reason::Same)),
        there => make_room(alloc, world, place, there),
    }
}

/// What can get one more name.
fn linkable(kind: Option<Kind>) -> Result<Kind, CommandError>
    ensures ran { (world : WorldData) → Ran (run (attempt (linking.linkable kind)) world) result world }
    ensures kind { IfOk result (λ given. kind ≡ Some given) }
{
    match kind {
        None => Err(error_of(ChangeFault::Absent)),
        Some(Kind::Dir(_)) => Err(error_of(ChangeFault::IsDir)),
        Some(kind) => Ok(kind),
    }
}

fn is_same(source: &Spot, kind: Kind, place: &Spot, there: Option<Kind>) -> bool
    ensures { result ≡ linking.is_same source.now kind place.now there }
{
    match kind {
        Kind::File(label) => is_source(source, label, place, there),
        _ => false,
    }
}

/// Refuses a word that can't be the text of a link.
fn link_text(word: &[u8]) -> Result<(), CommandError>
    ensures ran { (world : WorldData) → Ran (run (attempt (linking.link_text word.now)) world) result world }
    ensures text { IfOk result (λ _. IsLinkText word.now) }
{
    if is_link_text(word) {
        return Ok(());
    }
    Err(CommandError::Failed(Reason::Operand))
}

fn is_link_text(word: &[u8]) -> bool
    ensures { result ≡ linking.is_link_text word.now }
{
    1 <= word.len() && word.len() <= 1024 && has_walk_bytes(word)
}

fn has_walk_bytes(word: &[u8]) -> bool
    ensures { result ≡ list_all (λ byte. byte == 47 || name_byte byte) word.now }
{
    word.iter().all(|byte| *byte == b'/' || is_name_byte(*byte))
}

/// The place of a source at its goal, which must be in one tree with it.
pub(crate) fn place_within(
    alloc: Global,
    site: Site,
    goal: &Goal,
    base: &[u8],
) -> Result<Spot, CommandError>
    requires base { IsBase goal.now base.now }
    ensures { (world : WorldData) → Ran (run (linking.place_within site goal.now base.now) world) result world }
{
    within(site, goal)?;
    place_for(alloc, goal, base)
}

/// Refuses a goal in another tree, and sources that no tree of the task holds.
fn within(site: Site, goal: &Goal) -> Result<(), CommandError>
    ensures { (world : WorldData) → Ran (run (attempt (linking.within site goal.now)) world) result world }
{
    match (site, goal.place().site) {
        (Site::Tree(area), Site::Tree(other)) if !is_area(area, other) => Err(error_of(
            ChangeFault::Crosses,
        )),
        (Site::Tree(_), _) => Ok(()),
        _ => Err(error_of(ChangeFault::Crosses)),
    }
}
