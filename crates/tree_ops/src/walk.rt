//! Where a walk leads in a tree.
//!
//! In a tree with the folder `a` and the link `l` with the text `a`, the walk `l/../a/x` leads to `a/x`, whether something
//! stands there or not. A walk that ends in a slash must end at a folder.
ghost use Rattle.std.specs.Prelude.{◌≡◌, ◌++◌, map, All, Ok, Err, IfOk, OnOk, reverse, false, codes, if◌then◌else◌};
ghost use Rattle.br_path.specs.Path.{Names as names_of, parts};
ghost use Rattle.tree_ops.specs.Tree.{Tree, IsTree, node_at};
ghost use Rattle.tree_ops.specs.Walk.{resolved, IsWalk, Onward, begins_at_root, components, ends_in_slash, steps_of, is_end};
ghost use Rattle.tree_ops.specs.Change.{is_too_long};
ghost use Rattle.tree_ops.specs.declared.change.ChangeFault.TheVariants.{TooLong as too_long, Outside as outside, Memory as no_memory};
ghost use Rattle.br_path.specs.Gives.{Gives};
ghost use Rattle.br_path.specs.Text.{is_text};
ghost use Rattle.tree_ops.specs.Walking.{IsFound, IsStep, IsStepped, HasWalk, IsStopped, IsNamed, refused};

use crate::change::ChangeFault;
use crate::text::{LENGTH_LIMIT, rooted_length};
use br_path::{Bytes, Memory, Path, PathFault, is_text};
use std::alloc::{AllocError, Global};

/// The most links that one walk follows.
const LINK_LIMIT: u32 = 40;

/// How often a walk stops at most: at each link that it follows, and at its end or the link that is one too many.
const STOP_LIMIT: u32 = LINK_LIMIT + 1;

/// What a walk asks of a tree.
pub trait Walked {
    /// The tree that it stands for.
    ghost walked: { Self → Tree };

    /// What stands at the path. It takes no memory.
    fn found(&self, at: &Path) -> Found<'_>
        ensures { IsFound (node_at (walked self.now) at.now) result };
}

/// What a walk finds at a path.
#[derive(Clone, Copy)]
pub enum Found<'a> {
    Nothing,
    Folder,
    /// A link with this text.
    Link(&'a [u8]),
    File,
}

/// Where one step leads.
#[derive(Drop)]
enum Step<'a> {
    /// On to a folder.
    To(Path),
    /// To the walk's end.
    End(Path),
    /// Through a link with this text.
    Through(&'a [u8]),
}

/// Where a walk stops.
#[derive(Drop)]
enum Stop {
    /// At its end.
    End(Path),
    /// In the folder of a link that is followed.
    Link(Path),
}

/// Where a walk leads from the root of a tree. At a last link it goes on only if it is to follow.
///
/// Up to 40 links are followed. Each step takes one look-up.
pub fn resolve<T: Walked>(
    alloc: Global,
    tree: &T,
    walk: &[u8],
    follow: bool,
) -> Result<Path, ChangeFault>
    requires walk { IsWalk walk.now }
    requires sound { IsTree (T.walked tree.now) }
    ensures { Gives no_memory (resolved (T.walked tree.now) walk.now follow) result }
{
    let mut steps = steps_of(alloc, walk)?;
    let mut place = Path::root(alloc);
    for links in 0..STOP_LIMIT {
        match go(alloc, tree, place, &mut steps, follow) {
            Err(fault) => return Err(fault),
            Ok(Stop::End(end)) => return Ok(end),
            Ok(Stop::Link(folder)) => place = folder,
        }
    }
    Err(ChangeFault::Loop)
}

/// Goes on from a folder to the end of the steps, the next of which is the last in the list, or to a link.
fn go<T: Walked>(
    alloc: Global,
    tree: &T,
    from: Path,
    steps: &mut Vec<Bytes>,
    follow: bool,
) -> Result<Stop, ChangeFault>
    requires sound { IsTree (T.walked tree.now) }
    requires steps { All IsStep (reverse steps.old.items) }
    ensures stopped { (onward : Onward) → IsStopped onward (T.walked tree.now) follow from (reverse steps.old.items) result (reverse steps.new.items) }
    ensures steps { OnOk result (All IsStep (reverse steps.new.items)) }
{
    let mut place = from;
    while let Some(name) = steps.pop() {
        match take_step(alloc, tree, &place, name.as_slice(), is_done(steps), follow) {
            Err(fault) => return Err(fault),
            Ok(Step::To(next)) => place = next,
            Ok(Step::End(end)) => return Ok(Stop::End(end)),
            Ok(Step::Through(text)) => {
                put_components(alloc, steps, text)?;
                return Ok(Stop::Link(place));
            }
        }
    }
    Ok(Stop::End(place))
}

/// Whether no step is left.
fn is_done(steps: &Vec<Bytes>) -> bool
    ensures { result ≡ is_end (reverse steps.now.items) }
{
    steps.as_slice().is_empty()
}

/// Takes one step from a folder.
fn take_step<'a, T: Walked>(
    alloc: Global,
    tree: &'a T,
    from: &Path,
    name: &[u8],
    is_last: bool,
    follow: bool,
) -> Result<Step<'a>, ChangeFault>
    requires sound { IsTree (T.walked tree.now) }
    requires step { IsStep name.now }
    ensures stepped { (onward : Onward) (rest : names_of) → is_end rest ≡ is_last → IsStepped onward (T.walked tree.now) follow from.now name.now rest result }
    ensures walk { HasWalk result }
{
    if is_text(name, b".") {
        return Ok(Step::To(from.copy()?));
    }
    if is_text(name, b"..") {
        return match from.parent(alloc)? {
            None => Err(ChangeFault::Outside),
            Some(parent) => Ok(Step::To(parent)),
        };
    }
    let place = named(alloc, from, name)?;
    match tree.found(&place) {
        Found::Nothing => only_last(is_last, place, ChangeFault::Absent),
        Found::Folder => Ok(Step::To(place)),
        Found::File => only_last(is_last, place, ChangeFault::NotDir),
        Found::Link(text) => through(is_last && !follow, place, text),
    }
}

/// The path of a name below a folder, unless it is too long.
fn named(alloc: Global, from: &Path, name: &[u8]) -> Result<Path, ChangeFault>
    requires step { IsStep name.now }
    requires here { is_text name.now (codes ".") ≡ false }
    requires above { is_text name.now (codes "..") ≡ false }
    ensures { IsNamed from.now name.now result }
{
    match from.child(alloc, name) {
        Err(fault) => Err(refused(fault)),
        Ok(place) => fitting(place),
    }
}

/// What refuses the name of a step: of the faults of a name it can only be too long.
fn refused(fault: PathFault) -> ChangeFault
    ensures { result ≡ refused fault }
{
    match fault {
        PathFault::Memory => ChangeFault::Memory,
        _ => ChangeFault::TooLong,
    }
}

/// The path, unless its text is too long for a tree.
fn fitting(place: Path) -> Result<Path, ChangeFault>
    ensures { result ≡ (if is_too_long place then Err too_long else Ok place) }
{
    if rooted_length(&place) > LENGTH_LIMIT {
        return Err(ChangeFault::TooLong);
    }
    Ok(place)
}

/// The end of a walk at a place that only its last name may lead to.
fn only_last<'a>(is_last: bool, place: Path, fault: ChangeFault) -> Result<Step<'a>, ChangeFault>
    ensures { result ≡ (if is_last then Ok (Step.End place) else Err fault) }
{
    if is_last {
        return Ok(Step::End(place));
    }
    Err(fault)
}

/// The end of a walk at a link, or through it.
fn through<'a>(stays: bool, place: Path, text: &'a [u8]) -> Result<Step<'a>, ChangeFault>
    ensures { result ≡ (if stays then Ok (Step.End place) else if begins_at_root text.now then Err outside else Ok (Step.Through text.entry)) }
{
    if stays {
        return Ok(Step::End(place));
    }
    if text.starts_with(b"/") {
        return Err(ChangeFault::Outside);
    }
    Ok(Step::Through(text))
}

/// The steps of a walk, the first of them last.
fn steps_of(alloc: Global, walk: &[u8]) -> Result<Vec<Bytes>, Memory>
    ensures { IfOk result (λ steps. reverse steps.items ≡ steps_of walk.now) }
{
    let mut steps = Vec::new(alloc);
    if ends_in_slash(walk) {
        steps.push(Bytes::from_slice(alloc, b".")?)?;
    }
    put_components(alloc, &mut steps, walk)?;
    Ok(steps)
}

fn ends_in_slash(walk: &[u8]) -> bool
    ensures { result ≡ ends_in_slash walk.now }
{
    match walk.split_last() {
        None => false,
        Some((last, _)) => *last == b'/',
    }
}

/// Puts the components of a text before the steps that are left.
fn put_components(alloc: Global, steps: &mut Vec<Bytes>, text: &[u8]) -> Result<(), Memory>
    ensures { OnOk result (reverse steps.new.items ≡ components text.now ++ reverse steps.old.items) }
{
    let mut parts = parts(alloc, text)?;
    while let Some(part) = parts.pop() {
        if !part.is_empty() {
            steps.push(Bytes::from_slice(alloc, part)?)?;
        }
    }
    Ok(())
}

/// The parts of a text between its slashes.
fn parts(alloc: Global, text: &[u8]) -> Result<Vec<&[u8]>, AllocError>
    ensures { IfOk result (λ all. map (λ part. part.now) all.items ≡ parts text.now) }
{
    text.split(|byte| *byte == b'/').collect(alloc)
}
