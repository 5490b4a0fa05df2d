//! Which path stands below another, and where moves lead.
ghost use Rattle.std.specs.Prelude.{◌≡◌, IfOk, true, false, ◌&&◌, [], ◌∷◌, ◌++◌, replicate};
ghost use Rattle.std.specs.BTreeMap.Range.{IsLeBy};
ghost use Rattle.br_path.specs.Path.{Names, IsPath, StartsWith, path_cmp};
ghost use Rattle.tree_ops.specs.Change.{is_path, is_below, is_at_or_below, is_too_long, moved_path};
ghost use Rattle.tree_map.specs.NameTable.{IsBehind};
ghost use Rattle.tree_map.specs.Parts.{IsChildName};

use br_path::{Bytes, Memory, Path};
use std::alloc::Global;
use tree_ops::{LENGTH_LIMIT, rooted_length};

/// Whether they are one path.
pub(crate) fn is_path(one: &Path, other: &Path) -> bool
    ensures { result ≡ is_path one.now other.now }
{
    one == other
}

/// Whether the path is the head, or stands below it.
pub(crate) fn is_at_or_below(head: &Path, path: &Path) -> bool
    ensures { result ≡ is_at_or_below head.now path.now }
{
    path.starts_with(head)
}

/// Whether the path stands below the head.
pub(crate) fn is_below(head: &Path, path: &Path) -> bool
    ensures { result ≡ is_below head.now path.now }
{
    head.names().len() < path.names().len() && path.starts_with(head)
}

/// Whether a move makes the path's text too long.
#[tactic(auto, using(crate::proofs::Moves::too_far))]
pub(crate) fn leads_too_far(old: &Path, at: &Path, path: &Path) -> bool
    ensures { result ≡ (is_at_or_below old.now path.now && is_too_long (moved_path old.now at.now path.now)) }
{
    if !is_at_or_below(old, path) {
        return false;
    }
    rooted_length(path) + rooted_length(at) > LENGTH_LIMIT + rooted_length(old)
}

/// Where a move leads to from the path.
pub(crate) fn moved_path(alloc: Global, old: &Path, at: &Path, path: &Path) -> Result<Path, Memory>
    requires { (is_at_or_below old.now path.now && is_too_long (moved_path old.now at.now path.now)) ≡ false }
    ensures { IfOk result (λ p. p ≡ moved_path old.now at.now path.now) }
{
    if is_at_or_below(old, path) {
        return path.with_head(alloc, old.names().len(), at);
    }
    path.copy()
}

/// The name of a path that stands directly below another.
pub(crate) fn child_name<'a>(at: &Path, path: &'a Path) -> Option<&'a Bytes>
    ensures { IsChildName at.now path.now result }
{
    match path.names().split_last() {
        None => None,
        Some((name, folder)) => {
            if are_same(at.names(), folder) {
                return Some(name);
            }
            None
        }
    }
}

fn are_same(names: &[Bytes], others: &[Bytes]) -> bool
    ensures { result ≡ is_path names.now others.now }
{
    names == others
}

/// The path of a name below another one, so many times `~`.
fn with_tildes(alloc: Global, path: &Path, count: usize) -> Result<Path, Memory>
    ensures { IfOk result (λ p. p ≡ path.now ++ replicate count 126 ∷ []) }
{
    let name = vec![in alloc; b'~'; count]?;
    match path.child(alloc, name.as_slice()) {
        Ok(child) => Ok(child),
        // The callers leave it no other fault.
        Err(_) => Err(Memory),
    }
}

/// The greatest path that can stand at or below a head: it goes on with names of the greatest byte, as long as they can
/// be.
pub(crate) fn last_below(alloc: Global, head: &Path) -> Result<Path, Memory>
    ensures below { IfOk result (λ last. StartsWith last head.now) }
    ensures greatest { IfOk result (λ last. (q : Names) → IsPath q → StartsWith q head.now → IsLeBy path_cmp q last) }
{
    let mut last = head.copy()?;
    while rooted_length(&last) < LENGTH_LIMIT {
        let room = LENGTH_LIMIT - rooted_length(&last);
        last = with_tildes(alloc, &last, room.min(255))?;
    }
    Ok(last)
}

/// Where to go on past a path that stands below another, for the names directly below that one: after all that stands
/// at or below the same one of them.
pub(crate) fn behind(alloc: Global, at: &Path, path: &Path) -> Result<Path, Memory>
    requires { is_below at.now path.now ≡ true }
    ensures { IfOk result (IsBehind at.now path.now) }
{
    let depth = at.names().len() + 1;
    if path.names().len() == depth {
        return path.copy();
    }
    last_below(alloc, &path.prefix(alloc, depth)?)
}
