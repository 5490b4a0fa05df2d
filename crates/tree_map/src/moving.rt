//! Names that move.
ghost use Rattle.std.specs.Prelude.{◌≡◌, ◌&&◌, ◌++◌, ◌∷◌, ◌⊎◌, [], OnOk, OnErr, IfOk, IfErr, true, false, map};
ghost use Rattle.std.specs.BTreeMap.{IsOrdered};
ghost use Rattle.std.specs.FinMap as fin;
ghost use Rattle.std.specs.FinMap.Entries.{where_key};
ghost use Rattle.std.specs.List.{list_any};
ghost use Rattle.br_path.specs.Path.{Names, path_cmp};
ghost use Rattle.tree_ops.specs.declared.change.ChangeFault.TheVariants.{TooLong as too_long, Memory as no_memory};
ghost use Rattle.tree_ops.specs.Change.{is_at_or_below, is_below, is_path, is_too_long, moved_path};
ghost use Rattle.tree_map.specs.Moving.{move_of, moves_below};
ghost use Rattle.tree_map.specs.Parts.{leads_too_far};

use crate::names::NameTable;
use crate::paths::{is_below, leads_too_far, moved_path};
use br_path::{Memory, Path};
use std::alloc::Global;
use std::collections::BTreeMap;
use std::ops::Bound;
use tree_ops::{ChangeFault, Node};

/// Where a name stands, and where it will.
#[derive(Drop)]
pub(crate) struct Move {
    pub(crate) from: Path,
    pub(crate) to: Path,
}

impl NameTable {
    ghost use Rattle.tree_map.specs.Moving.{with_copy, with_copies, without_paths, is_taken, carried};

    /// Puts what stands at one path at another too. After a refusal nothing is changed.
    fn put_copy(&mut self, from: &Path, to: &Path) -> Result<(), Memory>
        ensures ok { OnOk result (self.new ≡ with_copy self.old from.now to.now) }
        ensures err { OnErr result (self.new ≡ self.old) }
    {
        let node = match self.get(from) {
            None => return Ok(()),
            Some(node) => node.copy()?,
        };
        self.insert(to.copy()?, node)
    }

    /// Puts what moves where it moves to as well. After a refusal nothing is changed at other paths.
    fn put_copies(&mut self, moves: &[Move]) -> Result<(), Memory>
        ensures ok { OnOk result (self.new ≡ with_copies moves.now self.old) }
        ensures others { (q : Names) → list_any (λ one. is_path one.to q) moves.now ≡ false → fin.get self.new q ≡ fin.get self.old q }
    {
        for one in moves {
            self.put_copy(&one.from, &one.to)?;
        }
        Ok(())
    }

    /// Takes away what stands where they come from.
    fn take_sources(&mut self, moves: &[Move])
        ensures { self.new ≡ without_paths (map (λ one. one.from) moves.now) self.old }
    {
        for one in moves {
            self.remove(&one.from);
        }
    }

    /// Takes away what stands where they move to.
    fn take_targets(&mut self, moves: &[Move])
        ensures { self.new ≡ without_paths (map (λ one. one.to) moves.now) self.old }
    {
        for one in moves {
            self.remove(&one.to);
        }
    }

    fn put_moved(&mut self, old: &Path, at: &Path, moves: &[Move]) -> Result<(), Memory>
        ensures ok { OnOk result (self.new ≡ with_copy (with_copies moves.now self.old) old.now at.now) }
        ensures others { OnErr result ((q : Names) → list_any (λ one. is_path one.to q) moves.now ≡ false → fin.get self.new q ≡ fin.get self.old q) }
    {
        self.put_copies(moves)?;
        self.put_copy(old, at)
    }

    /// Carries a name to another path, in place of what stood there, and with it what moves along. After a refusal
    /// nothing is changed.
    pub(crate) fn carry(&mut self, old: &Path, at: &Path, moves: &[Move]) -> Result<(), Memory>
        requires { is_taken self.old moves.now ≡ false }
        ensures ok { OnOk result (self.new ≡ carried old.now at.now moves.now self.old) }
        ensures err { OnErr result (self.new ≡ self.old) }
    {
        if let Err(memory) = self.put_moved(old, at, moves) {
            self.take_targets(moves);
            return Err(memory);
        }
        self.remove(old);
        self.take_sources(moves);
        Ok(())
    }
}

/// Adds where a path moves to with another.
fn push_move(
    moves: &mut Vec<Move>,
    alloc: Global,
    old: &Path,
    at: &Path,
    path: &Path,
) -> Result<(), Memory>
    requires { (is_at_or_below old.now path.now && is_too_long (moved_path old.now at.now path.now)) ≡ false }
    ensures { OnOk result (moves.new.items ≡ moves.old.items ++ move_of old.now at.now path.now ∷ []) }
{
    let to = moved_path(alloc, old, at, path)?;
    let from = path.copy()?;
    moves.push(Move { from, to })?;
    Ok(())
}

/// Where each name below a path moves to with it. The time is that of a look-up, and of one step for each of them.
pub(crate) fn moves_listed(
    alloc: Global,
    names: &BTreeMap<Path, Node>,
    old: &Path,
    at: &Path,
) -> Result<Vec<Move>, ChangeFault>
    ensures ok { IfOk result (λ moves. (list_any (leads_too_far old.now at.now) (where_key path_cmp (is_below old.now) names.now.entries) ≡ false) × (moves.items ≡ moves_below old.now at.now names.now.entries)) }
    ensures err { IfErr result (λ fault. (fault ≡ no_memory) ⊎ ((fault ≡ too_long) × (list_any (leads_too_far old.now at.now) (where_key path_cmp (is_below old.now) names.now.entries) ≡ true))) }
    ensures ordered { IsOrdered path_cmp names.now }
{
    let mut moves = Vec::new(alloc);
    for (path, _) in names.range((Bound::Excluded(old), Bound::Unbounded)) {
        if !is_below(old, path) {
            break;
        }
        if leads_too_far(old, at, path) {
            return Err(ChangeFault::TooLong);
        }
        push_move(&mut moves, alloc, old, at, path)?;
    }
    Ok(moves)
}
