//! One step on one tree.
ghost use Rattle.std.specs.Prelude.{◌≡◌, ◌≤◌};
ghost use Rattle.tree_ops.specs.Change.{IsChange};
ghost use Rattle.tree_ops.specs.Pen.{counts_of};
ghost use Rattle.tree_ops.specs.Held.{IsHeld};
ghost use Rattle.tree_worlds.specs.Steps.{change_of, IsModest};

use crate::step::Step;
use std::alloc::Global;
use tree_ops::{ChangeFault, Pen, TreeOps};

/// Changes a tree by a step.
pub fn apply<T: TreeOps>(
    alloc: Global,
    tree: &mut T,
    step: Step<'_>,
    pen: &mut Pen,
) -> Result<(), ChangeFault>
    requires modest { IsModest step }
    requires held { IsHeld (T.tree tree.old) (T.sealed tree.old) (counts_of pen.old) }
    ensures change { IsChange T.copying (change_of step.entry) (T.tree tree.old, pen.old) result (T.tree tree.new, pen.new) }
    ensures held { IsHeld (T.tree tree.new) (T.sealed tree.new) (counts_of pen.new) }
{
    match step {
        Step::MakeFile(at, mode, bytes) => tree.make_file(alloc, at, mode, bytes, pen),
        Step::Write(at, bytes) => tree.write(alloc, at, bytes, pen),
        Step::Append(at, bytes) => tree.append(alloc, at, bytes, pen),
        Step::SetMode(at, mode) => tree.set_mode(alloc, at, mode, pen),
        Step::AddName(old, at) => tree.link(alloc, old, at, pen),
        Step::MakeLink(at, text) => tree.symlink(alloc, at, text, pen),
        Step::MakeDir(at, mode) => tree.mkdir(alloc, at, mode, pen),
        Step::Remove(at) => tree.remove(alloc, at, pen),
        Step::Rename(old, at) => tree.rename(alloc, old, at, pen),
    }
}
