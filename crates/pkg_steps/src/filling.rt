//! The trees of a task, filled from the shelves that it is handed.
ghost use Rattle.std.specs.Prelude.{◌≡◌, ◌<◌, None, Ok, OnOk, false, length, slice_get, Some};
ghost use Rattle.dep_graph.specs.Needs.{needs_of};
ghost use Rattle.plan_rows.specs.Plan.{HasRow};
ghost use Rattle.plan_rows.specs.declared.rows.TaskRow.{TaskRow as task_row};
ghost use Rattle.tree_worlds.specs.World.{trees_data, readable, shown_too};
ghost use Rattle.task_shelves.specs.Shelf.{shelf_data};
ghost use Rattle.task_shelves.specs.Sealed.{IsSealedTree, AreSealed, IsSealedShelf};
ghost use Rattle.task_shelves.specs.Labels.{is_among, drawers_on};
ghost use Rattle.tree_ops.specs.Held.{IsForeign};
ghost use Rattle.tree_ops.specs.Pen.{counts_of};
ghost use Rattle.pkg_steps.specs.Filling.{first_or, unless_built, given, given_by, fill, owner_of, ◌>->◌};
ghost use Rattle.pkg_steps.specs.Runs.{so_far, AreForeign, IsHeldRun, IsSameRun};

use crate::rows::{fills, is_own_prep, may_read};
use crate::task_run::TaskRun;
use br_path::{Area, Memory};
use std::alloc::Global;
use task_shelves::Shelf;
use tree_ops::{ChangeFault, TreeOps};
use tree_worlds::Trees;

impl<'p, T: TreeOps> TaskRun<'p, T> {
    /// The need whose shelf is handed in next.
    pub(crate) fn next_need(&self) -> u32
        requires next { self.now.taken < length (needs_of self.now.plan.now.graph self.now.task) }
        requires task { self.now.task < length self.now.plan.now.rows }
        ensures need { slice_get (needs_of self.now.plan.now.graph self.now.task) self.now.taken ≡ Some result }
        ensures task { result < length self.now.plan.now.rows }
        ensures room { self.now.taken < 18446744073709551615 }
    {
        self.plan.needs(self.task)[self.taken]
    }

    /// Hands in the shelf of a needed task: the first that isn't built is noted, and nothing is filled from then on.
    pub(crate) fn hand_in(
        &mut self,
        alloc: Global,
        need: u32,
        shelf: &Shelf<T>,
    ) -> Result<(), Memory>
        requires need { need < length self.old.plan.now.rows }
        requires sealed { IsSealedShelf T.tree T.sealed shelf.now }
        requires foreign { is_among (drawers_on (shelf_data T.tree shelf.now)) self.old.task ≡ false }
        requires held { IsHeldRun T.tree T.sealed self.old }
        ensures unbuilt { OnOk result (self.new.unbuilt ≡ first_or self.old.unbuilt (unless_built need (shelf_data T.tree shelf.now))) }
        ensures given { OnOk result ((row : task_row) → HasRow self.old.plan.now self.old.task row → self.new.unbuilt ≡ None
            → so_far T.tree self.new ≡ (so_far T.tree self.old >-> given_by row (owner_of self.old.plan.now) need (shelf_data T.tree shelf.now))) }
        ensures same { IsSameRun self.old self.new }
        ensures held { IsHeldRun T.tree T.sealed self.new }
    {
        if self.unbuilt.is_some() {
            return Ok(());
        }
        match shelf {
            Shelf::Built { trees, .. } => self.take(alloc, need, trees),
            _ => {
                self.unbuilt = Some(need);
                Ok(())
            }
        }
    }

    /// Takes from the trees of a needed task what the row takes of it.
    fn take(&mut self, alloc: Global, need: u32, trees: &Trees<T>) -> Result<(), Memory>
        requires need { need < length self.old.plan.now.rows }
        requires sealed { AreSealed T.tree T.sealed trees.now }
        requires foreign { AreForeign (trees_data T.tree trees.now) (counts_of self.old.world.pen) }
        requires held { IsHeldRun T.tree T.sealed self.old }
        ensures taken { OnOk result ((row : task_row) → HasRow self.old.plan.now self.old.task row
            → so_far T.tree self.new ≡ (so_far T.tree self.old >-> given row (owner_of self.old.plan.now) need (trees_data T.tree trees.now))) }
        ensures same { IsSameRun self.old self.new }
        ensures unbuilt { self.new.unbuilt ≡ self.old.unbuilt }
        ensures held { IsHeldRun T.tree T.sealed self.new }
    {
        let plan = self.plan;
        let row = plan.row(self.task);
        if is_own_prep(row, need) {
            return self.lay(alloc, Area::Build, &trees.build);
        }
        if fills(row, need) {
            self.lay(alloc, Area::Host, &trees.host)?;
            self.lay(alloc, Area::Staging, &trees.staging)?;
            return self.lay(alloc, Area::Target, &trees.target);
        }
        if may_read(row, need) {
            return self.show(alloc, need, &trees.build);
        }
        Ok(())
    }

    /// Lays a tree over that of an area, unless an earlier filling was refused.
    fn lay(&mut self, alloc: Global, area: Area, from: &T) -> Result<(), Memory>
        requires sealed { IsSealedTree T.tree T.sealed from.now }
        requires foreign { IsForeign (T.tree from.now) (counts_of self.old.world.pen) }
        requires held { IsHeldRun T.tree T.sealed self.old }
        ensures laid { OnOk result (so_far T.tree self.new ≡ (so_far T.tree self.old >-> fill area (T.tree from.now))) }
        ensures same { IsSameRun self.old self.new }
        ensures unbuilt { self.new.unbuilt ≡ self.old.unbuilt }
        ensures held { IsHeldRun T.tree T.sealed self.new }
    {
        if self.refused.is_some() {
            return Ok(());
        }
        match self.world.fill(alloc, area, from) {
            Ok(()) => Ok(()),
            Err(ChangeFault::Memory) => Err(Memory),
            Err(fault) => {
                self.refused = Some(fault);
                Ok(())
            }
        }
    }

    /// Lets the build tree of a needed task be read.
    fn show(&mut self, alloc: Global, need: u32, tree: &T) -> Result<(), Memory>
        requires need { need < length self.old.plan.now.rows }
        requires sealed { IsSealedTree T.tree T.sealed tree.now }
        requires held { IsHeldRun T.tree T.sealed self.old }
        ensures shown { OnOk result (so_far T.tree self.new ≡ (so_far T.tree self.old >-> λ world. Ok (shown_too world (readable need (owner_of self.old.plan.now need) (T.tree tree.now))))) }
        ensures same { IsSameRun self.old self.new }
        ensures unbuilt { self.new.unbuilt ≡ self.old.unbuilt }
        ensures held { IsHeldRun T.tree T.sealed self.new }
    {
        if self.refused.is_some() {
            return Ok(());
        }
        let plan = self.plan;
        let package = plan.row(need).package.copy()?;
        let tree = tree.copy(alloc)?;
        self.world.show(need, package, tree)
    }
}
