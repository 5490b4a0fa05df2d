//! A task, from its beginning until all shelves of its needs were handed in.
ghost use Rattle.std.specs.Prelude.{◌≡◌, ◌<◌, ◌++◌, ◌∷◌, [], IfOk, OnOk, List, false, length};
ghost use Rattle.dep_graph.specs.Needs.{needs_of};
ghost use Rattle.task_shelves.specs.Shelf.{ShelfData, shelf_data};
ghost use Rattle.task_shelves.specs.Sealed.{IsSealedShelf};
ghost use Rattle.task_shelves.specs.Labels.{is_among, drawers_on};
ghost use Rattle.pkg_steps.specs.Runs.{plan_of, task_of, count_of, IsHeldRun, HasTaken};

use crate::rows::is_prep;
use br_path::Memory;
use plan_rows::Plan;
use std::alloc::Global;
use task_shelves::Shelf;
use tree_ops::{ChangeFault, TreeOps};
use tree_worlds::World;

/// A task of a plan, while the shelves of its needs are handed in.
#[derive(Drop)]
pub struct TaskRun<'p, T> {
    pub(crate) plan: &'p Plan,
    pub(crate) task: u32,
    /// How many shelves were handed in.
    pub(crate) taken: usize,
    pub(crate) world: World<T>,
    /// The least needed task that isn't built.
    pub(crate) unbuilt: Option<u32>,
    /// Why a filling was refused.
    pub(crate) refused: Option<ChangeFault>,
}

impl<'p, T: TreeOps> TaskRun<'p, T> {
    /// Begins a task of the plan, with empty trees. The shelves of its needs are then to be handed in.
    pub fn begin(alloc: Global, plan: &'p Plan, task: u32) -> Result<TaskRun<'p, T>, Memory>
        requires task { task < length plan.now.rows }
        ensures plan { IfOk result (λ run. plan_of run ≡ plan.now) }
        ensures task { IfOk result (λ run. task_of run ≡ task) }
        ensures taken { IfOk result (λ run. HasTaken T.tree run []) }
        ensures held { IfOk result (IsHeldRun T.tree T.sealed) }
    {
        let row = plan.row(task);
        let package = row.package.copy()?;
        let folder = row.folder.copy()?;
        let world = World::new(alloc, task, package, folder, row.host, is_prep(row))?;
        Ok(TaskRun {
            plan,
            task,
            taken: 0,
            world,
            unbuilt: None,
            refused: None,
        })
    }

    /// Hands in the shelf of the next need: needs are taken in rising order. The trees on it are sealed, and no file
    /// in them is of the run's own task.
    ///
    /// The time is that of laying its trees over those of the task, or of one copy of its build tree. After want of
    /// memory the run is only let go.
    pub fn need(&mut self, alloc: Global, shelf: &Shelf<T>) -> Result<(), Memory>
        requires next { count_of self.old < length (needs_of (plan_of self.old).graph (task_of self.old)) }
        requires sealed { IsSealedShelf T.tree T.sealed shelf.now }
        requires foreign { is_among (drawers_on (shelf_data T.tree shelf.now)) (task_of self.old) ≡ false }
        requires held { IsHeldRun T.tree T.sealed self.old }
        ensures taken { OnOk result ((shelves : List ShelfData) → HasTaken T.tree self.old shelves → HasTaken T.tree self.new (shelves ++ shelf_data T.tree shelf.now ∷ [])) }
        ensures plan { plan_of self.new ≡ plan_of self.old }
        ensures task { task_of self.new ≡ task_of self.old }
        ensures held { IsHeldRun T.tree T.sealed self.new }
    {
        let need = self.next_need();
        self.taken += 1;
        self.hand_in(alloc, need, shelf)
    }
}
