//! The changes of a world, within its task's rights.
ghost use Rattle.std.specs.Prelude.{◌≡◌, ◌≤◌, OnErr};
ghost use Rattle.tree_ops.specs.Change.{changed, Populate};
ghost use Rattle.tree_ops.specs.Held.{IsSealed, IsForeign};
ghost use Rattle.tree_ops.specs.Pen.{counts_of};
ghost use Rattle.tree_ops.specs.Tree.{IsTree};
ghost use Rattle.tree_worlds.specs.World.{world_data, state_in, may_change};
ghost use Rattle.tree_worlds.specs.Program.{run, Ran, Act};
ghost use Rattle.tree_worlds.specs.HeldWorld.{IsHeldWorld, IsPut, IsAsBefore, error_of};
ghost use Rattle.tree_worlds.specs.Steps.{change_of, IsModest};

use crate::applying::apply;
use crate::reason::{CommandError, Reason};
use crate::step::Step;
use crate::world::World;
use br_path::Area;
use std::alloc::Global;
use tree_ops::{ChangeFault, TreeOps};

/// What a command answers for a refused change.
pub fn error_of(fault: ChangeFault) -> CommandError
    ensures { result ≡ error_of fault }
{
    match fault {
        ChangeFault::Memory => CommandError::Memory,
        fault => CommandError::Failed(Reason::Change(fault)),
    }
}

impl<T: TreeOps> World<T> {
    /// Whether the task may change the area.
    pub fn may_change(&self, area: Area) -> bool
        ensures { result ≡ may_change (world_data T.tree self.now) area }
    {
        match area {
            Area::Build => true,
            Area::Host => !self.prep && self.host,
            Area::Staging | Area::Target => !self.prep && !self.host,
        }
    }

    /// Changes the tree of an area.
    fn put(&mut self, alloc: Global, area: Area, step: Step<'_>) -> Result<(), ChangeFault>
        requires modest { IsModest step }
        requires held { IsHeldWorld T.tree T.sealed self.old }
        ensures put { IsPut (changed (change_of step.entry) (state_in (world_data T.tree self.old) area)) area (world_data T.tree self.old) result (world_data T.tree self.new) }
        ensures held { IsHeldWorld T.tree T.sealed self.new }
        ensures refused { OnErr result (IsAsBefore T.tree self.old self.new) }
    {
        let World { trees, pen, .. } = self;
        match area {
            Area::Build => apply(alloc, &mut trees.build, step, pen),
            Area::Host => apply(alloc, &mut trees.host, step, pen),
            Area::Staging => apply(alloc, &mut trees.staging, step, pen),
            Area::Target => apply(alloc, &mut trees.target, step, pen),
        }
    }

    /// Changes the tree of an area, where the task may. After a refusal the world is as before.
    pub fn act(&mut self, alloc: Global, area: Area, step: Step<'_>) -> Result<(), CommandError>
        requires modest { IsModest step }
        requires held { IsHeldWorld T.tree T.sealed self.old }
        ensures ran { Ran (run (Act area (change_of step.entry)) (world_data T.tree self.old)) result (world_data T.tree self.new) }
        ensures held { IsHeldWorld T.tree T.sealed self.new }
        ensures refused { OnErr result (IsAsBefore T.tree self.old self.new) }
    {
        if !self.may_change(area) {
            return Err(CommandError::Failed(Reason::Change(ChangeFault::ReadOnly)));
        }
        match self.put(alloc, area, step) {
            Ok(()) => Ok(()),
            Err(fault) => Err(error_of(fault)),
        }
    }
}

impl<T: TreeOps> World<T> {
    /// Lays a sealed tree over the tree of an area, whatever the task's rights. After a refusal the world is as before.
    pub fn fill(&mut self, alloc: Global, area: Area, from: &T) -> Result<(), ChangeFault>
        requires sound { IsTree (T.tree from.now) }
        requires sealed { IsSealed (T.tree from.now) (T.sealed from.now) }
        requires foreign { IsForeign (T.tree from.now) (counts_of self.old.pen) }
        requires held { IsHeldWorld T.tree T.sealed self.old }
        ensures put { IsPut (changed (Populate (T.tree from.now)) (state_in (world_data T.tree self.old) area)) area (world_data T.tree self.old) result (world_data T.tree self.new) }
        ensures held { IsHeldWorld T.tree T.sealed self.new }
        ensures refused { OnErr result (IsAsBefore T.tree self.old self.new) }
    {
        let World { trees, pen, .. } = self;
        match area {
            Area::Build => trees.build.populate(alloc, from, pen),
            Area::Host => trees.host.populate(alloc, from, pen),
            Area::Staging => trees.staging.populate(alloc, from, pen),
            Area::Target => trees.target.populate(alloc, from, pen),
        }
    }
}
