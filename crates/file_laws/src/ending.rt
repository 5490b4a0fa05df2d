//! What commands leave of whole trees and walks.
ghost use Rattle.tree_worlds.specs.declared.world.World.{World as world_of};
ghost use Rattle.tree_worlds.specs.HeldWorld.{IsHeldWorld};
ghost use Rattle.tree_worlds.specs.World.{world_data};
ghost use Rattle.file_laws.specs.Laws.{RmIsWhole, MkdirLeavesFolders, CpMakesTree};
ghost use Rattle.file_laws.specs.Words.{IsReachedWorld};

use tree_ops::TreeOps;

/// rm of a folder takes all that stands in it, and nothing else.
pub fn rm_is_whole()
    ensures { RmIsWhole }
{}

/// mkdir with `p` leaves a folder at the end of each front of its walk.
pub fn mkdir_leaves_folders()
    ensures { MkdirLeavesFolders }
{}

/// cp of a folder to a place where nothing is makes a copy of all that stands in it, and changes nothing else.
pub fn cp_makes_tree()
    ensures { CpMakesTree }
{}

/// Each world that a task holds is one of those of which `cp_makes_tree` speaks.
pub fn held_worlds_are_reached<T: TreeOps>()
    ensures { (world : world_of T) → IsHeldWorld T.tree T.sealed world → IsReachedWorld (world_data T.tree world) }
{}
