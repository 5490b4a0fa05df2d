//! The root file system of a build.
ghost use Rattle.std.specs.Prelude.{◌≡◌, [], IfOk, length};
ghost use Rattle.task_shelves.specs.Grounded.{AreGrounded};
ghost use Rattle.root_merge.specs.Overwrites.{overwrites_of};
ghost use Rattle.root_merge.specs.Roots.{root_entries};

use crate::entry::entries;
use crate::owners::owners;
use br_path::Memory;
use plan_rows::Plan;
use root_image::Root;
use std::alloc::Global;
use task_shelves::Shelves;

/// Makes the root file system of a build in which nothing is overwritten.
///
/// The root is the union of what the packages wrote and left in their target trees, together with the root folder, which has
/// the mode 0o755 where no package wrote it. A file stands whole at the least of its paths, and is named there by the others.
/// Nothing but out of memory refuses it.
///
/// The time is `n log n` in the written paths, and that of copying the bytes of each file once. Beside the root itself a copy
/// of the least path of each file is held meanwhile.
pub fn merge<S: Shelves>(alloc: Global, plan: &Plan, shelves: &S) -> Result<Root, Memory>
    requires count { S.tasks shelves.now ≡ length plan.now.rows }
    requires grounded { AreGrounded plan.now (S.shelves shelves.now) }
    requires apart { overwrites_of plan.now (S.shelves shelves.now) ≡ [] }
    ensures { IfOk result (λ root. root ≡ root_entries plan.now (S.shelves shelves.now)) }
{
    let owners = owners(alloc, plan, shelves)?;
    let entries = entries(alloc, plan, shelves, owners)?;
    Ok(Root::from_entries(entries))
}
