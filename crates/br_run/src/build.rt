//! The command `build`: the first fault of the files; else what became of their packages, and the image.
ghost use Rattle.std.specs.Prelude.{◌≡◌, [], false, IfOk, length};
ghost use Rattle.br_path.specs.Files.{AreSmall};
ghost use Rattle.plan_rows.specs.Plan.{IsPlan};
ghost use Rattle.task_shelves.specs.Grounded.{AreGrounded};
ghost use Rattle.task_shelves.specs.Shelf.{shelf_data};
ghost use Rattle.root_merge.specs.Overwrites.{overwrites_of};
ghost use Rattle.br_run.specs.Answer.{IsBuildAnswer};
ghost use Rattle.br_run.specs.Built.{build_answer, has_failed, report_of, some_failed, some_overwritten, with_image, without_image};
ghost use Rattle.br_run.specs.Planned.{IsPlanWith};

use crate::answer::{Answer, answer_fault};
use crate::planning::{Planning, planning_of};
use crate::status::Status;
use br_path::{Bytes, Files, Memory};
use build_report::build_text;
use build_workers::serial;
use plan_rows::Plan;
use root_merge::{merge, overwrites};
use std::alloc::Global;
use task_shelves::{Overwrites, Shelf, Shelves};
use tree_map::MapTree;
use tree_ops::TreeOps;

/// Finds the answer to files that are to be built.
pub fn answer_build(alloc: Global, files: &Files) -> Result<Answer, Memory>
    requires { AreSmall files.now }
    ensures { IfOk result (IsBuildAnswer files.now) }
{
    match planning_of(alloc, files) {
        Ok(planning) => answer_planned(alloc, files, &planning),
        Err(fault) => answer_fault(alloc, &fault),
    }
}

/// The answer to files that have a plan: its tasks are run one after another.
fn answer_planned(alloc: Global, files: &Files, planning: &Planning) -> Result<Answer, Memory>
    requires { IsPlanWith files.now planning.now.plan planning.now.forced }
    ensures { IfOk result (IsBuildAnswer files.now) }
{
    let shelves = serial::<MapTree>(alloc, &planning.plan, files)?;
    let failed = some_failed(&planning.plan, &shelves);
    answer_shelves(alloc, planning, &shelves, failed)
}

/// The answer to what the tasks of a plan left.
fn answer_shelves<S: Shelves>(
    alloc: Global,
    planning: &Planning,
    shelves: &S,
    failed: bool,
) -> Result<Answer, Memory>
    requires count { S.tasks shelves.now ≡ length planning.now.plan.rows }
    requires failed { failed ≡ some_failed planning.now.plan (S.shelves shelves.now) }
    requires grounded { some_failed planning.now.plan (S.shelves shelves.now) ≡ false → AreGrounded planning.now.plan (S.shelves shelves.now) }
    ensures { IfOk result (λ answer. answer ≡ build_answer planning.now.plan (S.shelves shelves.now) planning.now.forced) }
{
    let overwritten = overwrites(alloc, &planning.plan, shelves)?;
    if failed {
        return answer_imageless(
            alloc,
            planning,
            shelves,
            &overwritten,
            Status::PackagesFailed,
        );
    }
    if some_overwritten(&overwritten) {
        return answer_imageless(alloc, planning, shelves, &overwritten, Status::Overwrites);
    }
    answer_image(alloc, planning, shelves, &overwritten)
}

/// Whether a task of a plan failed.
fn some_failed<S: Shelves>(plan: &Plan, shelves: &S) -> bool
    requires { S.tasks shelves.now ≡ length plan.now.rows }
    ensures failed { result ≡ some_failed plan.now (S.shelves shelves.now) }
    ensures plan { IsPlan plan.now }
{
    let mut failed = false;
    for task in 0..plan.count() {
        failed |= has_failed(shelves.shelf(task));
    }
    failed
}

fn has_failed<T: TreeOps>(shelf: &Shelf<T>) -> bool
    ensures { result ≡ has_failed (shelf_data T.tree shelf.now) }
{
    match shelf {
        Shelf::Failed { .. } => true,
        _ => false,
    }
}

/// Whether a path was overwritten.
fn some_overwritten(overwritten: &Overwrites) -> bool
    ensures { result ≡ some_overwritten overwritten.now }
{
    !overwritten.items.is_empty()
}

/// The answer where no image is put.
fn answer_imageless<S: Shelves>(
    alloc: Global,
    planning: &Planning,
    shelves: &S,
    overwritten: &Overwrites,
    status: Status,
) -> Result<Answer, Memory>
    requires count { S.tasks shelves.now ≡ length planning.now.plan.rows }
    requires overwritten { overwritten.now ≡ overwrites_of planning.now.plan (S.shelves shelves.now) }
    ensures { IfOk result (λ answer. answer ≡ without_image planning.now.plan (S.shelves shelves.now) planning.now.forced status) }
{
    Ok(Answer {
        status,
        report: report_of(alloc, planning, shelves, overwritten, None, status)?,
        image: None,
    })
}

/// The answer with the image of the root that all packages make together.
fn answer_image<S: Shelves>(
    alloc: Global,
    planning: &Planning,
    shelves: &S,
    overwritten: &Overwrites,
) -> Result<Answer, Memory>
    requires count { S.tasks shelves.now ≡ length planning.now.plan.rows }
    requires overwritten { overwritten.now ≡ overwrites_of planning.now.plan (S.shelves shelves.now) }
    requires grounded { AreGrounded planning.now.plan (S.shelves shelves.now) }
    requires apart { overwrites_of planning.now.plan (S.shelves shelves.now) ≡ [] }
    ensures { IfOk result (λ answer. answer ≡ with_image planning.now.plan (S.shelves shelves.now) planning.now.forced) }
{
    let root = merge(alloc, &planning.plan, shelves)?;
    // 256 packages have fewer names than a u32 counts.
    let Ok(entries) = u32::try_from(root.entries().len()) else {
        return Err(Memory);
    };
    Ok(Answer {
        status: Status::Done,
        report: report_of(
            alloc,
            planning,
            shelves,
            overwritten,
            Some(entries),
            Status::Done,
        )?,
        image: Some(root_image::write(alloc, &root)?),
    })
}

/// The report of a build.
fn report_of<S: Shelves>(
    alloc: Global,
    planning: &Planning,
    shelves: &S,
    overwritten: &Overwrites,
    entries: Option<u32>,
    status: Status,
) -> Result<Bytes, Memory>
    requires count { S.tasks shelves.now ≡ length planning.now.plan.rows }
    requires overwritten { overwritten.now ≡ overwrites_of planning.now.plan (S.shelves shelves.now) }
    ensures { IfOk result (λ report. report ≡ report_of planning.now.plan (S.shelves shelves.now) planning.now.forced entries status) }
{
    build_text(
        alloc,
        &planning.plan,
        shelves,
        &planning.forced,
        overwritten,
        entries,
        status.number(),
    )
}
