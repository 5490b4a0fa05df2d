//! The text of a build.
ghost use Rattle.std.specs.Prelude.{◌≡◌, ◌<◌, ◌++◌, All, IfOk, OnOk, flat_map, length};
ghost use Rattle.task_shelves.specs.Shelf.{shelf_data};
ghost use Rattle.build_report.specs.Builds as text;

use crate::lines::{push_joined, push_name, push_number, push_path, push_status};
use crate::plans::push_task;
use crate::words::{area_word, reason_word, step_word};
use br_path::{Bytes, Memory, Names};
use plan_rows::{Plan, Step};
use std::alloc::{AllocError, Global};
use task_shelves::{Overwrite, Overwrites, Shelf, Shelves};
use tree_ops::TreeOps;
use tree_worlds::Reason;

/// The report of a build whose tasks left these shelves: how many packages it has, the symbols that were forced to be y, a line
/// for each package by its name, a line for each path that several packages wrote, the image's entries if one is put, and the status.
///
/// ```text
/// build 3
/// selected BR2_PACKAGE_ZLIB
/// built musl
/// skipped nginx zlib:make
/// failed zlib build 2 127 not-found
/// status 1
/// ```
///
/// A package failed if one of its tasks did: the step, the number of the line, its status and the reason are reported. It is skipped
/// if a task that it needs isn't built: that task is reported. Of two tasks that both failed or both were skipped the prep is reported.
pub fn build_text<S: Shelves>(
    alloc: Global,
    plan: &Plan,
    shelves: &S,
    forced: &Names,
    overwrites: &Overwrites,
    entries: Option<u32>,
    status: u8,
) -> Result<Bytes, Memory>
    requires count { S.tasks shelves.now ≡ length plan.now.rows }
    requires installed { All text.IsInstalled overwrites.now }
    ensures { IfOk result (λ b. b ≡ text.build_text plan.now (S.shelves shelves.now) forced.now overwrites.now entries status) }
{
    let mut items = Vec::new(alloc);
    push_number(alloc, &mut items, b"build ", plan.count() / 2)?;
    items.push(b'\n')?;
    push_forced(&mut items, forced)?;
    push_packages(alloc, &mut items, plan, shelves)?;
    push_overwrites(&mut items, overwrites)?;
    push_image(alloc, &mut items, entries)?;
    push_status(alloc, &mut items, status)?;
    Ok(Bytes { items })
}

/// Puts a line for each symbol that was forced.
fn push_forced(items: &mut Vec<u8>, forced: &Names) -> Result<(), AllocError>
    ensures { OnOk result (items.new.items ≡ items.old.items ++ flat_map text.selected_line forced.now) }
{
    for symbol in &forced.items {
        push_name(items, b"selected ", symbol.as_slice())?;
        items.push(b'\n')?;
    }
    Ok(())
}

/// Puts the line of each package, by its name.
fn push_packages<S: Shelves>(
    alloc: Global,
    items: &mut Vec<u8>,
    plan: &Plan,
    shelves: &S,
) -> Result<(), AllocError>
    requires count { S.tasks shelves.now ≡ length plan.now.rows }
    ensures { OnOk result (items.new.items ≡ items.old.items ++ text.package_lines plan.now (S.shelves shelves.now)) }
{
    for task in 0..plan.count() {
        push_make(alloc, items, plan, shelves, task)?;
    }
    Ok(())
}

/// Puts the line of the package whose make a task is. A prep has no line of its own.
fn push_make<S: Shelves>(
    alloc: Global,
    items: &mut Vec<u8>,
    plan: &Plan,
    shelves: &S,
    task: u32,
) -> Result<(), AllocError>
    requires count { S.tasks shelves.now ≡ length plan.now.rows }
    requires task { task < length plan.now.rows }
    ensures { OnOk result (items.new.items ≡ items.old.items ++ text.task_line plan.now (S.shelves shelves.now) task) }
{
    let row = plan.row(task);
    match row.own_prep {
        None => Ok(()),
        Some(prep) => {
            let owner = row.package.as_slice();
            push_package(
                alloc,
                items,
                plan,
                owner,
                shelves.shelf(prep),
                shelves.shelf(task),
            )
        }
    }
}

/// Puts the line of a package, by the shelves of its prep and its make.
fn push_package<T: TreeOps>(
    alloc: Global,
    items: &mut Vec<u8>,
    plan: &Plan,
    owner: &[u8],
    prep: &Shelf<T>,
    make: &Shelf<T>,
) -> Result<(), AllocError>
    ensures { OnOk result (items.new.items ≡ items.old.items ++ text.package_line plan.now owner.now (shelf_data T.tree prep.now) (shelf_data T.tree make.now)) }
{
    match (prep, make) {
        (
            Shelf::Failed {
                step,
                line,
                status,
                reason,
                ..
            },
            _,
        ) => { push_failed(alloc, items, owner, *step, *line, *status, *reason) }
        (
            _,
            Shelf::Failed {
                step,
                line,
                status,
                reason,
                ..
            },
        ) => { push_failed(alloc, items, owner, *step, *line, *status, *reason) }
        (Shelf::Skipped { by }, _) => push_skipped(items, plan, owner, *by),
        (_, Shelf::Skipped { by }) => push_skipped(items, plan, owner, *by),
        _ => push_built(items, owner),
    }
}

fn push_failed(
    alloc: Global,
    items: &mut Vec<u8>,
    owner: &[u8],
    step: Step,
    line: u32,
    status: u8,
    reason: Reason,
) -> Result<(), AllocError>
    ensures { OnOk result (items.new.items ≡ items.old.items ++ text.failed_line owner.now step line status reason) }
{
    push_name(items, b"failed ", owner)?;
    push_name(items, b" ", step_word(step))?;
    push_number(alloc, items, b" ", line)?;
    push_number(alloc, items, b" ", u32::from(status))?;
    push_name(items, b" ", reason_word(reason))?;
    Ok(items.push(b'\n')?)
}

fn push_skipped(items: &mut Vec<u8>, plan: &Plan, owner: &[u8], by: u32) -> Result<(), AllocError>
    ensures { OnOk result (items.new.items ≡ items.old.items ++ text.skipped_line plan.now owner.now by) }
{
    push_name(items, b"skipped ", owner)?;
    items.push(b' ')?;
    push_task(items, plan, by)?;
    Ok(items.push(b'\n')?)
}

fn push_built(items: &mut Vec<u8>, owner: &[u8]) -> Result<(), AllocError>
    ensures { OnOk result (items.new.items ≡ items.old.items ++ text.built_line owner.now) }
{
    push_name(items, b"built ", owner)?;
    Ok(items.push(b'\n')?)
}

/// Puts a line for each path that several packages wrote.
fn push_overwrites(items: &mut Vec<u8>, overwrites: &Overwrites) -> Result<(), AllocError>
    requires { All text.IsInstalled overwrites.now }
    ensures { OnOk result (items.new.items ≡ items.old.items ++ flat_map text.overwrite_line overwrites.now) }
{
    for overwrite in &overwrites.items {
        push_overwrite(items, overwrite)?;
    }
    Ok(())
}

fn push_overwrite(items: &mut Vec<u8>, overwrite: &Overwrite) -> Result<(), AllocError>
    requires { text.IsInstalled overwrite.now }
    ensures { OnOk result (items.new.items ≡ items.old.items ++ text.overwrite_line overwrite.now) }
{
    push_name(items, b"overwrite ", area_word(overwrite.area))?;
    items.push(b' ')?;
    push_joined(items, overwrite.packages.items.as_slice(), b',')?;
    items.extend_from_slice(b" /")?;
    push_path(items, &overwrite.path)?;
    Ok(items.push(b'\n')?)
}

/// Puts how many entries the image has, if one is put.
fn push_image(alloc: Global, items: &mut Vec<u8>, entries: Option<u32>) -> Result<(), AllocError>
    ensures { OnOk result (items.new.items ≡ items.old.items ++ text.image_line entries) }
{
    if let Some(count) = entries {
        push_number(alloc, items, b"image ", count)?;
        items.push(b'\n')?;
    }
    Ok(())
}
