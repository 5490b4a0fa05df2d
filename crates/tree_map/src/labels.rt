//! Labels and what they stand for.
ghost use Rattle.std.specs.Prelude.{◌≡◌, ◌++◌, ◌==◌, OnOk, IfOk, IfSome, is_some, true, false};
ghost use Rattle.std.specs.Option.{option_copied};
ghost use Rattle.std.specs.FinMap as fin;
ghost use Rattle.std.specs.FinMap.Entries.{where_key};
ghost use Rattle.std.specs.List.{list_any};
ghost use Rattle.std.specs.BTreeMap as tree;
ghost use Rattle.std.specs.BTreeMap.{keys, IsOrdered};
ghost use Rattle.tree_ops.specs.Tree.{label_cmp, is_used};
ghost use Rattle.tree_map.specs.Parts.{labels_of, set_back};
ghost use Rattle.tree_map.specs.Lacking.{clash, is_contents, lacking};

use crate::names::NameTable;
use crate::shared::SharedContents;
use br_path::Memory;
use std::alloc::Global;
use std::collections::BTreeMap;
use tree_ops::{Contents, Label};

/// The labels of the pairs; of two alike the first.
fn labels_from(
    alloc: Global,
    pairs: Vec<(Label, SharedContents)>,
) -> Result<BTreeMap<Label, SharedContents>, Memory>
    ensures { IfOk result (λ m. labels_of m ≡ fin.from_entries pairs.items) }
{
    let mut pairs = pairs;
    let mut labels = BTreeMap::new(alloc);
    while let Some((label, contents)) = pairs.pop() {
        labels.insert(label, contents)?;
    }
    Ok(labels)
}

/// Adds what each label stands for that one of the names has.
fn copy_used(
    pairs: &mut Vec<(Label, SharedContents)>,
    labels: &BTreeMap<Label, SharedContents>,
    names: &NameTable,
) -> Result<(), Memory>
    ensures { OnOk result (pairs.new.items ≡ pairs.old.items ++ where_key label_cmp (is_used names.now) labels.now.entries) }
{
    for (label, contents) in labels {
        if names.uses(*label) {
            pairs.push((*label, contents.share()?))?;
        }
    }
    Ok(())
}

/// The labels of one tree laid over those of another, as far as these names use them.
pub(crate) fn labels_over(
    alloc: Global,
    low: &BTreeMap<Label, SharedContents>,
    high: &BTreeMap<Label, SharedContents>,
    names: &NameTable,
) -> Result<BTreeMap<Label, SharedContents>, Memory>
    ensures { IfOk result (λ m. labels_of m ≡ fin.from_entries (where_key label_cmp (is_used names.now) high.now.entries ++ where_key label_cmp (is_used names.now) low.now.entries)) }
{
    let mut pairs = Vec::new(alloc);
    copy_used(&mut pairs, high, names)?;
    copy_used(&mut pairs, low, names)?;
    labels_from(alloc, pairs)
}

/// Whether two labels' contents are the same.
fn is_contents(contents: &Contents, other: &Contents) -> bool
    ensures { result ≡ is_contents contents.now other.now }
{
    contents.mode == other.mode && contents.bytes == other.bytes
}

/// What the label stands for.
fn contents_of<'a>(
    labels: &'a BTreeMap<Label, SharedContents>,
    label: &Label,
) -> Option<&'a SharedContents>
    ensures { option_copied result ≡ fin.get (labels_of labels.now) label.now }
{
    labels.get(label)
}

/// The labels that stand for something in the high map and for nothing in the low one; nothing where one stands for
/// something in both, and not the same. The time is that of a look-up for each label of the high map, and of reading what
/// both have.
pub(crate) fn labels_lacked(
    alloc: Global,
    low: &BTreeMap<Label, SharedContents>,
    high: &BTreeMap<Label, SharedContents>,
) -> Result<Option<Vec<Label>>, Memory>
    ensures same { IfOk result (λ found. IfSome found (λ labels. clash is_contents (labels_of low.now) (fin.entries (labels_of high.now)) ≡ false)) }
    ensures labels { IfOk result (λ found. IfSome found (λ labels. labels.items ≡ lacking (labels_of low.now) (fin.entries (labels_of high.now)))) }
{
    let mut labels = Vec::new(alloc);
    for (label, contents) in high {
        match contents_of(low, label) {
            None => labels.push(*label)?,
            Some(own) => {
                if !is_contents(own.get(), contents.get()) {
                    return Ok(None);
                }
            }
        }
    }
    Ok(Some(labels))
}

/// Lets a label stand for what it stood for before, or for nothing. It stands for something now, so that this takes no
/// memory.
pub(crate) fn set_back(
    labels: &mut BTreeMap<Label, SharedContents>,
    label: Label,
    before: Option<SharedContents>,
)
    requires { is_some (tree.get label_cmp labels.old label) ≡ true }
    ensures { labels_of labels.new ≡ set_back (labels_of labels.old) label before }
{
    match before {
        None => {
            labels.remove(&label);
        }
        Some(contents) => {
            let _ = labels.insert(label, contents);
        }
    }
}

fn any_of_task(labels: &BTreeMap<Label, SharedContents>, task: u32) -> bool
    ensures any { result ≡ list_any (λ label. label.task == task) (keys labels.now) }
    ensures ordered { IsOrdered label_cmp labels.now }
{
    labels.keys().any(|label| label.task == task)
}

/// Whether one of the labels is the task's.
pub(crate) fn has_label_of(labels: &BTreeMap<Label, SharedContents>, task: u32) -> bool
    ensures { result ≡ list_any (λ entry. entry.0.task == task) (fin.entries (labels_of labels.now)) }
{
    any_of_task(labels, task)
}

/// Adds what each label stands for.
fn copy_labels(
    pairs: &mut Vec<(Label, SharedContents)>,
    labels: &BTreeMap<Label, SharedContents>,
) -> Result<(), Memory>
    ensures { OnOk result (pairs.new.items ≡ pairs.old.items ++ labels.now.entries) }
{
    for (label, contents) in labels {
        pairs.push((*label, contents.share()?))?;
    }
    Ok(())
}

/// The same labels once more.
pub(crate) fn labels_again(
    alloc: Global,
    labels: &BTreeMap<Label, SharedContents>,
) -> Result<BTreeMap<Label, SharedContents>, Memory>
    ensures { IfOk result (λ m. labels_of m ≡ labels_of labels.now) }
{
    let mut pairs = Vec::new(alloc);
    copy_labels(&mut pairs, labels)?;
    labels_from(alloc, pairs)
}
