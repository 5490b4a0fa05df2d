//! How many names each label has.
ghost use Rattle.std.specs.Prelude.{◌≡◌, ◌+◌, ◌<◌, ◌^◌, ℕ, OnOk, OnErr, unwrap_or, false};
ghost use Rattle.std.specs.BTreeMap as tree;
ghost use Rattle.tree_ops.specs.declared.entry.Label.{Label as label_of};
ghost use Rattle.tree_ops.specs.Tree.{label_cmp};
ghost use Rattle.tree_ops.specs.declared.entry.Node.TheVariants.{File};
ghost use Rattle.tree_map.specs.NameTable.{IsTally, is_label, with_one, with_moved};

use br_path::Memory;
use std::collections::BTreeMap;
use tree_ops::{Label, Node};

/// How many names the label has.
fn count_of(counts: &BTreeMap<Label, usize>, label: &Label) -> usize
    ensures { result ≡ unwrap_or (tree.get label_cmp counts.now label.now) 0 }
{
    counts.get(label).copied().unwrap_or(0)
}

/// Counts one name more. After a refusal nothing is changed.
pub(crate) fn count_up(counts: &mut BTreeMap<Label, usize>, node: &Node) -> Result<(), Memory>
    requires { (label : label_of) → unwrap_or (tree.get label_cmp counts.old label) 0 < 2 ^ 63 }
    ensures ok { OnOk result ((numbers : label_of → ℕ) → IsTally counts.old numbers → IsTally counts.new (with_one node.now numbers)) }
    ensures err { OnErr result (counts.new.entries ≡ counts.old.entries) }
{
    if let Node::File(label) = node {
        let count = count_of(counts, label) + 1;
        counts.insert(*label, count)?;
    }
    Ok(())
}

/// Counts one name less, of those that were counted.
pub(crate) fn count_down(counts: &mut BTreeMap<Label, usize>, node: &Node)
    ensures { (numbers : label_of → ℕ) → IsTally counts.old (with_one node.now numbers) → IsTally counts.new numbers }
{
    if let Node::File(label) = node {
        take_one(counts, *label);
    }
}

fn take_one(counts: &mut BTreeMap<Label, usize>, label: Label)
    ensures { (numbers : label_of → ℕ) → IsTally counts.old (with_one (File label) numbers) → IsTally counts.new numbers }
{
    let count = count_of(counts, &label);
    if count > 1 {
        // The label has a count, so that this takes no memory.
        let _ = counts.insert(label, count - 1);
    } else {
        counts.remove(&label);
    }
}

/// Counts all names of a label as another's. After a refusal nothing is changed.
pub(crate) fn count_moved(
    counts: &mut BTreeMap<Label, usize>,
    from: Label,
    to: Label,
) -> Result<(), Memory>
    requires apart { is_label from to ≡ false }
    requires few { (label : label_of) → unwrap_or (tree.get label_cmp counts.old label) 0 < 2 ^ 63 }
    ensures ok { OnOk result ((numbers : label_of → ℕ) → IsTally counts.old numbers → IsTally counts.new (with_moved from to numbers)) }
    ensures err { OnErr result (counts.new.entries ≡ counts.old.entries) }
{
    let count = count_of(counts, &from);
    if count > 0 {
        let both = count + count_of(counts, &to);
        counts.insert(to, both)?;
        counts.remove(&from);
    }
    Ok(())
}
