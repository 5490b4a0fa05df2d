//! What one tree lacks of another, added.
ghost use Rattle.std.specs.Prelude.{◌≡◌, ◌<◌, ◌^◌, OnOk, OnErr, false, length};
ghost use Rattle.std.specs.FinMap as fin;
ghost use Rattle.std.specs.List.{list_any, sum_by};
ghost use Rattle.std.specs.Ordering.{eq_by_cmp};
ghost use Rattle.br_path.specs.Path.{Names, path_cmp, rooted_text};
ghost use Rattle.tree_ops.specs.Tree.{label_cmp};
ghost use Rattle.tree_ops.specs.declared.entry.Label.{Label as label_of};
ghost use Rattle.tree_map.specs.Lacking.{lacking, paths_of, put_at, with_keys, without_keys};
ghost use Rattle.tree_map.specs.Parts.{labels_of};

use crate::names::NameTable;
use crate::shared::SharedContents;
use br_path::{Memory, Path};
use std::collections::BTreeMap;
use tree_ops::{Label, rooted_length};

impl NameTable {
    /// Puts what stands at a path of the high table there too. After a refusal nothing is changed.
    fn put_from(&mut self, high: &NameTable, at: &Path) -> Result<(), Memory>
        ensures ok { OnOk result (self.new ≡ put_at self.old at.now (fin.get high.now at.now)) }
        ensures err { OnErr result (self.new ≡ self.old) }
    {
        let node = match high.get(at) {
            None => return Ok(()),
            Some(node) => node.copy()?,
        };
        self.insert(at.copy()?, node)
    }

    /// Puts what stands at these paths of the high table there too. After a refusal nothing is changed at other paths.
    fn put_all_from(&mut self, high: &NameTable, paths: &[&Path]) -> Result<(), Memory>
        ensures ok { OnOk result (self.new ≡ with_keys (paths_of paths.now) high.now self.old) }
        ensures others { (q : Names) → list_any (eq_by_cmp path_cmp q) (paths_of paths.now) ≡ false → fin.get self.new q ≡ fin.get self.old q }
    {
        for at in paths {
            self.put_from(high, at)?;
        }
        Ok(())
    }

    /// Takes away what stands at these paths. Takes no memory.
    pub(crate) fn remove_all(&mut self, paths: &[&Path])
        ensures { self.new ≡ without_keys (paths_of paths.now) self.old }
    {
        for at in paths {
            self.remove(at);
        }
    }

    /// Adds the names of the high table that this one lacks. After a refusal nothing is changed.
    pub(crate) fn add_lacked(&mut self, high: &NameTable, paths: &[&Path]) -> Result<(), Memory>
        requires { paths_of paths.now ≡ lacking self.old (fin.entries high.now) }
        ensures ok { OnOk result (self.new ≡ with_keys (paths_of paths.now) high.now self.old) }
        ensures err { OnErr result (self.new ≡ self.old) }
    {
        if let Err(memory) = self.put_all_from(high, paths) {
            self.remove_all(paths);
            return Err(memory);
        }
        Ok(())
    }
}

/// How many paths there are, and the bytes of their texts.
pub(crate) fn measure_paths(paths: &[&Path]) -> (usize, u128)
    ensures is { result ≡ (length (paths_of paths.now), sum_by (λ at. length (rooted_text at)) (paths_of paths.now)) }
    ensures small { result.1 < 2 ^ 127 }
{
    let mut bytes: u128 = 0;
    for at in paths {
        bytes += rooted_length(at) as u128;
    }
    (paths.len(), bytes)
}

/// Lets a label stand for what it stands for in the high map. After a refusal nothing is changed.
fn put_label_from(
    labels: &mut BTreeMap<Label, SharedContents>,
    high: &BTreeMap<Label, SharedContents>,
    label: Label,
) -> Result<(), Memory>
    ensures ok { OnOk result (labels_of labels.new ≡ put_at (labels_of labels.old) label (fin.get (labels_of high.now) label)) }
    ensures err { OnErr result (labels_of labels.new ≡ labels_of labels.old) }
{
    let contents = match high.get(&label) {
        None => return Ok(()),
        Some(contents) => contents.share()?,
    };
    labels.insert(label, contents)?;
    Ok(())
}

/// Lets these labels stand for what they stand for in the high map. After a refusal no other label is changed.
fn put_labels_from(
    labels: &mut BTreeMap<Label, SharedContents>,
    high: &BTreeMap<Label, SharedContents>,
    added: &[Label],
) -> Result<(), Memory>
    ensures ok { OnOk result (labels_of labels.new ≡ with_keys added.now (labels_of high.now) (labels_of labels.old)) }
    ensures others { (q : label_of) → list_any (eq_by_cmp label_cmp q) added.now ≡ false → fin.get (labels_of labels.new) q ≡ fin.get (labels_of labels.old) q }
{
    for label in added {
        put_label_from(labels, high, *label)?;
    }
    Ok(())
}

/// Lets these labels stand for nothing. Takes no memory.
fn remove_labels(labels: &mut BTreeMap<Label, SharedContents>, gone: &[Label])
    ensures { labels_of labels.new ≡ without_keys gone.now (labels_of labels.old) }
{
    for label in gone {
        labels.remove(label);
    }
}

/// Adds the labels of the high map that these lack. After a refusal nothing is changed.
pub(crate) fn add_lacked_labels(
    labels: &mut BTreeMap<Label, SharedContents>,
    high: &BTreeMap<Label, SharedContents>,
    added: &[Label],
) -> Result<(), Memory>
    requires { added.now ≡ lacking (labels_of labels.old) (fin.entries (labels_of high.now)) }
    ensures ok { OnOk result (labels_of labels.new ≡ with_keys added.now (labels_of high.now) (labels_of labels.old)) }
    ensures err { OnErr result (labels_of labels.new ≡ labels_of labels.old) }
{
    if let Err(memory) = put_labels_from(labels, high, added) {
        remove_labels(labels, added);
        return Err(memory);
    }
    Ok(())
}
