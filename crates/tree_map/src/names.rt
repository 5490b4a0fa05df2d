//! The names of a tree, and what they make up.
ghost use Rattle.std.specs.Prelude.{◌≡◌, ◌<◌, ◌^◌, ◌++◌, ◌⊎◌, All, OnOk, OnErr, IfOk, IfErr, IfSome, not, is_some, true, false, [], ◌∷◌, length};
ghost use Rattle.std.specs.FinMap as fin;
ghost use Rattle.std.specs.FinMap.Entries.{where_key};
ghost use Rattle.std.specs.List.{list_any, filter_map, sum_by};
ghost use Rattle.std.specs.Option.{option_copied};
ghost use Rattle.std.specs.BTreeMap.{IsOrdered};
ghost use Rattle.br_path.specs.Path.{IsPath, path_cmp, rooted_text};
ghost use Rattle.tree_ops.specs.declared.change.ChangeFault.TheVariants.{TooLong as too_long, Memory as no_memory};
ghost use Rattle.tree_ops.specs.Tree.{child_name, has_label, is_leaf, is_used, laid};
ghost use Rattle.tree_ops.specs.Change.{is_below, relabelled};
ghost use Rattle.tree_map.specs.Moving.{moves_below};
ghost use Rattle.tree_map.specs.Parts.{leads_too_far};
ghost use Rattle.tree_map.specs.NameTable.{names_of, hides, is_label};
ghost use Rattle.tree_map.specs.Lacking.{clash, is_node, lacking, paths_of};

use crate::counts::{count_down, count_moved, count_up};
use crate::moving::{Move, moves_listed};
use crate::paths::{behind, child_name, is_below, leads_too_far};
use br_path::{Bytes, Memory, Names, Path};
use std::alloc::Global;
use std::collections::BTreeMap;
use std::marker::Model;
use std::ops::Bound;
use tree_ops::{ChangeFault, Label, Node, rooted_length};

/// What stands at each path, and how many names each label has.
pub(crate) struct NameTable {
    names: BTreeMap<Path, Node>,
    counts: BTreeMap<Label, usize>,
}

// A proof then has one call at each place that lets a table go, and not one for each of its maps.
impl Drop for NameTable {
    fn drop(self) {
        let NameTable { names, counts } = self;
        drop(names);
        drop(counts);
    }
}

impl Model for NameTable {
    ghost use Rattle.std.specs.FinMap as fin;
    ghost use Rattle.std.specs.Coded.{coded_ℕ, coded_list};
    ghost use Rattle.tree_ops.specs.contracts.entry.Node as node;
    ghost use Rattle.tree_map.specs.NameTable.{NameMap, names_of, names_with, IsTally};

    ghost Value = { NameMap };

    ghost coded = { fin.code (coded_list (coded_list coded_ℕ)) node.the_row.coded };

    ghost view = { λ t. names_of t.names };

    ghost invariant = { λ t. IsTally t.counts (names_with (names_of t.names)) };
}

impl NameTable {
    /// No names.
    pub(crate) fn new(alloc: Global) -> NameTable
        ensures { result ≡ fin.empty }
    {
        NameTable {
            names: BTreeMap::new(alloc),
            counts: BTreeMap::new(alloc),
        }
    }

    /// What stands at the path.
    pub(crate) fn get(&self, at: &Path) -> Option<&Node>
        ensures { option_copied result ≡ fin.get self.now at.now }
    {
        self.names.get(at)
    }

    /// Puts a node at the path, in place of what stood there. After a refusal nothing is changed.
    pub(crate) fn insert(&mut self, at: Path, node: Node) -> Result<(), Memory>
        ensures ok { OnOk result (self.new ≡ fin.insert self.old at node) }
        ensures err { OnErr result (self.new ≡ self.old) }
    {
        // That a count of them fits is known once the names were counted.
        let _names = self.names.len();
        count_up(&mut self.counts, &node)?;
        match self.names.insert(at, node) {
            Ok(None) => Ok(()),
            Ok(Some(was)) => {
                count_down(&mut self.counts, &was);
                Ok(())
            }
            Err(failed) => {
                count_down(&mut self.counts, &failed.value.1);
                Err(Memory)
            }
        }
    }

    /// Takes the name at the path away.
    pub(crate) fn remove(&mut self, at: &Path)
        ensures { self.new ≡ fin.remove self.old at.now }
    {
        if let Some(node) = self.names.remove(at) {
            count_down(&mut self.counts, &node);
        }
    }

    /// Whether one of the names is of the file with this label.
    pub(crate) fn uses(&self, label: Label) -> bool
        ensures { result ≡ is_used self.now label }
    {
        self.counts.contains_key(&label)
    }

    /// Puts all names of a label under another one. After a refusal nothing is changed.
    pub(crate) fn relabel(&mut self, from: Label, to: Label) -> Result<(), Memory>
        requires { is_label from to ≡ false }
        ensures ok { OnOk result (self.new ≡ relabelled from to self.old) }
        ensures err { OnErr result (self.new ≡ self.old) }
    {
        let _names = self.names.len();
        count_moved(&mut self.counts, from, to)?;
        relabel(&mut self.names, from, to);
        Ok(())
    }

    /// How many names there are, and the bytes of their paths' texts.
    pub(crate) fn measure(&self) -> (usize, u128)
        ensures is { result ≡ (fin.len self.now, sum_by (λ entry. length (rooted_text entry.0)) (fin.entries self.now)) }
        ensures small { result.1 < 2 ^ 127 }
    {
        let mut bytes: u128 = 0;
        for (at, _) in &self.names {
            bytes += rooted_length(at) as u128;
        }
        (self.names.len(), bytes)
    }

    /// Whether one of the names stands below the path. If any does, then the first past the path: the time is logarithmic.
    pub(crate) fn has_below(&self, at: &Path) -> bool
        ensures { result ≡ list_any (λ entry. is_below at.now entry.0) (fin.entries self.now) }
    {
        match self
            .names
            .range((Bound::Excluded(at), Bound::Unbounded))
            .next()
        {
            None => false,
            Some((path, _)) => is_below(at, path),
        }
    }

    /// The names directly below the path, in their order. The time is that of two look-ups for each, and of one more.
    pub(crate) fn children(&self, alloc: Global, at: &Path) -> Result<Names, Memory>
        ensures names { IfOk result (λ below. below ≡ filter_map (λ entry. child_name at.now entry.0) (fin.entries self.now)) }
        ensures paths { IfOk result (λ below. All (λ name. IsPath (at.now ++ name ∷ [])) below) }
    {
        Ok(Names {
            items: names_listed(alloc, &self.names, at)?,
        })
    }

    /// Adds a copy of each name to the pairs.
    fn copy_into(&self, pairs: &mut Vec<(Path, Node)>) -> Result<(), Memory>
        ensures { OnOk result (pairs.new.items ≡ pairs.old.items ++ fin.entries self.now) }
    {
        for (at, node) in &self.names {
            pairs.push((at.copy()?, node.copy()?))?;
        }
        Ok(())
    }

    /// Whether a file or link stands above the path.
    fn hides(&self, alloc: Global, at: &Path) -> Result<bool, Memory>
        ensures { IfOk result (λ is. is ≡ hides self.now at.now) }
    {
        for depth in 0..at.names().len() {
            let folder = at.prefix(alloc, depth)?;
            if is_leaf(self.get(&folder)) {
                return Ok(true);
            }
        }
        Ok(false)
    }

    /// Adds a copy of each name that no file or link of the high table hides.
    fn copy_shown_into(
        &self,
        alloc: Global,
        pairs: &mut Vec<(Path, Node)>,
        high: &NameTable,
    ) -> Result<(), Memory>
        ensures { OnOk result (pairs.new.items ≡ pairs.old.items ++ where_key path_cmp (λ at. not (hides high.now at)) (fin.entries self.now)) }
    {
        for (at, node) in &self.names {
            if !high.hides(alloc, at)? {
                pairs.push((at.copy()?, node.copy()?))?;
            }
        }
        Ok(())
    }

    /// The same names once more.
    pub(crate) fn copy(&self, alloc: Global) -> Result<NameTable, Memory>
        ensures { IfOk result (λ t. t ≡ self.now) }
    {
        let mut pairs = Vec::new(alloc);
        self.copy_into(&mut pairs)?;
        table_of(alloc, pairs)
    }

    /// The names of one tree laid over those of another.
    pub(crate) fn over(
        alloc: Global,
        low: &NameTable,
        high: &NameTable,
    ) -> Result<NameTable, Memory>
        ensures { IfOk result (λ t. t ≡ laid (fin.retain_keys low.now (λ at. not (hides high.now at))) high.now) }
    {
        let mut pairs = Vec::new(alloc);
        high.copy_into(&mut pairs)?;
        low.copy_shown_into(alloc, &mut pairs, high)?;
        table_of(alloc, pairs)
    }

    /// The paths at which a name of the high table stands and none of this one; nothing where both have a name and not the
    /// same. The time is that of a look-up for each name of the high table.
    pub(crate) fn lacked<'a>(
        &self,
        alloc: Global,
        high: &'a NameTable,
    ) -> Result<Option<Vec<&'a Path>>, Memory>
        ensures same { IfOk result (λ found. IfSome found (λ paths. clash is_node self.now (fin.entries high.now) ≡ false)) }
        ensures paths { IfOk result (λ found. IfSome found (λ paths. paths_of paths.items ≡ lacking self.now (fin.entries high.now))) }
    {
        let mut paths = Vec::new(alloc);
        for (at, node) in &high.names {
            match self.get(at) {
                None => paths.push(at)?,
                Some(own) => {
                    if !is_node(own, node) {
                        return Ok(None);
                    }
                }
            }
        }
        Ok(Some(paths))
    }

    /// Where each name below the path moves to with it. The time is that of a look-up, and of one step for each of them.
    pub(crate) fn moves(
        &self,
        alloc: Global,
        old: &Path,
        at: &Path,
    ) -> Result<Vec<Move>, ChangeFault>
        requires { is_some (fin.get self.now old.now) ≡ true }
        ensures ok { IfOk result (λ moves. moves.items ≡ moves_below old.now at.now (fin.entries self.now)) }
        ensures fits { OnOk result (list_any (leads_too_far old.now at.now) (fin.entries self.now) ≡ false) }
        ensures err { IfErr result (λ fault. (fault ≡ no_memory) ⊎ ((fault ≡ too_long) × (list_any (leads_too_far old.now at.now) (fin.entries self.now) ≡ true))) }
    {
        if leads_too_far(old, at, old) {
            return Err(ChangeFault::TooLong);
        }
        moves_listed(alloc, &self.names, old, at)
    }
}

/// The table of the pairs; of two at one path the first.
fn table_of(alloc: Global, pairs: Vec<(Path, Node)>) -> Result<NameTable, Memory>
    ensures { IfOk result (λ t. t ≡ fin.from_entries pairs.items) }
{
    let mut pairs = pairs;
    let mut table = NameTable::new(alloc);
    while let Some((at, node)) = pairs.pop() {
        table.insert(at, node)?;
    }
    Ok(table)
}

fn is_leaf(node: Option<&Node>) -> bool
    ensures { result ≡ is_leaf (option_copied node.entry) }
{
    match node {
        Some(Node::Link(_)) | Some(Node::File(_)) => true,
        Some(Node::Dir(_)) | None => false,
    }
}

/// Whether two nodes are the same.
fn is_node(node: &Node, other: &Node) -> bool
    ensures { result ≡ is_node node.now other.now }
{
    match (node, other) {
        (Node::Dir(mode), Node::Dir(own)) => mode == own,
        (Node::Link(text), Node::Link(own)) => text == own,
        (Node::File(label), Node::File(own)) => {
            label.task == own.task && label.number == own.number
        }
        _ => false,
    }
}

/// Whether a node is a name of the file with this label.
fn has_label(label: Label, node: &Node) -> bool
    ensures { result ≡ has_label label node.now }
{
    match node {
        Node::File(own) => label.task == own.task && label.number == own.number,
        Node::Dir(_) | Node::Link(_) => false,
    }
}

/// Puts all names of a label under another one.
fn relabel(names: &mut BTreeMap<Path, Node>, from: Label, to: Label)
    ensures { names_of names.new ≡ relabelled from to (names_of names.old) }
{
    names.retain(|_, node| {
        if has_label(from, node) {
            *node = Node::File(to);
        }
        true
    });
}

fn names_listed(
    alloc: Global,
    names: &BTreeMap<Path, Node>,
    at: &Path,
) -> Result<Vec<Bytes>, Memory>
    ensures names { IfOk result (λ below. below.items ≡ filter_map (λ entry. child_name at.now entry.0) names.now.entries) }
    ensures paths { IfOk result (λ below. All (λ name. IsPath (at.now ++ name ∷ [])) below.items) }
    ensures ordered { OnOk result (IsOrdered path_cmp names.now) }
{
    let mut below = Vec::new(alloc);
    let mut from = at.copy()?;
    while let Some((path, _)) = names
        .range((Bound::Excluded(&from), Bound::Unbounded))
        .next()
    {
        if !is_below(at, path) {
            break;
        }
        if let Some(name) = child_name(at, path) {
            below.push(name.copy()?)?;
        }
        from = behind(alloc, at, path)?;
    }
    Ok(below)
}
