//! Trees that are kept as two plain maps.
ghost use Rattle.std.specs.Prelude.{◌≡◌, OnOk, OnErr};
ghost use Rattle.std.specs.FinMap as fin;
ghost use Rattle.std.specs.Option.{option_copied};
ghost use Rattle.br_path.specs.Path.{parent_of};
ghost use Rattle.tree_ops.specs.Tree.{node_at};
ghost use Rattle.tree_ops.specs.Change.{new_name_fault, no_folder_fault, parent_fault, IsChecked, IsChange, MakeDir, MakeLink, Remove, Rename, Populate, MakeFile, count_if, Write, Append, SetMode, AddName, has_names, remove_fault, replace_fault, label_of, recounted, contents_at, with_contents, is_own};
ghost use Rattle.tree_map.specs.NameTable.{is_label};
ghost use Rattle.tree_map.specs.Parts.{shown, with_name, without_name, with_label, without_label, without_unused, renewed, IsFile, IsRemovable, without_gone, move_fault};
ghost use Rattle.std.specs.Prelude.{None, Some, false, true, IfOk, is_some, ◌+◌, ◌++◌, length, ◌<◌, ◌^◌};
ghost use Rattle.tree_ops.specs.Tree.{is_dir};
ghost use Rattle.tree_ops.specs.Held.{IsSealed};
ghost use Rattle.tree_map.specs.Parts.{sealed_by, uncounted};
ghost use Rattle.br_path.specs.Path.{Names};
ghost use Rattle.tree_ops.specs.Change.{is_path};
ghost use Rattle.tree_ops.specs.Pen.{counts_of, with_counts, within_limits};
ghost use Rattle.tree_ops.specs.Tree.{Tree, IsTree};
ghost use Rattle.tree_map.specs.Moving.{counts_moved};
ghost use Rattle.tree_map.specs.Lacking.{AreLacking, clash, is_node, lacking, paths_of};
ghost use Rattle.tree_ops.specs.Tree.{laid, over};

use crate::adding::{add_lacked_labels, measure_paths};
use crate::labels::{labels_again, labels_lacked, labels_over, set_back};
use crate::names::NameTable;
use crate::paths::{is_below, is_path};
use crate::shared::SharedContents;
use br_path::{Bytes, Memory, Path};
use std::alloc::Global;
use std::collections::BTreeMap;
use tree_ops::{ChangeFault, Contents, LENGTH_LIMIT, Label, Node, Pen, rooted_length};

/// A tree as a map from paths to nodes and one from labels to contents. It also keeps how many names each label has.
///
/// A look-up takes time logarithmic in the number of names, and no memory. What the other calls take stands at each.
/// Trees that are copied or filled from one another own the bytes of their files together.
#[derive(Drop)]
pub struct MapTree {
    pub(crate) names: NameTable,
    pub(crate) labels: BTreeMap<Label, SharedContents>,
    /// The task whose labels aren't sealed.
    pub(crate) owner: Option<u32>,
}

impl MapTree {
    /// What stands at the path.
    pub(crate) fn node(&self, at: &Path) -> Option<&Node>
        ensures { option_copied result ≡ node_at (shown self.now) at.now }
    {
        self.names.get(at)
    }

    fn shared_contents(&self, label: &Label) -> Option<&SharedContents>
        ensures { option_copied result ≡ fin.get (shown self.now).labels label.now }
    {
        self.labels.get(label)
    }

    /// What the label stands for.
    pub(crate) fn contents(&self, label: &Label) -> Option<&Contents>
        ensures { option_copied result ≡ fin.get (shown self.now).labels label.now }
    {
        match self.shared_contents(label) {
            None => None,
            Some(contents) => Some(contents.get()),
        }
    }

    /// Refuses a path at which no folder stands.
    fn check_folder(&self, at: &Path) -> Result<(), ChangeFault>
        ensures { IsChecked (no_folder_fault (node_at (shown self.now) at.now)) result }
    {
        match self.node(at) {
            None => Err(ChangeFault::Absent),
            Some(Node::Dir(_)) => Ok(()),
            Some(_) => Err(ChangeFault::NotDir),
        }
    }

    /// Refuses a path whose parent is missing or no folder.
    fn check_parent(&self, alloc: Global, at: &Path) -> Result<(), ChangeFault>
        ensures { IsChecked (parent_fault (shown self.now) (parent_of at.now)) result }
    {
        match at.parent(alloc)? {
            None => Ok(()),
            Some(parent) => self.check_folder(&parent),
        }
    }

    /// Refuses a path at which no new name can stand.
    fn check_new_name(&self, alloc: Global, at: &Path) -> Result<(), ChangeFault>
        ensures { IsChecked (new_name_fault (shown self.now) at.now) result }
    {
        self.check_parent(alloc, at)?;
        if self.node(at).is_some() {
            return Err(ChangeFault::Present);
        }
        if rooted_length(at) > LENGTH_LIMIT {
            return Err(ChangeFault::TooLong);
        }
        Ok(())
    }

    /// Puts a node at the path. After a refusal nothing is changed.
    pub(crate) fn add_name(&mut self, at: &Path, node: Node) -> Result<(), Memory>
        ensures ok { OnOk result (shown self.new ≡ with_name (shown self.old) at.now node) }
        ensures err { OnErr result (shown self.new ≡ shown self.old) }
    {
        self.names.insert(at.copy()?, node)
    }

    /// Lets a label stand for these contents. After a refusal nothing is changed.
    fn add_label(&mut self, label: Label, contents: SharedContents) -> Result<(), Memory>
        ensures ok { OnOk result (shown self.new ≡ with_label (shown self.old) label contents) }
        ensures err { OnErr result (shown self.new ≡ shown self.old) }
    {
        self.labels.insert(label, contents)?;
        Ok(())
    }

    /// Takes the name at the path away.
    fn drop_name(&mut self, at: &Path)
        ensures { shown self.new ≡ without_name (shown self.old) at.now }
    {
        self.names.remove(at);
    }

    fn drop_label(&mut self, label: &Label)
        ensures { shown self.new ≡ without_label (shown self.old) label.now }
    {
        self.labels.remove(label);
    }

    fn drop_unused(&mut self, label: Label)
        ensures { shown self.new ≡ without_unused (shown self.old) label }
    {
        if !self.names.uses(label) {
            self.drop_label(&label);
        }
    }

    /// The label of the file at the path.
    fn file(&self, at: &Path) -> Result<Label, ChangeFault>
        ensures { IsFile (node_at (shown self.now) at.now) result }
    {
        match self.node(at) {
            None => Err(ChangeFault::Absent),
            Some(Node::Dir(_)) => Err(ChangeFault::IsDir),
            Some(Node::Link(_)) => Err(ChangeFault::IsLink),
            Some(Node::File(label)) => Ok(*label),
        }
    }

    /// The mode that a label stands for.
    fn mode_of(&self, label: Label) -> u16
        ensures { result ≡ (contents_at (shown self.now) label).mode }
    {
        match self.contents(&label) {
            None => 0,
            Some(contents) => contents.mode,
        }
    }

    /// Gives a file another label at all its names, which stands for these contents. After a refusal nothing is changed.
    fn renew(&mut self, from: Label, to: Label, contents: SharedContents) -> Result<(), Memory>
        requires { is_label from to ≡ false }
        ensures ok { OnOk result (shown self.new ≡ renewed (shown self.old) from to contents) }
        ensures err { OnErr result (shown self.new ≡ shown self.old) }
    {
        let before = self.labels.insert(to, contents)?;
        match self.names.relabel(from, to) {
            Ok(()) => {
                self.drop_label(&from);
                Ok(())
            }
            Err(memory) => {
                set_back(&mut self.labels, to, before);
                Err(memory)
            }
        }
    }

    /// Gives a file other contents: in its place where the label is the task's own; else all its names get the task's next label first.
    fn put_contents(
        &mut self,
        label: Label,
        contents: SharedContents,
        pen: &Pen,
    ) -> Result<(), Memory>
        ensures ok { OnOk result (shown self.new ≡ with_contents (shown self.old, counts_of pen.now) label contents) }
        ensures err { OnErr result (shown self.new ≡ shown self.old) }
    {
        if label.task == pen.task {
            return self.add_label(label, contents);
        }
        self.renew(label, pen.next_label(), contents)
    }

    pub(crate) fn mkdir(
        &mut self,
        alloc: Global,
        at: &Path,
        mode: u16,
        pen: &mut Pen,
    ) -> Result<(), ChangeFault>
        ensures { IsChange uncounted (MakeDir at.now mode) (shown self.old, pen.old) result (shown self.new, pen.new) }
    {
        self.check_new_name(alloc, at)?;
        let after = match pen.with_name(at) {
            None => return Err(ChangeFault::NoSpace),
            Some(after) => after,
        };
        self.add_name(at, Node::Dir(mode))?;
        *pen = after;
        Ok(())
    }

    pub(crate) fn write(
        &mut self,
        alloc: Global,
        at: &Path,
        bytes: &[u8],
        pen: &mut Pen,
    ) -> Result<(), ChangeFault>
        ensures { IsChange uncounted (Write at.now bytes.now) (shown self.old, pen.old) result (shown self.new, pen.new) }
    {
        let label = self.file(at)?;
        let after = match pen.charged(label.task != pen.task, bytes.len()) {
            None => return Err(ChangeFault::NoSpace),
            Some(after) => after,
        };
        let bytes = Bytes::from_slice(alloc, bytes)?;
        let contents = SharedContents::new(alloc, self.mode_of(label), bytes)?;
        self.put_contents(label, contents, pen)?;
        *pen = after;
        Ok(())
    }

    pub(crate) fn link(
        &mut self,
        alloc: Global,
        old: &Path,
        at: &Path,
        pen: &mut Pen,
    ) -> Result<(), ChangeFault>
        ensures { IsChange uncounted (AddName old.now at.now) (shown self.old, pen.old) result (shown self.new, pen.new) }
    {
        let label = self.file(old)?;
        self.check_new_name(alloc, at)?;
        let after = match pen.with_name(at) {
            None => return Err(ChangeFault::NoSpace),
            Some(after) => after,
        };
        self.add_name(at, Node::File(label))?;
        *pen = after;
        Ok(())
    }

    pub(crate) fn symlink(
        &mut self,
        alloc: Global,
        at: &Path,
        text: &[u8],
        pen: &mut Pen,
    ) -> Result<(), ChangeFault>
        ensures { IsChange uncounted (MakeLink at.now text.now) (shown self.old, pen.old) result (shown self.new, pen.new) }
    {
        self.check_new_name(alloc, at)?;
        let after = match pen.with_name(at) {
            None => return Err(ChangeFault::NoSpace),
            Some(after) => after,
        };
        self.add_name(at, Node::Link(Bytes::from_slice(alloc, text)?))?;
        *pen = after;
        Ok(())
    }

    /// Whether something stands below the path.
    fn has_names(&self, at: &Path) -> bool
        ensures { result ≡ has_names (shown self.now) at.now }
    {
        self.names.has_below(at)
    }

    /// The label of what can be taken away.
    fn check_remove(&self, at: &Path) -> Result<Option<Label>, ChangeFault>
        ensures { IsRemovable (shown self.now) at.now (node_at (shown self.now) at.now) result }
    {
        match self.node(at) {
            None => Err(ChangeFault::Absent),
            Some(Node::Dir(_)) => {
                if self.has_names(at) {
                    return Err(ChangeFault::NotEmpty);
                }
                Ok(None)
            }
            Some(Node::Link(_)) => Ok(None),
            Some(Node::File(label)) => Ok(Some(*label)),
        }
    }

    /// Forgets a label that no name has any more.
    fn drop_gone(&mut self, gone: Option<Label>)
        ensures { shown self.new ≡ without_gone (shown self.old) gone }
    {
        match gone {
            None => {}
            Some(label) => self.drop_unused(label),
        }
    }

    pub(crate) fn remove(
        &mut self,
        alloc: Global,
        at: &Path,
        pen: &mut Pen,
    ) -> Result<(), ChangeFault>
        ensures { IsChange uncounted (Remove at.now) (shown self.old, pen.old) result (shown self.new, pen.new) }
    {
        if is_path(at, &Path::root(alloc)) {
            return Err(ChangeFault::Outside);
        }
        let gone = self.check_remove(at)?;
        let after = match pen.without_name(at) {
            None => return Err(ChangeFault::NoSpace),
            Some(after) => after,
        };
        self.drop_name(at);
        self.drop_gone(gone);
        *pen = after;
        Ok(())
    }

    /// Refuses a move onto what can't be replaced.
    fn check_replace(&self, at: &Path, old: &Path) -> Result<(), ChangeFault>
        ensures { IsChecked (replace_fault (shown self.now) at.now (node_at (shown self.now) at.now) (node_at (shown self.now) old.now)) result }
    {
        match (self.node(at), self.node(old)) {
            (None, _) => Ok(()),
            (Some(Node::Dir(_)), Some(Node::Dir(_))) => {
                if self.has_names(at) {
                    return Err(ChangeFault::NotEmpty);
                }
                Ok(())
            }
            (Some(Node::Dir(_)), _) => Err(ChangeFault::IsDir),
            (Some(_), Some(Node::Dir(_))) => Err(ChangeFault::NotDir),
            (Some(_), _) => Ok(()),
        }
    }

    /// The label of the file at the path, if one stands there.
    fn label_at(&self, at: &Path) -> Option<Label>
        ensures { result ≡ label_of (node_at (shown self.now) at.now) }
    {
        match self.node(at) {
            Some(Node::File(label)) => Some(*label),
            _ => None,
        }
    }

    /// The pen after other names, unless a count passes its limit.
    fn counted(&self, names: &NameTable, pen: &Pen) -> Option<Pen>
        ensures { (new : Tree) → new.names ≡ names.now → result ≡ within_limits (with_counts pen.now (recounted (counts_of pen.now) (shown self.now) new)) }
    {
        pen.counted_anew(self.names.measure(), names.measure())
    }

    /// Adds the names and labels of another tree that this one lacks. After a refusal nothing is changed.
    fn add_lacked(
        &mut self,
        from: &MapTree,
        paths: &[&Path],
        labels: &[Label],
    ) -> Result<(), Memory>
        requires low { IsTree (shown self.old) }
        requires high { IsTree (shown from.now) }
        requires lacking { AreLacking (shown self.old) (shown from.now) (paths_of paths.now) labels.now }
        ensures ok { OnOk result (shown self.new ≡ over (shown self.old) (shown from.now)) }
        ensures err { OnErr result (shown self.new ≡ shown self.old) }
    {
        self.names.add_lacked(&from.names, paths)?;
        match add_lacked_labels(&mut self.labels, &from.labels, labels) {
            Ok(()) => Ok(()),
            Err(memory) => {
                self.names.remove_all(paths);
                Err(memory)
            }
        }
    }

    /// The pen after another tree's names at these paths are added, unless a count passes its limit.
    fn counted_lacked(&self, from: &MapTree, paths: &[&Path], pen: &Pen) -> Option<Pen>
        requires same { clash is_node (shown self.now).names (fin.entries (shown from.now).names) ≡ false }
        requires lacked { paths_of paths.now ≡ lacking (shown self.now).names (fin.entries (shown from.now).names) }
        ensures { (new : Tree) → new.names ≡ laid (shown self.now).names (shown from.now).names → result ≡ within_limits (with_counts pen.now (recounted (counts_of pen.now) (shown self.now) new)) }
    {
        pen.counted_anew((0, 0), measure_paths(paths))
    }

    /// Lays another tree over this one where nothing of it stands against this one: what this one lacks is added.
    fn populate_lacked(
        &mut self,
        from: &MapTree,
        paths: &[&Path],
        labels: &[Label],
        pen: &mut Pen,
    ) -> Result<(), ChangeFault>
        requires low { IsTree (shown self.old) }
        requires high { IsTree (shown from.now) }
        requires lacking { AreLacking (shown self.old) (shown from.now) (paths_of paths.now) labels.now }
        ensures { IsChange uncounted (Populate (shown from.now)) (shown self.old, pen.old) result (shown self.new, pen.new) }
    {
        let after = match self.counted_lacked(from, paths, pen) {
            None => return Err(ChangeFault::NoSpace),
            Some(after) => after,
        };
        self.add_lacked(from, paths, labels)?;
        *pen = after;
        Ok(())
    }

    /// Lays another tree over this one, whatever stands in both: all names and labels are put together anew.
    fn populate_anew(
        &mut self,
        alloc: Global,
        from: &MapTree,
        pen: &mut Pen,
    ) -> Result<(), ChangeFault>
        ensures { IsChange uncounted (Populate (shown from.now)) (shown self.old, pen.old) result (shown self.new, pen.new) }
    {
        let names = NameTable::over(alloc, &self.names, &from.names)?;
        let labels = labels_over(alloc, &self.labels, &from.labels, &names)?;
        let after = match self.counted(&names, pen) {
            None => return Err(ChangeFault::NoSpace),
            Some(after) => after,
        };
        self.names = names;
        self.labels = labels;
        *pen = after;
        Ok(())
    }

    pub(crate) fn populate(
        &mut self,
        alloc: Global,
        from: &MapTree,
        pen: &mut Pen,
    ) -> Result<(), ChangeFault>
        requires low { IsTree (shown self.old) }
        requires high { IsTree (shown from.now) }
        ensures { IsChange uncounted (Populate (shown from.now)) (shown self.old, pen.old) result (shown self.new, pen.new) }
    {
        let paths = match self.names.lacked(alloc, &from.names)? {
            None => return self.populate_anew(alloc, from, pen),
            Some(paths) => paths,
        };
        let labels = match labels_lacked(alloc, &self.labels, &from.labels)? {
            None => return self.populate_anew(alloc, from, pen),
            Some(labels) => labels,
        };
        self.populate_lacked(from, paths.as_slice(), labels.as_slice(), pen)
    }

    /// Refuses a move, except for the lengths of paths and the limits.
    fn check_move(&self, alloc: Global, old: &Path, at: &Path) -> Result<(), ChangeFault>
        ensures { IsChecked (move_fault (shown self.now) old.now at.now None) result }
    {
        let root = Path::root(alloc);
        if is_path(old, &root) || is_path(at, &root) {
            return Err(ChangeFault::Outside);
        }
        if self.node(old).is_none() {
            return Err(ChangeFault::Absent);
        }
        if is_path(old, at) {
            return Ok(());
        }
        if is_below(old, at) {
            return Err(ChangeFault::Loop);
        }
        self.check_parent(alloc, at)?;
        self.check_replace(at, old)
    }

    /// The pen after a move of a name and so many below it, unless a count passes its limit.
    fn counted_move(&self, old: &Path, at: &Path, below: usize, pen: &Pen) -> Option<Pen>
        requires { below < 2 ^ 63 }
        ensures { result ≡ within_limits (with_counts pen.now (counts_moved (counts_of pen.now) old.now at.now (below + 1) (is_some (node_at (shown self.now) at.now)))) }
    {
        let count = below + 1;
        let gone = usize::from(self.node(at).is_some());
        let was = rooted_length(old) as u128;
        let is = rooted_length(at) as u128;
        pen.counted_anew(
            (count + gone, count as u128 * was + gone as u128 * is),
            (count, count as u128 * is),
        )
    }

    /// Moves a name and all below it to another path.
    fn move_names(
        &mut self,
        alloc: Global,
        old: &Path,
        at: &Path,
        pen: &mut Pen,
    ) -> Result<(), ChangeFault>
        requires sound { IsTree (shown self.old) }
        requires refused { move_fault (shown self.old) old.now at.now None ≡ None }
        requires other { is_path old.now at.now ≡ false }
        ensures { IsChange uncounted (Rename old.now at.now) (shown self.old, pen.old) result (shown self.new, pen.new) }
    {
        let moves = match self.names.moves(alloc, old, at) {
            Err(fault) => return Err(fault),
            Ok(moves) => moves,
        };
        let after = match self.counted_move(old, at, moves.len(), pen) {
            None => return Err(ChangeFault::NoSpace),
            Some(after) => after,
        };
        let gone = self.label_at(at);
        self.names.carry(old, at, moves.as_slice())?;
        self.drop_gone(gone);
        *pen = after;
        Ok(())
    }

    pub(crate) fn rename(
        &mut self,
        alloc: Global,
        old: &Path,
        at: &Path,
        pen: &mut Pen,
    ) -> Result<(), ChangeFault>
        requires { IsTree (shown self.old) }
        ensures { IsChange uncounted (Rename old.now at.now) (shown self.old, pen.old) result (shown self.new, pen.new) }
    {
        match self.check_move(alloc, old, at) {
            Err(fault) => return Err(fault),
            Ok(()) => {}
        }
        if is_path(old, at) {
            return match pen.if_within_limits() {
                None => Err(ChangeFault::NoSpace),
                Some(_) => Ok(()),
            };
        }
        self.move_names(alloc, old, at, pen)
    }

    /// The bytes that a label stands for.
    fn bytes_of(&self, label: Label) -> &[u8]
        ensures { result.now ≡ (contents_at (shown self.now) label).bytes }
    {
        match self.contents(&label) {
            None => &[],
            Some(contents) => contents.bytes.as_slice(),
        }
    }

    /// How many bytes a change copies that draws a label.
    fn copied_len(&self, draws: bool, label: Label) -> usize
        ensures len { result ≡ count_if draws (length (contents_at (shown self.now) label).bytes) }
        ensures small { result < 2 ^ 63 }
    {
        if draws {
            return self.bytes_of(label).len();
        }
        0
    }

    pub(crate) fn append(
        &mut self,
        alloc: Global,
        at: &Path,
        bytes: &[u8],
        pen: &mut Pen,
    ) -> Result<(), ChangeFault>
        ensures { IsChange uncounted (Append at.now bytes.now) (shown self.old, pen.old) result (shown self.new, pen.new) }
    {
        let label = self.file(at)?;
        let draws = label.task != pen.task;
        let copied = self.copied_len(draws, label);
        let after = match pen.charged(draws, bytes.len() + copied) {
            None => return Err(ChangeFault::NoSpace),
            Some(after) => after,
        };
        let bytes = joined(alloc, self.bytes_of(label), bytes)?;
        let contents = SharedContents::new(alloc, self.mode_of(label), bytes)?;
        self.put_contents(label, contents, pen)?;
        *pen = after;
        Ok(())
    }

    /// Sets the mode of a file.
    fn set_file_mode(
        &mut self,
        alloc: Global,
        label: Label,
        mode: u16,
        pen: &mut Pen,
    ) -> Result<(), ChangeFault>
        ensures { (at : Names) → node_at (shown self.old) at ≡ Some (Node.File label) → IsChange uncounted (SetMode at mode) (shown self.old, pen.old) result (shown self.new, pen.new) }
    {
        let draws = label.task != pen.task;
        let copied = self.copied_len(draws, label);
        let after = match pen.charged(draws, copied) {
            None => return Err(ChangeFault::NoSpace),
            Some(after) => after,
        };
        let bytes = Bytes::from_slice(alloc, self.bytes_of(label))?;
        let contents = SharedContents::new(alloc, mode, bytes)?;
        self.put_contents(label, contents, pen)?;
        *pen = after;
        Ok(())
    }

    /// Sets the mode of a folder.
    fn set_dir_mode(&mut self, at: &Path, mode: u16, pen: &mut Pen) -> Result<(), ChangeFault>
        requires { is_dir (node_at (shown self.old) at.now) ≡ true }
        ensures { IsChange uncounted (SetMode at.now mode) (shown self.old, pen.old) result (shown self.new, pen.new) }
    {
        let after = match pen.if_within_limits() {
            None => return Err(ChangeFault::NoSpace),
            Some(after) => after,
        };
        self.add_name(at, Node::Dir(mode))?;
        *pen = after;
        Ok(())
    }

    /// Puts a file at a path where nothing stands, and lets its label stand for these contents. After a refusal
    /// nothing is changed.
    fn add_file(&mut self, at: &Path, label: Label, contents: SharedContents) -> Result<(), Memory>
        requires { node_at (shown self.old) at.now ≡ None }
        ensures ok { OnOk result (shown self.new ≡ with_label (with_name (shown self.old) at.now (Node.File label)) label contents) }
        ensures err { OnErr result (shown self.new ≡ shown self.old) }
    {
        self.add_name(at, Node::File(label))?;
        match self.add_label(label, contents) {
            Ok(()) => Ok(()),
            Err(memory) => {
                self.drop_name(at);
                Err(memory)
            }
        }
    }

    pub(crate) fn make_file(
        &mut self,
        alloc: Global,
        at: &Path,
        mode: u16,
        bytes: &[u8],
        pen: &mut Pen,
    ) -> Result<(), ChangeFault>
        ensures { IsChange uncounted (MakeFile at.now mode bytes.now) (shown self.old, pen.old) result (shown self.new, pen.new) }
    {
        self.check_new_name(alloc, at)?;
        let after = match pen.with_file(at, bytes) {
            None => return Err(ChangeFault::NoSpace),
            Some(after) => after,
        };
        let bytes = Bytes::from_slice(alloc, bytes)?;
        let contents = SharedContents::new(alloc, mode, bytes)?;
        self.add_file(at, pen.next_label(), contents)?;
        *pen = after;
        Ok(())
    }

    pub(crate) fn set_mode(
        &mut self,
        alloc: Global,
        at: &Path,
        mode: u16,
        pen: &mut Pen,
    ) -> Result<(), ChangeFault>
        ensures { IsChange uncounted (SetMode at.now mode) (shown self.old, pen.old) result (shown self.new, pen.new) }
    {
        let label = match self.node(at) {
            None => return Err(ChangeFault::Absent),
            Some(Node::Link(_)) => return Err(ChangeFault::IsLink),
            Some(Node::Dir(_)) => return self.set_dir_mode(at, mode, pen),
            Some(Node::File(label)) => *label,
        };
        self.set_file_mode(alloc, label, mode, pen)
    }

    /// The same tree once more, with all its labels sealed.
    pub(crate) fn copy(&self, alloc: Global) -> Result<MapTree, Memory>
        ensures tree { IfOk result (λ t. shown t ≡ shown self.now) }
        ensures sealed { IfOk result (λ t. IsSealed (shown t) (sealed_by t)) }
    {
        Ok(MapTree {
            names: self.names.copy(alloc)?,
            labels: labels_again(alloc, &self.labels)?,
            owner: None,
        })
    }

    /// The same tree with all its labels sealed.
    pub(crate) fn seal(self) -> MapTree
        ensures tree { shown result ≡ shown self }
        ensures sealed { IsSealed (shown result) (sealed_by result) }
    {
        MapTree {
            names: self.names,
            labels: self.labels,
            owner: None,
        }
    }
}

/// Bytes, and others after them.
fn joined(alloc: Global, front: &[u8], back: &[u8]) -> Result<Bytes, Memory>
    ensures { IfOk result (λ b. b ≡ front.now ++ back.now) }
{
    let mut items = Vec::from_slice(alloc, front)?;
    items.extend_from_slice(back)?;
    Ok(Bytes { items })
}
