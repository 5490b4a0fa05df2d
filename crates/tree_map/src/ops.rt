//! What a tree of two maps does as a tree.
ghost use Rattle.tree_map.specs.Parts.{shown, sealed_by, uncounted};

use crate::labels::has_label_of;
use crate::names::NameTable;
use crate::trees::MapTree;
use br_path::{Memory, Names, Path};
use std::alloc::Global;
use std::collections::BTreeMap;
use tree_ops::{ChangeFault, Entry, Found, Node, Pen, TreeOps, Walked, resolve};

impl Walked for MapTree {
    ghost walked = { shown };

    fn found(&self, at: &Path) -> Found<'_> {
        match self.node(at) {
            None => Found::Nothing,
            Some(Node::Dir(_)) => Found::Folder,
            Some(Node::Link(text)) => Found::Link(text.as_slice()),
            Some(Node::File(_)) => Found::File,
        }
    }
}

// Each change makes the pen's task the owner of the labels that aren't sealed. That a path's names are a path is known
// once they were read.
impl TreeOps for MapTree {
    ghost tree = { shown };

    ghost sealed = { sealed_by };

    ghost copying = { uncounted };

    /// The time is constant.
    fn empty(alloc: Global) -> Result<MapTree, Memory> {
        let mut tree = MapTree {
            names: NameTable::new(alloc),
            labels: BTreeMap::new(alloc),
            owner: None,
        };
        tree.add_name(&Path::root(alloc), Node::Dir(0o755))?;
        Ok(tree)
    }

    /// The time is logarithmic in the number of names. Takes no memory.
    fn lookup(&self, at: &Path) -> Option<Entry> {
        self.node(at).map(|node| node.entry())
    }

    /// The time is logarithmic in the numbers of names and labels. Takes no memory.
    fn bytes(&self, at: &Path) -> Option<&[u8]> {
        match self.node(at)? {
            Node::File(label) => Some(self.contents(label)?.bytes.as_slice()),
            _ => None,
        }
    }

    /// The time is logarithmic in the numbers of names and labels. Takes no memory.
    fn mode(&self, at: &Path) -> Option<u16> {
        match self.node(at)? {
            Node::Dir(mode) => Some(*mode),
            Node::Link(_) => None,
            Node::File(label) => Some(self.contents(label)?.mode),
        }
    }

    /// The time is logarithmic in the number of names. Takes no memory.
    fn text(&self, at: &Path) -> Option<&[u8]> {
        match self.node(at)? {
            Node::Link(text) => Some(text.as_slice()),
            _ => None,
        }
    }

    /// The time is that of two look-ups for each name that it gives, and of one more: all that stands below one of them is
    /// passed over at once.
    fn children(&self, alloc: Global, at: &Path) -> Result<Names, Memory> {
        self.names.children(alloc, at)
    }

    /// The time is that of a look-up for each component of the walk and of the links that it follows.
    fn resolve(&self, alloc: Global, walk: &[u8], follow: bool) -> Result<Path, ChangeFault> {
        resolve(alloc, self, walk, follow)
    }

    /// The time is logarithmic in the numbers of names and labels, except for the bytes that are copied.
    fn make_file(
        &mut self,
        alloc: Global,
        at: &Path,
        mode: u16,
        bytes: &[u8],
        pen: &mut Pen,
    ) -> Result<(), ChangeFault> {
        let task = pen.task;
        let _names = at.names();
        let result = MapTree::make_file(self, alloc, at, mode, bytes, pen);
        self.owner = Some(task);
        result
    }

    /// The time is logarithmic in the numbers of names and labels, except for the bytes that are copied. If the file's
    /// label is another task's, the time is linear in the number of all names.
    fn write(
        &mut self,
        alloc: Global,
        at: &Path,
        bytes: &[u8],
        pen: &mut Pen,
    ) -> Result<(), ChangeFault> {
        let task = pen.task;
        let result = MapTree::write(self, alloc, at, bytes, pen);
        self.owner = Some(task);
        result
    }

    /// The time is logarithmic in the numbers of names and labels, except for the bytes that are copied. If the file's
    /// label is another task's, the time is linear in the number of all names.
    fn append(
        &mut self,
        alloc: Global,
        at: &Path,
        bytes: &[u8],
        pen: &mut Pen,
    ) -> Result<(), ChangeFault> {
        let task = pen.task;
        let result = MapTree::append(self, alloc, at, bytes, pen);
        self.owner = Some(task);
        result
    }

    /// The time is logarithmic in the numbers of names and labels, except for the bytes that are copied. If the file's
    /// label is another task's, the time is linear in the number of all names.
    fn set_mode(
        &mut self,
        alloc: Global,
        at: &Path,
        mode: u16,
        pen: &mut Pen,
    ) -> Result<(), ChangeFault> {
        let task = pen.task;
        let result = MapTree::set_mode(self, alloc, at, mode, pen);
        self.owner = Some(task);
        result
    }

    /// The time is logarithmic in the numbers of names and labels.
    fn link(
        &mut self,
        alloc: Global,
        old: &Path,
        at: &Path,
        pen: &mut Pen,
    ) -> Result<(), ChangeFault> {
        let task = pen.task;
        let _names = at.names();
        let result = MapTree::link(self, alloc, old, at, pen);
        self.owner = Some(task);
        result
    }

    /// The time is logarithmic in the number of names.
    fn symlink(
        &mut self,
        alloc: Global,
        at: &Path,
        text: &[u8],
        pen: &mut Pen,
    ) -> Result<(), ChangeFault> {
        let task = pen.task;
        let _names = at.names();
        let result = MapTree::symlink(self, alloc, at, text, pen);
        self.owner = Some(task);
        result
    }

    /// The time is logarithmic in the number of names.
    fn mkdir(
        &mut self,
        alloc: Global,
        at: &Path,
        mode: u16,
        pen: &mut Pen,
    ) -> Result<(), ChangeFault> {
        let task = pen.task;
        let _names = at.names();
        let result = MapTree::mkdir(self, alloc, at, mode, pen);
        self.owner = Some(task);
        result
    }

    /// The time is logarithmic in the numbers of names and labels. Takes no memory.
    fn remove(&mut self, alloc: Global, at: &Path, pen: &mut Pen) -> Result<(), ChangeFault> {
        let task = pen.task;
        let result = MapTree::remove(self, alloc, at, pen);
        self.owner = Some(task);
        result
    }

    /// With n names in the tree, of which m move, the time is in proportion to m log n.
    fn rename(
        &mut self,
        alloc: Global,
        old: &Path,
        at: &Path,
        pen: &mut Pen,
    ) -> Result<(), ChangeFault> {
        let task = pen.task;
        let _names = at.names();
        let result = MapTree::rename(self, alloc, old, at, pen);
        self.owner = Some(task);
        result
    }

    /// Where nothing of the other tree stands against this one, as where both were filled from the same trees, only what
    /// this one lacks is copied: the time is that of a look-up for each name and label of the other tree, of another for
    /// each that is added, and of reading the bytes that both have. Else, with n names and labels in both trees, the time
    /// is in proportion to n log n, and for each name of this tree there are as many look-ups as it has folders above it.
    fn populate(
        &mut self,
        alloc: Global,
        from: &MapTree,
        pen: &mut Pen,
    ) -> Result<(), ChangeFault> {
        let task = pen.task;
        let result = MapTree::populate(self, alloc, from, pen);
        self.owner = Some(task);
        result
    }

    /// With n names and labels the time is in proportion to n log n. Both trees then have the same bytes in memory.
    fn copy(&self, alloc: Global) -> Result<MapTree, Memory> {
        MapTree::copy(self, alloc)
    }

    /// The time is constant. Takes no memory.
    fn seal(self, _alloc: Global) -> Result<MapTree, Memory> {
        Ok(MapTree::seal(self))
    }

    /// The time is linear in the number of labels. Takes no memory.
    fn is_sealed(&self) -> bool {
        match self.owner {
            None => true,
            Some(task) => !has_label_of(&self.labels, task),
        }
    }
}
