//! What every kind of tree can do.
ghost use Rattle.std.specs.Prelude.{◌≡◌, ◌≤◌, ◌↔◌, IfOk, IsTrue, [], ◌∷◌, ◌++◌, All, ℕ, Bool};
ghost use Rattle.std.specs.Option.{option_copied};
ghost use Rattle.tree_ops.specs.declared.entry.Label.{Label as label_of};
ghost use Rattle.tree_ops.specs.Tree.{Tree, IsTree, IsLinkText, empty_tree, entry_at, bytes_at, mode_at, text_at, names_below};
ghost use Rattle.br_path.specs.Path.{IsPath};
ghost use Rattle.tree_ops.specs.Walk.{resolved, IsWalk};
ghost use Rattle.br_path.specs.Gives.{Gives};
ghost use Rattle.tree_ops.specs.declared.change.ChangeFault.TheVariants.{Memory as no_memory};
ghost use Rattle.tree_ops.specs.Change.{MakeFile, Write, Append, SetMode, AddName, MakeLink, MakeDir, Remove, Rename, Populate, IsChange};
ghost use Rattle.tree_ops.specs.Pen.{counts_of};
ghost use Rattle.tree_ops.specs.Held.{IsHeld, IsSealed, IsForeign};

use crate::change::ChangeFault;
use crate::entry::Entry;
use crate::pen::Pen;
use br_path::{Memory, Names, Path};
use std::alloc::Global;

/// A tree, however it is kept. Each call means what it does to the tree as a whole map.
pub trait TreeOps: Drop {
    /// The tree that it stands for.
    ghost tree: { Self → Tree };

    /// Which of its labels are sealed.
    ghost sealed: { Self → label_of → Bool };

    /// What a pen's `copied` becomes: by what it was, and by how many bytes of another task's file had to be copied.
    ghost copying: { ℕ → ℕ → ℕ };

    /// The root alone, with mode 0o755.
    fn empty(alloc: Global) -> Result<Self, Memory>
        ensures { IfOk result (λ t. tree t ≡ empty_tree) };

    /// What stands at the path.
    fn lookup(&self, at: &Path) -> Option<Entry>
        ensures { result ≡ entry_at (tree self.now) at.now };

    /// The bytes of the file at the path.
    fn bytes(&self, at: &Path) -> Option<&[u8]>
        ensures { option_copied result ≡ bytes_at (tree self.now) at.now };

    /// The mode of the file or folder at the path.
    fn mode(&self, at: &Path) -> Option<u16>
        ensures { result ≡ mode_at (tree self.now) at.now };

    /// The text of the link at the path.
    fn text(&self, at: &Path) -> Option<&[u8]>
        ensures { option_copied result ≡ text_at (tree self.now) at.now };

    /// The names directly below a folder, in byte order.
    fn children(&self, alloc: Global, at: &Path) -> Result<Names, Memory>
        ensures names { IfOk result (λ names. names ≡ names_below (tree self.now) at.now) }
        ensures paths { IfOk result (λ names. All (λ name. IsPath (at.now ++ name ∷ [])) names) };

    /// Where a walk leads.
    fn resolve(&self, alloc: Global, walk: &[u8], follow: bool) -> Result<Path, ChangeFault>
        requires walk { IsWalk walk.now }
        requires sound { IsTree (tree self.now) }
        ensures { Gives no_memory (resolved (tree self.now) walk.now follow) result };

    /// Makes a file with the pen's next label.
    fn make_file(
        &mut self,
        alloc: Global,
        at: &Path,
        mode: u16,
        bytes: &[u8],
        pen: &mut Pen,
    ) -> Result<(), ChangeFault>
        requires mode { mode ≤ 4095 }
        requires held { IsHeld (tree self.old) (sealed self.old) (counts_of pen.old) }
        ensures change { IsChange copying (MakeFile at.now mode bytes.now) (tree self.old, pen.old) result (tree self.new, pen.new) }
        ensures held { IsHeld (tree self.new) (sealed self.new) (counts_of pen.new) };

    /// Replaces the contents of a file, at all its names.
    fn write(
        &mut self,
        alloc: Global,
        at: &Path,
        bytes: &[u8],
        pen: &mut Pen,
    ) -> Result<(), ChangeFault>
        requires held { IsHeld (tree self.old) (sealed self.old) (counts_of pen.old) }
        ensures change { IsChange copying (Write at.now bytes.now) (tree self.old, pen.old) result (tree self.new, pen.new) }
        ensures held { IsHeld (tree self.new) (sealed self.new) (counts_of pen.new) };

    /// Adds to the contents of a file, at all its names.
    fn append(
        &mut self,
        alloc: Global,
        at: &Path,
        bytes: &[u8],
        pen: &mut Pen,
    ) -> Result<(), ChangeFault>
        requires held { IsHeld (tree self.old) (sealed self.old) (counts_of pen.old) }
        ensures change { IsChange copying (Append at.now bytes.now) (tree self.old, pen.old) result (tree self.new, pen.new) }
        ensures held { IsHeld (tree self.new) (sealed self.new) (counts_of pen.new) };

    /// Sets the mode of a file, at all its names, or of a folder.
    fn set_mode(
        &mut self,
        alloc: Global,
        at: &Path,
        mode: u16,
        pen: &mut Pen,
    ) -> Result<(), ChangeFault>
        requires mode { mode ≤ 4095 }
        requires held { IsHeld (tree self.old) (sealed self.old) (counts_of pen.old) }
        ensures change { IsChange copying (SetMode at.now mode) (tree self.old, pen.old) result (tree self.new, pen.new) }
        ensures held { IsHeld (tree self.new) (sealed self.new) (counts_of pen.new) };

    /// Makes one more name of a file.
    fn link(
        &mut self,
        alloc: Global,
        old: &Path,
        at: &Path,
        pen: &mut Pen,
    ) -> Result<(), ChangeFault>
        requires held { IsHeld (tree self.old) (sealed self.old) (counts_of pen.old) }
        ensures change { IsChange copying (AddName old.now at.now) (tree self.old, pen.old) result (tree self.new, pen.new) }
        ensures held { IsHeld (tree self.new) (sealed self.new) (counts_of pen.new) };

    /// Makes a symbolic link.
    fn symlink(
        &mut self,
        alloc: Global,
        at: &Path,
        text: &[u8],
        pen: &mut Pen,
    ) -> Result<(), ChangeFault>
        requires text { IsLinkText text.now }
        requires held { IsHeld (tree self.old) (sealed self.old) (counts_of pen.old) }
        ensures change { IsChange copying (MakeLink at.now text.now) (tree self.old, pen.old) result (tree self.new, pen.new) }
        ensures held { IsHeld (tree self.new) (sealed self.new) (counts_of pen.new) };

    /// Makes an empty folder.
    fn mkdir(
        &mut self,
        alloc: Global,
        at: &Path,
        mode: u16,
        pen: &mut Pen,
    ) -> Result<(), ChangeFault>
        requires mode { mode ≤ 4095 }
        requires held { IsHeld (tree self.old) (sealed self.old) (counts_of pen.old) }
        ensures change { IsChange copying (MakeDir at.now mode) (tree self.old, pen.old) result (tree self.new, pen.new) }
        ensures held { IsHeld (tree self.new) (sealed self.new) (counts_of pen.new) };

    /// Takes a name away.
    fn remove(&mut self, alloc: Global, at: &Path, pen: &mut Pen) -> Result<(), ChangeFault>
        requires held { IsHeld (tree self.old) (sealed self.old) (counts_of pen.old) }
        ensures change { IsChange copying (Remove at.now) (tree self.old, pen.old) result (tree self.new, pen.new) }
        ensures held { IsHeld (tree self.new) (sealed self.new) (counts_of pen.new) };

    /// Moves a name and all below it, in place of what stood there.
    fn rename(
        &mut self,
        alloc: Global,
        old: &Path,
        at: &Path,
        pen: &mut Pen,
    ) -> Result<(), ChangeFault>
        requires held { IsHeld (tree self.old) (sealed self.old) (counts_of pen.old) }
        ensures change { IsChange copying (Rename old.now at.now) (tree self.old, pen.old) result (tree self.new, pen.new) }
        ensures held { IsHeld (tree self.new) (sealed self.new) (counts_of pen.new) };

    /// Lays a sealed tree over this one.
    fn populate(&mut self, alloc: Global, from: &Self, pen: &mut Pen) -> Result<(), ChangeFault>
        requires sound { IsTree (tree from.now) }
        requires sealed { IsSealed (tree from.now) (sealed from.now) }
        requires foreign { IsForeign (tree from.now) (counts_of pen.old) }
        requires held { IsHeld (tree self.old) (sealed self.old) (counts_of pen.old) }
        ensures change { IsChange copying (Populate (tree from.now)) (tree self.old, pen.old) result (tree self.new, pen.new) }
        ensures held { IsHeld (tree self.new) (sealed self.new) (counts_of pen.new) };

    /// The same sealed tree once more; no pen counts it.
    fn copy(&self, alloc: Global) -> Result<Self, Memory>
        requires sealed { IsSealed (tree self.now) (sealed self.now) }
        ensures tree { IfOk result (λ t. tree t ≡ tree self.now) }
        ensures sealed { IfOk result (λ t. IsSealed (tree t) (sealed t)) };

    /// The same tree with all its labels sealed.
    fn seal(self, alloc: Global) -> Result<Self, Memory>
        ensures tree { IfOk result (λ t. tree t ≡ tree self) }
        ensures sealed { IfOk result (λ t. IsSealed (tree t) (sealed t)) };

    /// Whether no label of the tree is unsealed.
    fn is_sealed(&self) -> bool
        ensures { IsTrue result ↔ IsSealed (tree self.now) (sealed self.now) };
}
