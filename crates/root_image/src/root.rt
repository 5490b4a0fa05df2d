//! Root file systems, as they stand in an image.
ghost use Rattle.std.specs.Prelude.{List, ℕ, ◌≡◌};
ghost use Rattle.root_image.specs.declared.root.RootEntry.{RootEntry};
ghost use Rattle.root_image.specs.Roots.{IsRoot};

use br_path::{Bytes, Path};
use std::marker::Model;

/// What stands at a path of a root file system. A mode is at most 0o7777.
#[derive(Debug)]
pub enum RootEntry {
    /// A folder with this mode.
    Dir(u16),
    /// A symbolic link with this text.
    Link(Bytes),
    /// A file, at the least of its names.
    First { mode: u16, bytes: Bytes },
    /// Another name of the file whose least name this is.
    Same(Path),
}

// A proof then has one call at each place that lets an entry go, and not one for each variant.
impl Drop for RootEntry {
    fn drop(self) {
        match self {
            RootEntry::Dir(_) => {}
            RootEntry::Link(text) => drop(text),
            RootEntry::First { mode: _, bytes } => drop(bytes),
            RootEntry::Same(first) => drop(first),
        }
    }
}

/// A root file system: its entries in the order of their paths.
///
/// The paths rise. The first entry is the root, as a folder, and each other stands in a folder of the list. A file with
/// several names stands whole at the least of them. Modes are at most 0o7777, and the text of a link has 1 to 1,024 bytes,
/// each a slash or one that a name may have.
#[derive(Debug, Drop)]
pub struct Root {
    entries: Vec<(Path, RootEntry)>,
}

impl Model for Root {
    ghost use Rattle.std.specs.Prelude.{List, ℕ};
    ghost use Rattle.root_image.specs.declared.root.RootEntry.{RootEntry};
    ghost use Rattle.root_image.specs.Roots.{IsRoot};

    ghost Value = { List (List (List ℕ) × RootEntry) };

    ghost view = { λ r. r.entries.items };

    ghost invariant = { λ r. IsRoot r.entries.items };
}

impl Root {
    /// The root with these entries. It takes no memory.
    pub fn from_entries(entries: Vec<(Path, RootEntry)>) -> Root
        requires root { IsRoot entries.items }
        ensures { result ≡ entries.items }
    {
        Root { entries }
    }

    /// The entries, in the order of their paths.
    pub fn entries(&self) -> &[(Path, RootEntry)]
        ensures entries { result.now ≡ self.now }
        ensures root { IsRoot self.now }
    {
        self.entries.as_slice()
    }
}
