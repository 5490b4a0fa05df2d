//! The shelf of a task.
use br_path::{Area, Path};
use plan_rows::Step;
use std::marker::Model;
use tree_worlds::{Reason, Trees};

/// What a step that ended leaves as its mark.
#[derive(Clone, Copy, Debug, PartialEq, Eq)]
pub enum Stamp {
    Extracted,
    Patched,
    Configured,
    Built,
    HostInstalled,
    StagingInstalled,
    TargetInstalled,
    /// The make of the package has ended.
    Installed,
}

/// Stamps in the order in which they were given.
#[derive(Drop)]
pub struct Stamps {
    pub items: Vec<Stamp>,
}

impl Model for Stamps {
    ghost use Rattle.std.specs.Prelude.{List};
    ghost use Rattle.task_shelves.specs.declared.shelf.Stamp.{Stamp};

    ghost Value = { List Stamp };

    ghost view = { λ s. s.items.items };
}

/// The paths that a make wrote: those of the host tree, then those of staging, then those of the target tree, each in
/// the order of paths.
#[derive(Drop)]
pub struct Written {
    pub items: Vec<(Area, Path)>,
}

impl Model for Written {
    ghost use Rattle.std.specs.Prelude.{List};
    ghost use Rattle.br_path.specs.Path.{Names};
    ghost use Rattle.br_path.specs.declared.area.Area.{Area};

    ghost Value = { List (Area × Names) };

    ghost view = { λ w. w.items.items };
}

/// What a task leaves.
pub enum Shelf<T> {
    /// All lines ran. The shelf of a prep has its build tree, and that of a make the three others; the rest are empty.
    Built {
        trees: Trees<T>,
        written: Written,
        stamps: Stamps,
    },
    /// A line of the step failed. Line 0 is the filling of the trees, or the copy of the source.
    Failed {
        step: Step,
        line: u32,
        status: u8,
        reason: Reason,
        stamps: Stamps,
    },
    /// A needed task isn't built.
    Skipped {
        by: u32,
    },
}

// A shelf has a `drop` of its own. A proof then has one call at each place that lets one go, and not a walk of all
// its forms.
impl<T: Drop> Drop for Shelf<T> {
    fn drop(self) {
        match self {
            Shelf::Built {
                trees,
                written,
                stamps,
            } => {
                drop(trees);
                drop(written);
                drop(stamps);
            }
            Shelf::Failed {
                step: _,
                line: _,
                status: _,
                reason: _,
                stamps,
            } => drop(stamps),
            Shelf::Skipped { by: _ } => {}
        }
    }
}
