//! The paths that several packages wrote.
use br_path::{Area, Names, Path};
use std::marker::Model;

/// A path that two packages or more wrote, with all of them by name.
#[derive(Drop)]
pub struct Overwrite {
    pub area: Area,
    pub path: Path,
    pub packages: Names,
}

/// Such paths: those of the host area, then those of staging, then those of the target area, each in the order of paths.
#[derive(Drop)]
pub struct Overwrites {
    pub items: Vec<Overwrite>,
}

impl Model for Overwrites {
    ghost use Rattle.std.specs.Prelude.{List};
    ghost use Rattle.task_shelves.specs.declared.overwrites.Overwrite.{Overwrite};

    ghost Value = { List Overwrite };

    ghost view = { λ o. o.items.items };
}
