//! The world of one task.
ghost use Rattle.std.specs.Prelude.{List};
ghost use Rattle.tree_worlds.specs.declared.world.ShownTree.{ShownTree as shown_tree};

use br_path::{Bytes, Path};
use std::marker::Model;
use tree_ops::Pen;

/// A tree for each area.
#[derive(Drop)]
pub struct Trees<T> {
    pub build: T,
    pub host: T,
    pub staging: T,
    pub target: T,
}

/// The build tree of a patch dependency, as its prep left it.
#[derive(Drop)]
pub struct ShownTree<T> {
    pub task: u32,
    pub package: Bytes,
    pub tree: T,
}

/// The readable build trees.
#[derive(Drop)]
pub struct Shown<T> {
    pub items: Vec<ShownTree<T>>,
}

impl<T> Model for Shown<T> {
    ghost Value = { List (shown_tree T) };

    ghost view = { λ s. s.items.items };
}

/// What one task works on, and what it may change there.
#[derive(Drop)]
pub struct World<T> {
    pub trees: Trees<T>,
    pub pen: Pen,
    pub package: Bytes,
    pub folder: Path,
    pub host: bool,
    pub prep: bool,
    pub shown: Shown<T>,
}
