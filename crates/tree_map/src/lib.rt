//! Trees that are kept as two plain maps.
#![tactic(auto)]

mod adding;
mod counts;
mod labels;
mod moving;
mod names;
mod ops;
mod paths;
mod shared;
mod trees;

pub use trees::MapTree;
