//! Walks, cycles and orders in finite directed graphs.
//!
//! A graph's nodes are numbered from 0, and each has a row of the nodes that it names. A walk goes from a node to one
//! that it names; a node is on a cycle where a walk of one or more steps leads back to it. An order of the nodes has
//! each of them once, after all that it names: there is one exactly where no node is on a cycle.
//!
//! No call recurses, so a long walk costs no stack.
#![tactic(auto)]

mod depth_first;
mod graph;
mod least;
mod reach;

pub use depth_first::{Found, order, orders};
pub use graph::Graph;
pub use least::least_on_cycle;
pub use reach::{leads_back, reached};
