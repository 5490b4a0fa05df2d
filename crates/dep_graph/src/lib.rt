//! What tasks need of one another, and the order in which they are taken.
//!
//! Tasks are numbered from 0, and there are at most 512. The order is made by taking, again and again, the least task
//! whose needs are all taken. There is one exactly where no task is on a cycle of needs.
#![tactic(auto)]

mod graph;
mod least_first;

pub use graph::{Graph, OrderFault};
pub use least_first::one_order;
