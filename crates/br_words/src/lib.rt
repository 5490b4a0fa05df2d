//! The words that the builder is called by.
//!
//! They are one of `build [-j N] [--trace]`, with both options in either order and each at most once, `config`, `plan`, `show-depends P`,
//! `show-recursive-depends P` and `show-rdepends P`. N is a number of workers from 1 to 64 in decimal without leading
//! zeros, and 1 where it isn't given; P is any word.
#![tactic(auto)]

mod command;
mod options;

pub use command::{Words, WordsFault, one_answer};
