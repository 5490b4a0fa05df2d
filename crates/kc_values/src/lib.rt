//! The symbols of a configuration with their types and texts: all that recipes ask of a configuration.
//!
//! A symbol such as `BR2_PACKAGE_ZLIB` is a bool with the text `y` or `n`, a string with any text, or an int with digits.
#![tactic(auto)]

mod kind;
mod values;

pub use kind::Kind;
pub use values::{Valued, Values};
