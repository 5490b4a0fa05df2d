//! What a configuration declares, what is wished of it, and which of its symbols are visible.
//!
//! A `Menu` is what the configuration files declare: entries of symbols, and choices. `Wishes` are what a `.config` file asks
//! of them. A symbol is visible where one of its prompts counts, that is, where the prompt's own condition and the
//! dependencies of its entry hold at the values of all symbols.
#![tactic(auto)]

mod menu;
mod visible;
mod wishes;

pub use menu::{
    Choices, Entries, Exprs, KcChoice, KcDefault, KcDefaults, KcEntry, Menu, SymbolIf, SymbolIfs,
};
pub use wishes::{Wish, WishValue, Wishes};
