//! Which symbol is visible.
ghost use Rattle.std.specs.Prelude.{◌≡◌};
ghost use Rattle.kc_menu.specs.Visible.{all_hold, some_holds, shows, is_visible};

use crate::menu::{Exprs, KcEntry, Menu};
use br_path::is_text;
use kc_values::Values;

impl Exprs {
    /// Whether all conditions hold at these values, as dependencies must.
    pub fn all_hold(&self, values: &Values) -> bool
        ensures { result ≡ all_hold self.now values.now }
    {
        for condition in &self.items {
            if !condition.holds(values) {
                return false;
            }
        }
        true
    }

    /// Whether one of the conditions holds at these values.
    pub fn some_holds(&self, values: &Values) -> bool
        ensures { result ≡ some_holds self.now values.now }
    {
        for condition in &self.items {
            if condition.holds(values) {
                return true;
            }
        }
        false
    }
}

impl KcEntry {
    /// Whether one of its prompts counts at these values: its own condition and the dependencies of the entry hold.
    pub fn shows(&self, values: &Values) -> bool
        ensures { result ≡ shows self.now values.now }
    {
        self.depends.all_hold(values) && self.prompts.some_holds(values)
    }
}

impl Menu {
    /// Whether a symbol is visible at these values, that is, whether a prompt of one of its entries counts. The time is
    /// proportional to the menu.
    pub fn is_visible(&self, symbol: &[u8], values: &Values) -> bool
        ensures { result ≡ is_visible self.now.entries symbol.now values.now }
    {
        for entry in self.entries() {
            if is_text(entry.symbol.as_slice(), symbol) && entry.shows(values) {
                return true;
            }
        }
        false
    }
}
