//! Texts of ints.
ghost use Rattle.std.specs.Prelude.{◌≡◌, find, option_copied};
ghost use Rattle.kc_equations.specs.Faults.{behind_sign, are_digits, is_bad, is_bad_number};
ghost use Rattle.kc_solve.specs.Index.{IsIndex};

use crate::index::Index;
use kc_values::{Kind, Valued, Values};

/// The least int whose text isn't empty, and isn't 1 to 18 digits, perhaps after a `-`.
#[tactic(auto, using(crate::proofs::Steps::finding))]
pub fn least_bad_number<'i>(index: &'i Index, values: &Values) -> Option<&'i [u8]>
    requires { IsIndex index.now }
    ensures { option_copied result ≡ find (is_bad_number values.now) index.now.symbols }
{
    for place in 0..index.symbols.count() {
        let symbol = index.symbols.symbol(place);
        if is_bad_number(values, symbol) {
            return Some(symbol);
        }
    }
    None
}

fn is_bad_number(values: &Values, symbol: &[u8]) -> bool
    ensures { result ≡ is_bad_number values.now symbol.now }
{
    match values.find(symbol) {
        Some(valued) => is_bad(valued),
        None => false,
    }
}

fn is_bad(valued: &Valued) -> bool
    ensures { result ≡ is_bad valued.now }
{
    let text = valued.text.as_slice();
    valued.kind == Kind::Int && !text.is_empty() && !are_digits(behind_sign(text))
}

/// A text without the `-` that it begins with.
fn behind_sign(text: &[u8]) -> &[u8]
    ensures { result.now ≡ behind_sign text.now }
{
    match text.split_first() {
        Some((b'-', rest)) => rest,
        _ => text,
    }
}

/// Whether it is 1 to 18 digits.
fn are_digits(text: &[u8]) -> bool
    ensures { result ≡ are_digits text.now }
{
    if text.is_empty() || text.len() > 18 {
        return false;
    }
    for byte in text {
        if !byte.is_ascii_digit() {
            return false;
        }
    }
    true
}
