//! The member that a choice takes.
ghost use Rattle.std.specs.Prelude.{◌≡◌, find, reverse, option_copied, option_map, ◌&&◌};
ghost use Rattle.kc_equations.specs.Behind.{behind};
ghost use Rattle.kc_equations.specs.Choices.{has_visible};
ghost use Rattle.kc_equations.specs.Equation.{shows_choice, is_wished_y, wished_member, default_member, first_member, taken};
ghost use Rattle.kc_menu.specs.Visible.{is_visible};

use br_path::is_text;
use kc_menu::{KcChoice, KcEntry, Wish, WishValue};
use kc_values::Values;

/// The symbol of the member that a choice takes at some values; none where the choice isn't visible or no member is.
///
/// It takes the wishes in the order of their lines, and the entries of the choice's members in reading order.
#[tactic(auto, unfolding(crate::specs::Equation::taken))]
pub fn taken<'a>(
    values: &Values,
    wishes: &'a [Wish],
    choice: &'a KcChoice,
    members: &[&'a KcEntry],
) -> Option<&'a [u8]>
    ensures { option_copied result ≡ taken values.now wishes.now choice.now (behind members.now) }
{
    if !shows_choice(values, choice) {
        return None;
    }
    if !has_visible(values, members) {
        return None;
    }
    if let Some(symbol) = wished_member(values, wishes, members) {
        return Some(symbol);
    }
    if let Some(symbol) = default_member(values, choice, members) {
        return Some(symbol);
    }
    first_member(values, members)
}

fn shows_choice(values: &Values, choice: &KcChoice) -> bool
    ensures { result ≡ shows_choice values.now choice.now }
{
    choice.prompts.some_holds(values) && choice.depends.all_hold(values)
}

/// Whether one of the members is visible.
fn has_visible(values: &Values, members: &[&KcEntry]) -> bool
    ensures { result ≡ has_visible values.now (behind members.now) }
{
    for entry in members {
        if entry.shows(values) {
            return true;
        }
    }
    false
}

/// Of the visible members whose wish is y, the one whose line comes last.
#[tactic(auto, unfolding(crate::specs::Equation::wished_member))]
fn wished_member<'a>(values: &Values, wishes: &'a [Wish], members: &[&KcEntry]) -> Option<&'a [u8]>
    ensures { option_copied result ≡ wished_member values.now wishes.now (behind members.now) }
{
    let mut rest = wishes;
    while let Some((wish, before)) = rest.split_last() {
        if is_wished_y(&wish.value) && is_visible(values, members, wish.symbol.as_slice()) {
            return Some(wish.symbol.as_slice());
        }
        rest = before;
    }
    None
}

fn is_wished_y(wish: &WishValue) -> bool
    ensures { result ≡ is_wished_y wish.now }
{
    match wish {
        WishValue::Word(word) => is_text(word.as_slice(), b"y"),
        _ => false,
    }
}

/// That of the first default whose condition holds and whose member is visible.
#[tactic(auto, unfolding(crate::specs::Equation::default_member))]
fn default_member<'a>(
    values: &Values,
    choice: &'a KcChoice,
    members: &[&KcEntry],
) -> Option<&'a [u8]>
    ensures { option_copied result ≡ default_member values.now choice.now (behind members.now) }
{
    for default in &choice.defaults.items {
        let symbol = default.symbol.as_slice();
        if default.condition.holds(values) && is_visible(values, members, symbol) {
            return Some(symbol);
        }
    }
    None
}

/// The first visible member.
#[tactic(auto, unfolding(crate::specs::Equation::first_member))]
fn first_member<'a>(values: &Values, members: &[&'a KcEntry]) -> Option<&'a [u8]>
    ensures { option_copied result ≡ first_member values.now (behind members.now) }
{
    for entry in members {
        if is_visible(values, members, entry.symbol.as_slice()) {
            return Some(entry.symbol.as_slice());
        }
    }
    None
}

/// Whether a symbol is a visible member.
fn is_visible(values: &Values, members: &[&KcEntry], symbol: &[u8]) -> bool
    ensures { result ≡ is_visible (behind members.now) symbol.now values.now }
{
    for entry in members {
        if is_text(entry.symbol.as_slice(), symbol) && entry.shows(values) {
            return true;
        }
    }
    false
}
