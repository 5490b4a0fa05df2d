//! The value that the equation of a symbol gives.
ghost use Rattle.std.specs.Prelude.{◌≡◌, ◌<◌, IfOk, OnOk, length, option_copied};
ghost use Rattle.kc_equations.specs.Equation.{equation, member_text};
ghost use Rattle.kc_equations.specs.Solution.{kind_of, valued_by};
ghost use Rattle.kc_solve.specs.Index.{IsIndex};
ghost use Rattle.kc_solve.specs.Symbols.{symbol_at};
ghost use Rattle.kc_solve.specs.Taken.{AreTaken, choice_place, with_taken};

use crate::index::Index;
use crate::members::Chosen;
use br_path::{Bytes, Memory, is_text};
use kc_equations::text_by_kind;
use kc_values::{Kind, Valued, Values};
use std::alloc::Global;

/// The type of the symbol at a place, and the text that its equation gives at some values. It keeps the member that the
/// symbol's choice takes.
pub fn valued<'a>(
    alloc: Global,
    index: &Index<'a>,
    values: &Values,
    chosen: &mut Chosen<'a>,
    place: u32,
) -> Result<Valued, Memory>
    requires index { IsIndex index.now }
    requires place { place < length index.now.symbols }
    requires known { AreTaken index.now.menu.now index.now.wishes.now values.now chosen.old }
    ensures known { OnOk result (chosen.new ≡ with_taken index.now.menu.now index.now.wishes.now values.now chosen.old (choice_place index.now.menu.now.entries (symbol_at index.now.symbols place))) }
    ensures value { IfOk result (λ v. v ≡ valued_by index.now.menu.now index.now.wishes.now values.now (symbol_at index.now.symbols place)) }
{
    let text = Bytes::from_slice(alloc, text(index, values, chosen, place))?;
    Ok(Valued {
        kind: kind(index, place),
        text,
    })
}

#[tactic(auto, unfolding(kc_equations::specs::Solution::kind_of))]
fn kind(index: &Index, place: u32) -> Kind
    requires index { IsIndex index.now }
    requires place { place < length index.now.symbols }
    ensures { result ≡ kind_of index.now.menu.now.entries (symbol_at index.now.symbols place) }
{
    match index.own(place).first() {
        Some(entry) => entry.kind,
        None => Kind::Bool,
    }
}

#[tactic(auto, unfolding(kc_equations::specs::Equation::equation))]
fn text<'a, 'b>(
    index: &'b Index<'a>,
    values: &'b Values,
    chosen: &mut Chosen<'a>,
    place: u32,
) -> &'b [u8]
    requires index { IsIndex index.now }
    requires place { place < length index.now.symbols }
    requires known { AreTaken index.now.menu.now index.now.wishes.now values.now chosen.old }
    ensures known { chosen.new ≡ with_taken index.now.menu.now index.now.wishes.now values.now chosen.old (choice_place index.now.menu.now.entries (symbol_at index.now.symbols place)) }
    ensures text { result.now ≡ equation index.now.menu.now index.now.wishes.now values.now (symbol_at index.now.symbols place) }
{
    let own = index.own(place);
    let Some(entry) = own.first() else {
        return b"";
    };
    match entry.choice {
        Some(choice) => {
            let member = chosen.taken(index, values, choice);
            member_text(member, index.symbols.symbol(place))
        }
        None => text_by_kind(
            values,
            entry.kind,
            index.wish(place),
            own,
            index.selects(place),
        ),
    }
}

/// The text of a symbol whose choice takes this member.
fn member_text<'a>(member: Option<&[u8]>, symbol: &[u8]) -> &'a [u8]
    ensures { result.now ≡ member_text (option_copied member.entry) symbol.now }
{
    match member {
        Some(member) if is_text(member, symbol) => b"y",
        _ => b"n",
    }
}
