//! From a menu and wishes to values, or to the first fault.
ghost use Rattle.std.specs.Prelude.{◌≡◌, IfOk, IfErr};
ghost use Rattle.kc_equations.specs.Faults.{IsFirstFault, IsSolved};
ghost use Rattle.kc_solve.specs.Index.{IsIndex};

use crate::fill::solution;
use crate::forced::forced;
use crate::index::Index;
use crate::number::least_bad_number;
use crate::selected::{least_named_member, least_named_value};
use crate::sequence::order_of_names;
use br_path::{Bytes, Names};
use kc_equations::SolveFault;
use kc_menu::{Menu, Wishes};
use kc_values::Values;
use std::alloc::Global;

/// A configuration that is solved.
#[derive(Debug, Drop)]
pub struct Solved {
    /// Each declared symbol with its type and text, in the order of first declarations.
    pub values: Values,
    /// The symbols that are y by an effective select while their dependencies don't hold, by name.
    pub forced: Names,
}

/// The solution of a menu and wishes and its forced symbols, or the first fault.
///
/// The time is proportional to the menu and the wishes, to what the equations name, and to sort the symbols. The member of
/// a choice is looked for once a choice; where one is visible, this may take a pass over the choice's members for each wish
/// of y, each default of the choice and each member. A cycle costs a search for each symbol up to the least that is on one.
pub fn solve(alloc: Global, menu: &Menu, wishes: &Wishes) -> Result<Solved, SolveFault>
    ensures ok { IfOk result (λ solved. IsSolved menu.now wishes.now solved.values solved.forced) }
    ensures err { IfErr result (IsFirstFault menu.now wishes.now) }
{
    let index = Index::new(alloc, menu, wishes)?;
    solve_indexed(alloc, &index)
}

/// The same of a menu and wishes that are indexed.
fn solve_indexed(alloc: Global, index: &Index) -> Result<Solved, SolveFault>
    requires { IsIndex index.now }
    ensures ok { IfOk result (λ solved. IsSolved index.now.menu.now index.now.wishes.now solved.values solved.forced) }
    ensures err { IfErr result (IsFirstFault index.now.menu.now index.now.wishes.now) }
{
    if let Some(symbol) = least_named_member(index) {
        return Err(SolveFault::SelectOfChoice(Bytes::from_slice(alloc, symbol)?));
    }
    if let Some(symbol) = least_named_value(index) {
        return Err(SolveFault::SelectOfValue(Bytes::from_slice(alloc, symbol)?));
    }
    let order = order_of_names(alloc, index)?;
    let values = solution(alloc, index, &order)?;
    if let Some(symbol) = least_bad_number(index, &values) {
        return Err(SolveFault::BadNumber(Bytes::from_slice(alloc, symbol)?));
    }
    let forced = forced(alloc, index, &values)?;
    Ok(Solved { values, forced })
}
