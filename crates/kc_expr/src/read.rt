//! From the parts of a line to a condition.
ghost use Rattle.std.specs.Prelude.{◌≡◌, ◌++◌, List, Some, IfOk};
ghost use Rattle.kc_text.specs.declared.part.Part.{Part};
ghost use Rattle.kc_expr.specs.declared.expr.Expr.{Expr};
ghost use Rattle.kc_expr.specs.Grammar.{IsCondition, EndsCondition};
ghost use Rattle.std.specs.Option.{option_map};
ghost use Rattle.kc_expr.specs.Read.{atom_of, atom, simple, compared, behind_and, behind_or, behind_close, conjunction, disjunction, close, negated, grouped, deeper_in, item, expression};
ghost use Rattle.kc_expr.specs.ShownLeft.{shown, seen, front};

use crate::expr::{Atom, Expr, and, not, or};
use br_path::{Memory, is_text};
use kc_text::Part;
use std::alloc::Global;

/// How many brackets and `!` may be open at a place.
const DEPTH_LIMIT: u32 = 64;

/// How many atoms a condition may have.
const ATOM_LIMIT: u32 = 1024;

/// The parts that are left, and how many atoms the condition may still have.
#[derive(Clone, Copy)]
pub struct Left<'a> {
    parts: &'a [Part],
    atoms: u32,
}

/// The condition that parts begin with, and the parts after it; none where they begin with no condition.
///
/// It is the longest one: an operator after a condition goes on with it. The time is proportional to the parts that
/// the condition takes.
#[tactic(auto, unfolding(crate::specs::Read::expression))]
pub fn expression(alloc: Global, parts: &[Part]) -> Result<Option<(Expr, &[Part])>, Memory>
    ensures { IfOk result (λ found. option_map front found ≡ expression parts.now) }
{
    let left = Left {
        parts,
        atoms: ATOM_LIMIT,
    };
    match disjunction(alloc, left, DEPTH_LIMIT)? {
        Some((expr, rest)) => Ok(Some((expr, rest.parts))),
        None => Ok(None),
    }
}

/// What is read is a condition by the grammar, and a condition is read where no operator goes on with it.
pub fn conditions_are_read()
    ensures sound { (parts rest : List Part) (expr : Expr) → expression parts ≡ Some (expr, rest)
        → (text : List Part) × (parts ≡ text ++ rest) × IsCondition expr text }
    ensures read { (expr : Expr) (text rest : List Part) → IsCondition expr text → EndsCondition rest
        → expression (text ++ rest) ≡ Some (expr, rest) }
{}

// Conditions with `||` between them, joined from the left.
#[cycle(reading)]
#[tactic(auto, using(crate::proofs::Chains::chains), unfolding(crate::specs::Read::disjunction))]
fn disjunction(alloc: Global, left: Left, depth: u32) -> Result<Option<(Expr, Left)>, Memory>
    ensures { IfOk result (λ found. option_map seen found ≡ disjunction (item depth) (shown left.entry)) }
{
    let Some((mut expr, mut rest)) = conjunction(alloc, left, depth)? else {
        return Ok(None);
    };
    while let Some(behind) = behind_or(rest) {
        let Some((next, after)) = conjunction(alloc, behind, depth)? else {
            return Ok(None);
        };
        expr = or(alloc, expr, next)?;
        rest = after;
    }
    Ok(Some((expr, rest)))
}

// Items with `&&` between them, joined from the left.
#[cycle(reading)]
#[tactic(auto, using(crate::proofs::Chains::chains), unfolding(crate::specs::Read::conjunction))]
fn conjunction(alloc: Global, left: Left, depth: u32) -> Result<Option<(Expr, Left)>, Memory>
    ensures { IfOk result (λ found. option_map seen found ≡ conjunction (item depth) (shown left.entry)) }
{
    let Some((mut expr, mut rest)) = item(alloc, left, depth)? else {
        return Ok(None);
    };
    while let Some(behind) = behind_and(rest) {
        let Some((next, after)) = item(alloc, behind, depth)? else {
            return Ok(None);
        };
        expr = and(alloc, expr, next)?;
        rest = after;
    }
    Ok(Some((expr, rest)))
}

// What stands between `&&` and `||`, with so many brackets and `!` open in it at most.
#[cycle(reading)]
#[tactic(auto, using(crate::proofs::Chains::items))]
fn item(alloc: Global, left: Left, depth: u32) -> Result<Option<(Expr, Left)>, Memory>
    ensures { IfOk result (λ found. option_map seen found ≡ item depth (shown left.entry)) }
{
    if depth == 0 {
        return simple(left);
    }
    deeper(alloc, left, depth - 1)
}

// An item that may be put around others, in which so many are open at most.
#[cycle(reading)]
fn deeper(alloc: Global, left: Left, depth: u32) -> Result<Option<(Expr, Left)>, Memory>
    ensures { IfOk result (λ found. option_map seen found ≡ deeper_in (item depth) left.entry.parts.now left.entry.atoms) }
{
    match left.parts.split_first() {
        Some((Part::Not, parts)) => negated(alloc, Left { parts, ..left }, depth),
        Some((Part::Open, parts)) => grouped(alloc, Left { parts, ..left }, depth),
        _ => simple(left),
    }
}

#[cycle(reading)]
#[tactic(auto, unfolding(crate::specs::Read::negated))]
fn negated(alloc: Global, left: Left, depth: u32) -> Result<Option<(Expr, Left)>, Memory>
    ensures { IfOk result (λ found. option_map seen found ≡ negated (item depth) (shown left.entry)) }
{
    match item(alloc, left, depth)? {
        Some((inner, rest)) => Ok(Some((not(alloc, inner)?, rest))),
        None => Ok(None),
    }
}

#[cycle(reading)]
#[tactic(auto, unfolding(crate::specs::Read::grouped))]
fn grouped(alloc: Global, left: Left, depth: u32) -> Result<Option<(Expr, Left)>, Memory>
    ensures { IfOk result (λ found. option_map seen found ≡ grouped (item depth) (shown left.entry)) }
{
    match disjunction(alloc, left, depth)? {
        Some((inner, rest)) => Ok(closed(inner, rest)),
        None => Ok(None),
    }
}

fn closed(inner: Expr, rest: Left) -> Option<(Expr, Left)>
    ensures { option_map seen result ≡ close inner (shown rest.entry) }
{
    match behind_close(rest) {
        Some(behind) => Some((inner, behind)),
        None => None,
    }
}

// An atom, and perhaps another that it is compared with.
#[tactic(auto, unfolding(crate::specs::Read::simple))]
fn simple(left: Left) -> Result<Option<(Expr, Left)>, Memory>
    ensures { IfOk result (λ found. option_map seen found ≡ simple (shown left.entry)) }
{
    match atom(left)? {
        Some((first, rest)) => compared(first, rest),
        None => Ok(None),
    }
}

fn compared(first: Atom, rest: Left) -> Result<Option<(Expr, Left)>, Memory>
    ensures { IfOk result (λ found. option_map seen found ≡ compared first rest.entry.parts.now rest.entry.atoms) }
{
    match rest.parts.split_first() {
        Some((Part::Same, parts)) => match atom(Left { parts, ..rest })? {
            Some((second, behind)) => Ok(Some((Expr::Same(first, second), behind))),
            None => Ok(None),
        },
        Some((Part::Differ, parts)) => match atom(Left { parts, ..rest })? {
            Some((second, behind)) => Ok(Some((Expr::Differ(first, second), behind))),
            None => Ok(None),
        },
        _ => Ok(Some((Expr::Holds(first), rest))),
    }
}

#[tactic(auto, unfolding(crate::specs::Read::atom))]
fn atom(left: Left) -> Result<Option<(Atom, Left)>, Memory>
    ensures { IfOk result (λ found. option_map seen found ≡ atom (shown left.entry)) }
{
    let Some((first, parts)) = left.parts.split_first() else {
        return Ok(None);
    };
    let Some(found) = atom_of(first)? else {
        return Ok(None);
    };
    match left.atoms.checked_sub(1) {
        Some(atoms) => Ok(Some((found, Left { parts, atoms }))),
        None => Ok(None),
    }
}

// The atom that a part is.
fn atom_of(part: &Part) -> Result<Option<Atom>, Memory>
    ensures { IfOk result (λ found. found ≡ atom_of part.now) }
{
    match part {
        Part::Word(word) if !is_text(word.as_slice(), b"m") => Ok(Some(Atom::Word(word.copy()?))),
        Part::Quoted(text) => Ok(Some(Atom::Quoted(text.copy()?))),
        _ => Ok(None),
    }
}

fn behind_and(left: Left) -> Option<Left>
    ensures { option_map shown result ≡ behind_and left.entry.parts.now left.entry.atoms }
{
    match left.parts.split_first() {
        Some((Part::And, parts)) => Some(Left { parts, ..left }),
        _ => None,
    }
}

fn behind_or(left: Left) -> Option<Left>
    ensures { option_map shown result ≡ behind_or left.entry.parts.now left.entry.atoms }
{
    match left.parts.split_first() {
        Some((Part::Or, parts)) => Some(Left { parts, ..left }),
        _ => None,
    }
}

fn behind_close(left: Left) -> Option<Left>
    ensures { option_map shown result ≡ behind_close left.entry.parts.now left.entry.atoms }
{
    match left.parts.split_first() {
        Some((Part::Close, parts)) => Some(Left { parts, ..left }),
        _ => None,
    }
}
