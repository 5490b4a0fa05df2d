//! From a text to its wishes.
ghost use Rattle.std.specs.Prelude.{◌≡◌, ◌<◌, ◌^◌, ◌++◌, map, length, IfOk, IfErr, OnOk};
ghost use Rattle.kc_text.specs.Lines.{raw_lines};
ghost use Rattle.dot_config.specs.declared.line.Said.{Said};
ghost use Rattle.dot_config.specs.Line.{IsLine};
ghost use Rattle.dot_config.specs.Reading.{IsReading, IsWishFault, IsLineFault, wish_at, last_wishes, AreMadeBy};

use crate::error::WishError;
use crate::line::{Said, said_by};
use crate::symbols::Symbols;
use br_path::Memory;
use kc_menu::{Wish, Wishes};
use std::alloc::{AllocError, Global};

/// The wishes of a text: the last line of each symbol, in the order of these lines. The fault is the first line that has
/// no form. The time is proportional to the text.
pub fn read(alloc: Global, text: &[u8]) -> Result<Wishes, WishError>
    requires { length (raw_lines text.now) < 2 ^ 32 }
    ensures wishes { IfOk result (IsReading text.now) }
    ensures fault { IfErr result (IsWishFault text.now) }
{
    let all = wishes_of(alloc, text)?;
    Ok(Wishes::new(last_wishes(alloc, all)?))
}

// The wishes of all lines.
fn wishes_of(alloc: Global, text: &[u8]) -> Result<Vec<Wish>, WishError>
    requires { length (raw_lines text.now) < 2 ^ 32 }
    ensures wishes { IfOk result (λ all. AreMadeBy (raw_lines text.now) all.items) }
    ensures fault { IfErr result (IsWishFault text.now) }
{
    let mut all = Vec::new(alloc);
    let mut number: u32 = 0;
    let lines = lines_of(alloc, text)?;
    for line in &lines {
        number += 1;
        if let Err(fault) = put_wish(alloc, &mut all, number, line) {
            return Err(fault);
        }
    }
    Ok(all)
}

#[tactic(auto, unfolding(kc_text::specs::Lines::raw_lines))]
fn lines_of(alloc: Global, text: &[u8]) -> Result<Vec<&[u8]>, AllocError>
    ensures { IfOk result (λ v. map (λ line. line.now) v.items ≡ raw_lines text.now) }
{
    text.split(|byte| *byte == b'\n').collect(alloc)
}

// Puts the wish of the line of this number after the others.
fn put_wish(alloc: Global, all: &mut Vec<Wish>, number: u32, line: &[u8]) -> Result<(), WishError>
    ensures ok { OnOk result ((said : Said) × IsLine line.now said × (all.new.items ≡ all.old.items ++ wish_at number said)) }
    ensures fault { IfErr result (IsLineFault line.now number) }
{
    match said_by(alloc, line)? {
        Some(Said::Nothing) => Ok(()),
        Some(Said::Asks(symbol, value)) => {
            all.push(Wish {
                symbol,
                value,
                line: number,
            })?;
            Ok(())
        }
        None => Err(WishError::Line(number)),
    }
}

// The wishes whose symbol stands in no later one.
fn last_wishes(alloc: Global, mut all: Vec<Wish>) -> Result<Vec<Wish>, Memory>
    ensures { IfOk result (λ last. last.items ≡ last_wishes all.items) }
{
    let mut later = Symbols::new(alloc);
    let mut last = Vec::new(alloc);
    while let Some(wish) = all.pop() {
        if later.put(&wish.symbol)? {
            last.push(wish)?;
        }
    }
    last.reverse();
    Ok(last)
}
