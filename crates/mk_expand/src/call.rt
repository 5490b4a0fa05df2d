//! What stands inside a reference.
ghost use Rattle.std.specs.Prelude.{◌≡◌, ℕ, ◌<◌, List, [], map, length, Option, None, IfOk, IfSome, if◌then◌else◌};
ghost use Rattle.mk_expand.specs.declared.bracket.Bracket.{Bracket as Brackets};
ghost use Rattle.mk_expand.specs.Bracket.{comma_of};
ghost use Rattle.mk_expand.specs.Lists.{argument};
ghost use Rattle.mk_expand.specs.Table.{entry, may_divide};
ghost use Rattle.mk_expand.specs.Call.{divided, call_of, checked_call, inside_of, refusal, IsAllowed};
ghost use Rattle.mk_expand.specs.Laws.{AreArguments};
ghost use Rattle.mk_expand.specs.Shown.{shown_call};

use crate::blanks;
use crate::bracket::Bracket;
use crate::fault::ExpandFault;
use crate::function::Function;
use br_path::{Bytes, Memory};
use std::alloc::Global;

/// The inside of a reference.
#[derive(Drop)]
pub(crate) enum Called<'a> {
    /// A text whose value is a variable's name.
    Name,
    /// A call with too few arguments.
    Short,
    /// `if`, with its condition and its branches.
    Choice(&'a [u8], &'a [u8], &'a [u8]),
    /// `foreach`, with its variable, its list and its body.
    Loop(&'a [u8], &'a [u8], &'a [u8]),
    /// A call whose arguments are all expanded first.
    Strict(Function, Vec<&'a [u8]>),
}

/// Reads the inside of a reference in brackets of this kind.
pub(crate) fn read_inside<'a>(
    alloc: Global,
    kind: Bracket,
    text: &'a [u8],
) -> Result<Called<'a>, Memory>
    ensures { IfOk result (λ inside. shown_call inside ≡ inside_of kind text.now) }
{
    let Some(place) = blanks::first_blank(text) else {
        return Ok(Called::Name);
    };
    let (name, rest) = text.split_at(place);
    match Function::of_name(name) {
        Some(function) => read_call(alloc, kind, function, blanks::skip_blanks(rest)),
        None => Ok(Called::Name),
    }
}

fn read_call<'a>(
    alloc: Global,
    kind: Bracket,
    function: Function,
    text: &'a [u8],
) -> Result<Called<'a>, Memory>
    ensures { IfOk result (λ inside. shown_call inside ≡ checked_call function (divided kind (entry function).2 0 0 [] text.now)) }
{
    let entry = function.entry();
    let args = divide(alloc, kind, entry.most, text)?;
    if args.len() < entry.least {
        return Ok(Called::Short);
    }
    Ok(call_of(function, args))
}

fn call_of<'a>(function: Function, args: Vec<&'a [u8]>) -> Called<'a>
    ensures { shown_call result ≡ call_of function (map (λ arg. arg.now) args.entry.items) }
{
    match function {
        Function::If => {
            Called::Choice(
                blanks::trim(argument(&args, 0)),
                argument(&args, 1),
                argument(&args, 2),
            )
        }
        Function::Foreach => Called::Loop(
            argument(&args, 0),
            argument(&args, 1),
            argument(&args, 2),
        ),
        _ => Called::Strict(function, args),
    }
}

// The argument at a place; none is empty.
fn argument<'a>(args: &Vec<&'a [u8]>, place: usize) -> &'a [u8]
    ensures { result.now ≡ argument place (map (λ arg. arg.now) args.now.items) }
{
    if place < args.len() { args[place] } else { &[] }
}

// The arguments of a text, at most as many as may be.
fn divide<'a>(
    alloc: Global,
    kind: Bracket,
    most: Option<usize>,
    text: &'a [u8],
) -> Result<Vec<&'a [u8]>, Memory>
    ensures { IfOk result (λ args. map (λ arg. arg.now) args.items ≡ divided kind most 0 0 [] text.now) }
{
    let mut args = Vec::new(alloc);
    let mut rest = text;
    while let Some(place) = next_comma(kind, most, args.len(), rest) {
        let (arg, tail) = rest.split_at(place);
        args.push(arg)?;
        rest = tail.split_at(1).1;
    }
    args.push(rest)?;
    Ok(args)
}

/// The arguments of a call, joined by commas, are the text that they were read from. Each of them ends at the first comma
/// outside brackets, except for the last, which holds what is left where no more commas may divide or none does.
pub fn arguments_divide()
    ensures { (kind : Brackets) (most : Option ℕ) (text : List ℕ) → AreArguments kind most 0 text (divided kind most 0 0 [] text) }
{}

// The comma that divides a text after so many arguments.
fn next_comma(kind: Bracket, most: Option<usize>, count: usize, text: &[u8]) -> Option<usize>
    ensures place { result ≡ (if may_divide most count then comma_of kind 0 0 text.now else None) }
    ensures within { IfSome result (λ place. place < length text.now) }
{
    if let Some(most) = most
        && most.saturating_sub(1) <= count
    {
        return None;
    }
    kind.comma(text)
}

/// Refuses the value of an argument, given how many stand before it and after it: what `subst` looks for, where it is
/// empty, and what `call` calls, where it isn't `qstrip` or has no argument.
pub(crate) fn check_argument(
    alloc: Global,
    function: Function,
    count: usize,
    value: &[u8],
    behind: usize,
) -> Result<(), ExpandFault>
    ensures { IsAllowed (refusal function count value.now behind) result }
{
    if count > 0 {
        return Ok(());
    }
    match function {
        Function::Subst => check_sought(value),
        Function::Call => check_called(alloc, value, behind),
        _ => Ok(()),
    }
}

fn check_sought(value: &[u8]) -> Result<(), ExpandFault>
    ensures { IsAllowed (refusal Function.Subst 0 value.now 0) result }
{
    if value.is_empty() {
        return Err(ExpandFault::BadCall);
    }
    Ok(())
}

fn check_called(alloc: Global, value: &[u8], behind: usize) -> Result<(), ExpandFault>
    ensures { IsAllowed (refusal Function.Call 0 value.now behind) result }
{
    if value != b"qstrip".as_slice() {
        return Err(ExpandFault::Unsupported(Bytes::from_slice(alloc, value)?));
    }
    if behind == 0 {
        return Err(ExpandFault::BadCall);
    }
    Ok(())
}
