//! The expansion: one pass over a text, with what stands inside a reference expanded in turn.
ghost use Rattle.std.specs.Prelude.{◌≡◌, ◌≢◌, ℕ, ◌≤◌, List, [], length, map, Ok, Err, IfOk, IfErr, OnOk};
ghost use Rattle.mk_expand.specs.declared.fault.ExpandFault.TheVariants.{Memory as no_memory};
ghost use Rattle.mk_expand.specs.Vars.{found};
ghost use Rattle.mk_expand.specs.declared.scope.Scope.{Scope as ScopeValue};
ghost use Rattle.mk_expand.specs.Answer.{IsValue, IsFault, OneAnswer, outside};
ghost use Rattle.mk_expand.specs.Meaning.{Environment, with_active, with_local};
ghost use Rattle.mk_expand.specs.Draft.{cost_limit, IsRun, IsGiven, IsAdded};
ghost use Rattle.mk_expand.specs.Value.{depth_limit, chosen};
ghost use Rattle.mk_expand.specs.Shown.{shown_piece, shown_call};
ghost use Rattle.mk_expand.specs.declared.locals.Local.{Local};
ghost use Rattle.mk_expand.specs.Reference.{text_of, given_name, reference_run, reference_answer, ReferenceIsExact};
ghost use Rattle.mk_expand.specs.Pass.{piece_run, inside_run, text_run, too_deep, called, apart, named, by_name, one_value, all_values, strict_call, branch, choice_call, each, looped, loop_call};

use crate::apply::put_applied;
use crate::blanks::words;
use crate::bracket::Bracket;
use crate::call::{Called, check_argument, read_inside};
use crate::draft::Draft;
use crate::fault::ExpandFault;
use crate::function::Function;
use crate::locals::Locals;
use crate::piece::{Piece, first_piece};
use crate::scope::{Scope, is_bad_name, no_names};
use crate::vars::Vars;
use br_path::{Bytes, Names};
use std::alloc::Global;

const DEPTH_LIMIT: u32 = 200;

/// The value of a text, with local names that hide variables.
///
/// The fault is the first that is met from the left. At the `$` of a reference these come first, in this order: one that
/// doesn't close and a call with too few arguments, the depth, and the cost of 1; then what its inside says; and last what
/// hangs on the whole of it, a name or the length of a result.
///
/// The value has at most 1,048,576 bytes. No fault but out of memory depends on anything but the arguments.
pub fn expand(
    alloc: Global,
    vars: &Vars,
    text: &[u8],
    locals: &Locals,
) -> Result<Bytes, ExpandFault>
    ensures value { IfOk result (IsValue (found vars.now) depth_limit (outside locals.now) text.now) }
    ensures length { IfOk result (λ bytes. length bytes ≤ cost_limit) }
    ensures fault { IfErr result (λ fault. fault ≢ no_memory → IsFault (found vars.now) depth_limit (outside locals.now) text.now fault) }
{
    expand_within(alloc, vars, text, locals, DEPTH_LIMIT)
}

// With so many references allowed in one another.
fn expand_within(
    alloc: Global,
    vars: &Vars,
    text: &[u8],
    locals: &Locals,
    depth: u32,
) -> Result<Bytes, ExpandFault>
    ensures value { IfOk result (IsValue (found vars.now) depth (outside locals.now) text.now) }
    ensures length { IfOk result (λ bytes. length bytes ≤ cost_limit) }
    ensures fault { IfErr result (λ fault. fault ≢ no_memory → IsFault (found vars.now) depth (outside locals.now) text.now fault) }
{
    let scope = Scope::new(alloc, locals)?;
    let mut expander = Expander { alloc, vars, scope };
    let mut out = Draft::new(alloc);
    expander.text(depth, text, &mut out)?;
    Ok(out.into_bytes())
}

/// The value of a reference to the variable of this name, which is taken as it is, with local names that hide variables.
///
/// A name that can be spelled has the value of `$(NAME)`; one that holds brackets, dollars or commas can't be spelled, and
/// means no more than its bytes here. The reference costs 1 and 1 for each byte of the name, as where it is spelled.
pub fn expand_reference(
    alloc: Global,
    vars: &Vars,
    name: &[u8],
    locals: &Locals,
) -> Result<Bytes, ExpandFault>
    ensures value { IfOk result (λ bytes. reference_answer (found vars.now) locals.now name.now ≡ Ok bytes) }
    ensures length { IfOk result (λ bytes. length bytes ≤ cost_limit) }
    ensures fault { IfErr result (λ fault. fault ≢ no_memory → reference_answer (found vars.now) locals.now name.now ≡ Err fault) }
{
    reference_within(alloc, vars, name, locals, DEPTH_LIMIT - 1)
}

// With so many references allowed in one another inside it.
fn reference_within(
    alloc: Global,
    vars: &Vars,
    name: &[u8],
    locals: &Locals,
    depth: u32,
) -> Result<Bytes, ExpandFault>
    ensures value { IfOk result (λ bytes. text_of (reference_run (found vars.now) depth locals.now name.now) ≡ Ok bytes) }
    ensures length { IfOk result (λ bytes. length bytes ≤ cost_limit) }
    ensures fault { IfErr result (λ fault. fault ≢ no_memory → text_of (reference_run (found vars.now) depth locals.now name.now) ≡ Err fault) }
{
    let given = given_name(alloc, name)?;
    let scope = Scope::new(alloc, locals)?;
    let mut expander = Expander { alloc, vars, scope };
    let mut out = Draft::new(alloc);
    let name = out.take(given);
    expander.named(depth, name, &mut out)?;
    Ok(out.into_bytes())
}

// A name, at the cost of a reference to it.
fn given_name(alloc: Global, name: &[u8]) -> Result<Draft, ExpandFault>
    ensures given { IfOk result (λ given. given_name name.now ≡ Ok given) }
    ensures fault { IfErr result (λ fault. fault ≢ no_memory → given_name name.now ≡ Err fault) }
{
    let mut given = Draft::new(alloc);
    given.pay()?;
    given.put(name)?;
    Ok(given)
}

/// A reference by name has the value and the fault of what the name stands for, and out of memory is none of them. Where
/// the name is plain they are those of the text that spells the reference.
pub fn reference_is_exact()
    ensures { (vars : Environment) (locals : List Local) (name : List ℕ) → ReferenceIsExact vars locals name }
{}

/// A text has one answer: one value at one cost within the limit, or one fault. So `expand` gives that value wherever a text
/// has one, and that fault wherever it fails, unless memory is wanting.
pub fn one_answer()
    ensures { (vars : Environment) (depth : ℕ) (scope : ScopeValue) (text : List ℕ) → OneAnswer vars depth scope text }
{}

// The variables, and what holds at a place of the expansion. In each method `depth` is how many references may still stand
// in one another there.
#[derive(Drop)]
struct Expander<'a> {
    alloc: Global,
    vars: &'a Vars,
    scope: Scope,
}

impl<'a> Expander<'a> {
    // A text, piece by piece.
    #[cycle(expansion)]
    fn text(&mut self, depth: u32, text: &[u8], out: &mut Draft) -> Result<(), ExpandFault>
        ensures run { IsRun (text_run (found self.old.vars.now) depth self.old.scope text.now out.old) result out.new }
        ensures kept { OnOk result (self.new ≡ self.old) }
    {
        let mut rest = text;
        while let Some((first, tail)) = rest.split_first() {
            let (piece, behind) = first_piece(*first, tail);
            self.piece(depth, piece, out)?;
            rest = behind;
        }
        Ok(())
    }

    #[cycle(expansion)]
    fn piece(&mut self, depth: u32, piece: Piece<'_>, out: &mut Draft) -> Result<(), ExpandFault>
        ensures run { IsRun (piece_run (inside_run (found self.old.vars.now) depth self.old.scope) (shown_piece piece.entry) out.old) result out.new }
        ensures kept { OnOk result (self.new ≡ self.old) }
    {
        match piece {
            Piece::Byte(byte) => out.put(&[byte]),
            Piece::Stray => Err(ExpandFault::Unsupported(Bytes {
                items: Vec::new(self.alloc),
            })),
            Piece::Unclosed => Err(ExpandFault::BadCall),
            Piece::Reference(kind, text) => self.inside(depth, kind, text, out),
        }
    }

    #[cycle(expansion)]
    fn inside(
        &mut self,
        depth: u32,
        kind: Bracket,
        text: &[u8],
        out: &mut Draft,
    ) -> Result<(), ExpandFault>
        ensures run { IsRun (inside_run (found self.old.vars.now) depth self.old.scope kind text.now out.old) result out.new }
        ensures kept { OnOk result (self.new ≡ self.old) }
    {
        let inside = read_inside(self.alloc, kind, text)?;
        if depth == 0 {
            return Err(too_deep(&inside));
        }
        self.called(depth - 1, inside, text, out)
    }

    #[cycle(expansion)]
    fn called(
        &mut self,
        depth: u32,
        inside: Called<'_>,
        text: &[u8],
        out: &mut Draft,
    ) -> Result<(), ExpandFault>
        ensures run { IsRun (called (found self.old.vars.now) (text_run (found self.old.vars.now) depth) self.old.scope (shown_call inside.entry) text.now out.old) result out.new }
        ensures kept { OnOk result (self.new ≡ self.old) }
    {
        match inside {
            Called::Name => self.name(depth, text, out),
            Called::Short => Err(ExpandFault::BadCall),
            Called::Choice(test, yes, no) => self.choice(depth, test, yes, no, out),
            Called::Loop(variable, list, body) => self.each_word(depth, variable, list, body, out),
            Called::Strict(function, args) => self.strict(depth, function, &args, out),
        }
    }

    // A variable, whose name is the value of a text.
    #[cycle(expansion)]
    #[tactic(auto, using(crate::proofs::Walking::name_steps))]
    fn name(&mut self, depth: u32, text: &[u8], out: &mut Draft) -> Result<(), ExpandFault>
        ensures run { IsRun (by_name (found self.old.vars.now) (text_run (found self.old.vars.now) depth) self.old.scope text.now out.old) result out.new }
        ensures kept { OnOk result (self.new ≡ self.old) }
    {
        out.pay()?;
        let name = self.apart(depth, text, out)?;
        self.named(depth, name, out)
    }

    // A text apart, whose cost comes to the draft.
    #[cycle(expansion)]
    #[tactic(auto, using(crate::proofs::Walking::apart_steps))]
    fn apart(&mut self, depth: u32, text: &[u8], out: &mut Draft) -> Result<Bytes, ExpandFault>
        ensures run { IsGiven (apart (found self.old.vars.now) (text_run (found self.old.vars.now) depth) self.old.scope text.now out.old) result out.new }
        ensures kept { OnOk result (self.new ≡ self.old) }
    {
        let mut draft = out.apart(self.alloc);
        self.text(depth, text, &mut draft)?;
        Ok(out.take(draft))
    }

    #[cycle(expansion)]
    fn named(&mut self, depth: u32, name: Bytes, out: &mut Draft) -> Result<(), ExpandFault>
        ensures run { IsRun (named (found self.old.vars.now) (text_run (found self.old.vars.now) depth) self.old.scope name out.old) result out.new }
        ensures kept { OnOk result (self.new ≡ self.old) }
    {
        if is_bad_name(name.as_slice()) {
            return Err(ExpandFault::Unsupported(name));
        }
        if let Some(bytes) = self.scope.locals.find(name.as_slice()) {
            return out.put(bytes);
        }
        let Some(variable) = self.vars.find(name.as_slice()) else {
            return Ok(());
        };
        if variable.simple {
            return out.put(variable.text.as_slice());
        }
        if self.scope.is_active(name.as_slice()) {
            return Err(ExpandFault::SelfReference(name));
        }
        self.later(depth, name, variable.text.as_slice(), out)
    }

    // The text of a variable.
    #[cycle(expansion)]
    fn later(
        &mut self,
        depth: u32,
        name: Bytes,
        text: &[u8],
        out: &mut Draft,
    ) -> Result<(), ExpandFault>
        ensures run { IsRun (text_run (found self.old.vars.now) depth (with_active self.old.scope name) text.now out.old) result out.new }
        ensures kept { OnOk result (self.new ≡ self.old) }
    {
        self.scope.enter_variable(name)?;
        self.text(depth, text, out)?;
        self.scope.leave_variable();
        Ok(())
    }

    #[cycle(expansion)]
    #[tactic(auto, using(crate::proofs::Walking::strict_steps))]
    fn strict(
        &mut self,
        depth: u32,
        function: Function,
        args: &[&[u8]],
        out: &mut Draft,
    ) -> Result<(), ExpandFault>
        ensures run { IsRun (strict_call (found self.old.vars.now) (text_run (found self.old.vars.now) depth) self.old.scope function (map (λ arg. arg.now) args.now) out.old) result out.new }
        ensures kept { OnOk result (self.new ≡ self.old) }
    {
        out.pay()?;
        let values = self.args(depth, function, args, out)?;
        put_applied(self.alloc, function, &values, out)
    }

    #[cycle(expansion)]
    #[tactic(auto, using(crate::proofs::Walking::values_steps))]
    fn args(
        &mut self,
        depth: u32,
        function: Function,
        args: &[&[u8]],
        out: &mut Draft,
    ) -> Result<Names, ExpandFault>
        ensures run { IsGiven (all_values (found self.old.vars.now) (text_run (found self.old.vars.now) depth) self.old.scope function [] (map (λ arg. arg.now) args.now) out.old) result out.new }
        ensures kept { OnOk result (self.new ≡ self.old) }
    {
        let mut values = no_names(self.alloc);
        for (place, arg) in args.iter().enumerate() {
            let behind = args.len() - place - 1;
            self.arg(depth, function, behind, arg, &mut values, out)?;
        }
        Ok(values)
    }

    // One more value, with so many arguments after it.
    #[cycle(expansion)]
    #[tactic(auto, using(crate::proofs::Walking::one_steps))]
    fn arg(
        &mut self,
        depth: u32,
        function: Function,
        behind: usize,
        text: &[u8],
        values: &mut Names,
        out: &mut Draft,
    ) -> Result<(), ExpandFault>
        ensures run { IsAdded (one_value (found self.old.vars.now) (text_run (found self.old.vars.now) depth) self.old.scope function behind values.old text.now out.old) result values.new out.new }
        ensures kept { OnOk result (self.new ≡ self.old) }
    {
        let value = self.apart(depth, text, out)?;
        let count = values.items.len();
        check_argument(self.alloc, function, count, value.as_slice(), behind)?;
        values.items.push(value)?;
        Ok(())
    }

    #[cycle(expansion)]
    #[tactic(auto, using(crate::proofs::Walking::choice_steps))]
    fn choice(
        &mut self,
        depth: u32,
        test: &[u8],
        yes: &[u8],
        no: &[u8],
        out: &mut Draft,
    ) -> Result<(), ExpandFault>
        ensures run { IsRun (choice_call (found self.old.vars.now) (text_run (found self.old.vars.now) depth) self.old.scope test.now yes.now no.now out.old) result out.new }
        ensures kept { OnOk result (self.new ≡ self.old) }
    {
        out.pay()?;
        let value = self.apart(depth, test, out)?;
        self.branch(depth, chosen(value.as_slice(), yes, no), out)
    }

    #[cycle(expansion)]
    #[tactic(auto, using(crate::proofs::Walking::branch_steps))]
    fn branch(&mut self, depth: u32, text: &[u8], out: &mut Draft) -> Result<(), ExpandFault>
        ensures run { IsRun (branch (found self.old.vars.now) (text_run (found self.old.vars.now) depth) self.old.scope text.now out.old) result out.new }
        ensures kept { OnOk result (self.new ≡ self.old) }
    {
        let mut draft = out.apart(self.alloc);
        self.text(depth, text, &mut draft)?;
        out.put_apart(draft)
    }

    #[cycle(expansion)]
    #[tactic(auto, using(crate::proofs::Walking::loop_steps))]
    fn each_word(
        &mut self,
        depth: u32,
        variable: &[u8],
        list: &[u8],
        body: &[u8],
        out: &mut Draft,
    ) -> Result<(), ExpandFault>
        ensures run { IsRun (loop_call (found self.old.vars.now) (text_run (found self.old.vars.now) depth) self.old.scope variable.now list.now body.now out.old) result out.new }
        ensures kept { OnOk result (self.new ≡ self.old) }
    {
        out.pay()?;
        let name = self.apart(depth, variable, out)?;
        let items = self.apart(depth, list, out)?;
        self.row(depth, name.as_slice(), body, items.as_slice(), out)
    }

    // A body for each word of a list, in a row.
    #[cycle(expansion)]
    #[tactic(auto, using(crate::proofs::Walking::looped_steps))]
    fn row(
        &mut self,
        depth: u32,
        name: &[u8],
        body: &[u8],
        items: &[u8],
        out: &mut Draft,
    ) -> Result<(), ExpandFault>
        ensures run { IsRun (looped (found self.old.vars.now) (text_run (found self.old.vars.now) depth) self.old.scope name.now body.now items.now out.old) result out.new }
        ensures kept { OnOk result (self.new ≡ self.old) }
    {
        let words = words(self.alloc, items)?;
        let mut draft = out.apart(self.alloc);
        self.each(depth, name, body, &words, &mut draft)?;
        out.put_apart(draft)
    }

    #[cycle(expansion)]
    #[tactic(auto, using(crate::proofs::Walking::each_steps))]
    fn each(
        &mut self,
        depth: u32,
        name: &[u8],
        body: &[u8],
        words: &[&[u8]],
        out: &mut Draft,
    ) -> Result<(), ExpandFault>
        ensures run { IsRun (each (found self.old.vars.now) (text_run (found self.old.vars.now) depth) self.old.scope name.now body.now [] (map (λ word. word.now) words.now) out.old) result out.new }
        ensures kept { OnOk result (self.new ≡ self.old) }
    {
        let mut gap: &[u8] = b"";
        for word in words {
            out.put_paid(gap)?;
            self.one(depth, name, body, word, out)?;
            gap = b" ";
        }
        Ok(())
    }

    // A body in which a name stands for a word.
    #[cycle(expansion)]
    fn one(
        &mut self,
        depth: u32,
        name: &[u8],
        body: &[u8],
        word: &[u8],
        out: &mut Draft,
    ) -> Result<(), ExpandFault>
        ensures run { IsRun (text_run (found self.old.vars.now) depth (with_local self.old.scope name.now word.now) body.now out.old) result out.new }
        ensures kept { OnOk result (self.new ≡ self.old) }
    {
        self.scope.enter_word(self.alloc, name, word)?;
        self.text(depth, body, out)?;
        self.scope.leave_word();
        Ok(())
    }
}

// A call with too few arguments is at fault before its depth is.
fn too_deep(inside: &Called<'_>) -> ExpandFault
    ensures { result ≡ too_deep (shown_call inside.now) }
{
    match inside {
        Called::Short => ExpandFault::BadCall,
        _ => ExpandFault::TooCostly,
    }
}

fn chosen<'a>(value: &[u8], yes: &'a [u8], no: &'a [u8]) -> &'a [u8]
    ensures { result.now ≡ chosen value.now yes.now no.now }
{
    if value.is_empty() { no } else { yes }
}
