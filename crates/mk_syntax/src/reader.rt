//! The reading of a recipe, line by line.
ghost use Rattle.std.specs.Prelude.{◌≡◌, ◌-◌, ◌^◌, ◌<◌, None, Err, List, [], ◌++◌, ◌⊎◌, IfOk, IfErr};
ghost use Rattle.std.specs.List.{join_with_byte};
ghost use Rattle.mk_syntax.specs.declared.lines.Line.{Line};
ghost use Rattle.mk_syntax.specs.declared.recipe.Statement.{Statement};
ghost use Rattle.mk_syntax.specs.declared.recipe.What.TheVariants.{Define};
ghost use Rattle.mk_syntax.specs.declared.fault.MkFault.{MkFault};
ghost use Rattle.mk_syntax.specs.declared.fault.MkError.TheVariants.{Fault};
ghost use Rattle.mk_syntax.specs.Lines.{line_count, joined_lines};
ghost use Rattle.mk_syntax.specs.Reading.{IsStep, IsReading, added, said, else_if, plain_else, end_if, loose, outside, within, next, start, left_open, closed, reading};
ghost use Rattle.mk_syntax.specs.Row.{row_of, inside_of};
ghost use Rattle.mk_syntax.specs.Grammar.{IsRecipeOf, Leaves, IsFirstFault, IsErrorOf};

use crate::fault::{MkError, MkFault, MkKind};
use crate::lines::{Line, joined_lines};
use crate::recipe::{Recipe, What};
use crate::row::{Inside, Row, inside_of, row_of};
use crate::unfinished::{Condition, Conditions, Definition, joined_body};
use br_path::Names;
use std::alloc::Global;

/// What is read so far.
#[derive(Drop)]
pub(crate) struct Reader {
    statements: Recipe,
    conditions: Conditions,
    definition: Option<Definition>,
}

/// Reads a recipe: its statements, or its first fault.
///
/// The time is proportional to the text.
pub fn read(alloc: Global, text: &[u8]) -> Result<Recipe, MkError>
    requires { line_count text.now < 2 ^ 32 - 1 }
    ensures recipe { IfOk result (IsRecipeOf (joined_lines text.now)) }
    ensures fault { IfErr result (IsErrorOf (joined_lines text.now)) }
{
    read_lines(alloc, joined_lines(alloc, text)?)
}

/// A law with nothing to run: lines are a recipe in one way, or have one first fault, and never both or neither.
///
/// So the line of a fault is the first after which no recipe goes on: one goes on after lines exactly where these
/// leave something open, or nothing.
pub fn one_answer()
    ensures recipe { (lines : List Line) (statements others : List Statement) → IsRecipeOf lines statements → IsRecipeOf lines others → statements ≡ others }
    ensures fault { (lines : List Line) (fault other : MkFault) → IsFirstFault lines fault → IsFirstFault lines other → fault ≡ other }
    ensures apart { (lines : List Line) (statements : List Statement) (fault : MkFault) → IsRecipeOf lines statements → IsFirstFault lines fault → ⊥ }
    ensures onward { (front : List Line) (reader : Reader) → Leaves front reader → (back : List Line) × ((statements : List Statement) × IsRecipeOf (front ++ back) statements) }
    ensures begun { (front back : List Line) (statements : List Statement) → IsRecipeOf (front ++ back) statements → (reader : Reader) × Leaves front reader }
    ensures some { (lines : List Line) → ((statements : List Statement) × IsRecipeOf lines statements) ⊎ ((fault : MkFault) × IsFirstFault lines fault) }
{}

fn read_lines(alloc: Global, lines: Vec<Line>) -> Result<Recipe, MkError>
    ensures { IsReading (reading lines.items) result }
{
    let mut reader = Reader::new(alloc);
    for line in lines {
        if let Err(error) = reader.take(alloc, line) {
            return Err(error);
        }
    }
    reader.finish()
}

impl Reader {
    fn new(alloc: Global) -> Reader
        ensures { result ≡ start }
    {
        Reader {
            statements: Recipe::new(alloc),
            conditions: Conditions::new(alloc),
            definition: None,
        }
    }

    /// Reads one more line.
    fn take(&mut self, alloc: Global, line: Line) -> Result<(), MkError>
        ensures { IsStep (next self.old line) result self.new }
    {
        match self.definition.take() {
            None => self.outside(alloc, line),
            Some(definition) => self.within(alloc, definition, line),
        }
    }

    fn outside(&mut self, alloc: Global, line: Line) -> Result<(), MkError>
        requires { self.old.definition ≡ None }
        ensures { IsStep (outside self.old.statements self.old.conditions line.number (row_of line.bytes)) result self.new }
    {
        let row = row_of(alloc, line.bytes.as_slice())?;
        self.take_row(alloc, line.number, row)
    }

    fn take_row(&mut self, alloc: Global, line: u32, row: Row) -> Result<(), MkError>
        requires { self.old.definition ≡ None }
        ensures { IsStep (outside self.old.statements self.old.conditions line row) result self.new }
    {
        match row {
            Row::Nothing => Ok(()),
            Row::Says(what) => self.say(line, what),
            Row::Opens(name) => {
                self.definition = Some(Definition {
                    line,
                    name,
                    body: no_lines(alloc),
                });
                Ok(())
            }
            Row::Loose => Err(self.loose(line)),
            Row::Refused(kind) => Err(refused(line, kind)),
        }
    }

    fn say(&mut self, line: u32, what: What) -> Result<(), MkError>
        requires { self.old.definition ≡ None }
        ensures { IsStep (said self.old.statements self.old.conditions line what) result self.new }
    {
        match what {
            What::If(test) => {
                self.conditions.push(Condition {
                    line,
                    past_else: false,
                })?;
                self.add(line, What::If(test))
            }
            What::ElseIf(test) => self.else_if(line, What::ElseIf(test)),
            What::Else => self.plain_else(line),
            What::EndIf => self.end_if(line),
            plain => self.add(line, plain),
        }
    }

    fn add(&mut self, line: u32, what: What) -> Result<(), MkError>
        requires { self.old.definition ≡ None }
        ensures { IsStep (added self.old.statements self.old.conditions line what) result self.new }
    {
        self.statements.add(line, what)?;
        Ok(())
    }

    fn else_if(&mut self, line: u32, what: What) -> Result<(), MkError>
        requires { self.old.definition ≡ None }
        ensures { IsStep (else_if self.old.statements self.old.conditions line what) result self.new }
    {
        let kind = match self.conditions.innermost() {
            None => MkKind::StrayElse,
            Some(inner) if inner.past_else => MkKind::BadLine,
            Some(_) => return self.add(line, what),
        };
        drop(what);
        Err(refused(line, kind))
    }

    fn plain_else(&mut self, line: u32) -> Result<(), MkError>
        requires { self.old.definition ≡ None }
        ensures { IsStep (plain_else self.old.statements self.old.conditions line) result self.new }
    {
        match self.conditions.pop() {
            None => Err(refused(line, MkKind::StrayElse)),
            Some(inner) => {
                if inner.past_else {
                    return Err(refused(line, MkKind::StrayElse));
                }
                self.conditions.push(Condition {
                    line: inner.line,
                    past_else: true,
                })?;
                self.add(line, What::Else)
            }
        }
    }

    fn end_if(&mut self, line: u32) -> Result<(), MkError>
        requires { self.old.definition ≡ None }
        ensures { IsStep (end_if self.old.statements self.old.conditions line) result self.new }
    {
        match self.conditions.pop() {
            None => Err(refused(line, MkKind::StrayElse)),
            Some(_) => self.add(line, What::EndIf),
        }
    }

    /// Why a malformed `else` or `endif` is refused.
    fn loose(&self, line: u32) -> MkError
        ensures { IsStep (loose self.now.conditions line) (Err result) self.now }
    {
        match self.conditions.innermost() {
            None => refused(line, MkKind::StrayElse),
            Some(_) => refused(line, MkKind::BadLine),
        }
    }

    fn within(
        &mut self,
        alloc: Global,
        mut definition: Definition,
        line: Line,
    ) -> Result<(), MkError>
        requires { self.old.definition ≡ None }
        ensures { IsStep (within self.old.statements self.old.conditions definition line (inside_of line.bytes)) result self.new }
    {
        match inside_of(alloc, line.bytes.as_slice())? {
            Inside::Text => {
                definition.body.items.push(line.bytes)?;
                self.definition = Some(definition);
                Ok(())
            }
            Inside::Ends => self.end_definition(alloc, definition),
            Inside::Refused(kind) => Err(refused(line.number, kind)),
        }
    }

    fn end_definition(&mut self, alloc: Global, definition: Definition) -> Result<(), MkError>
        requires { self.old.definition ≡ None }
        ensures { IsStep (added self.old.statements self.old.conditions definition.line (Define definition.name (join_with_byte 10 definition.body))) result self.new }
    {
        let text = joined_body(alloc, &definition.body)?;
        let name = definition.name;
        self.add(definition.line, What::Define { name, text })
    }

    /// The recipe, where nothing is left open.
    fn finish(self) -> Result<Recipe, MkError>
        ensures { IsReading (closed self.statements (left_open self.conditions self.definition)) result }
    {
        let Reader {
            statements,
            conditions,
            definition,
        } = self;
        match first_open(&conditions, definition) {
            None => Ok(statements),
            Some(fault) => Err(MkError::Fault(fault)),
        }
    }
}

/// What stands open, by the least line that opens it.
fn first_open(conditions: &Conditions, definition: Option<Definition>) -> Option<MkFault>
    ensures { result ≡ left_open conditions.now definition }
{
    if let Some(outermost) = conditions.outermost() {
        return Some(MkFault {
            line: outermost.line,
            kind: MkKind::OpenIf,
        });
    }
    match definition {
        None => None,
        Some(definition) => Some(MkFault {
            line: definition.line,
            kind: MkKind::OpenDefine,
        }),
    }
}

fn refused(line: u32, kind: MkKind) -> MkError
    ensures { result ≡ Fault (record { line = line; kind = kind }) }
{
    MkError::Fault(MkFault { line, kind })
}

fn no_lines(alloc: Global) -> Names
    ensures { result ≡ [] }
{
    Names {
        items: Vec::new(alloc),
    }
}
