//! The values of a package's variables, and the lines that they have.
ghost use Rattle.std.specs.Prelude.{◌≡◌, ◌≢◌, ◌≤◌, [], IfOk, length, map};
ghost use Rattle.mk_expand.specs.declared.fault.ExpandFault.TheVariants.{Memory as no_room};
ghost use Rattle.recipe_set.specs.declared.fault.PlanFault.TheVariants.{Expand as expand_fault, Memory as no_memory};
ghost use Rattle.recipe_plan.specs.Answers.{Gives, Leaves, in_turn};
ghost use Rattle.recipe_plan.specs.Owned.{IsOwner};
ghost use Rattle.recipe_plan.specs.Texts.{hooks, put_text, put_variable, value};

use crate::lines::put_lines;
use br_path::{Bytes, Memory};
use mk_expand::{ExpandFault, Locals, Vars, expand_reference, words};
use plan_rows::{CommandLine, Lines};
use recipe_set::{Made, PlanFault};
use std::alloc::Global;
use std::marker::Model;

/// The most bytes that the texts of one task may have.
const TEXT_LIMIT: usize = 262_144;

/// A package whose variables are expanded, with what stands for something in their texts.
#[derive(Drop)]
pub(crate) struct Owner<'a> {
    pub(crate) vars: &'a Vars,
    pub(crate) made: &'a Made,
    locals: Locals,
}

impl<'a> Owner<'a> {
    /// A package, with `@D` for the folder that it is built in.
    pub(crate) fn new(alloc: Global, vars: &'a Vars, made: &'a Made) -> Result<Owner<'a>, Memory>
        ensures owner { IfOk result IsOwner }
        ensures vars { IfOk result (λ owner. owner.vars.now ≡ vars.now) }
        ensures made { IfOk result (λ owner. owner.made.now ≡ made.now) }
    {
        let mut folder = Bytes::from_slice(alloc, b"/output/build/")?;
        folder.items.extend_from_slice(made.name.as_slice())?;
        let mut locals = Locals::new(alloc);
        locals.add(Bytes::from_slice(alloc, b"@D")?, folder)?;
        Ok(Owner { vars, made, locals })
    }

    /// The value of a variable.
    pub(crate) fn value(&self, alloc: Global, variable: &[u8]) -> Result<Bytes, PlanFault>
        requires { IsOwner self.now }
        ensures { Gives (value self.now.vars.now self.now.made.now variable.now) result }
    {
        match expand_reference(alloc, self.vars, variable, &self.locals) {
            Ok(text) => Ok(text),
            Err(fault) => Err(self.fault(alloc, variable, fault)),
        }
    }

    /// The fault of a variable's expansion.
    fn fault(&self, alloc: Global, variable: &[u8], fault: ExpandFault) -> PlanFault
        ensures fault { result ≢ no_memory → result ≡ expand_fault self.now.made.now.name variable.now fault }
        ensures some { fault ≡ no_room → result ≡ no_memory }
    {
        match fault {
            ExpandFault::Memory => PlanFault::Memory,
            fault => match self.named(alloc, variable) {
                Ok((package, variable)) => PlanFault::Expand {
                    package,
                    variable,
                    fault,
                },
                Err(_) => PlanFault::Memory,
            },
        }
    }

    /// The names of the package and of a variable.
    fn named(&self, alloc: Global, variable: &[u8]) -> Result<(Bytes, Bytes), Memory>
        ensures { IfOk result (λ names. (names.0 ≡ self.now.made.now.name) × (names.1 ≡ variable.now)) }
    {
        Ok((self.made.name.copy()?, Bytes::from_slice(alloc, variable)?))
    }
}

/// Lines, and how many bytes the texts of the task have up to their end.
#[derive(Drop)]
pub(crate) struct Texts {
    lines: Vec<CommandLine>,
    bytes: usize,
}

impl Model for Texts {
    ghost use Rattle.std.specs.Prelude.{ℕ, List, ◌≤◌};
    ghost use Rattle.plan_rows.specs.declared.rows.CommandLine.{CommandLine};

    ghost Value = { List CommandLine × ℕ };

    ghost view = { λ t. (t.lines.items, t.bytes) };

    ghost invariant = { λ t. t.bytes ≤ 262144 };
}

impl Texts {
    /// No lines, after texts of so many bytes.
    pub(crate) fn behind(alloc: Global, bytes: usize) -> Texts
        requires { bytes ≤ 262144 }
        ensures { result ≡ ([], bytes) }
    {
        Texts {
            lines: Vec::new(alloc),
            bytes,
        }
    }

    /// The lines of the hooks that a variable names.
    pub(crate) fn hooks(
        alloc: Global,
        owner: &Owner<'_>,
        bytes: usize,
        variable: &[u8],
    ) -> Result<Texts, PlanFault>
        requires owner { IsOwner owner.now }
        requires bytes { bytes ≤ 262144 }
        ensures { Gives (hooks owner.now.vars.now owner.now.made.now bytes variable.now) result }
    {
        let names = owner.value(alloc, variable)?;
        let variables = words(alloc, names.as_slice())?;
        let mut texts = Texts::behind(alloc, bytes);
        texts.put_variables(alloc, owner, &variables)?;
        Ok(texts)
    }

    /// Puts the lines of the values of variables after the others, one after another.
    fn put_variables(
        &mut self,
        alloc: Global,
        owner: &Owner<'_>,
        variables: &[&[u8]],
    ) -> Result<(), PlanFault>
        requires { IsOwner owner.now }
        ensures { Leaves (in_turn (put_variable owner.now.vars.now owner.now.made.now) self.old (map (λ variable. variable.now) variables.now)) result self.new }
    {
        for variable in variables {
            self.put_variable(alloc, owner, variable)?;
        }
        Ok(())
    }

    /// The lines of a variable's value.
    pub(crate) fn of_variable(
        alloc: Global,
        owner: &Owner<'_>,
        bytes: usize,
        variable: &[u8],
    ) -> Result<Texts, PlanFault>
        requires owner { IsOwner owner.now }
        requires bytes { bytes ≤ 262144 }
        ensures { Gives (put_variable owner.now.vars.now owner.now.made.now ([], bytes) variable.now) result }
    {
        let mut texts = Texts::behind(alloc, bytes);
        texts.put_variable(alloc, owner, variable)?;
        Ok(texts)
    }

    /// Puts the lines of a variable's value after the others.
    fn put_variable(
        &mut self,
        alloc: Global,
        owner: &Owner<'_>,
        variable: &[u8],
    ) -> Result<(), PlanFault>
        requires { IsOwner owner.now }
        ensures { Leaves (put_variable owner.now.vars.now owner.now.made.now self.old variable.now) result self.new }
    {
        let text = owner.value(alloc, variable)?;
        self.put_text(alloc, owner, variable, text.as_slice())
    }

    /// Puts the lines of a variable's text after the others. A text that passes the limit is a fault.
    fn put_text(
        &mut self,
        alloc: Global,
        owner: &Owner<'_>,
        variable: &[u8],
        text: &[u8],
    ) -> Result<(), PlanFault>
        ensures { Leaves (put_text owner.now.made.now variable.now self.old text.now) result self.new }
    {
        if text.len() > TEXT_LIMIT - self.bytes {
            return Err(owner.fault(alloc, variable, ExpandFault::TooCostly));
        }
        put_lines(alloc, &mut self.lines, text)?;
        self.bytes += text.len();
        Ok(())
    }

    /// How many bytes the texts of the task have up to here.
    pub(crate) fn bytes(&self) -> usize
        ensures bytes { result ≡ self.now.1 }
        ensures within { result ≤ 262144 }
    {
        self.bytes
    }

    /// The lines.
    pub(crate) fn into_lines(self) -> Lines
        ensures { result ≡ self.0 }
    {
        Lines { items: self.lines }
    }
}
