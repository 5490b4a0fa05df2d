//! Attribute lines, by what they belong to.
ghost use Rattle.std.specs.Prelude.{◌≡◌, OnOk};
ghost use Rattle.std.specs.Option.{option_copied};
ghost use Rattle.kc_syntax.specs.Step.{is_m, symbol_of};

use crate::block::Owner;
use crate::draft::DraftDefault;
use crate::entries::same_kind;
use crate::error::{KcError, KcKind, fault};
use crate::reader::Reader;
use crate::shared::SharedPath;
use br_path::{Bytes, Memory, is_text};
use kc_expr::{Atom, Expr};
use kc_menu::SymbolIf;
use kc_rows::is_symbol;
use kc_values::Kind;

impl Reader {
    ghost use Rattle.kc_syntax.specs.Shown.{shown, Follows};
    ghost use Rattle.kc_syntax.specs.State as state;
    ghost use Rattle.kc_syntax.specs.Step as on;

    /// `bool`, `string` or `int`, perhaps with a prompt. A choice may be a `bool`.
    pub(crate) fn type_line(
        &mut self,
        kind: Kind,
        prompt: Option<Expr>,
        file: &SharedPath,
        line: u32,
    ) -> Result<(), KcError>
        ensures { Follows (on.type_line (shown self.old) kind prompt file.now line self.old.owner) result (shown self.new) }
    {
        match self.owner {
            Owner::Entry => self.entry_type(kind, prompt, file, line),
            Owner::Choice => self.choice_type(kind, prompt, file, line),
            Owner::Menu | Owner::Comment | Owner::Nobody => Err(fault(file, line, KcKind::BadLine)),
        }
    }

    fn entry_type(
        &mut self,
        kind: Kind,
        prompt: Option<Expr>,
        file: &SharedPath,
        line: u32,
    ) -> Result<(), KcError>
        ensures { Follows (on.then_do (on.type_entry (shown self.old) kind file.now line) (on.with_some_prompt prompt)) result (shown self.new) }
    {
        if let Err(error) = self.type_entry(kind, file, line) {
            return Err(error);
        }
        match prompt {
            Some(condition) => Ok(self.put_prompt(condition)?),
            None => Ok(()),
        }
    }

    fn choice_type(
        &mut self,
        kind: Kind,
        prompt: Option<Expr>,
        file: &SharedPath,
        line: u32,
    ) -> Result<(), KcError>
        ensures { Follows (on.choice_type (shown self.old) kind prompt file.now line) result (shown self.new) }
    {
        if !same_kind(kind, Kind::Bool) {
            return Err(fault(file, line, KcKind::BadLine));
        }
        match prompt {
            Some(condition) => Ok(self.put_choice_prompt(condition)?),
            None => Ok(()),
        }
    }

    /// `prompt`
    pub(crate) fn prompt_line(
        &mut self,
        condition: Expr,
        file: &SharedPath,
        line: u32,
    ) -> Result<(), KcError>
        ensures { Follows (on.prompt_line (shown self.old) condition file.now line self.old.owner) result (shown self.new) }
    {
        match self.owner {
            Owner::Entry => Ok(self.put_prompt(condition)?),
            Owner::Choice => Ok(self.put_choice_prompt(condition)?),
            Owner::Menu | Owner::Comment | Owner::Nobody => Err(fault(file, line, KcKind::BadLine)),
        }
    }

    /// `def_bool`
    pub(crate) fn def_bool_line(
        &mut self,
        value: Expr,
        condition: Expr,
        file: &SharedPath,
        line: u32,
    ) -> Result<(), KcError>
        ensures { Follows (on.def_bool_line (shown self.old) value condition file.now line self.old.owner) result (shown self.new) }
    {
        match self.owner {
            Owner::Entry => self.entry_def_bool(value, condition, file, line),
            Owner::Choice | Owner::Menu | Owner::Comment | Owner::Nobody => {
                Err(fault(file, line, KcKind::BadLine))
            }
        }
    }

    fn entry_def_bool(
        &mut self,
        value: Expr,
        condition: Expr,
        file: &SharedPath,
        line: u32,
    ) -> Result<(), KcError>
        ensures { Follows (on.entry_def_bool (shown self.old) value condition file.now line) result (shown self.new) }
    {
        if let Err(error) = self.type_entry(Kind::Bool, file, line) {
            return Err(error);
        }
        Ok(self.put_value(value, false, condition, file, line)?)
    }

    // A default of the last entry.
    fn put_value(
        &mut self,
        value: Expr,
        single: bool,
        condition: Expr,
        file: &SharedPath,
        line: u32,
    ) -> Result<(), Memory>
        ensures { OnOk result (shown self.new ≡ state.with_default (record { value = value; single = single; condition = condition; file = file.now; line = line }) (shown self.old)) }
    {
        self.put_default(DraftDefault {
            value,
            single,
            condition,
            file: file.share()?,
            line,
        })
    }

    /// `default`: an entry has a value, a choice has a symbol.
    pub(crate) fn default_line(
        &mut self,
        value: Expr,
        single: bool,
        condition: Expr,
        file: &SharedPath,
        line: u32,
    ) -> Result<(), KcError>
        ensures { Follows (on.default_line (shown self.old) value single condition file.now line self.old.owner) result (shown self.new) }
    {
        match self.owner {
            Owner::Entry => self.entry_default(value, single, condition, file, line),
            Owner::Choice => self.choice_default(&value, single, condition, file, line),
            Owner::Menu | Owner::Comment | Owner::Nobody => Err(fault(file, line, KcKind::BadLine)),
        }
    }

    fn entry_default(
        &mut self,
        value: Expr,
        single: bool,
        condition: Expr,
        file: &SharedPath,
        line: u32,
    ) -> Result<(), KcError>
        ensures { Follows (on.entry_default (shown self.old) value single condition file.now line) result (shown self.new) }
    {
        if is_m(&value) {
            return Err(fault(file, line, KcKind::BadLine));
        }
        Ok(self.put_value(value, single, condition, file, line)?)
    }

    fn choice_default(
        &mut self,
        value: &Expr,
        single: bool,
        condition: Expr,
        file: &SharedPath,
        line: u32,
    ) -> Result<(), KcError>
        ensures { Follows (on.choice_default (shown self.old) value.now single condition file.now line) result (shown self.new) }
    {
        match symbol_of(value, single) {
            Some(symbol) => {
                let symbol = symbol.copy()?;
                Ok(self.put_choice_default(SymbolIf { symbol, condition })?)
            }
            None => Err(fault(file, line, KcKind::BadLine)),
        }
    }

    /// `depends on`: that of a menu or choice holds for all that stands in it, that of a comment for nothing.
    pub(crate) fn depends_line(
        &mut self,
        condition: Expr,
        file: &SharedPath,
        line: u32,
    ) -> Result<(), KcError>
        ensures { Follows (on.depends_line (shown self.old) condition file.now line self.old.owner) result (shown self.new) }
    {
        match self.owner {
            Owner::Entry => Ok(self.put_depends(condition)?),
            Owner::Choice => Ok(self.put_both_depends(condition)?),
            Owner::Menu => Ok(self.put_condition(condition)?),
            Owner::Comment => Ok(()),
            Owner::Nobody => Err(fault(file, line, KcKind::BadLine)),
        }
    }

    // A dependency of the last choice, which is the innermost block.
    fn put_both_depends(&mut self, condition: Expr) -> Result<(), Memory>
        ensures { OnOk result (shown self.new ≡ state.with_condition condition (state.with_choice_depends condition (shown self.old))) }
    {
        let other = condition.copy(self.alloc)?;
        self.put_choice_depends(other)?;
        self.put_condition(condition)
    }

    /// `select`
    pub(crate) fn select_line(
        &mut self,
        symbol: Bytes,
        condition: Expr,
        file: &SharedPath,
        line: u32,
    ) -> Result<(), KcError>
        ensures { Follows (on.select_line (shown self.old) symbol condition file.now line self.old.owner) result (shown self.new) }
    {
        match self.owner {
            Owner::Entry => Ok(self.put_select(SymbolIf { symbol, condition })?),
            Owner::Choice | Owner::Menu | Owner::Comment | Owner::Nobody => {
                Err(fault(file, line, KcKind::BadLine))
            }
        }
    }

    /// `help`
    pub(crate) fn help_line(&self, file: &SharedPath, line: u32) -> Result<(), KcError>
        ensures { Follows (on.help_line (shown self.now) file.now line self.now.owner) result (shown self.now) }
    {
        match self.owner {
            Owner::Entry | Owner::Choice => Ok(()),
            Owner::Menu | Owner::Comment | Owner::Nobody => Err(fault(file, line, KcKind::BadLine)),
        }
    }

    /// `---help---`
    pub(crate) fn dashed_help_line(&self, file: &SharedPath, line: u32) -> Result<(), KcError>
        ensures { Follows (on.dashed_help_line (shown self.now) file.now line self.now.owner) result (shown self.now) }
    {
        match self.owner {
            Owner::Entry => Ok(()),
            Owner::Choice | Owner::Menu | Owner::Comment | Owner::Nobody => {
                Err(fault(file, line, KcKind::BadLine))
            }
        }
    }
}

// Whether a value is the bare word `m`, which stands in no expression.
fn is_m(value: &Expr) -> bool
    ensures { result ≡ is_m value.now }
{
    match value {
        Expr::Holds(Atom::Word(word)) => is_text(word.as_slice(), b"m"),
        _ => false,
    }
}

// The symbol that a value is which has no brackets round it.
fn symbol_of(value: &Expr, single: bool) -> Option<&Bytes>
    ensures { option_copied result ≡ symbol_of value.now single }
{
    match value {
        Expr::Holds(Atom::Word(word)) if single && is_symbol(word.as_slice()) => Some(word),
        _ => None,
    }
}
