//! What attribute lines put to the last entry, the last choice and the innermost block.
ghost use Rattle.std.specs.Prelude.{◌≡◌, ◌∷◌, ◌++◌, OnOk};

use crate::block::Open;
use crate::draft::{Draft, DraftDefault};
use crate::reader::Reader;
use br_path::Memory;
use kc_expr::Expr;
use kc_menu::{KcChoice, SymbolIf};

#[tactic(auto, using(crate::proofs::Lasts::lasts))]
impl Reader {
    ghost use Rattle.kc_syntax.specs.Shown.{shown};
    ghost use Rattle.kc_syntax.specs.State as state;

    /// A prompt of the last entry.
    pub(crate) fn put_prompt(&mut self, condition: Expr) -> Result<(), Memory>
        ensures { OnOk result (shown self.new ≡ state.with_prompt condition (shown self.old)) }
    {
        if let Some(entry) = self.entries.last_mut() {
            entry.prompts.items.push(condition)?;
        }
        Ok(())
    }

    /// A default of the last entry.
    pub(crate) fn put_default(&mut self, given: DraftDefault) -> Result<(), Memory>
        ensures { OnOk result (shown self.new ≡ state.with_default given (shown self.old)) }
    {
        if let Some(entry) = self.entries.last_mut() {
            entry.defaults.items.push(given)?;
        }
        Ok(())
    }

    /// A select of the last entry.
    pub(crate) fn put_select(&mut self, select: SymbolIf) -> Result<(), Memory>
        ensures { OnOk result (shown self.new ≡ state.with_select select (shown self.old)) }
    {
        if let Some(entry) = self.entries.last_mut() {
            entry.selects.items.push(select)?;
        }
        Ok(())
    }

    /// A dependency of the last entry.
    pub(crate) fn put_depends(&mut self, condition: Expr) -> Result<(), Memory>
        ensures { OnOk result (shown self.new ≡ state.with_depends condition (shown self.old)) }
    {
        if let Some(entry) = self.entries.last_mut() {
            entry.depends.items.push(condition)?;
        }
        Ok(())
    }

    /// A prompt of the last choice.
    pub(crate) fn put_choice_prompt(&mut self, condition: Expr) -> Result<(), Memory>
        ensures { OnOk result (shown self.new ≡ state.with_choice_prompt condition (shown self.old)) }
    {
        if let Some(choice) = self.choices.last_mut() {
            choice.prompts.items.push(condition)?;
        }
        Ok(())
    }

    /// A default of the last choice.
    pub(crate) fn put_choice_default(&mut self, default: SymbolIf) -> Result<(), Memory>
        ensures { OnOk result (shown self.new ≡ state.with_choice_default default (shown self.old)) }
    {
        if let Some(choice) = self.choices.last_mut() {
            choice.defaults.items.push(default)?;
        }
        Ok(())
    }

    /// A dependency of the last choice.
    pub(crate) fn put_choice_depends(&mut self, condition: Expr) -> Result<(), Memory>
        ensures { OnOk result (shown self.new ≡ state.with_choice_depends condition (shown self.old)) }
    {
        if let Some(choice) = self.choices.last_mut() {
            choice.depends.items.push(condition)?;
        }
        Ok(())
    }

    /// A condition that the innermost block puts on what stands in it.
    pub(crate) fn put_condition(&mut self, condition: Expr) -> Result<(), Memory>
        ensures { OnOk result (shown self.new ≡ state.with_condition condition (shown self.old)) }
    {
        if let Some(inner) = self.blocks.last_mut() {
            inner.conditions.items.push(condition)?;
        }
        Ok(())
    }
}
