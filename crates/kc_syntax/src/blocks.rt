//! Blocks: where they begin and end, and what stands round a place.
ghost use Rattle.std.specs.Prelude.{◌≡◌, [], ◌++◌, None, IfOk, OnOk, count_by, flat_map};
ghost use Rattle.std.specs.Option.{is_some};
ghost use Rattle.kc_syntax.specs.State.{is_block, enclosing_choice, is_full, conditions_of, first_line};
ghost use Rattle.kc_syntax.specs.Step.{is_inside, same_block};

use crate::block::{Block, Open, Owner};
use crate::error::{KcError, KcKind, fault};
use crate::reader::Reader;
use crate::shared::SharedPath;
use br_path::Memory;
use kc_expr::Expr;
use kc_menu::{Exprs, KcChoice, SymbolIfs};
use std::alloc::Global;

/// How many blocks may be open at a place.
const BLOCK_LIMIT: usize = 64;

impl Reader {
    ghost use Rattle.kc_syntax.specs.Shown.{shown, Follows};
    ghost use Rattle.kc_syntax.specs.State as state;
    ghost use Rattle.kc_syntax.specs.Step as on;

    /// `mainmenu`
    pub(crate) fn main_menu(&mut self, file: &SharedPath, line: u32) -> Result<(), KcError>
        ensures { Follows (on.main_menu (shown self.old) file.now line) result (shown self.new) }
    {
        if self.enclosing_choice().is_some() {
            return Err(fault(file, line, KcKind::BadLine));
        }
        self.owner = Owner::Nobody;
        Ok(())
    }

    /// `menu`
    pub(crate) fn begin_menu(&mut self, file: &SharedPath, line: u32) -> Result<(), KcError>
        ensures { Follows (on.begin_menu (shown self.old) file.now line) result (shown self.new) }
    {
        if self.enclosing_choice().is_some() {
            return Err(fault(file, line, KcKind::BadLine));
        }
        let conditions = no_conditions(self.alloc);
        self.begin_block(
            file,
            line,
            Block::Menu,
            self.enclosing_choice(),
            conditions,
            Owner::Menu,
        )
    }

    /// `if`
    pub(crate) fn begin_if(
        &mut self,
        condition: Expr,
        file: &SharedPath,
        line: u32,
    ) -> Result<(), KcError>
        ensures { Follows (on.begin_if (shown self.old) condition file.now line) result (shown self.new) }
    {
        let mut conditions = no_conditions(self.alloc);
        conditions.items.push(condition)?;
        self.begin_block(
            file,
            line,
            Block::If,
            self.enclosing_choice(),
            conditions,
            Owner::Nobody,
        )
    }

    /// `choice`. One after 2^32 - 1 others is answered as out of memory.
    pub(crate) fn begin_choice(&mut self, file: &SharedPath, line: u32) -> Result<(), KcError>
        ensures { Follows (on.begin_choice (shown self.old) file.now line) result (shown self.new) }
    {
        if self.enclosing_choice().is_some() {
            return Err(fault(file, line, KcKind::BadLine));
        }
        let Ok(place) = u32::try_from(self.choices.len()) else {
            return Err(KcError::Memory);
        };
        self.put_choice()?;
        let conditions = no_conditions(self.alloc);
        self.begin_block(
            file,
            line,
            Block::Choice,
            Some(place),
            conditions,
            Owner::Choice,
        )
    }

    // A block begins.
    fn begin_block(
        &mut self,
        file: &SharedPath,
        line: u32,
        block: Block,
        choice: Option<u32>,
        conditions: Exprs,
        owner: Owner,
    ) -> Result<(), KcError>
        ensures { Follows (on.begin_block (shown self.old) file.now line block choice conditions owner) result (shown self.new) }
    {
        if self.is_full() {
            return Err(fault(file, line, KcKind::BadLine));
        }
        self.blocks.push(Open {
            block,
            line,
            choice,
            conditions,
        })?;
        self.owner = owner;
        Ok(())
    }

    fn put_choice(&mut self) -> Result<(), Memory>
        ensures { OnOk result (shown self.new ≡ state.with_choice (shown self.old)) }
    {
        let depends = self.conditions()?;
        self.choices.push(KcChoice {
            prompts: no_conditions(self.alloc),
            defaults: SymbolIfs {
                items: Vec::new(self.alloc),
            },
            depends,
        })?;
        Ok(())
    }

    /// `endmenu`, `endif` or `endchoice`, by the block that it ends.
    pub(crate) fn end_block(
        &mut self,
        file: &SharedPath,
        line: u32,
        block: Block,
    ) -> Result<(), KcError>
        ensures { Follows (on.end_block (shown self.old) file.now line block) result (shown self.new) }
    {
        match self.blocks.pop() {
            Some(inner) if inner.block == block => {
                self.owner = Owner::Nobody;
                Ok(())
            }
            _ => Err(fault(file, line, KcKind::OpenBlock)),
        }
    }

    /// A file begins, and counts as a block.
    pub(crate) fn enter_file(&mut self) -> Result<(), Memory>
        ensures { OnOk result (shown self.new ≡ on.enter_file (shown self.old)) }
    {
        let choice = self.enclosing_choice();
        let conditions = no_conditions(self.alloc);
        self.blocks.push(Open {
            block: Block::File,
            line: 0,
            choice,
            conditions,
        })?;
        Ok(())
    }

    /// A file ends, in which all blocks must be closed.
    pub(crate) fn leave_file(&mut self, file: &SharedPath) -> Result<(), KcError>
        ensures { Follows (on.leave_file (shown self.old) file.now (shown self.old).blocks) result (shown self.new) }
    {
        match self.blocks.pop() {
            None => Err(fault(file, 0, KcKind::OpenBlock)),
            Some(inner) => {
                if inner.block == Block::File {
                    return Ok(());
                }
                Err(fault(file, self.first_line(inner.line), KcKind::OpenBlock))
            }
        }
    }

    // The first line of the outermost block that is open in the innermost file, where one inside all these begins at a
    // line. Takes the blocks away.
    fn first_line(&mut self, mut line: u32) -> u32
        ensures { result ≡ first_line line (shown self.old).blocks }
    {
        while let Some(inner) = self.blocks.pop() {
            if inner.block == Block::File {
                return line;
            }
            line = inner.line;
        }
        line
    }

    // Whether as many blocks are open as may be.
    #[tactic(auto, using(crate::proofs::Lasts::counts))]
    fn is_full(&self) -> bool
        ensures { result ≡ is_full (shown self.now).blocks }
    {
        block_count(self.blocks.as_slice()) >= BLOCK_LIMIT
    }

    /// The choice that the place is inside of.
    pub(crate) fn enclosing_choice(&self) -> Option<u32>
        ensures { result ≡ enclosing_choice (shown self.now).blocks }
    {
        match self.blocks.last() {
            Some(inner) => inner.choice,
            None => None,
        }
    }

    /// The conditions of all open blocks, the outermost first.
    pub(crate) fn conditions(&self) -> Result<Exprs, Memory>
        ensures { IfOk result (λ conditions. conditions ≡ conditions_of (shown self.now).blocks) }
    {
        Ok(Exprs {
            items: conditions_of(self.alloc, self.blocks.as_slice())?,
        })
    }
}

/// No conditions.
pub(crate) fn no_conditions(alloc: Global) -> Exprs
    ensures { result ≡ [] }
{
    Exprs {
        items: Vec::new(alloc),
    }
}

// How many blocks are open, files left out.
fn block_count(blocks: &[Open]) -> usize
    ensures { result ≡ count_by is_block blocks.now }
{
    let mut count = 0;
    for inner in blocks {
        if inner.block != Block::File {
            count += 1;
        }
    }
    count
}

// The conditions of blocks, copied.
fn conditions_of(alloc: Global, blocks: &[Open]) -> Result<Vec<Expr>, Memory>
    ensures { IfOk result (λ items. items.items ≡ flat_map (λ open_block. open_block.conditions) blocks.now) }
{
    let mut items = Vec::new(alloc);
    for inner in blocks {
        copy_conditions(alloc, &mut items, inner.conditions.items.as_slice())?;
    }
    Ok(items)
}

fn copy_conditions(alloc: Global, to: &mut Vec<Expr>, from: &[Expr]) -> Result<(), Memory>
    ensures { OnOk result (to.new.items ≡ to.old.items ++ from.now) }
{
    for condition in from {
        to.push(condition.copy(alloc)?)?;
    }
    Ok(())
}
