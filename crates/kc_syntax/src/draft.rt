//! Entries as they are read, before the types of all symbols are known.
use crate::shared::SharedPath;
use br_path::Bytes;
use kc_expr::Expr;
use kc_menu::{Exprs, SymbolIfs};
use std::marker::Model;

/// A default with the place of its line. `single` says that its value is one part of the line, so has no brackets round it.
#[derive(Drop)]
pub(crate) struct DraftDefault {
    pub(crate) value: Expr,
    pub(crate) single: bool,
    pub(crate) condition: Expr,
    pub(crate) file: SharedPath,
    pub(crate) line: u32,
}

/// Defaults in their order.
#[derive(Drop)]
pub(crate) struct DraftDefaults {
    pub(crate) items: Vec<DraftDefault>,
}

impl Model for DraftDefaults {
    ghost use Rattle.kc_expr.specs.contracts.expr.Expr as expr;
    ghost use Rattle.std.specs.Coded.{codes};
    ghost use Rattle.std.specs.Prelude.{List};
    ghost use Rattle.kc_syntax.specs.declared.draft.DraftDefault.{DraftDefault};

    ghost Value = { List DraftDefault };

    ghost coded = { Prim.hlevel (codes, expr.the_row.coded) };

    ghost view = { λ g. g.items.items };
}

/// An entry with the place of its first line.
#[derive(Drop)]
pub(crate) struct Draft {
    pub(crate) symbol: Bytes,
    pub(crate) file: SharedPath,
    pub(crate) line: u32,
    /// The conditions of its prompts.
    pub(crate) prompts: Exprs,
    pub(crate) defaults: DraftDefaults,
    pub(crate) selects: SymbolIfs,
    /// The conditions of the blocks round it, and its own.
    pub(crate) depends: Exprs,
    /// The choice that it is a member of, by its place among all.
    pub(crate) choice: Option<u32>,
}
