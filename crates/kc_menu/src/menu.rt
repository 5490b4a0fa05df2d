//! What the configuration files declare.
ghost use Rattle.std.specs.Prelude.{◌≡◌};

use br_path::Bytes;
use kc_expr::Expr;
use kc_values::Kind;
use std::marker::Model;

/// Conditions in their order.
#[derive(Debug, Drop)]
pub struct Exprs {
    pub items: Vec<Expr>,
}

impl Model for Exprs {
    ghost use Rattle.std.specs.Prelude.{List};
    ghost use Rattle.std.specs.Coded.{codes};
    ghost use Rattle.kc_expr.specs.contracts.expr.Expr as expr;
    ghost use Rattle.kc_expr.specs.declared.expr.Expr.{Expr};

    ghost Value = { List Expr };

    ghost coded = { Prim.hlevel (codes, expr.the_row.coded) };

    ghost view = { λ e. e.items.items };
}

/// A value that a symbol has without a wish, where the condition holds. That of a string or int is an atom.
#[derive(Debug, Drop)]
pub struct KcDefault {
    pub value: Expr,
    pub condition: Expr,
}

/// Defaults in their order.
#[derive(Debug, Drop)]
pub struct KcDefaults {
    pub items: Vec<KcDefault>,
}

impl Model for KcDefaults {
    ghost use Rattle.std.specs.Prelude.{List};
    ghost use Rattle.std.specs.Coded.{codes};
    ghost use Rattle.kc_expr.specs.contracts.expr.Expr as expr;
    ghost use Rattle.kc_menu.specs.declared.menu.KcDefault.{KcDefault};

    ghost Value = { List KcDefault };

    ghost coded = { Prim.hlevel (codes, expr.the_row.coded) };

    ghost view = { λ d. d.items.items };
}

/// A symbol that is selected, or taken by a choice, where the condition holds.
#[derive(Debug, Drop)]
pub struct SymbolIf {
    pub symbol: Bytes,
    pub condition: Expr,
}

/// Such symbols in their order.
#[derive(Debug, Drop)]
pub struct SymbolIfs {
    pub items: Vec<SymbolIf>,
}

impl Model for SymbolIfs {
    ghost use Rattle.std.specs.Prelude.{List};
    ghost use Rattle.std.specs.Coded.{codes};
    ghost use Rattle.kc_expr.specs.contracts.expr.Expr as expr;
    ghost use Rattle.kc_menu.specs.declared.menu.SymbolIf.{SymbolIf};

    ghost Value = { List SymbolIf };

    ghost coded = { Prim.hlevel (codes, expr.the_row.coded) };

    ghost view = { λ s. s.items.items };
}

/// An entry of a symbol.
#[derive(Debug, Drop)]
pub struct KcEntry {
    pub symbol: Bytes,
    /// The type of the symbol.
    pub kind: Kind,
    /// The conditions of its prompts.
    pub prompts: Exprs,
    pub defaults: KcDefaults,
    pub selects: SymbolIfs,
    /// Its `depends on` lines, and the conditions of all enclosing blocks.
    pub depends: Exprs,
    /// The place of the choice that it is a member of.
    pub choice: Option<u32>,
}

/// A choice.
#[derive(Debug, Drop)]
pub struct KcChoice {
    /// The conditions of its prompts.
    pub prompts: Exprs,
    pub defaults: SymbolIfs,
    /// Its `depends on` lines, and the conditions of all enclosing blocks.
    pub depends: Exprs,
}

/// Entries in reading order.
#[derive(Debug, Drop)]
pub struct Entries {
    pub items: Vec<KcEntry>,
}

impl Model for Entries {
    ghost use Rattle.std.specs.Prelude.{List};
    ghost use Rattle.std.specs.Coded.{codes};
    ghost use Rattle.kc_expr.specs.contracts.expr.Expr as expr;
    ghost use Rattle.kc_menu.specs.declared.menu.KcEntry.{KcEntry};

    ghost Value = { List KcEntry };

    ghost coded = { Prim.hlevel (codes, expr.the_row.coded) };

    ghost view = { λ e. e.items.items };
}

/// Choices in reading order.
#[derive(Debug, Drop)]
pub struct Choices {
    pub items: Vec<KcChoice>,
}

impl Model for Choices {
    ghost use Rattle.std.specs.Prelude.{List};
    ghost use Rattle.std.specs.Coded.{codes};
    ghost use Rattle.kc_expr.specs.contracts.expr.Expr as expr;
    ghost use Rattle.kc_menu.specs.declared.menu.KcChoice.{KcChoice};

    ghost Value = { List KcChoice };

    ghost coded = { Prim.hlevel (codes, expr.the_row.coded) };

    ghost view = { λ c. c.items.items };
}

/// The entries and choices of the configuration files.
///
/// All entries of one symbol have one type and stand in one choice or in none, a member of a choice is a bool, and a
/// default of a string or int is an atom.
#[derive(Debug, Drop)]
pub struct Menu {
    entries: Entries,
    choices: Choices,
}

impl Model for Menu {
    ghost use Rattle.kc_menu.specs.Menu.{Declared, IsMenu};
    ghost use Rattle.std.specs.Coded.{codes};
    ghost use Rattle.kc_expr.specs.contracts.expr.Expr as expr;

    ghost Value = { Declared };

    ghost coded = { Prim.hlevel (codes, expr.the_row.coded) };

    ghost view = { λ m. record { entries = m.entries; choices = m.choices } };

    ghost invariant = { λ m. IsMenu (record { entries = m.entries; choices = m.choices }) };
}

impl Menu {
    ghost use Rattle.kc_menu.specs.Menu.{IsMenu};

    /// The menu of these entries and choices.
    pub fn new(entries: Entries, choices: Choices) -> Menu
        requires { IsMenu (record { entries = entries; choices = choices }) }
        ensures { result ≡ record { entries = entries; choices = choices } }
    {
        Menu { entries, choices }
    }

    /// The entries, in reading order.
    pub fn entries(&self) -> &[KcEntry]
        ensures entries { result.now ≡ self.now.entries }
        ensures menu { IsMenu self.now }
    {
        self.entries.items.as_slice()
    }

    /// The choices, in reading order. A member names its choice by its place here.
    pub fn choices(&self) -> &[KcChoice]
        ensures choices { result.now ≡ self.now.choices }
        ensures menu { IsMenu self.now }
    {
        self.choices.items.as_slice()
    }
}
