//! What is known at a place of the files.
ghost use Rattle.std.specs.Prelude.{◌≡◌};

use crate::block::{Open, Owner};
use crate::draft::Draft;
use br_path::Bytes;
use indexmap::IndexMap;
use kc_menu::KcChoice;
use kc_values::Kind;
use std::alloc::Global;

/// What is known of a symbol: its type, where a line gave it one, and the choice that all its entries stand in.
#[derive(Clone, Copy)]
pub(crate) struct Known {
    pub(crate) kind: Option<Kind>,
    pub(crate) choice: Option<u32>,
}

/// What is known at a place of the files: the entries and choices so far, the blocks that are open, the innermost last, what
/// attribute lines belong to, how many source lines there were, and the symbols of the entries.
#[derive(Drop)]
pub(crate) struct Reader {
    pub(crate) alloc: Global,
    pub(crate) entries: Vec<Draft>,
    pub(crate) choices: Vec<KcChoice>,
    pub(crate) blocks: Vec<Open>,
    pub(crate) owner: Owner,
    pub(crate) sources: u32,
    pub(crate) symbols: IndexMap<Bytes, Known>,
}

impl Reader {
    ghost use Rattle.kc_syntax.specs.Shown.{shown};
    ghost use Rattle.kc_syntax.specs.State.{start};

    /// Nothing is read.
    pub(crate) fn new(alloc: Global) -> Reader
        ensures { shown result ≡ start }
    {
        Reader {
            alloc,
            entries: Vec::new(alloc),
            choices: Vec::new(alloc),
            blocks: Vec::new(alloc),
            owner: Owner::Nobody,
            sources: 0,
            symbols: IndexMap::new(alloc),
        }
    }
}
