//! Contents that several trees have.
ghost use Rattle.std.specs.Prelude.{◌≡◌, IfOk};

use br_path::{Bytes, Memory};
use std::alloc::Global;
use std::marker::Model;
use std::sync::Arc;
use tree_ops::Contents;

/// What a label stands for, in all trees that have it. Copies of a tree take no memory for bytes.
#[derive(Drop)]
pub(crate) struct SharedContents {
    contents: Arc<Contents>,
}

impl Model for SharedContents {
    ghost use Rattle.tree_ops.specs.declared.entry.Contents.{Contents};

    ghost Value = { Contents };

    ghost view = { λ s. s.contents.value };
}

impl SharedContents {
    /// Contents that one tree has.
    pub(crate) fn new(alloc: Global, mode: u16, bytes: Bytes) -> Result<SharedContents, Memory>
        ensures { IfOk result (λ shared. shared ≡ record { mode = mode; bytes = bytes }) }
    {
        Ok(SharedContents {
            contents: Arc::new(alloc, Contents { mode, bytes })?,
        })
    }

    /// The same contents, for one tree more.
    pub(crate) fn share(&self) -> Result<SharedContents, Memory>
        ensures { IfOk result (λ shared. shared ≡ self.now) }
    {
        Ok(SharedContents {
            contents: self.contents.clone()?,
        })
    }

    /// The contents.
    pub(crate) fn get(&self) -> &Contents
        ensures { result.now ≡ self.now }
    {
        self.contents.as_ref()
    }
}
