//! Files of which none is too long for its lines to be numbered.
ghost use Rattle.br_path.specs.Files.{AreSmall};

use crate::stopped::Stopped;
use br_path::{Bytes, Files, Path};
use std::alloc::Global;
use std::marker::Model;

/// The most bytes of a file here.
const MOST_BYTES: usize = 1 << 30;

/// Files by their paths, none of which is too long.
#[derive(Drop)]
pub struct SmallFiles {
    files: Files,
}

impl Model for SmallFiles {
    ghost use Rattle.br_path.specs.Files.{FileMap, AreSmall, coded_files};

    ghost Value = { FileMap };

    ghost coded = { coded_files };

    ghost view = { λ f. f.files };

    ghost invariant = { λ f. AreSmall f.files };
}

impl SmallFiles {
    #[tactic(auto, using(br_path::proofs::Small::small))]
    pub fn new(alloc: Global) -> SmallFiles {
        SmallFiles {
            files: Files::new(alloc),
        }
    }

    pub fn get(&self) -> &Files
        ensures { AreSmall result.now }
    {
        &self.files
    }

    /// Adds a file, whose path is one of an input, and isn't there yet.
    #[tactic(auto, using(br_path::proofs::Small::small))]
    pub fn add(&mut self, alloc: Global, path: &[u8], text: &[u8]) -> Result<(), Stopped> {
        if text.len() > MOST_BYTES {
            return Err(Stopped);
        }
        let path = Path::parse(alloc, path)?;
        let bytes = Bytes::from_slice(alloc, text)?;
        Ok(self.files.add(path, bytes)?)
    }
}
