//! Why a text is no recipe.
ghost use Rattle.std.specs.Prelude.{◌≡◌};

use br_path::{Bytes, Memory};
use std::alloc::{AllocError, AllocFailed};
use thiserror::Error;

/// Why a recipe isn't read.
#[derive(Debug, Drop, Error)]
pub enum MkError {
    /// The first fault of the text.
    #[error(transparent)]
    Fault(MkFault),
    /// Out of memory.
    #[error("no memory")]
    Memory,
}

/// A fault, by its line. A `define` or a condition that isn't closed has the line that opens it.
#[derive(Debug, Drop, Error)]
#[error("line {line}: {kind}")]
pub struct MkFault {
    pub line: u32,
    pub kind: MkKind,
}

/// What is wrong with a line.
#[derive(Debug, Drop, Error)]
pub enum MkKind {
    /// Nothing allows the line where it stands.
    #[error("no line of a recipe")]
    BadLine,
    /// A `define` without its `endef`.
    #[error("`define` without `endef`")]
    OpenDefine,
    /// A condition without its `endif`.
    #[error("condition without `endif`")]
    OpenIf,
    /// An `else`, `endif` or `endef` without its opening, or a second plain `else`.
    #[error("`else`, `endif` or `endef` without an opening")]
    StrayElse,
    /// A form of make that recipes don't have, by its first word.
    #[error("unsupported")]
    Unsupported(Bytes),
}

impl From<Memory> for MkError {
    ghost use Rattle.mk_syntax.specs.declared.fault.MkError.TheVariants.{Memory as no_memory};

    ghost from_gives = { λ _ error. error ≡ no_memory };

    fn from(_error: Memory) -> MkError {
        MkError::Memory
    }
}

impl From<AllocError> for MkError {
    ghost use Rattle.mk_syntax.specs.declared.fault.MkError.TheVariants.{Memory as no_memory};

    ghost from_gives = { λ _ error. error ≡ no_memory };

    fn from(_error: AllocError) -> MkError {
        MkError::Memory
    }
}

impl<T: Drop> From<AllocFailed<T>> for MkError {
    ghost use Rattle.mk_syntax.specs.declared.fault.MkError.TheVariants.{Memory as no_memory};

    ghost from_gives = { λ _ error. error ≡ no_memory };

    fn from(_error: AllocFailed<T>) -> MkError {
        MkError::Memory
    }
}
