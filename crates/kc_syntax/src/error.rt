//! Why the configuration files aren't read.
ghost use Rattle.kc_syntax.specs.Fault.{IsFault};

use crate::shared::SharedPath;
use br_path::{Memory, Path};
use std::alloc::{AllocError, AllocFailed};
use thiserror::Error;

/// What is wrong with a line. Where several stand on one line `BadString` is told, or else the first of this list. A block that
/// isn't closed is found at the end of its file, and `NoType` after all files.
#[derive(Clone, Copy, Debug, PartialEq, Eq)]
pub enum KcKind {
    /// The file isn't there.
    NoFile,
    /// No row of the table of lines, that of `kc_rows`, allows the line where it stands.
    BadLine,
    /// A quote doesn't close in its line.
    BadString,
    /// A block isn't closed in its file, or an end doesn't close the innermost open block of its file.
    OpenBlock,
    /// The file is being read already.
    Loop,
    /// The symbol has another type by an earlier line.
    TwoTypes,
    /// The symbol has no type.
    NoType,
    /// More than 65,536 entries or source lines.
    TooMany,
}

/// The first fault in reading order.
#[derive(Debug, Drop)]
pub struct KcFault {
    pub file: Path,
    /// From 1; 0 where `Config.in` is missing.
    pub line: u32,
    pub kind: KcKind,
}

/// Why there is no menu.
#[derive(Debug, Drop, Error)]
pub enum KcError {
    /// The first fault of the files.
    #[error("a fault in the configuration files")]
    Fault(KcFault),
    /// Out of memory.
    #[error("no memory")]
    Memory,
}

/// A fault at a line, unless memory is wanting for the path.
pub(crate) fn fault(file: &SharedPath, line: u32, kind: KcKind) -> KcError
    ensures { IsFault (record { file = file.now; line = line; kind = kind }) result }
{
    match file.path().copy() {
        Ok(file) => KcError::Fault(KcFault { file, line, kind }),
        Err(_) => KcError::Memory,
    }
}

impl From<Memory> for KcError {
    ghost use Rattle.std.specs.Prelude.{◌≡◌};
    ghost use Rattle.kc_syntax.specs.declared.error.KcError.TheVariants.{Memory as no_memory};

    ghost from_gives = { λ _ error. error ≡ no_memory };

    fn from(_error: Memory) -> KcError {
        KcError::Memory
    }
}

impl From<AllocError> for KcError {
    ghost use Rattle.std.specs.Prelude.{◌≡◌};
    ghost use Rattle.kc_syntax.specs.declared.error.KcError.TheVariants.{Memory as no_memory};

    ghost from_gives = { λ _ error. error ≡ no_memory };

    fn from(_error: AllocError) -> KcError {
        KcError::Memory
    }
}

impl<T: Drop> From<AllocFailed<T>> for KcError {
    ghost use Rattle.std.specs.Prelude.{◌≡◌};
    ghost use Rattle.kc_syntax.specs.declared.error.KcError.TheVariants.{Memory as no_memory};

    ghost from_gives = { λ _ error. error ≡ no_memory };

    fn from(_error: AllocFailed<T>) -> KcError {
        KcError::Memory
    }
}
