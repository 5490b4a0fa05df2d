//! Why a text is no image.
ghost use Rattle.std.specs.Prelude.{◌≡◌};

use std::alloc::{AllocError, AllocFailed};
use thiserror::Error;

/// Why a text isn't read.
#[derive(Debug, Drop, Error)]
pub enum ImageError {
    /// The first fault of the text.
    #[error("a fault in an image")]
    Fault(ImageFault),
    /// Out of memory.
    #[error("no memory")]
    Memory,
}

/// The first line at fault, from 1, and what is wrong with it.
#[derive(Clone, Copy, Debug, PartialEq, Eq)]
pub struct ImageFault {
    pub line: u32,
    pub kind: ImageKind,
}

/// What is wrong with a line. Of several the first is told.
#[derive(Clone, Copy, Debug, PartialEq, Eq)]
pub enum ImageKind {
    /// The text ends before the newline of the line.
    Cut,
    /// No line of this form can stand there. The first entry must be the root, as a folder.
    Form,
    /// The path isn't greater than the one before.
    Order,
    /// The folder that the path stands in isn't there.
    Parent,
    /// The path that the file is said to have first is none of a file that stands whole before.
    Group,
    /// The line has the wrong number of bytes.
    Size,
    /// The number of entries is wrong.
    Count,
    /// Something follows the last line.
    After,
}

/// Why a line isn't taken.
#[derive(Clone, Copy)]
pub(crate) enum Refusal {
    Fault(ImageKind),
    Memory,
}

impl From<br_path::Memory> for Refusal {
    ghost use Rattle.root_image.specs.declared.fault.Refusal.TheVariants.{Memory as no_memory};

    ghost from_gives = { λ _ refusal. refusal ≡ no_memory };

    fn from(_error: br_path::Memory) -> Refusal {
        Refusal::Memory
    }
}

impl From<AllocError> for Refusal {
    ghost use Rattle.root_image.specs.declared.fault.Refusal.TheVariants.{Memory as no_memory};

    ghost from_gives = { λ _ refusal. refusal ≡ no_memory };

    fn from(_error: AllocError) -> Refusal {
        Refusal::Memory
    }
}

impl<T: Drop> From<AllocFailed<T>> for Refusal {
    ghost use Rattle.root_image.specs.declared.fault.Refusal.TheVariants.{Memory as no_memory};

    ghost from_gives = { λ _ refusal. refusal ≡ no_memory };

    fn from(_error: AllocFailed<T>) -> Refusal {
        Refusal::Memory
    }
}
