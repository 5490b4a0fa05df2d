//! Why a text isn't read.
ghost use Rattle.std.specs.Prelude.{◌≡◌};

use std::alloc::{AllocError, AllocFailed};
use thiserror::Error;

/// Why a text isn't read.
#[derive(Debug, Drop, Error)]
pub enum WishError {
    /// The first line that has no form, from 1.
    #[error("line {0} has no form of a configuration line")]
    Line(u32),
    #[error("out of memory")]
    Memory,
}

impl From<br_path::Memory> for WishError {
    ghost use Rattle.dot_config.specs.declared.error.WishError.TheVariants.{Memory as no_memory};

    ghost from_gives = { λ _ e. e ≡ no_memory };

    fn from(_error: br_path::Memory) -> WishError {
        WishError::Memory
    }
}

impl From<AllocError> for WishError {
    ghost use Rattle.dot_config.specs.declared.error.WishError.TheVariants.{Memory as no_memory};

    ghost from_gives = { λ _ e. e ≡ no_memory };

    fn from(_error: AllocError) -> WishError {
        WishError::Memory
    }
}

impl<T: Drop> From<AllocFailed<T>> for WishError {
    ghost use Rattle.dot_config.specs.declared.error.WishError.TheVariants.{Memory as no_memory};

    ghost from_gives = { λ _ e. e ≡ no_memory };

    fn from(_error: AllocFailed<T>) -> WishError {
        WishError::Memory
    }
}
