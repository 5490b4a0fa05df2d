//! What keeps a text from having a value.
ghost use Rattle.std.specs.Prelude.{◌≡◌};

use br_path::{Bytes, Memory};
use std::alloc::{AllocError, AllocFailed};
use thiserror::Error;

/// The fault of a text that is met first from the left, or out of memory.
#[derive(Debug, Drop, PartialEq, Eq, Error)]
pub enum ExpandFault {
    /// A variable is met while it is being expanded.
    #[error("a variable refers to itself")]
    SelfReference(Bytes),
    /// A reference doesn't close, a call has too few arguments, or `subst` has nothing to look for.
    #[error("a reference that doesn't close, or a call with too few arguments")]
    BadCall,
    /// A variable's name with a colon, a space or a tab; what `call` calls, where it isn't `qstrip`; or nothing, for a `$`
    /// that begins no reference.
    #[error("unsupported")]
    Unsupported(Bytes),
    /// The cost passes its limit, or references and calls stand too deep in one another.
    #[error("too costly")]
    TooCostly,
    /// Out of memory.
    #[error("no memory")]
    Memory,
}

impl From<Memory> for ExpandFault {
    ghost use Rattle.mk_expand.specs.declared.fault.ExpandFault.TheVariants.{Memory as no_memory};

    ghost from_gives = { λ _ fault. fault ≡ no_memory };

    fn from(_memory: Memory) -> ExpandFault {
        ExpandFault::Memory
    }
}

impl From<AllocError> for ExpandFault {
    ghost use Rattle.mk_expand.specs.declared.fault.ExpandFault.TheVariants.{Memory as no_memory};

    ghost from_gives = { λ _ fault. fault ≡ no_memory };

    fn from(_error: AllocError) -> ExpandFault {
        ExpandFault::Memory
    }
}

impl<T: Drop> From<AllocFailed<T>> for ExpandFault {
    ghost use Rattle.mk_expand.specs.declared.fault.ExpandFault.TheVariants.{Memory as no_memory};

    ghost from_gives = { λ _ fault. fault ≡ no_memory };

    fn from(_error: AllocFailed<T>) -> ExpandFault {
        ExpandFault::Memory
    }
}
