//! Why words aren't read.

use br_path::Memory;
use std::alloc::AllocFailed;

/// Why words aren't read: their first word at fault, by its place from 0.
#[derive(Clone, Copy, PartialEq, Eq)]
pub enum OptFault {
    /// The word has a letter that isn't in the table, or begins with `--` and is longer.
    Unknown(u32),
    /// The word ends in a letter that takes a value, and no word follows.
    NeedsValue(u32),
    /// Out of memory.
    Memory,
}

impl From<Memory> for OptFault {
    ghost use Rattle.std.specs.Prelude.{◌≡◌};
    ghost use Rattle.opt_table.specs.declared.fault.OptFault.TheVariants.{Memory as no_memory};

    ghost from_gives = { λ _ fault. fault ≡ no_memory };

    fn from(_memory: Memory) -> OptFault {
        OptFault::Memory
    }
}

impl<T: Drop> From<AllocFailed<T>> for OptFault {
    ghost use Rattle.std.specs.Prelude.{◌≡◌};
    ghost use Rattle.opt_table.specs.declared.fault.OptFault.TheVariants.{Memory as no_memory};

    ghost from_gives = { λ _ fault. fault ≡ no_memory };

    fn from(_error: AllocFailed<T>) -> OptFault {
        OptFault::Memory
    }
}
