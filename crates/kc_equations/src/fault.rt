//! Why a configuration isn't solved.
ghost use Rattle.std.specs.Prelude.{◌≡◌};

use br_path::{Bytes, Memory};

/// Why a configuration isn't solved. A fault is looked for only where none of those before it comes, and has the symbol that
/// is least by bytes.
#[derive(Debug, Drop, PartialEq, Eq)]
pub enum SolveFault {
    /// A select names a member of a choice.
    SelectOfChoice(Bytes),
    /// A select names a string or an int.
    SelectOfValue(Bytes),
    /// The symbol's equation names it, or names one whose equation does, and so on.
    Cycle(Bytes),
    /// The text of an int isn't empty, and isn't 1 to 18 digits, perhaps after a `-`.
    BadNumber(Bytes),
    /// Out of memory.
    Memory,
}

impl From<Memory> for SolveFault {
    ghost use Rattle.kc_equations.specs.declared.fault.SolveFault.TheVariants.{Memory as no_memory};

    ghost from_gives = { λ _ fault. fault ≡ no_memory };

    fn from(_error: Memory) -> SolveFault {
        SolveFault::Memory
    }
}
