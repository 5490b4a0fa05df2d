//! Why a command fails.

use br_path::Memory;
use tree_ops::ChangeFault;

/// Why a command fails.
#[derive(Clone, Copy, PartialEq, Eq)]
pub enum Reason {
    NotFound,
    Syntax,
    Option,
    Operand,
    False,
    Same,
    Change(ChangeFault),
}

/// What a command answers in place of its end.
#[derive(Clone, Copy, PartialEq, Eq)]
pub enum CommandError {
    Failed(Reason),
    Memory,
}

impl From<Memory> for CommandError {
    ghost use Rattle.std.specs.Prelude.{◌≡◌};
    ghost use Rattle.tree_worlds.specs.declared.reason.CommandError.TheVariants.{Memory as no_memory};

    ghost from_gives = { λ _ error. error ≡ no_memory };

    fn from(_memory: Memory) -> CommandError {
        CommandError::Memory
    }
}
