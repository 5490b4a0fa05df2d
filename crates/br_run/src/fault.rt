//! Why files have no answer but a fault.
ghost use Rattle.std.specs.Prelude.{◌≡◌, []};
ghost use Rattle.br_run.specs.declared.fault.NoAnswer.TheVariants.{Fault as fault_told};

use br_path::{Memory, Names};
use build_report::InputFault;
use std::alloc::Global;

/// Why files have no configuration or no plan, or why none of their packages are shown.
#[derive(Drop)]
pub(crate) enum NoAnswer {
    /// The first fault, with the names of the tasks if it is a cycle of them, and else with none.
    Fault(InputFault, Names),
    /// Out of memory.
    Memory,
}

impl NoAnswer {
    /// A fault that names no task.
    pub(crate) fn of(alloc: Global, fault: InputFault) -> NoAnswer
        ensures { result ≡ fault_told fault [] }
    {
        NoAnswer::Fault(fault, no_names(alloc))
    }
}

/// No names at all.
pub(crate) fn no_names(alloc: Global) -> Names
    ensures { result ≡ [] }
{
    Names {
        items: Vec::new(alloc),
    }
}

impl From<Memory> for NoAnswer {
    ghost use Rattle.br_run.specs.declared.fault.NoAnswer.TheVariants.{Memory as no_memory};

    ghost from_gives = { λ _ fault. fault ≡ no_memory };

    fn from(_memory: Memory) -> NoAnswer {
        NoAnswer::Memory
    }
}
