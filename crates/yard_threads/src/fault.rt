//! Why the program stops before its end.
use br_path::Memory;
use std::alloc::{AllocError, AllocFailed};
use std::io;

/// What went wrong in a run.
#[derive(Clone, Copy)]
pub(crate) enum Fault {
    /// Out of memory.
    Memory,
    /// The output failed.
    Output,
    /// The history is not legal or not whole.
    History,
    /// A worker found a value that is not the serial one.
    WrongValue,
    /// No worker found the value of some task on the board.
    ValueMissing,
    /// The cells that refuse and hide gave every value or none.
    NothingRefused,
}

impl From<io::Error> for Fault {
    fn from(_error: io::Error) -> Fault {
        Fault::Output
    }
}

impl From<Memory> for Fault {
    fn from(_error: Memory) -> Fault {
        Fault::Memory
    }
}

impl From<AllocError> for Fault {
    fn from(_error: AllocError) -> Fault {
        Fault::Memory
    }
}

impl<T: Drop> From<AllocFailed<T>> for Fault {
    fn from(_error: AllocFailed<T>) -> Fault {
        Fault::Memory
    }
}
