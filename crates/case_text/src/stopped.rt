//! Why a program ends before its table does.
use br_path::{AddFault, Memory, PathFault};
use std::alloc::{AllocError, AllocFailed};
use std::io;

/// A line that isn't understood, a stream that failed, or a call that was out of memory.
#[derive(Clone, Copy, Debug)]
pub struct Stopped;

impl From<io::Error> for Stopped {
    fn from(_error: io::Error) -> Stopped {
        Stopped
    }
}

impl From<Memory> for Stopped {
    fn from(_memory: Memory) -> Stopped {
        Stopped
    }
}

impl From<AllocError> for Stopped {
    fn from(_error: AllocError) -> Stopped {
        Stopped
    }
}

impl<T: Drop> From<AllocFailed<T>> for Stopped {
    fn from(_error: AllocFailed<T>) -> Stopped {
        Stopped
    }
}

impl From<PathFault> for Stopped {
    fn from(_fault: PathFault) -> Stopped {
        Stopped
    }
}

impl From<AddFault> for Stopped {
    fn from(_fault: AddFault) -> Stopped {
        Stopped
    }
}
