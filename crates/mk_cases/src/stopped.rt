//! Why the program ends early.
use br_path::Memory;
use std::alloc::{AllocError, AllocFailed};
use std::io;

/// A line that is none of a case, a stream that fails, or an answer out of memory.
#[derive(Clone, Copy, Debug)]
pub(crate) struct Stopped;

impl From<io::Error> for Stopped {
    fn from(_error: io::Error) -> Stopped {
        Stopped
    }
}

impl From<Memory> for Stopped {
    fn from(_memory: Memory) -> Stopped {
        Stopped
    }
}

impl From<AllocError> for Stopped {
    fn from(_error: AllocError) -> Stopped {
        Stopped
    }
}

impl<T: Drop> From<AllocFailed<T>> for Stopped {
    fn from(_error: AllocFailed<T>) -> Stopped {
        Stopped
    }
}
