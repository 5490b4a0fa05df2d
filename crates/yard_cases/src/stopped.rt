//! Why the program stops before its end.
use br_path::Memory;
use std::alloc::{AllocError, AllocFailed};
use std::io;

/// A line that is not understood, a stream that failed, or out of memory.
#[derive(Clone, Copy)]
pub(crate) struct Stopped;

impl From<io::Error> for Stopped {
    fn from(_error: io::Error) -> Stopped {
        Stopped
    }
}

impl From<Memory> for Stopped {
    fn from(_error: Memory) -> Stopped {
        Stopped
    }
}

impl From<AllocError> for Stopped {
    fn from(_error: AllocError) -> Stopped {
        Stopped
    }
}

impl<T: Drop> From<AllocFailed<T>> for Stopped {
    fn from(_error: AllocFailed<T>) -> Stopped {
        Stopped
    }
}
