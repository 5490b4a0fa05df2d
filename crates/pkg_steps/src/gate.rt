//! The gate that each task passes.

/// What a task calls while it runs.
///
/// Each run calls it one time: when its trees are filled, before the first line and the copy of the source, also
/// where there are no lines; and before it answers that a filling was refused or that the task is skipped. A run that
/// is out of memory may not have come to it.
pub trait Gate: Sync {
    fn pass(&self, task: u32);
}

/// A gate that does nothing.
#[derive(Clone, Copy, Debug, PartialEq, Eq)]
pub struct OpenGate;

impl Gate for OpenGate {
    fn pass(&self, _task: u32) {}
}
