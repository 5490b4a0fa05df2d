//! What changes answer.
use case_text::{Page, Stopped};
use tree_ops::ChangeFault;

/// Prints what a change answers.
pub(crate) fn print_change(
    page: &mut Page,
    outcome: Result<(), ChangeFault>,
) -> Result<(), Stopped> {
    match outcome {
        Ok(()) => page.line(b"= done", b""),
        Err(ChangeFault::Memory) => Err(Stopped),
        Err(fault) => page.line(b"! ", word_of(fault)),
    }
}

/// The word for a fault.
pub(crate) fn word_of(fault: ChangeFault) -> &'static [u8] {
    match fault {
        ChangeFault::Absent => b"absent",
        ChangeFault::Present => b"present",
        ChangeFault::NotDir => b"not-dir",
        ChangeFault::IsDir => b"is-dir",
        ChangeFault::IsLink => b"is-link",
        ChangeFault::NotEmpty => b"not-empty",
        ChangeFault::ReadOnly => b"read-only",
        ChangeFault::Outside => b"outside",
        ChangeFault::Loop => b"loop",
        ChangeFault::Crosses => b"crosses",
        ChangeFault::NoSpace => b"no-space",
        ChangeFault::TooLong => b"too-long",
        ChangeFault::Memory => b"memory",
    }
}
