//! Sinks in memory.
use br_path::Numbers;
use case_text::{Page, Stopped, number, numbers, word};
use feed_io::{MemorySink, Sink, SinkError};
use std::alloc::Global;

/// A sink with this room, that takes at most a step of a piece and fails at calls.
pub(crate) fn sink(alloc: Global, text: &[u8]) -> Result<MemorySink, Stopped> {
    let (room, text) = word(text);
    let (step, fails) = word(text);
    let room = number(room)?;
    let step = number(step)?;
    let fails = Numbers {
        items: numbers(alloc, fails)?,
    };
    if step == 0 {
        return Err(Stopped);
    }
    Ok(MemorySink::new(alloc, room, step, fails)?)
}

pub(crate) fn put(page: &mut Page, sink: &mut MemorySink, text: &[u8]) -> Result<(), Stopped> {
    match sink.put(text) {
        Ok(count) => page.number(b"= ", count as u64),
        Err(SinkError::Failed) => page.line(b"! failed", b""),
    }
}

pub(crate) fn held(page: &mut Page, sink: &MemorySink) -> Result<(), Stopped> {
    page.line(b"= ", sink.held())
}
