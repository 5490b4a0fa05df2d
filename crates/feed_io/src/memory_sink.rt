//! A sink in memory.
ghost use Rattle.std.specs.Prelude.{◌≡◌, ◌+◌, ◌-◌, ◌^◌, ◌≤◌, ◌||◌, ◌&&◌, ◌==◌, not, min, [], length, Some, is_err, IsErr, IfOk, OnErr};
ghost use Rattle.feed_io.specs.Cause.{HasCause};
ghost use Rattle.feed_io.specs.Listed.{is_listed};
ghost use Rattle.feed_io.specs.Sink.{IsPut};

use crate::listed::is_listed;
use crate::sink::{Sink, SinkError};
use br_path::{Memory, Numbers};
use std::alloc::Global;
use std::marker::Model;

/// A sink that holds its bytes in memory, takes only so many at a time, has only so much room, and fails at the
/// calls that it is told to.
#[derive(Debug, Drop)]
pub struct MemorySink {
    bytes: Vec<u8>,
    room: usize,
    step: usize,
    fails: Numbers,
    calls: u64,
    faults: u64,
}

impl Model for MemorySink {
    ghost use Rattle.std.specs.Prelude.{◌+◌, ◌≤◌, vec_len, vec_capacity};
    ghost use Rattle.feed_io.specs.MemorySink.{SinkState};

    ghost Value = { SinkState };

    ghost view = { λ s. record { held = s.bytes.items; room = s.room; step = s.step; fails = s.fails; calls = s.calls; faults = s.faults } };

    ghost invariant = { λ s. (1 ≤ s.step) × (vec_len s.bytes + s.room ≤ vec_capacity s.bytes) };
}

impl MemorySink {
    /// A sink with room for so many bytes, of which a put takes at most a step.
    ///
    /// It fails at the listed calls, counted from 1. The room is reserved here, so that no put takes memory.
    pub fn new(alloc: Global, room: u32, step: u32, fails: Numbers) -> Result<MemorySink, Memory>
        requires { 1 ≤ step }
        ensures held { IfOk result (λ s. ⟦<MemorySink as Sink>⟧.held s ≡ Some []) }
        ensures faults { IfOk result (λ s. ⟦<MemorySink as Sink>⟧.faults s ≡ 0) }
        ensures limits { IfOk result (λ s. (s.room ≡ room) × (s.step ≡ step)) }
        ensures calls { IfOk result (λ s. (s.fails ≡ fails) × (s.calls ≡ 0)) }
    {
        Ok(MemorySink {
            bytes: Vec::with_capacity(alloc, room as usize)?,
            room: room as usize,
            step: step as usize,
            fails,
            calls: 0,
            faults: 0,
        })
    }

    /// The bytes held.
    pub fn held(&self) -> &[u8]
        ensures { ⟦<MemorySink as Sink>⟧.held self.now ≡ Some result.now }
    {
        self.bytes.as_slice()
    }
}

impl Sink for MemorySink {
    ghost use Rattle.feed_io.specs.MemorySink.{share};

    ghost held = { λ s. Some s.held };

    ghost faults = { λ s. s.faults };

    fn put(&mut self, piece: &[u8]) -> Result<usize, SinkError>
        ensures puts { IsPut (Some self.old.held) piece.now result (Some self.new.held) }
        ensures cause { HasCause self.old.faults self.new.faults (IsErr result) }
        ensures number { self.new.calls ≡ min (self.old.calls + 1) (2 ^ 64 - 1) }
        ensures fails { is_err result ≡ (is_listed self.old.fails self.new.calls || (self.old.room == 0 && not (length piece.now == 0))) }
        ensures count { IfOk result (λ count. (count ≡ share self.old piece.now) × (self.new.room + count ≡ self.old.room)) }
        ensures err { OnErr result (self.new.room ≡ self.old.room) }
        ensures listed { (self.new.fails ≡ self.old.fails) × (self.new.step ≡ self.old.step) }
    {
        self.calls = self.calls.saturating_add(1);
        if is_listed(&self.fails, self.calls) || (self.room == 0 && !piece.is_empty()) {
            self.faults = self.faults.saturating_add(1);
            return Err(SinkError::Failed);
        }
        let count = self.step.min(self.room).min(piece.len());
        self.bytes.extend_from_slice(&piece[..count]).unwrap();
        self.room -= count;
        Ok(count)
    }
}
