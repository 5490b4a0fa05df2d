//! Sinks: where the output goes.
ghost use Rattle.std.specs.Prelude.{ℕ, Option, List, IsErr};
ghost use Rattle.feed_io.specs.Cause.{HasCause};
ghost use Rattle.feed_io.specs.Sink.{IsPut};

/// Why a sink takes nothing.
#[derive(Clone, Copy, Debug, PartialEq, Eq)]
pub enum SinkError {
    /// The sink failed, and its count of faults rose.
    Failed,
}

/// A place for bytes.
pub trait Sink {
    /// The bytes held, where the sink tells them.
    ghost held: { Self → Option (List ℕ) };

    /// How often it has failed. The count stands still at 2^64 - 1.
    ghost faults: { Self → ℕ };

    /// Takes a front of the piece, and says how many bytes it took: at least one of a piece that isn't empty.
    fn put(&mut self, piece: &[u8]) -> Result<usize, SinkError>
        ensures puts { IsPut (held self.old) piece.now result (held self.new) }
        ensures cause { HasCause (faults self.old) (faults self.new) (IsErr result) };
}
