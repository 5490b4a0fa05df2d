//! Feeds: where the input comes from.
ghost use Rattle.std.specs.Prelude.{◌≡◌, ℕ, ◌+◌, ◌≤◌, Option, List, IsErrOf};
ghost use Rattle.feed_io.specs.declared.feed.FeedFile.{FeedFile};

use br_path::Bytes;
use std::alloc::{AllocError, AllocFailed};
use std::io;

/// A file as a feed gives it. Its path is a text of any bytes.
#[derive(Debug, Drop)]
pub struct FeedFile {
    pub path: Bytes,
    pub bytes: Bytes,
}

/// Why a feed gives nothing.
#[derive(Clone, Copy, Debug, PartialEq, Eq)]
pub enum FeedError {
    /// The feed failed, and its count of faults rose.
    Failed,
    /// Out of memory.
    Memory,
}

/// An error of std is a failure, out of memory within its calls included.
impl From<io::Error> for FeedError {
    ghost use Rattle.feed_io.specs.declared.feed.FeedError.TheVariants.{Failed};

    ghost from_gives = { λ _ error. error ≡ Failed };

    fn from(_error: io::Error) -> FeedError {
        FeedError::Failed
    }
}

impl From<AllocError> for FeedError {
    ghost use Rattle.feed_io.specs.declared.feed.FeedError.TheVariants.{Memory};

    ghost from_gives = { λ _ error. error ≡ Memory };

    fn from(_error: AllocError) -> FeedError {
        FeedError::Memory
    }
}

impl<T: Drop> From<AllocFailed<T>> for FeedError {
    ghost use Rattle.feed_io.specs.declared.feed.FeedError.TheVariants.{Memory};

    ghost from_gives = { λ _ error. error ≡ Memory };

    fn from(_error: AllocFailed<T>) -> FeedError {
        FeedError::Memory
    }
}

/// A source of files.
pub trait Feed {
    ghost use Rattle.feed_io.specs.Cause.{HasCause};
    ghost use Rattle.feed_io.specs.Feed.{Takes};

    /// The files left, where the feed tells them.
    ghost left: { Self → Option (List FeedFile) };

    /// How often it has failed. The count stands still at 2^64 - 1.
    ghost faults: { Self → ℕ };

    /// A count of calls, which each call raises by one at most.
    ghost calls: { Self → ℕ };

    /// Takes the first file left, or says that none is left.
    fn next(&mut self) -> Result<Option<FeedFile>, FeedError>
        ensures takes { Takes (left self.old) result (left self.new) }
        ensures cause { HasCause (faults self.old) (faults self.new) (IsErrOf result FeedError.Failed) }
        ensures call { calls self.new ≤ calls self.old + 1 };
}
