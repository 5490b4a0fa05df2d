//! A feed over files in memory.
ghost use Rattle.std.specs.Prelude.{◌≡◌, ◌+◌, ◌-◌, ◌^◌, ◌≤◌, min, List, Some, is_err, IfErr, IsErrOf};
ghost use Rattle.feed_io.specs.declared.feed.FeedFile.{FeedFile};
ghost use Rattle.feed_io.specs.Cause.{HasCause};
ghost use Rattle.feed_io.specs.Feed.{Takes};
ghost use Rattle.feed_io.specs.Listed.{is_listed};

use crate::feed::{Feed, FeedError, FeedFile};
use crate::listed::is_listed;
use br_path::Numbers;
use std::marker::Model;
use std::vec::IntoIter;

/// A list of files.
#[derive(Debug, Drop)]
pub struct FeedFiles {
    pub items: Vec<FeedFile>,
}

impl Model for FeedFiles {
    ghost Value = { List FeedFile };

    ghost view = { λ f. f.items.items };
}

/// A feed that gives the files of a list, and fails at the calls that it is told to.
#[derive(Debug, Drop)]
pub struct MemoryFeed {
    files: IntoIter<FeedFile>,
    fails: Numbers,
    calls: u64,
    faults: u64,
}

impl Model for MemoryFeed {
    ghost use Rattle.std.specs.Vec.Iter.{into_iter_items};
    ghost use Rattle.feed_io.specs.MemoryFeed.{FeedState};

    ghost Value = { FeedState };

    ghost view = { λ f. record { left = into_iter_items f.files; fails = f.fails; calls = f.calls; faults = f.faults } };
}

impl MemoryFeed {
    /// A feed of these files that fails at the listed calls, counted from 1, and takes no file there.
    pub fn new(files: FeedFiles, fails: Numbers) -> MemoryFeed
        ensures left { ⟦<MemoryFeed as Feed>⟧.left result ≡ Some files }
        ensures faults { ⟦<MemoryFeed as Feed>⟧.faults result ≡ 0 }
        ensures calls { ⟦<MemoryFeed as Feed>⟧.calls result ≡ 0 }
        ensures fails { result.fails ≡ fails }
    {
        MemoryFeed {
            files: files.items.into_iter(),
            fails,
            calls: 0,
            faults: 0,
        }
    }
}

impl Feed for MemoryFeed {
    ghost left = { λ f. Some f.left };

    ghost faults = { λ f. f.faults };

    ghost calls = { λ f. f.calls };

    fn next(&mut self) -> Result<Option<FeedFile>, FeedError>
        ensures takes { Takes (Some self.old.left) result (Some self.new.left) }
        ensures cause { HasCause self.old.faults self.new.faults (IsErrOf result FeedError.Failed) }
        ensures call { self.new.calls ≤ self.old.calls + 1 }
        ensures number { self.new.calls ≡ min (self.old.calls + 1) (2 ^ 64 - 1) }
        ensures fails { is_err result ≡ is_listed self.old.fails self.new.calls }
        ensures error { IfErr result (λ error. error ≡ FeedError.Failed) }
        ensures listed { self.new.fails ≡ self.old.fails }
    {
        self.calls = self.calls.saturating_add(1);
        if is_listed(&self.fails, self.calls) {
            self.faults = self.faults.saturating_add(1);
            return Err(FeedError::Failed);
        }
        Ok(self.files.next())
    }
}
