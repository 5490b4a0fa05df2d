//! A feed over a folder of the system.
ghost use Rattle.std.specs.Prelude.{◌≡◌, None};

use crate::feed::{Feed, FeedError, FeedFile};
use crate::walk::Walk;
use br_path::Bytes;
use std::fs::Files;
use std::marker::Model;

/// A feed that gives the files of an input folder, and tells nothing of what it will give.
///
/// It gives, in this order, `Config.in`, `.config`, all files below `package` and all below `board`; within a folder
/// by name in bytes, a folder's files in the folder's place. A file's path is relative to the input folder. What of
/// these four is missing gives no file and is no fault.
///
/// Faults are: a symbolic link, which is never followed; a file or folder that can't be read; anything else that
/// is neither, or stands where one of the four has to be the other; a name that isn't UTF-8; and each folder
/// entry from the 1,048,577th on that the feed reads. Out of memory inside a call of std is a fault as well, while
/// the feed's own lists that can't grow are answered as out of memory. Of one file it reads at most 67,108,865 bytes.
///
/// After a fault it goes on after what failed, and if it is out of memory it is where it was.
#[derive(Drop)]
pub struct FolderFeed<R> {
    walk: Walk<R>,
    faults: u64,
    calls: u64,
}

impl<R> Model for FolderFeed<R> {
    ghost use Rattle.feed_io.specs.FolderFeed.{Counts};

    ghost Value = { Counts };

    ghost view = { λ f. record { calls = f.calls; faults = f.faults } };
}

impl<R: Files + AllocGlobal + Clone + Drop> FolderFeed<R> {
    /// A feed over the folder with this path. It opens nothing, and takes no memory.
    pub fn new(rt: R, folder: Bytes) -> FolderFeed<R>
        ensures faults { ⟦<FolderFeed<R> as Feed>⟧.faults result ≡ 0 }
        ensures calls { ⟦<FolderFeed<R> as Feed>⟧.calls result ≡ 0 }
    {
        FolderFeed {
            walk: Walk::new(rt, folder),
            faults: 0,
            calls: 0,
        }
    }
}

impl<R: Files + AllocGlobal + Clone + Drop> Feed for FolderFeed<R> {
    ghost left = { λ _. None };

    ghost faults = { λ f. f.faults };

    ghost calls = { λ f. f.calls };

    fn next(&mut self) -> Result<Option<FeedFile>, FeedError> {
        self.calls = self.calls.saturating_add(1);
        let outcome = self.walk.next();
        if let Err(FeedError::Failed) = outcome {
            self.faults = self.faults.saturating_add(1);
        }
        outcome
    }
}
