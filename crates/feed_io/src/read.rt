//! From a feed to the files of the input.
ghost use Rattle.std.specs.Prelude.{◌≡◌, ◌+◌, ◌≤◌, ◌<◌, List, [], ◌∷◌, ◌++◌, Some, None, IsErrOf, IfOk, IfErr, OnOk, IsOk};
ghost use Rattle.br_path.specs.PathFault.{path_fault};
ghost use Rattle.feed_io.specs.declared.feed.FeedFile.{FeedFile};
ghost use Rattle.feed_io.specs.declared.read.ReadFault.{ReadFault};
ghost use Rattle.feed_io.specs.Cause.{Rose};
ghost use Rattle.feed_io.specs.Reading.{IsFaultless, IsFirstReadFault, IsReading, files_of, place_of};
ghost use Rattle.feed_io.specs.Taken.{IsTaken, IsRefused, IsBadPath};

use crate::feed::{Feed, FeedError, FeedFile};
use br_path::{Files, Path, PathFault};
use std::alloc::Global;

/// The most files that an input has.
const MOST_FILES: u32 = 65_536;

/// The most bytes that the contents of all files of an input have.
const MOST_BYTES: usize = 67_108_864;

/// Why the files of a feed are no input. A file's number counts from 0.
#[derive(Debug, Drop)]
pub enum ReadFault {
    /// The feed failed.
    Feed,
    /// There are more than 65,536 files.
    TooManyFiles,
    /// The contents of the files have more than 67,108,864 bytes together.
    TooLarge,
    /// The text of this file's path is no path.
    BadPath(u32),
    /// A file has this path, and one before it has it too, or stands above or below it.
    Twice(Path),
    /// Out of memory.
    Memory,
}

impl From<FeedError> for ReadFault {
    ghost use Rattle.feed_io.specs.Taken.{read_fault};

    ghost from_gives = { λ error fault. fault ≡ read_fault error };

    fn from(error: FeedError) -> ReadFault {
        match error {
            FeedError::Failed => ReadFault::Feed,
            FeedError::Memory => ReadFault::Memory,
        }
    }
}

/// The files that are taken so far, and the size of their contents together.
#[derive(Drop)]
struct Taken {
    files: Files,
    size: usize,
}

impl Taken {
    /// Takes the file with this number.
    fn add(&mut self, alloc: Global, number: u32, file: FeedFile) -> Result<(), ReadFault>
        ensures taken { (before : List FeedFile) → IsTaken before number self.old → OnOk result (IsTaken (before ++ file ∷ []) (number + 1) self.new) }
        ensures refused { (before : List FeedFile) → IsTaken before number self.old → IfErr result (IsRefused before file) }
    {
        if number == MOST_FILES {
            return Err(ReadFault::TooManyFiles);
        }
        let path = path_of(alloc, &file, number)?;
        if self.files.clashes(&path) {
            return Err(ReadFault::Twice(path));
        }
        self.size = self.size.saturating_add(file.bytes.as_slice().len());
        if self.size > MOST_BYTES {
            return Err(ReadFault::TooLarge);
        }
        match self.files.add(path, file.bytes) {
            Ok(()) => Ok(()),
            Err(_) => Err(ReadFault::Memory),
        }
    }
}

/// Reads the path of the file with this number.
fn path_of(alloc: Global, file: &FeedFile, number: u32) -> Result<Path, ReadFault>
    ensures place { IfOk result (λ path. path ≡ place_of file.now) }
    ensures ok { OnOk result (path_fault file.now.path ≡ None) }
    ensures bad { IfErr result (IsBadPath file.now number) }
{
    match Path::parse(alloc, file.path.as_slice()) {
        Ok(path) => Ok(path),
        Err(fault) => match fault {
            PathFault::Memory => Err(ReadFault::Memory),
            _ => Err(ReadFault::BadPath(number)),
        },
    }
}

/// Takes the files of a feed until it has no more, or up to its first fault.
///
/// A file's fault is the first of these: it is the 65,537th; its text is no path; its path is that of a file before
/// it, or stands above or below one; the contents up to it have more than 67,108,864 bytes. The feed is asked at most
/// 65,537 times.
pub fn read_all<F: Feed>(alloc: Global, feed: &mut F) -> Result<Files, ReadFault>
    ensures files { (list : List FeedFile) → F.left feed.old ≡ Some list → IsReading list result }
    ensures taken { (list : List FeedFile) → F.left feed.old ≡ Some list → IsOk result → F.left feed.new ≡ Some [] }
    ensures later { F.faults feed.old ≤ F.faults feed.new }
    ensures cause { IsErrOf result ReadFault.Feed → Rose (F.faults feed.old) (F.faults feed.new) }
    ensures always { F.faults feed.old < F.faults feed.new → IsErrOf result ReadFault.Feed }
    ensures calls { F.calls feed.new ≤ F.calls feed.old + 65537 }
    ensures limits { IfOk result (λ files. (list : List FeedFile) × IsFaultless list × (files ≡ files_of list)) }
{
    let mut taken = Taken {
        files: Files::new(alloc),
        size: 0,
    };
    for number in 0..=MOST_FILES {
        match feed.next()? {
            None => return Ok(taken.files),
            Some(file) => taken.add(alloc, number, file)?,
        }
    }
    unreachable!()
}

/// A law: a list of files without fault has no first fault, and any other list at most one.
///
/// So what `read_all` answers is settled where the feed tells its files, except for a failing feed and being out of memory.
pub fn one_reading()
    ensures faultless { (list : List FeedFile) (fault : ReadFault) → IsFaultless list → IsFirstReadFault list fault → ⊥ }
    ensures one { (list : List FeedFile) (a b : ReadFault) → IsFirstReadFault list a → IsFirstReadFault list b → a ≡ b }
{}
