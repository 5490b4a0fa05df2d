//! A walk over the files of an input folder.

use crate::feed::{FeedError, FeedFile};
use br_path::Bytes;
use std::alloc::{AllocError, Global};
use std::fs;
use std::fs::Files;
use std::io::{ErrorKind, Read};
use std::path::PathBuf;

/// The most bytes that are read of one file: one more than an input may have in all.
const MOST_BYTES: u64 = 67_108_865;

/// The most folder entries that a walk reads.
const MOST_ENTRIES: usize = 1_048_576;

/// A walk: what of the folder is still to be visited, the next of it last.
#[derive(Drop)]
pub struct Walk<R> {
    rt: R,
    folder: Bytes,
    has_begun: bool,
    to_visit: Vec<String>,
    entries_left: usize,
}

/// What stands at a path.
#[derive(Clone, Copy, PartialEq, Eq)]
enum Kind {
    File,
    Folder,
}

impl<R: AllocGlobal> Walk<R> {
    /// A walk that hasn't begun. It takes no memory.
    pub fn new(rt: R, folder: Bytes) -> Walk<R> {
        let to_visit = Vec::new(rt.alloc());
        Walk {
            rt,
            folder,
            has_begun: false,
            to_visit,
            entries_left: MOST_ENTRIES,
        }
    }
}

impl<R: Files + AllocGlobal + Clone + Drop> Walk<R> {
    /// The next file.
    ///
    /// After a failure the walk goes on after what failed, and if it is out of memory it is where it was.
    pub fn next(&mut self) -> Result<Option<FeedFile>, FeedError> {
        if !self.has_begun {
            self.to_visit = tops(self.rt.alloc())?;
            self.has_begun = true;
        }
        for _ in 0..u64::MAX {
            let Some(at) = self.to_visit.pop() else {
                return Ok(None);
            };
            match self.visit(at.as_str()) {
                Ok(None) => {}
                Ok(Some(file)) => return Ok(Some(file)),
                Err(error) => {
                    if error == FeedError::Memory {
                        // Its place in the list is still there, so that this needs no memory.
                        let _ = self.to_visit.push(at);
                    }
                    return Err(error);
                }
            }
        }
        Ok(None)
    }

    /// Gives the file at a path, or puts what is directly in the folder there before all that is still to be visited.
    fn visit(&mut self, at: &str) -> Result<Option<FeedFile>, FeedError> {
        match self.kind(at)? {
            None => Ok(None),
            Some(Kind::File) => Ok(Some(self.read(at)?)),
            Some(Kind::Folder) => {
                let mut inner = self.list(at)?;
                let count = inner.len();
                self.to_visit.append(&mut inner)?;
                self.entries_left = self.entries_left.saturating_sub(count);
                Ok(None)
            }
        }
    }

    /// What stands at a path; none where one of the tops is missing.
    fn kind(&self, at: &str) -> Result<Option<Kind>, FeedError> {
        let wanted = wanted(at);
        let metadata = fs::symlink_metadata(&self.rt, self.place(at)?.as_path());
        let kind = match metadata {
            Ok(metadata) if metadata.is_file() => Kind::File,
            Ok(metadata) if metadata.is_dir() => Kind::Folder,
            Err(error) if error.kind() == ErrorKind::NotFound && wanted.is_some() => {
                return Ok(None);
            }
            _ => return Err(FeedError::Failed),
        };
        match wanted {
            Some(wanted) if wanted != kind => Err(FeedError::Failed),
            _ => Ok(Some(kind)),
        }
    }

    /// Reads the file at a path.
    fn read(&self, at: &str) -> Result<FeedFile, FeedError> {
        let file = fs::open(&self.rt, self.place(at)?.as_path())?;
        let mut items = Vec::new(self.rt.alloc());
        file.take(MOST_BYTES).read_to_end(&mut items)?;
        let path = String::from_str(self.rt.alloc(), at)?;
        Ok(FeedFile {
            path: Bytes {
                items: path.into_bytes(),
            },
            bytes: Bytes { items },
        })
    }

    /// The paths of what is directly in the folder at a path, the last first. Fails if these are more entries than may
    /// still be read.
    fn list(&self, at: &str) -> Result<Vec<String>, FeedError> {
        let entries = fs::read_dir(&self.rt, self.place(at)?.as_path())?;
        let mut paths = Vec::new(self.rt.alloc());
        for entry in entries {
            if paths.len() >= self.entries_left {
                return Err(FeedError::Failed);
            }
            let entry = entry?;
            paths.push(path_of(self.rt.alloc(), at, entry.file_name())?)?;
        }
        paths.sort_unstable();
        paths.reverse();
        Ok(paths)
    }

    /// Where a path lies for the system.
    fn place(&self, at: &str) -> Result<PathBuf, FeedError> {
        let Ok(folder) = str::from_utf8(self.folder.as_slice()) else {
            return Err(FeedError::Failed);
        };
        let mut place = PathBuf::from_str(self.rt.alloc(), folder)?;
        place.push(at)?;
        Ok(place)
    }
}

/// The path of an entry of a folder.
fn path_of(alloc: Global, folder: &str, name: &str) -> Result<String, FeedError> {
    Ok(format!(in alloc; "{folder}/{name}")?)
}

/// What is visited first, the last first.
fn tops(alloc: Global) -> Result<Vec<String>, AllocError> {
    let mut tops = Vec::new(alloc);
    for top in ["board", "package", ".config", "Config.in"] {
        tops.push(String::from_str(alloc, top)?)?;
    }
    Ok(tops)
}

/// What one of the tops has to be; none for a path below them.
fn wanted(at: &str) -> Option<Kind> {
    match at {
        "Config.in" | ".config" => Some(Kind::File),
        "package" | "board" => Some(Kind::Folder),
        _ => None,
    }
}
