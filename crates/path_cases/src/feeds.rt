//! Feeds, and the files that are read from them.
use crate::act::FeedAct;
use br_path::{Bytes, Files, Numbers};
use case_text::{Page, Stopped, number, numbers, word};
use feed_io::{Feed, FeedError, FeedFile, FeedFiles, MemoryFeed, ReadFault, read_all};
use std::alloc::Global;
use std::mem;

/// The files of the next feed, and the feed that is asked.
#[derive(Drop)]
pub(crate) struct Feeds {
    alloc: Global,
    list: Vec<FeedFile>,
    feed: MemoryFeed,
}

impl Feeds {
    pub(crate) fn new(alloc: Global) -> Feeds {
        Feeds {
            alloc,
            list: Vec::new(alloc),
            feed: feed_of(Vec::new(alloc), Vec::new(alloc)),
        }
    }

    pub(crate) fn act(
        &mut self,
        page: &mut Page,
        files: &mut Files,
        act: FeedAct,
        text: &[u8],
    ) -> Result<(), Stopped> {
        match act {
            FeedAct::File => self.file(text),
            FeedAct::Files => self.files(text),
            FeedAct::Begin => self.begin(text),
            FeedAct::Next => self.next(page),
            FeedAct::Read => self.read(page, files),
        }
    }

    /// A file of the next feed.
    fn file(&mut self, text: &[u8]) -> Result<(), Stopped> {
        let (path, bytes) = word(text);
        Ok(self.list.push(file_of(self.alloc, path, bytes)?)?)
    }

    /// Files of the next feed whose paths end in their number.
    fn files(&mut self, text: &[u8]) -> Result<(), Stopped> {
        let (count, text) = word(text);
        let (path, bytes) = word(text);
        for number in 0..number(count)? {
            let digits = number.to_string(self.alloc)?;
            let mut path = Vec::from_slice(self.alloc, path)?;
            path.extend_from_slice(digits.as_bytes())?;
            self.list
                .push(file_of(self.alloc, path.as_slice(), bytes)?)?;
        }
        Ok(())
    }

    /// A feed of these files, which fails at calls.
    fn begin(&mut self, text: &[u8]) -> Result<(), Stopped> {
        let fails = numbers(self.alloc, text)?;
        let list = mem::replace(&mut self.list, Vec::new(self.alloc));
        self.feed = feed_of(list, fails);
        Ok(())
    }

    /// Asks the feed once.
    fn next(&mut self, page: &mut Page) -> Result<(), Stopped> {
        match &self.feed.next() {
            Ok(Some(file)) => {
                page.line(b"= ", file.path.as_slice())?;
                page.line(b"  ", file.bytes.as_slice())
            }
            Ok(None) => page.line(b"= none", b""),
            Err(FeedError::Failed) => page.line(b"! failed", b""),
            Err(FeedError::Memory) => Err(Stopped),
        }
    }

    /// Reads all files that are left.
    fn read(&mut self, page: &mut Page, files: &mut Files) -> Result<(), Stopped> {
        match read_all(self.alloc, &mut self.feed) {
            Ok(read) => {
                *files = read;
                page.number(b"= files ", files.len() as u64)
            }
            Err(fault) => print_fault(page, &fault),
        }
    }
}

fn feed_of(list: Vec<FeedFile>, fails: Vec<u32>) -> MemoryFeed {
    MemoryFeed::new(FeedFiles { items: list }, Numbers { items: fails })
}

fn file_of(alloc: Global, path: &[u8], bytes: &[u8]) -> Result<FeedFile, Stopped> {
    let path = Bytes::from_slice(alloc, path)?;
    let bytes = Bytes::from_slice(alloc, bytes)?;
    Ok(FeedFile { path, bytes })
}

fn print_fault(page: &mut Page, fault: &ReadFault) -> Result<(), Stopped> {
    match fault {
        ReadFault::Feed => page.line(b"! feed", b""),
        ReadFault::TooManyFiles => page.line(b"! too-many-files", b""),
        ReadFault::TooLarge => page.line(b"! too-large", b""),
        ReadFault::BadPath(number) => page.number(b"! bad-path ", u64::from(*number)),
        ReadFault::Twice(path) => page.path(b"! twice /", path),
        ReadFault::Memory => Err(Stopped),
    }
}
