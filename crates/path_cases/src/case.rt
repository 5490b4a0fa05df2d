//! What one line does, and what it prints.
use crate::act::{ACTS, Act, FileAct, PathAct, SinkAct};
use crate::feeds::Feeds;
use crate::{inputs, paths, sinks};
use br_path::Files;
use case_text::{Page, Stopped, Table, found};
use feed_io::MemorySink;
use std::alloc::Global;

/// What the lines of a case have made so far.
#[derive(Drop)]
pub(crate) struct Case {
    alloc: Global,
    files: Files,
    feeds: Feeds,
    sink: MemorySink,
}

impl Table for Case {
    fn line(&mut self, page: &mut Page, word: &[u8], text: &[u8]) -> Result<(), Stopped> {
        match found(&ACTS, word)? {
            Act::Begin => self.begin(),
            Act::Path(act) => self.path(page, act, text),
            Act::File(act) => self.file(page, act, text),
            Act::Feed(act) => self.feeds.act(page, &mut self.files, act, text),
            Act::Sink(act) => self.sink(page, act, text),
        }
    }
}

impl Case {
    pub(crate) fn new(alloc: Global) -> Result<Case, Stopped> {
        let sink = sinks::sink(alloc, b"0 1")?;
        Ok(Case {
            alloc,
            files: Files::new(alloc),
            feeds: Feeds::new(alloc),
            sink,
        })
    }

    fn begin(&mut self) -> Result<(), Stopped> {
        self.files = Files::new(self.alloc);
        self.feeds = Feeds::new(self.alloc);
        Ok(())
    }

    fn path(&self, page: &mut Page, act: PathAct, text: &[u8]) -> Result<(), Stopped> {
        let alloc = self.alloc;
        match act {
            PathAct::Parse => paths::parse(alloc, page, text),
            PathAct::Child => paths::child(alloc, page, text),
            PathAct::Parent => paths::parent(alloc, page, text),
            PathAct::Prefix => paths::prefix(alloc, page, text),
            PathAct::Copy => paths::copy(alloc, page, text),
            PathAct::Compare => paths::compare(alloc, page, text),
            PathAct::StartsWith => paths::starts_with(alloc, page, text),
        }
    }

    fn file(&mut self, page: &mut Page, act: FileAct, text: &[u8]) -> Result<(), Stopped> {
        let alloc = self.alloc;
        match act {
            FileAct::Add => inputs::add(alloc, page, &mut self.files, text),
            FileAct::Get => inputs::get(alloc, page, &self.files, text),
            FileAct::IsDir => inputs::is_dir(alloc, page, &self.files, text),
            FileAct::Clashes => inputs::clashes(alloc, page, &self.files, text),
            FileAct::Children => inputs::children(alloc, page, &self.files, text),
            FileAct::Len => page.number(b"= ", self.files.len() as u64),
        }
    }

    fn sink(&mut self, page: &mut Page, act: SinkAct, text: &[u8]) -> Result<(), Stopped> {
        match act {
            SinkAct::Begin => self.begin_sink(text),
            SinkAct::Put => sinks::put(page, &mut self.sink, text),
            SinkAct::Held => sinks::held(page, &self.sink),
        }
    }

    fn begin_sink(&mut self, text: &[u8]) -> Result<(), Stopped> {
        self.sink = sinks::sink(self.alloc, text)?;
        Ok(())
    }
}
