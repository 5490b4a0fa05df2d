//! Whole runs over feeds and sinks in memory.
ghost use Rattle.std.specs.Prelude.{◌≡◌, true};
ghost use Rattle.br_run.specs.Answer.{has_one_worker};

use crate::input::feed_files;
use br_path::{Names, Numbers};
use br_run::{Status, has_one_worker, run, run_still};
use br_words::Words;
use case_text::{FileTexts, Page, Stopped, number, numbers, word};
use feed_io::{MemoryFeed, MemorySink};
use std::alloc::Global;

/// How a sink takes its bytes: its room, the most that it takes at a time, and the calls at which it fails.
#[derive(Drop)]
pub(crate) struct Taking {
    room: u32,
    step: u32,
    fails: Vec<u32>,
}

/// How the feed and the sinks of a case behave.
#[derive(Drop)]
pub(crate) struct Ends {
    feed: Vec<u32>,
    out: Taking,
    image: Taking,
}

/// What a run left and answered.
#[derive(Drop)]
struct Told {
    out: MemorySink,
    image: MemorySink,
    status: Status,
}

impl Taking {
    // More room than a report of these cases asks for, and no call that fails.
    fn all(alloc: Global) -> Taking {
        Taking {
            room: 100_000,
            step: 100_000,
            fails: Vec::new(alloc),
        }
    }

    fn read(alloc: Global, text: &[u8]) -> Result<Taking, Stopped> {
        let (room, text) = word(text);
        let (step, fails) = word(text);
        Ok(Taking {
            room: number(room)?,
            step: number(step)?,
            fails: numbers(alloc, fails)?,
        })
    }

    fn sink(&self, alloc: Global) -> Result<MemorySink, Stopped> {
        if self.step == 0 {
            return Err(Stopped);
        }
        let items = self.fails.clone()?;
        Ok(MemorySink::new(alloc, self.room, self.step, Numbers { items })?)
    }
}

impl Ends {
    pub(crate) fn new(alloc: Global) -> Ends {
        Ends {
            feed: Vec::new(alloc),
            out: Taking::all(alloc),
            image: Taking::all(alloc),
        }
    }

    /// The calls at which the feed fails.
    pub(crate) fn set_feed(&mut self, alloc: Global, text: &[u8]) -> Result<(), Stopped> {
        self.feed = numbers(alloc, text)?;
        Ok(())
    }

    /// The room of the report, the most that is taken of it at a time, and the calls that fail.
    pub(crate) fn set_out(&mut self, alloc: Global, text: &[u8]) -> Result<(), Stopped> {
        self.out = Taking::read(alloc, text)?;
        Ok(())
    }

    /// The same of the image.
    pub(crate) fn set_image(&mut self, alloc: Global, text: &[u8]) -> Result<(), Stopped> {
        self.image = Taking::read(alloc, text)?;
        Ok(())
    }

    /// Runs the builder, and prints the report, the image and the status. Where the words are a command for one worker, it is
    /// run once more by the call for these, and has to answer the same.
    pub(crate) fn run(
        &self,
        alloc: Global,
        page: &mut Page,
        words: &Names,
        files: &FileTexts,
    ) -> Result<(), Stopped> {
        let told = self.run_words(alloc, words, &mut self.feed(alloc, files)?)?;
        if let Ok(command) = Words::read(&words.items) {
            if has_one_worker(&command) {
                let again = self.run_command(alloc, &command, &mut self.feed(alloc, files)?)?;
                again.check(&told)?;
            }
        }
        told.print(page)
    }

    fn run_words(
        &self,
        alloc: Global,
        words: &Names,
        feed: &mut MemoryFeed,
    ) -> Result<Told, Stopped> {
        let mut out = self.out.sink(alloc)?;
        let mut image = self.image.sink(alloc)?;
        let status = run(alloc, &words.items, feed, &mut out, &mut image);
        Ok(Told { out, image, status })
    }

    fn run_command(
        &self,
        alloc: Global,
        command: &Words,
        feed: &mut MemoryFeed,
    ) -> Result<Told, Stopped>
        requires { has_one_worker command.now ≡ true }
    {
        let mut out = self.out.sink(alloc)?;
        let mut image = self.image.sink(alloc)?;
        let status = run_still(alloc, command, feed, &mut out, &mut image);
        Ok(Told { out, image, status })
    }

    fn feed(&self, alloc: Global, files: &FileTexts) -> Result<MemoryFeed, Stopped> {
        let items = self.feed.clone()?;
        Ok(MemoryFeed::new(feed_files(alloc, files)?, Numbers { items }))
    }
}

impl Told {
    fn print(&self, page: &mut Page) -> Result<(), Stopped> {
        page.lines(b"> ", self.out.held())?;
        page.lines(b": ", self.image.held())?;
        page.number(b"= status ", u64::from(self.status.number()))
    }

    fn check(&self, other: &Told) -> Result<(), Stopped> {
        if self.out.held() != other.out.held() || self.image.held() != other.image.held() {
            return Err(Stopped);
        }
        if self.status.number() != other.status.number() {
            return Err(Stopped);
        }
        Ok(())
    }
}
