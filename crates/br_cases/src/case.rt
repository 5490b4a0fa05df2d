//! What one line does, and what it prints.
use crate::input::put_packages;
use crate::runs::Ends;
use crate::words::{read, words};
use case_text::{FileTexts, Page, Stopped, Table, found, number, word};
use std::alloc::Global;

/// What a line does.
#[derive(Clone, Copy)]
enum Act {
    Begin,
    GoOn,
    Read,
    File,
    Files,
    Line,
    Lines,
    Text,
    Packages,
    Feed,
    Out,
    Image,
    Run,
}

const ACTS: [(&[u8], Act); 13] = [
    (b"case", Act::Begin),
    (b"also", Act::GoOn),
    (b"read", Act::Read),
    (b"file", Act::File),
    (b"files", Act::Files),
    (b"|", Act::Line),
    (b"repeat", Act::Lines),
    (b"+", Act::Text),
    (b"packages", Act::Packages),
    (b"feed", Act::Feed),
    (b"out", Act::Out),
    (b"image", Act::Image),
    (b"run", Act::Run),
];

/// The input of a case, and how its feed and sinks behave.
#[derive(Drop)]
pub(crate) struct Case {
    alloc: Global,
    files: FileTexts,
    ends: Ends,
}

impl Table for Case {
    fn line(&mut self, page: &mut Page, word: &[u8], text: &[u8]) -> Result<(), Stopped> {
        match found(&ACTS, word)? {
            Act::Begin => self.begin(),
            Act::GoOn => self.go_on(),
            Act::Read => read(page, &words(self.alloc, text)?),
            Act::File => self.files.begin(text),
            Act::Files => self.begin_files(text),
            Act::Line => self.files.put_line(text),
            Act::Lines => self.put_lines(text),
            Act::Text => self.files.put(text),
            Act::Packages => put_packages(self.alloc, &mut self.files, text),
            Act::Feed => self.ends.set_feed(self.alloc, text),
            Act::Out => self.ends.set_out(self.alloc, text),
            Act::Image => self.ends.set_image(self.alloc, text),
            Act::Run => self.run(page, text),
        }
    }
}

impl Case {
    pub(crate) fn new(alloc: Global) -> Case {
        Case {
            alloc,
            files: FileTexts::new(alloc),
            ends: Ends::new(alloc),
        }
    }

    fn begin(&mut self) -> Result<(), Stopped> {
        self.files = FileTexts::new(self.alloc);
        self.go_on()
    }

    // Another case over the files so far.
    fn go_on(&mut self) -> Result<(), Stopped> {
        self.ends = Ends::new(self.alloc);
        Ok(())
    }

    // So many empty files, whose paths end in their number.
    fn begin_files(&mut self, text: &[u8]) -> Result<(), Stopped> {
        let (count, head) = word(text);
        for place in 0..number(count)? {
            self.files.begin_numbered(head, place)?;
        }
        Ok(())
    }

    fn put_lines(&mut self, text: &[u8]) -> Result<(), Stopped> {
        let (count, line) = word(text);
        self.files.put_lines(number(count)?, line)
    }

    fn run(&self, page: &mut Page, text: &[u8]) -> Result<(), Stopped> {
        let words = words(self.alloc, text)?;
        self.ends.run(self.alloc, page, &words, &self.files)
    }
}
