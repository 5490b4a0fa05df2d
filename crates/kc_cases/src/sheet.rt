//! The table as it is printed.
use crate::stopped::Stopped;
use std::alloc::Global;

/// The lines of the input so far, each with its answers below it.
#[derive(Drop)]
pub(crate) struct Sheet {
    pub(crate) alloc: Global,
    pub(crate) text: Vec<u8>,
}

impl Sheet {
    pub(crate) fn new(alloc: Global) -> Sheet {
        Sheet {
            alloc,
            text: Vec::new(alloc),
        }
    }

    pub(crate) fn put(&mut self, text: &[u8]) -> Result<(), Stopped> {
        Ok(self.text.extend_from_slice(text)?)
    }

    pub(crate) fn put_line(&mut self, line: &[u8]) -> Result<(), Stopped> {
        self.put(line)?;
        self.end()
    }

    pub(crate) fn put_number(&mut self, number: u32) -> Result<(), Stopped> {
        let digits = number.to_string(self.alloc)?;
        self.put(digits.as_bytes())
    }

    pub(crate) fn begin(&mut self) -> Result<(), Stopped> {
        self.put(b"-> ")
    }

    pub(crate) fn end(&mut self) -> Result<(), Stopped> {
        Ok(self.text.push(b'\n')?)
    }

    /// An answer of one line.
    pub(crate) fn answer(&mut self, line: &[u8]) -> Result<(), Stopped> {
        self.begin()?;
        self.put_line(line)
    }

    /// An answer of one line with a word before the text.
    pub(crate) fn answer_named(&mut self, word: &[u8], text: &[u8]) -> Result<(), Stopped> {
        self.begin()?;
        self.put(word)?;
        self.put(b" ")?;
        self.put_line(text)
    }

    pub(crate) fn answer_whether(&mut self, holds: bool) -> Result<(), Stopped> {
        if holds {
            self.answer(b"yes")
        } else {
            self.answer(b"no")
        }
    }
}
