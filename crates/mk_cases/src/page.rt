//! What is printed.
use crate::stopped::Stopped;
use std::alloc::Global;

/// The longest text that is printed as it is.
const LONGEST: usize = 120;

/// All that was printed so far.
#[derive(Drop)]
pub(crate) struct Page {
    alloc: Global,
    pub(crate) printed: Vec<u8>,
}

impl Page {
    pub(crate) fn new(alloc: Global) -> Page {
        Page {
            alloc,
            printed: Vec::new(alloc),
        }
    }

    /// A whole line.
    pub(crate) fn line(&mut self, text: &[u8]) -> Result<(), Stopped> {
        self.word(text)?;
        self.end()
    }

    /// The end of a line.
    pub(crate) fn end(&mut self) -> Result<(), Stopped> {
        Ok(self.printed.push(b'\n')?)
    }

    pub(crate) fn word(&mut self, text: &[u8]) -> Result<(), Stopped> {
        Ok(self.printed.extend_from_slice(text)?)
    }

    pub(crate) fn number(&mut self, number: usize) -> Result<(), Stopped> {
        let digits = format!(in self.alloc; "{number}")?;
        self.word(digits.as_bytes())
    }

    /// A text in brackets, with `^I` for a tab and the like, or the number of its bytes if it is long.
    pub(crate) fn text(&mut self, text: &[u8]) -> Result<(), Stopped> {
        if text.len() > LONGEST {
            self.number(text.len())?;
            return self.word(b" bytes");
        }
        self.word(b"[")?;
        for byte in text {
            self.byte(*byte)?;
        }
        self.word(b"]")
    }

    fn byte(&mut self, byte: u8) -> Result<(), Stopped> {
        if byte < 32 || byte == 127 {
            self.word(&[b'^', byte ^ 64])
        } else {
            self.word(&[byte])
        }
    }
}
