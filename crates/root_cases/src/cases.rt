//! What each line asks for.
use crate::kinds::kind_name;
use crate::roots::{put_entries, put_text};
use case_text::{Page, Stopped, Table, found};
use root_image::{ImageError, ImageFault, Root, read};
use std::alloc::Global;

/// The most bytes of a text.
const MOST_BYTES: usize = 1 << 30;

/// What a line asks for.
#[derive(Clone, Copy)]
enum Act {
    Case,
    Line,
    Bytes,
    Read,
    Entries,
    Write,
}

const ACTS: [(&[u8], Act); 6] = [
    (b"case", Act::Case),
    (b"line", Act::Line),
    (b"bytes", Act::Bytes),
    (b"read", Act::Read),
    (b"entries", Act::Entries),
    (b"write", Act::Write),
];

/// The text so far, and the root that was read last.
#[derive(Drop)]
pub(crate) struct Cases {
    alloc: Global,
    text: Vec<u8>,
    root: Option<Root>,
}

impl Cases {
    pub(crate) fn new(alloc: Global) -> Cases {
        Cases {
            alloc,
            text: Vec::new(alloc),
            root: None,
        }
    }

    fn begin(&mut self) {
        self.text.clear();
        self.root = None;
    }

    fn add(&mut self, text: &[u8]) -> Result<(), Stopped> {
        Ok(self.text.extend_from_slice(text)?)
    }

    fn read(&mut self, page: &mut Page) -> Result<(), Stopped> {
        match read_text(self.alloc, self.text.as_slice()) {
            Ok(root) => {
                let count = root.entries().len();
                self.root = Some(root);
                page.number(b"= ", count as u64)
            }
            Err(ImageError::Fault(fault)) => put_fault(page, fault),
            Err(ImageError::Memory) => Err(Stopped),
        }
    }

    fn root(&self) -> Result<&Root, Stopped> {
        match &self.root {
            Some(root) => Ok(root),
            None => Err(Stopped),
        }
    }
}

impl Table for Cases {
    fn line(&mut self, page: &mut Page, word: &[u8], text: &[u8]) -> Result<(), Stopped> {
        match found(&ACTS, word)? {
            Act::Case => {
                self.begin();
                Ok(())
            }
            Act::Line => {
                self.add(text)?;
                self.add(b"\n")
            }
            Act::Bytes => self.add(text),
            Act::Read => self.read(page),
            Act::Entries => put_entries(page, self.root()?),
            Act::Write => put_text(page, self.root()?),
        }
    }
}

/// Reads a text, which isn't too long for its lines to be numbered.
#[tactic(auto, using(root_image::proofs::Small::lines_of_small))]
fn read_text(alloc: Global, text: &[u8]) -> Result<Root, ImageError> {
    if text.len() > MOST_BYTES {
        return Err(ImageError::Memory);
    }
    read(alloc, text)
}

fn put_fault(page: &mut Page, fault: ImageFault) -> Result<(), Stopped> {
    page.put(b"! ")?;
    page.put(kind_name(fault.kind))?;
    page.number(b" ", u64::from(fault.line))
}
