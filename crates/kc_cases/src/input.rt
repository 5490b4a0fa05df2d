//! The files of a case.
ghost use Rattle.br_path.specs.Files.{AreSmall};

use crate::stopped::Stopped;
use br_path::{Bytes, Files, Path};
use std::alloc::Global;

/// A file, as it is written line by line.
#[derive(Drop)]
struct FileText {
    path: Bytes,
    text: Bytes,
}

/// The files of a case, in the order in which they were begun.
#[derive(Drop)]
pub(crate) struct FileTexts {
    alloc: Global,
    files: Vec<FileText>,
}

/// Files that are small enough to be read.
#[derive(Drop)]
pub(crate) struct Input {
    pub(crate) files: Files,
    ghost small: { AreSmall files },
}

impl FileTexts {
    pub(crate) fn new(alloc: Global) -> FileTexts {
        FileTexts {
            alloc,
            files: Vec::new(alloc),
        }
    }

    /// Begins a file. What is put from now on stands in it.
    pub(crate) fn begin(&mut self, path: &[u8]) -> Result<(), Stopped> {
        let path = Bytes::from_slice(self.alloc, path)?;
        let text = Bytes {
            items: Vec::new(self.alloc),
        };
        Ok(self.files.push(FileText { path, text })?)
    }

    /// Puts a text at the end of the last file, which is `Config.in` where none is begun.
    pub(crate) fn put(&mut self, text: &[u8]) -> Result<(), Stopped> {
        if self.files.is_empty() {
            self.begin(b"Config.in")?;
        }
        match self.files.last_mut() {
            Some(file) => Ok(file.text.items.extend_from_slice(text)?),
            None => Err(Stopped),
        }
    }

    /// Lets the last file source a new one, this one a next, and so on.
    pub(crate) fn chain(&mut self, count: u32, head: &[u8]) -> Result<(), Stopped> {
        for number in 1..=count {
            let path = numbered(self.alloc, head, number)?;
            self.put(b"source \"")?;
            self.put(path.as_slice())?;
            self.put(b"\"\n")?;
            self.begin(path.as_slice())?;
        }
        Ok(())
    }

    /// The text of the last file so far.
    pub(crate) fn last(&self) -> &[u8] {
        match self.files.last() {
            Some(file) => file.text.as_slice(),
            None => b"",
        }
    }

    pub(crate) fn input(&self) -> Result<Input, Stopped> {
        let mut input = Input::new(self.alloc);
        for file in &self.files {
            input.put(self.alloc, file.path.as_slice(), file.text.as_slice())?;
        }
        Ok(input)
    }
}

fn numbered(alloc: Global, head: &[u8], number: u32) -> Result<Vec<u8>, Stopped> {
    let mut path = Vec::from_slice(alloc, head)?;
    let digits = number.to_string(alloc)?;
    path.extend_from_slice(digits.as_bytes())?;
    Ok(path)
}

impl Input {
    #[tactic(auto, using(br_path::proofs::Small::small_empty))]
    fn new(alloc: Global) -> Input {
        Input {
            files: Files::new(alloc),
        }
    }

    #[tactic(auto, using(br_path::proofs::Small::small_insert))]
    fn put(&mut self, alloc: Global, path: &[u8], text: &[u8]) -> Result<(), Stopped> {
        let at = Path::parse(alloc, path)?;
        let bytes = Bytes::from_slice(alloc, text)?;
        if text.len() > 1 << 30 {
            return Err(Stopped);
        }
        Ok(self.files.add(at, bytes)?)
    }
}
