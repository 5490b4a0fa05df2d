//! The files of a case, put together text by text.
use crate::small_files::SmallFiles;
use crate::stopped::Stopped;
use br_path::Bytes;
use std::alloc::Global;

/// A file, by the text of its path.
#[derive(Drop)]
pub struct FileText {
    pub path: Bytes,
    pub text: Bytes,
}

/// The files of a case, in the order in which they were begun. Text is put at the end of the last.
#[derive(Drop)]
pub struct FileTexts {
    alloc: Global,
    files: Vec<FileText>,
}

impl FileTexts {
    pub fn new(alloc: Global) -> FileTexts {
        FileTexts {
            alloc,
            files: Vec::new(alloc),
        }
    }

    pub fn as_slice(&self) -> &[FileText] {
        self.files.as_slice()
    }

    /// Begins a file, which is empty so far.
    pub fn begin(&mut self, path: &[u8]) -> Result<(), Stopped> {
        let path = Bytes::from_slice(self.alloc, path)?;
        let text = Bytes {
            items: Vec::new(self.alloc),
        };
        Ok(self.files.push(FileText { path, text })?)
    }

    /// Begins a file whose path ends in a number.
    pub fn begin_numbered(&mut self, head: &[u8], number: u32) -> Result<(), Stopped> {
        let digits = number.to_string(self.alloc)?;
        let mut path = Vec::from_slice(self.alloc, head)?;
        path.extend_from_slice(digits.as_bytes())?;
        self.begin(path.as_slice())
    }

    pub fn put(&mut self, text: &[u8]) -> Result<(), Stopped> {
        match self.files.last_mut() {
            Some(file) => Ok(file.text.items.extend_from_slice(text)?),
            None => Err(Stopped),
        }
    }

    pub fn put_line(&mut self, text: &[u8]) -> Result<(), Stopped> {
        self.put(text)?;
        self.put(b"\n")
    }

    /// Puts a line as often as a number says.
    pub fn put_lines(&mut self, count: u32, text: &[u8]) -> Result<(), Stopped> {
        for _ in 0..count {
            self.put_line(text)?;
        }
        Ok(())
    }

    /// The files by their paths.
    pub fn by_paths(&self) -> Result<SmallFiles, Stopped> {
        let mut files = SmallFiles::new(self.alloc);
        for file in &self.files {
            files.add(self.alloc, file.path.as_slice(), file.text.as_slice())?;
        }
        Ok(files)
    }
}
