//! What is printed.
use crate::stopped::Stopped;
use br_path::Path;
use std::alloc::Global;

/// All that was printed so far.
#[derive(Drop)]
pub struct Page {
    alloc: Global,
    text: Vec<u8>,
}

impl Page {
    pub fn new(alloc: Global) -> Page {
        Page {
            alloc,
            text: Vec::new(alloc),
        }
    }

    pub fn alloc(&self) -> Global {
        self.alloc
    }

    pub fn as_slice(&self) -> &[u8] {
        self.text.as_slice()
    }

    pub fn put(&mut self, text: &[u8]) -> Result<(), Stopped> {
        Ok(self.text.extend_from_slice(text)?)
    }

    pub fn put_number(&mut self, number: u64) -> Result<(), Stopped> {
        let digits = number.to_string(self.alloc)?;
        self.put(digits.as_bytes())
    }

    /// Numbers, each after a blank.
    pub fn put_numbers(&mut self, numbers: &[u32]) -> Result<(), Stopped> {
        for number in numbers {
            self.put(b" ")?;
            self.put_number(u64::from(*number))?;
        }
        Ok(())
    }

    /// A path: its names, with a `/` between two.
    pub fn put_path(&mut self, path: &Path) -> Result<(), Stopped> {
        let mut divider: &[u8] = b"";
        for name in path.names() {
            self.put(divider)?;
            self.put(name.as_slice())?;
            divider = b"/";
        }
        Ok(())
    }

    /// The end of a line.
    pub fn end(&mut self) -> Result<(), Stopped> {
        Ok(self.text.push(b'\n')?)
    }

    /// A line of two texts.
    pub fn line(&mut self, front: &[u8], text: &[u8]) -> Result<(), Stopped> {
        self.put(front)?;
        self.put(text)?;
        self.end()
    }

    /// A line that ends with a number.
    pub fn number(&mut self, front: &[u8], number: u64) -> Result<(), Stopped> {
        self.put(front)?;
        self.put_number(number)?;
        self.end()
    }

    /// A line that ends with numbers, each after a blank.
    pub fn numbers(&mut self, front: &[u8], numbers: &[u32]) -> Result<(), Stopped> {
        self.put(front)?;
        self.put_numbers(numbers)?;
        self.end()
    }

    /// A line that ends with a path.
    pub fn path(&mut self, front: &[u8], path: &Path) -> Result<(), Stopped> {
        self.put(front)?;
        self.put_path(path)?;
        self.end()
    }

    /// A line that ends with yes or no.
    pub fn whether(&mut self, front: &[u8], is_so: bool) -> Result<(), Stopped> {
        self.line(front, if is_so { b"yes" } else { b"no" })
    }

    /// The lines of a text, each after a front, and a line that tells it if the last has no newline.
    pub fn lines(&mut self, front: &[u8], text: &[u8]) -> Result<(), Stopped> {
        for line in text.split_inclusive(|byte| *byte == b'\n') {
            self.put(front)?;
            self.put(line)?;
        }
        match text.last() {
            None | Some(b'\n') => Ok(()),
            Some(_) => self.line(b"\n", b"\\ no newline at the end"),
        }
    }
}
