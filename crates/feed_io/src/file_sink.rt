//! A sink into a file.
ghost use Rattle.std.specs.Prelude.{◌≡◌, ℕ, ◌≤◌, ◌<◌, length, None, IfOk};

use crate::sink::{Sink, SinkError};
use crate::stream_sink::write_once;
use br_path::Bytes;
use std::fs::Files;
use std::io::ErrorKind;
use std::marker::Model;
use std::{fs, io};

/// A sink that writes a file, and tells nothing of what it holds.
///
/// The first put makes the file, or empties it where it is there; where that fails, the put is a fault and the next
/// one tries again. Then each put is one write and one flush, with the faults of a `StreamSink`. A path that isn't
/// UTF-8 is a fault of each put.
#[derive(Drop)]
pub struct FileSink<R: Files> {
    rt: R,
    at: Bytes,
    file: Option<R::File>,
    faults: u64,
}

impl<R: Files> Model for FileSink<R> {
    ghost Value = { ℕ };

    ghost view = { λ s. s.faults };
}

impl<R: Files> FileSink<R> {
    /// A sink into the file with this path. It opens nothing, and takes no memory.
    pub fn new(rt: R, at: Bytes) -> FileSink<R>
        ensures { ⟦<FileSink<R> as Sink>⟧.faults result ≡ 0 }
    {
        FileSink {
            rt,
            at,
            file: None,
            faults: 0,
        }
    }

    /// Writes a front of the piece, at least one byte where it isn't empty.
    fn write(&mut self, piece: &[u8]) -> io::Result<usize>
        ensures within { IfOk result (λ count. count ≤ length piece.now) }
        ensures some { IfOk result (λ count. 0 < length piece.now → 0 < count) }
        ensures faults { self.new ≡ self.old }
    {
        let mut file = match self.file.take() {
            Some(file) => file,
            None => self.create()?,
        };
        let outcome = write_once(&mut file, piece);
        self.file = Some(file);
        outcome
    }

    /// Opens the file, empty.
    fn create(&self) -> io::Result<R::File> {
        match str::from_utf8(self.at.as_slice()) {
            Ok(at) => fs::create(&self.rt, at),
            Err(_) => Err(io::Error::from(ErrorKind::InvalidFilename)),
        }
    }
}

impl<R: Files> Sink for FileSink<R> {
    ghost held = { λ _. None };

    ghost faults = { λ s. s };

    fn put(&mut self, piece: &[u8]) -> Result<usize, SinkError> {
        match self.write(piece) {
            Ok(count) => Ok(count),
            Err(_) => {
                self.faults = self.faults.saturating_add(1);
                Err(SinkError::Failed)
            }
        }
    }
}
