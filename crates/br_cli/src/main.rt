//! The program `br`: the builder over the current folder, standard output and `rootfs.img`.
#![tactic(auto)]

use br_path::{Bytes, Memory, Names};
use br_run::{Status, run};
use feed_io::{FileSink, FolderFeed, StreamSink};
use std::env::{Env, FillError};
use std::fs::{self, File};
use std::io;
use std::os::fd::AsRawFd;
use std::process::ExitCode;
use std::rt::Files;

/// Hands the words after the program's name to the builder, and ends with its status. Nothing is written to standard
/// error, and `rootfs.img` is opened where an image is put alone.
fn main(rt: HostRuntime) -> ExitCode {
    let _held = [held(&rt), held(&rt), held(&rt)];
    let status = build(&rt).unwrap_or(Status::NoMemory);
    ExitCode::from(status.number())
}

/// Takes the number of a standard stream that is closed, so that no file that is opened later gets it.
///
/// The root folder stands in the stream's place. It is open for reading alone, so that a write there still fails.
fn held<R: Files<File = File>>(rt: &R) -> Option<File> {
    fs::open(rt, "/").ok().filter(|file| file.as_raw_fd() <= 2)
}

fn build<R: Env + Files + Print + AllocGlobal + Clone + Drop>(rt: &R) -> Result<Status, Memory> {
    let words = words(rt)?;
    let folder = Bytes::from_slice(rt.alloc(), b".")?;
    let image = Bytes::from_slice(rt.alloc(), b"rootfs.img")?;
    Ok(run(
        rt.alloc(),
        &words.items,
        &mut FolderFeed::new(rt, folder),
        &mut StreamSink::new(io::writer(rt)),
        &mut FileSink::new(rt, image),
    ))
}

/// The words after the program's name, as their bytes.
fn words<R: Env + AllocGlobal>(rt: &R) -> Result<Names, Memory> {
    let mut items = Vec::new(rt.alloc());
    for place in 1..usize::MAX {
        match word(rt, place)? {
            Some(word) => items.push(word)?,
            None => break,
        }
    }
    Ok(Names { items })
}

/// The word at a place, read into a buffer that is doubled until it is long enough.
fn word<R: Env + AllocGlobal>(rt: &R, place: usize) -> Result<Option<Bytes>, Memory> {
    let mut size = 256usize;
    for _ in 0..usize::BITS {
        let mut items = vec![in rt.alloc(); 0u8; size]?;
        match rt.arg(place, items.as_mut_slice()) {
            Ok(len) => {
                items.truncate(len);
                return Ok(Some(Bytes { items }));
            }
            Err(FillError::NotPresent) => return Ok(None),
            Err(FillError::TooLong) => size = size.saturating_mul(2),
        }
    }
    Err(Memory)
}
