//! The files of the input, as a map from paths to bytes.
use crate::text::path;
use br_path::{AddFault, Bytes, Files, Names};
use case_text::{Page, Stopped, word};
use std::alloc::Global;

pub(crate) fn add(
    alloc: Global,
    page: &mut Page,
    files: &mut Files,
    text: &[u8],
) -> Result<(), Stopped> {
    let (at, text) = word(text);
    let at = path(alloc, at)?;
    let bytes = Bytes::from_slice(alloc, text)?;
    match files.add(at, bytes) {
        Ok(()) => page.line(b"= added", b""),
        Err(AddFault::Twice) => page.line(b"! twice", b""),
        Err(AddFault::Memory) => Err(Stopped),
    }
}

pub(crate) fn get(
    alloc: Global,
    page: &mut Page,
    files: &Files,
    text: &[u8],
) -> Result<(), Stopped> {
    let at = path(alloc, text)?;
    match files.get(&at) {
        Some(bytes) => page.line(b"= ", bytes),
        None => page.line(b"= none", b""),
    }
}

pub(crate) fn is_dir(
    alloc: Global,
    page: &mut Page,
    files: &Files,
    text: &[u8],
) -> Result<(), Stopped> {
    let at = path(alloc, text)?;
    page.whether(b"= ", files.is_dir(&at))
}

pub(crate) fn clashes(
    alloc: Global,
    page: &mut Page,
    files: &Files,
    text: &[u8],
) -> Result<(), Stopped> {
    let at = path(alloc, text)?;
    page.whether(b"= ", files.clashes(&at))
}

pub(crate) fn children(
    alloc: Global,
    page: &mut Page,
    files: &Files,
    text: &[u8],
) -> Result<(), Stopped> {
    let at = path(alloc, text)?;
    print_names(page, &files.children(alloc, &at)?)
}

fn print_names(page: &mut Page, names: &Names) -> Result<(), Stopped> {
    page.number(b"= ", names.items.len() as u64)?;
    for name in &names.items {
        page.line(b"  ", name.as_slice())?;
    }
    Ok(())
}
