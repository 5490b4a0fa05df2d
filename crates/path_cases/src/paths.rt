//! Paths: what they are, their order, and which stands above which.
use crate::text::path;
use br_path::{Path, PathFault};
use case_text::{Page, Stopped, number, word};
use std::alloc::Global;
use std::cmp::Ordering;

pub(crate) fn parse(alloc: Global, page: &mut Page, text: &[u8]) -> Result<(), Stopped> {
    match Path::parse(alloc, text) {
        Ok(path) => page.path(b"= /", &path),
        Err(fault) => print_fault(page, fault),
    }
}

pub(crate) fn child(alloc: Global, page: &mut Page, text: &[u8]) -> Result<(), Stopped> {
    let (at, name) = word(text);
    let at = path(alloc, at)?;
    match at.child(alloc, name) {
        Ok(path) => page.path(b"= /", &path),
        Err(fault) => print_fault(page, fault),
    }
}

fn print_fault(page: &mut Page, fault: PathFault) -> Result<(), Stopped> {
    match fault {
        PathFault::Empty => page.line(b"! empty", b""),
        PathFault::TooLong => page.line(b"! too-long", b""),
        PathFault::BadByte(place) => page.number(b"! bad-byte ", u64::from(place)),
        PathFault::DotDot(place) => page.number(b"! dot-dot ", u64::from(place)),
        PathFault::Memory => Err(Stopped),
    }
}

pub(crate) fn parent(alloc: Global, page: &mut Page, text: &[u8]) -> Result<(), Stopped> {
    let at = path(alloc, text)?;
    match at.parent(alloc)? {
        Some(parent) => page.path(b"= /", &parent),
        None => page.line(b"= none", b""),
    }
}

pub(crate) fn prefix(alloc: Global, page: &mut Page, text: &[u8]) -> Result<(), Stopped> {
    let (len, at) = word(text);
    let len = number(len)? as usize;
    let at = path(alloc, at)?;
    if len > at.names().len() {
        return Err(Stopped);
    }
    page.path(b"= /", &at.prefix(alloc, len)?)
}

pub(crate) fn copy(alloc: Global, page: &mut Page, text: &[u8]) -> Result<(), Stopped> {
    page.path(b"= /", &path(alloc, text)?.copy()?)
}

pub(crate) fn compare(alloc: Global, page: &mut Page, text: &[u8]) -> Result<(), Stopped> {
    let (one, other) = pair(alloc, text)?;
    match one.compare(&other) {
        Ordering::Less => page.line(b"= less", b""),
        Ordering::Equal => page.line(b"= equal", b""),
        Ordering::Greater => page.line(b"= greater", b""),
    }
}

pub(crate) fn starts_with(alloc: Global, page: &mut Page, text: &[u8]) -> Result<(), Stopped> {
    let (at, head) = pair(alloc, text)?;
    page.whether(b"= ", at.starts_with(&head))
}

fn pair(alloc: Global, text: &[u8]) -> Result<(Path, Path), Stopped> {
    let (one, other) = word(text);
    let one = path(alloc, one)?;
    let other = path(alloc, other)?;
    Ok((one, other))
}
