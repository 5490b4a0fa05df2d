//! The files of the input.
use br_path::{AddFault, Bytes, Files, Path};
use case_text::{Page, Stopped, word};

/// Adds a file to the input, and prints whether its path was free.
pub(crate) fn add(page: &mut Page, files: &mut Files, text: &[u8]) -> Result<(), Stopped> {
    let (at, bytes) = word(text);
    let at = Path::parse(page.alloc(), at)?;
    let bytes = Bytes::from_slice(page.alloc(), bytes)?;
    match files.add(at, bytes) {
        Ok(()) => page.line(b"= done", b""),
        Err(AddFault::Twice) => page.line(b"! clash", b""),
        Err(AddFault::Memory) => Err(Stopped),
    }
}
