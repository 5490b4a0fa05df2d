//! How a line writes paths.
use br_path::Path;
use case_text::Stopped;
use std::alloc::Global;

/// A path, with a `/` before each name; the root is `/`.
pub(crate) fn path(alloc: Global, text: &[u8]) -> Result<Path, Stopped> {
    match text {
        [b'/'] => Ok(Path::root(alloc)),
        [b'/', names @ ..] => Ok(Path::parse(alloc, names)?),
        _ => Err(Stopped),
    }
}
