//! Input that is written in short, and input as a feed takes it.
use br_path::{Bytes, Memory};
use case_text::{FileText, FileTexts, Stopped, two_numbers};
use feed_io::{FeedFile, FeedFiles};
use std::alloc::Global;

/// Puts the entries of numbered packages at the end of the last file, each y by its default, and begins their recipes, which
/// have the line that makes a package alone.
pub(crate) fn put_packages(
    alloc: Global,
    files: &mut FileTexts,
    text: &[u8],
) -> Result<(), Stopped> {
    let (first, last) = two_numbers(text)?;
    for number in first..=last {
        let entry = format!(in alloc; "config BR2_PACKAGE_P{number}\n\tdef_bool y\n")?;
        files.put(entry.as_bytes())?;
    }
    for number in first..=last {
        let path = format!(in alloc; "package/p{number}/p{number}.mk")?;
        files.begin(path.as_bytes())?;
        files.put_line(b"$(eval $(generic-package))")?;
    }
    Ok(())
}

/// The files, as a feed takes them.
pub(crate) fn feed_files(alloc: Global, files: &FileTexts) -> Result<FeedFiles, Memory> {
    let mut items = Vec::new(alloc);
    for file in files.as_slice() {
        items.push(feed_file(alloc, file)?)?;
    }
    Ok(FeedFiles { items })
}

fn feed_file(alloc: Global, file: &FileText) -> Result<FeedFile, Memory> {
    let path = Bytes::from_slice(alloc, file.path.as_slice())?;
    let bytes = Bytes::from_slice(alloc, file.text.as_slice())?;
    Ok(FeedFile { path, bytes })
}
