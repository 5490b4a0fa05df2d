//! The reader of lines: what was read so far, and where it stands.
ghost use Rattle.std.specs.Prelude.{◌≡◌, ◌<◌, ◌^◌, [], Ok, Some, None, IfOk, codes, length, if◌then◌else◌};
ghost use Rattle.std.specs.Option.{option_map, option_and_then};
ghost use Rattle.root_image.specs.Lines.{DirLine, EndLine, Entries, FileLine, LinkLine, SameLine};
ghost use Rattle.root_image.specs.Roots.{has_dir, has_first, is_dir, is_first};
ghost use Rattle.root_image.specs.Words.{behind, bytes_line, dir_line, entry_line, file_line, head_line, number_of, path_at, sized_line, text_line};
ghost use Rattle.root_image.specs.Reading.{AtHead, Between, InFile, InLink, InSame, at_place, first_fault, head_fault, in_file, on_line, parent_fault, start};
ghost use Rattle.root_image.specs.Reader.{Found, Stepped, Taken, capped, first_of, headed, place_of, read_step, state_of};

use crate::fault::{ImageKind, Refusal};
use crate::line::{behind, bytes, is_link_text, mode_word, number, path, size_word};
use crate::root::RootEntry;
use br_path::{Bytes, Memory, Path, is_text};
use std::alloc::Global;
use std::mem::replace;

/// Where the reader stands.
#[derive(Drop)]
pub(crate) enum Stand {
    /// Before the first line.
    Head,
    /// Between entries.
    Between,
    /// In a link, before its text.
    Link(Path),
    /// In another name of a file, before the first name.
    Same(Path),
    /// In a file, with its bytes so far.
    File(OpenFile),
    /// After the last line.
    End,
}

/// A file of which bytes are still to come.
#[derive(Drop)]
pub(crate) struct OpenFile {
    pub(crate) path: Path,
    pub(crate) mode: u16,
    pub(crate) size: usize,
    pub(crate) bytes: Vec<u8>,
}

/// What was read so far.
#[derive(Drop)]
pub(crate) struct Reader {
    pub(crate) entries: Vec<(Path, RootEntry)>,
    pub(crate) stand: Stand,
}

impl Reader {
    /// Nothing read.
    pub(crate) fn new(alloc: Global) -> Reader
        ensures { state_of result ≡ start }
    {
        Reader {
            entries: Vec::new(alloc),
            stand: Stand::Head,
        }
    }

    /// Takes a line.
    pub(crate) fn line(&mut self, alloc: Global, text: &[u8]) -> Result<(), Refusal>
        ensures { Taken (read_step (state_of self.old) text.now) result (state_of self.new) }
    {
        let stand = replace(&mut self.stand, Stand::Between);
        self.stand = step(alloc, &mut self.entries, stand, text)?;
        Ok(())
    }
}

type EntryList = Vec<(Path, RootEntry)>;

const FORM: Refusal = Refusal::Fault(ImageKind::Form);

fn step(alloc: Global, entries: &mut EntryList, stand: Stand, text: &[u8]) -> Result<Stand, Refusal>
    ensures { Stepped (read_step (at_place entries.old.items (place_of stand)) text.now) result entries.new.items }
{
    match stand {
        Stand::Head => head(text),
        Stand::Between => entry(alloc, entries, text),
        Stand::Link(path) => link_text(alloc, entries, path, text),
        Stand::Same(path) => first_name(alloc, entries, path, text),
        Stand::File(file) => content(alloc, entries, file, text),
        Stand::End => Err(Refusal::Fault(ImageKind::After)),
    }
}

/// The first line.
fn head(text: &[u8]) -> Result<Stand, Refusal>
    ensures { (entries : Entries) → Stepped (on_line entries AtHead (option_map capped (head_line text.now))) result entries }
{
    if is_text(text, b"rootfs 1") {
        Ok(Stand::Between)
    } else {
        Err(FORM)
    }
}

/// A line that begins an entry, or the last line.
fn entry(alloc: Global, entries: &mut EntryList, text: &[u8]) -> Result<Stand, Refusal>
    ensures { Stepped (on_line entries.old.items Between (option_map capped (entry_line text.now))) result entries.new.items }
{
    if let Some(rest) = behind(text, b"d ") {
        return dir_line(alloc, entries, rest);
    }
    if let Some(rest) = behind(text, b"l ") {
        return link_line(alloc, entries, rest);
    }
    if let Some(rest) = behind(text, b"f ") {
        return file_line(alloc, entries, rest);
    }
    if let Some(rest) = behind(text, b"h ") {
        return same_line(alloc, entries, rest);
    }
    if let Some(rest) = behind(text, b"end ") {
        return end_line(entries, rest);
    }
    Err(FORM)
}

fn dir_line(alloc: Global, entries: &mut EntryList, text: &[u8]) -> Result<Stand, Refusal>
    ensures { Stepped (on_line entries.old.items Between (option_map capped (dir_line text.now))) result entries.new.items }
{
    match mode_word(text) {
        None => Err(FORM),
        Some((mode, rest)) => put_dir(alloc, entries, mode, rest),
    }
}

fn put_dir(alloc: Global, entries: &mut EntryList, mode: u16, text: &[u8]) -> Result<Stand, Refusal>
    ensures { Stepped (on_line entries.old.items Between (option_map capped (option_map (λ path. DirLine mode path) (path_at text.now)))) result entries.new.items }
{
    let path = path_in(alloc, entries, text, true)?;
    entries.push((path, RootEntry::Dir(mode)))?;
    Ok(Stand::Between)
}

fn link_line(alloc: Global, entries: &[(Path, RootEntry)], text: &[u8]) -> Result<Stand, Refusal>
    ensures { Stepped (on_line entries.now Between (option_map capped (option_map LinkLine (path_at text.now)))) result entries.now }
{
    let path = path_in(alloc, entries, text, false)?;
    Ok(Stand::Link(path))
}

fn same_line(alloc: Global, entries: &[(Path, RootEntry)], text: &[u8]) -> Result<Stand, Refusal>
    ensures { Stepped (on_line entries.now Between (option_map capped (option_map SameLine (path_at text.now)))) result entries.now }
{
    let path = path_in(alloc, entries, text, false)?;
    Ok(Stand::Same(path))
}

fn file_line(alloc: Global, entries: &mut EntryList, text: &[u8]) -> Result<Stand, Refusal>
    ensures { Stepped (on_line entries.old.items Between (option_map capped (file_line text.now))) result entries.new.items }
{
    match mode_word(text) {
        None => Err(FORM),
        Some((mode, rest)) => sized_line(alloc, entries, mode, rest),
    }
}

fn sized_line(
    alloc: Global,
    entries: &mut EntryList,
    mode: u16,
    text: &[u8],
) -> Result<Stand, Refusal>
    ensures { Stepped (on_line entries.old.items Between (option_map capped (sized_line mode text.now))) result entries.new.items }
{
    match size_word(text) {
        None => Err(FORM),
        Some((size, rest)) => begin_file(alloc, entries, mode, size, rest),
    }
}

fn begin_file(
    alloc: Global,
    entries: &mut EntryList,
    mode: u16,
    size: usize,
    text: &[u8],
) -> Result<Stand, Refusal>
    ensures { Stepped (on_line entries.old.items Between (option_map (λ path. FileLine mode size path) (path_at text.now))) result entries.new.items }
{
    let path = path_in(alloc, entries, text, false)?;
    put_file(
        entries,
        OpenFile {
            path,
            mode,
            size,
            bytes: Vec::new(alloc),
        },
    )
}

/// A file of which all bytes are there is an entry.
fn put_file(entries: &mut EntryList, file: OpenFile) -> Result<Stand, Refusal>
    ensures { Stepped (Ok (in_file entries.old.items file.path file.mode file.size file.bytes.items)) result entries.new.items }
{
    if file.bytes.len() != file.size {
        return Ok(Stand::File(file));
    }
    let OpenFile {
        path,
        mode,
        size: _,
        bytes,
    } = file;
    let bytes = Bytes { items: bytes };
    entries.push((path, RootEntry::First { mode, bytes }))?;
    Ok(Stand::Between)
}

fn end_line(entries: &[(Path, RootEntry)], text: &[u8]) -> Result<Stand, Refusal>
    requires few { length entries.now < 2 ^ 63 }
    ensures { Stepped (on_line entries.now Between (option_map capped (option_map EndLine (number_of text.now)))) result entries.now }
{
    match number(text) {
        Some(count) if !entries.is_empty() => {
            if count == entries.len() {
                Ok(Stand::End)
            } else {
                Err(Refusal::Fault(ImageKind::Count))
            }
        }
        _ => Err(FORM),
    }
}

/// The path of an entry, a folder or not.
fn path_in(
    alloc: Global,
    entries: &[(Path, RootEntry)],
    text: &[u8],
    is_folder: bool,
) -> Result<Path, Refusal>
    ensures { Found (headed entries.now is_folder (path_at text.now)) result }
{
    let Some(path) = path(alloc, text)? else {
        return Err(FORM);
    };
    match head_fault(alloc, entries, &path, is_folder)? {
        None => Ok(path),
        Some(kind) => Err(Refusal::Fault(kind)),
    }
}

/// Why no entry can stand at the path.
fn head_fault(
    alloc: Global,
    entries: &[(Path, RootEntry)],
    path: &Path,
    is_folder: bool,
) -> Result<Option<ImageKind>, Memory>
    ensures { IfOk result (λ fault. fault ≡ head_fault entries.now path.now is_folder) }
{
    match entries.last() {
        None => Ok(first_fault(path, is_folder)),
        Some((last, _)) => {
            if last.compare(path).is_lt() {
                parent_fault(alloc, entries, path)
            } else {
                Ok(Some(ImageKind::Order))
            }
        }
    }
}

/// The first entry is the root, as a folder.
fn first_fault(path: &Path, is_folder: bool) -> Option<ImageKind>
    ensures { result ≡ first_fault path.now is_folder }
{
    if path.names().is_empty() && is_folder {
        None
    } else {
        Some(ImageKind::Form)
    }
}

fn parent_fault(
    alloc: Global,
    entries: &[(Path, RootEntry)],
    path: &Path,
) -> Result<Option<ImageKind>, Memory>
    ensures { IfOk result (λ fault. fault ≡ parent_fault entries.now path.now) }
{
    match path.parent(alloc)? {
        Some(parent) if has_dir(entries, &parent) => Ok(None),
        _ => Ok(Some(ImageKind::Parent)),
    }
}

fn has_dir(entries: &[(Path, RootEntry)], path: &Path) -> bool
    ensures { result ≡ has_dir entries.now path.now }
{
    entries
        .iter()
        .any(|entry| entry.0 == *path && is_dir(&entry.1))
}

fn has_first(entries: &[(Path, RootEntry)], path: &Path) -> bool
    ensures { result ≡ has_first entries.now path.now }
{
    entries
        .iter()
        .any(|entry| entry.0 == *path && is_first(&entry.1))
}

fn is_dir(entry: &RootEntry) -> bool
    ensures { result ≡ is_dir entry.now }
{
    match entry {
        RootEntry::Dir(_) => true,
        _ => false,
    }
}

fn is_first(entry: &RootEntry) -> bool
    ensures { result ≡ is_first entry.now }
{
    match entry {
        RootEntry::First { .. } => true,
        _ => false,
    }
}

/// The text of a link.
fn link_text(
    alloc: Global,
    entries: &mut EntryList,
    path: Path,
    text: &[u8],
) -> Result<Stand, Refusal>
    ensures { Stepped (on_line entries.old.items (InLink path) (option_map capped (text_line text.now))) result entries.new.items }
{
    match behind(text, b"> ") {
        Some(target) if is_link_text(target) => {
            let target = Bytes::from_slice(alloc, target)?;
            entries.push((path, RootEntry::Link(target)))?;
            Ok(Stand::Between)
        }
        _ => Err(FORM),
    }
}

/// The first name of a file of which an entry is another name.
fn first_name(
    alloc: Global,
    entries: &mut EntryList,
    path: Path,
    text: &[u8],
) -> Result<Stand, Refusal>
    ensures { Stepped (on_line entries.old.items (InSame path) (option_map capped (text_line text.now))) result entries.new.items }
{
    let first = first_in(alloc, entries, text)?;
    entries.push((path, RootEntry::Same(first)))?;
    Ok(Stand::Between)
}

fn first_in(alloc: Global, entries: &[(Path, RootEntry)], text: &[u8]) -> Result<Path, Refusal>
    ensures { Found (first_of entries.now (option_and_then path_at (behind (codes "> ") text.now))) result }
{
    let Some(rest) = behind(text, b"> ") else {
        return Err(FORM);
    };
    let Some(first) = path(alloc, rest)? else {
        return Err(FORM);
    };
    if has_first(entries, &first) {
        Ok(first)
    } else {
        Err(Refusal::Fault(ImageKind::Group))
    }
}

/// A line of a file's bytes.
fn content(
    alloc: Global,
    entries: &mut EntryList,
    mut file: OpenFile,
    text: &[u8],
) -> Result<Stand, Refusal>
    ensures { Stepped (on_line entries.old.items (InFile file.path file.mode file.size file.bytes.items) (option_map capped (bytes_line text.now))) result entries.new.items }
{
    let Some(digits) = behind(text, b"= ") else {
        return Err(FORM);
    };
    let Some(piece) = bytes(alloc, digits)? else {
        return Err(FORM);
    };
    if piece.len() != file.size.saturating_sub(file.bytes.len()).min(32) {
        return Err(Refusal::Fault(ImageKind::Size));
    }
    file.bytes.extend_from_slice(piece.as_slice())?;
    put_file(entries, file)
}
