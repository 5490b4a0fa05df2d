//! From a text to the root that it is the image of.
ghost use Rattle.std.specs.Prelude.{◌≡◌, ◌<◌, ◌^◌, [], ◌∷◌, ◌==◌, IfErr, IfOk, IfSome, MatchOption, Ok, length};
ghost use Rattle.std.specs.List.{position};
ghost use Rattle.root_image.specs.Lines.{Entries, image_text};
ghost use Rattle.root_image.specs.Roots.{IsRoot};
ghost use Rattle.root_image.specs.Reading.{Answers, image_of, lines_of};
ghost use Rattle.root_image.specs.Reader.{Refuses, end_kind, error_at, place_of};

use crate::fault::{ImageError, ImageFault, ImageKind, Refusal};
use crate::place::{Reader, Stand};
use crate::root::{Root, RootEntry};
use br_path::Path;
use std::alloc::Global;

/// The root that a text is the image of, or the first line at fault.
///
/// No second spelling is taken: what is read is written as the same text. The time is proportional to the text, and for each
/// entry to the entries before it, among which its folder or its first name is looked for.
pub fn read(alloc: Global, text: &[u8]) -> Result<Root, ImageError>
    requires lines { length (lines_of text.now) < 2 ^ 32 }
    ensures ok { IfOk result (λ root. IsRoot root × (text.now ≡ image_text root)) }
    ensures only { (root : Entries) → IsRoot root → text.now ≡ image_text root → Answers (Ok root) result }
    ensures first { Answers (image_of text.now) result }
{
    match read_lines(alloc, text) {
        Ok(entries) => Ok(Root::from_entries(entries)),
        Err(error) => Err(error),
    }
}

/// Reads line after line, up to the first fault.
fn read_lines(alloc: Global, text: &[u8]) -> Result<Vec<(Path, RootEntry)>, ImageError>
    requires lines { length (lines_of text.now) < 2 ^ 32 }
    ensures ok { IfOk result (λ entries. image_of text.now ≡ Ok entries.items) }
    ensures fault { IfErr result (Refuses (image_of text.now)) }
{
    let mut reader = Reader::new(alloc);
    let mut rest = text;
    let mut number = 1;
    while let Some((line, more)) = first_line(rest) {
        if let Err(refusal) = reader.line(alloc, line) {
            return Err(error_at(number, refusal));
        }
        rest = more;
        number += 1;
    }
    match end_kind(&reader.stand, rest) {
        None => Ok(reader.entries),
        Some(kind) => Err(ImageError::Fault(ImageFault { line: number, kind })),
    }
}

/// The first line of a text without its newline, and the text after it, if there is a newline.
fn first_line(text: &[u8]) -> Option<(&[u8], &[u8])>
    ensures lines { MatchOption result (lines_of text.now ≡ text.now ∷ []) (λ cut. lines_of text.now ≡ cut.0.now ∷ lines_of cut.1.now) }
    ensures shorter { IfSome result (λ cut. length cut.1.now < length text.now) }
{
    match newline_place(text) {
        None => None,
        Some(end) => Some((&text[..end], &text[end + 1..])),
    }
}

fn newline_place(text: &[u8]) -> Option<usize>
    ensures place { result ≡ position (λ byte. byte == 10) text.now }
    ensures within { IfSome result (λ place. place < length text.now) }
{
    text.iter().position(|byte| *byte == b'\n')
}

/// What is wrong with what follows the last newline.
fn end_kind(stand: &Stand, rest: &[u8]) -> Option<ImageKind>
    ensures { result ≡ end_kind (place_of stand.now) rest.now }
{
    match stand {
        Stand::End => {
            if rest.is_empty() {
                None
            } else {
                Some(ImageKind::After)
            }
        }
        _ => Some(ImageKind::Cut),
    }
}

fn error_at(line: u32, refusal: Refusal) -> ImageError
    ensures { result ≡ error_at line refusal }
{
    match refusal {
        Refusal::Fault(kind) => ImageError::Fault(ImageFault { line, kind }),
        Refusal::Memory => ImageError::Memory,
    }
}
