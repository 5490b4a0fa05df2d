//! The texts of reports.
ghost use Rattle.std.specs.Prelude.{◌≡◌, ◌++◌, IfOk};
ghost use Rattle.build_report.specs.Lines.{status_line};
ghost use Rattle.br_run.specs.Report as text;

use crate::status::Status;
use br_path::{Bytes, Memory};
use build_report::push_status;
use std::alloc::Global;

/// A text, and after it the line of a status.
pub fn with_status(alloc: Global, text: Bytes, number: u8) -> Result<Bytes, Memory>
    ensures { IfOk result (λ b. b ≡ text ++ status_line number) }
{
    let mut report = text.items;
    push_status(alloc, &mut report, number)?;
    Ok(Bytes { items: report })
}

/// The report of a fault, by its words and the status's number.
pub fn fault_report(alloc: Global, words: &[u8], number: u8) -> Result<Bytes, Memory>
    ensures { IfOk result (λ b. b ≡ text.fault_report words.now number) }
{
    let mut report = Vec::from_slice(alloc, b"fault ")?;
    report.extend_from_slice(words)?;
    report.push(b'\n')?;
    push_status(alloc, &mut report, number)?;
    Ok(Bytes { items: report })
}

/// The words of words that are no command, by the place of the first word that doesn't fit.
pub fn misfit_words(alloc: Global, place: u32) -> Result<Bytes, Memory>
    ensures { IfOk result (λ b. b ≡ text.misfit_words place) }
{
    let words = format!(in alloc; "words {place}")?;
    Ok(Bytes::from_slice(alloc, words.as_bytes())?)
}
