//! What is answered, before any of it is put.
ghost use Rattle.std.specs.Prelude.{◌≡◌, IfOk};
ghost use Rattle.build_report.specs.Faults as report;
ghost use Rattle.br_run.specs.Fault.{HasLine};
ghost use Rattle.br_run.specs.Answer.{IsFaultAnswer, bad_input, bad_words, feed_failed, not_yet, written};

use crate::fault::{NoAnswer, no_names};
use crate::report::{fault_report, misfit_words, with_status};
use crate::status::Status;
use br_path::{Bytes, Memory, Names};
use build_report::{InputFault, fault_text};
use feed_io::ReadFault;
use std::alloc::Global;

/// A status with the texts that go with it.
#[derive(Debug, Drop)]
pub struct Answer {
    pub status: Status,
    pub report: Bytes,
    /// The image, where one is put.
    pub image: Option<Bytes>,
}

impl Answer {
    ghost use Rattle.br_run.specs.Sinks.{image_bytes};

    /// The image's bytes, none where no image is put.
    pub fn image_bytes(&self) -> &[u8]
        ensures { result.now ≡ image_bytes self.now }
    {
        match &self.image {
            Some(image) => image.as_slice(),
            None => &[],
        }
    }
}

/// The answer to words that are no command, by the place of the first that doesn't fit.
pub(crate) fn answer_bad_words(alloc: Global, place: u32) -> Result<Answer, Memory>
    ensures { IfOk result (λ answer. answer ≡ bad_words place) }
{
    let fault = misfit_words(alloc, place)?;
    Ok(Answer {
        status: Status::BadWords,
        report: fault_report(alloc, fault.as_slice(), Status::BadWords.number())?,
        image: None,
    })
}

/// The answer to an input with a fault, by the names of the tasks.
pub(crate) fn answer_bad_input(
    alloc: Global,
    fault: &InputFault,
    names: &Names,
) -> Result<Answer, Memory>
    requires { report.HasLine names.now fault.now }
    ensures { IfOk result (λ answer. answer ≡ bad_input fault.now names.now) }
{
    let line = fault_text(alloc, fault, names)?;
    Ok(Answer {
        status: Status::BadInput,
        report: with_status(alloc, line, Status::BadInput.number())?,
        image: None,
    })
}

/// The answer to a fault of the input.
pub(crate) fn answer_fault(alloc: Global, fault: &NoAnswer) -> Result<Answer, Memory>
    requires { HasLine fault.now }
    ensures { IfOk result (IsFaultAnswer fault.now) }
{
    match fault {
        NoAnswer::Fault(fault, names) => answer_bad_input(alloc, fault, names),
        NoAnswer::Memory => Err(Memory),
    }
}

/// The answer that is a text: a command that puts no image writes no status where it succeeds.
pub(crate) fn answer_text(report: Bytes) -> Answer
    ensures { result ≡ written report }
{
    Answer {
        status: Status::Done,
        report,
        image: None,
    }
}

/// The answer to what isn't built yet.
pub(crate) fn answer_not_yet(alloc: Global) -> Result<Answer, Memory>
    ensures { IfOk result (λ answer. answer ≡ not_yet) }
{
    Ok(Answer {
        status: Status::BadInput,
        report: fault_report(alloc, b"not-yet", Status::BadInput.number())?,
        image: None,
    })
}

/// The answer where the feed failed.
pub(crate) fn answer_feed_failed(alloc: Global) -> Result<Answer, Memory>
    ensures { IfOk result (λ answer. answer ≡ feed_failed) }
{
    let line = fault_text(alloc, &InputFault::Read(ReadFault::Feed), &no_names(alloc))?;
    Ok(Answer {
        status: Status::FeedFault,
        report: with_status(alloc, line, Status::FeedFault.number())?,
        image: None,
    })
}
