//! Putting the texts of an answer.
ghost use Rattle.std.specs.Prelude.{◌≡◌, ◌<◌, ◌⊎◌, None, MatchResult, IsErr, length, take, [], ℕ};
ghost use Rattle.feed_io.specs.Cause.{Rose, HasCause};
ghost use Rattle.feed_io.specs.Sink.{Appended};
ghost use Rattle.br_run.specs.Sinks.{sinks, IsWritten, IsCutShort};

use crate::answer::Answer;
use feed_io::{Sink, SinkError};

/// Puts the texts of an answer, the image before the report. After a fault nothing more is put.
pub fn put_answer<O: Sink, I: Sink>(
    answer: &Answer,
    out: &mut O,
    image: &mut I,
) -> Result<(), SinkError>
    ensures puts { MatchResult result
        (λ _. IsWritten answer.now (sinks (I.held image.old) (I.held image.new) (O.held out.old) (O.held out.new)))
        (λ _. IsCutShort answer.now (sinks (I.held image.old) (I.held image.new) (O.held out.old) (O.held out.new))) }
    ensures cause { IsErr result → (Rose (O.faults out.old) (O.faults out.new)) ⊎ (Rose (I.faults image.old) (I.faults image.new)) }
    ensures out_always { O.faults out.old < O.faults out.new → IsErr result }
    ensures image_always { I.faults image.old < I.faults image.new → IsErr result }
    ensures image_failed { I.faults image.old < I.faults image.new → out.new ≡ out.old }
    ensures untouched { answer.now.image ≡ None → image.new ≡ image.old }
{
    put_all(image, answer.image_bytes())?;
    put_all(out, answer.report.as_slice())
}

/// Puts a text: each put is handed all that is still to be written.
fn put_all<S: Sink>(sink: &mut S, text: &[u8]) -> Result<(), SinkError>
    ensures puts { MatchResult result (λ _. Appended (S.held sink.old) text.now (S.held sink.new)) (λ _. (count : ℕ) × (count < length text.now) × Appended (S.held sink.old) (take count text.now) (S.held sink.new)) }
    ensures cause { HasCause (S.faults sink.old) (S.faults sink.new) (IsErr result) }
    ensures untouched { text.now ≡ [] → sink.new ≡ sink.old }
{
    let mut rest = text;
    while !rest.is_empty() {
        let count = sink.put(rest)?;
        rest = rest.split_at(count).1;
    }
    Ok(())
}
