//! The top call.
ghost use Rattle.std.specs.Prelude.{◌≡◌, ◌≢◌, ℕ, ◌<◌, ◌⊎◌, List, Some, false, codes};
ghost use Rattle.feed_io.specs.declared.feed.FeedFile.{FeedFile};
ghost use Rattle.feed_io.specs.Cause.{Rose};
ghost use Rattle.feed_io.specs.Sink.{Appended};
ghost use Rattle.br_run.specs.declared.answer.Answer.{Answer as AnAnswer};
ghost use Rattle.br_words.specs.declared.command.Words.{Words as WordsValue};
ghost use Rattle.br_words.specs.Command.{IsCommand, IsMisfit};
ghost use Rattle.br_run.specs.Answer.{IsAnswer, IsPossible, feed_failed, is_build};
ghost use Rattle.br_run.specs.Out.{Gives, IsRun};
ghost use Rattle.br_run.specs.Report.{fault_report, misfit_words};
ghost use Rattle.br_run.specs.Sinks.{sinks, IsCutShort};

use crate::commands::answer_to;
use crate::put::put_answer;
use crate::status::Status;
use br_path::Bytes;
use feed_io::{Feed, Sink};
use std::alloc::Global;

/// Runs the builder: reads the files of a feed, and puts an image and a report.
///
/// The words are those after the program's name. `config` reports the lines of the configuration, `plan` the tasks in their order, and
/// the show commands the packages that are asked for; they put no image. `build` by one worker without a trace runs the tasks
/// of the plan one after another. It puts the image of what the packages wrote if none failed and no path was overwritten. To other
/// options of `build` the report says `fault not-yet`. The image is put first, and the report after it; both are made before the
/// first put, so that after `NoMemory` the sinks are as before.
pub fn run<F: Feed, O: Sink, I: Sink>(
    alloc: Global,
    words: &[Bytes],
    feed: &mut F,
    out: &mut O,
    image: &mut I,
) -> Status
    // Where the feed tells its files, and neither it nor a sink fails and memory is there, the answer is the definition's.
    ensures answers { (list : List FeedFile) → F.left feed.old ≡ Some list
        → (Rose (F.faults feed.old) (F.faults feed.new) → ⊥) → (Rose (O.faults out.old) (O.faults out.new) → ⊥) → (Rose (I.faults image.old) (I.faults image.new) → ⊥)
        → result ≢ Status.NoMemory
        → Gives (IsAnswer words.now list) result (sinks (I.held image.old) (I.held image.new) (O.held out.old) (O.held out.new)) }

    // The same by the status, whatever fails.
    ensures told { (list : List FeedFile) → F.left feed.old ≡ Some list → IsRun (IsAnswer words.now list) (F.faults feed.old) (F.faults feed.new) result (sinks (I.held image.old) (I.held image.new) (O.held out.old) (O.held out.new)) }

    // What holds over feeds and sinks that tell nothing, too.
    ensures memory { result ≡ Status.NoMemory → (out.new ≡ out.old) × (image.new ≡ image.old) }
    ensures feed_cause { result ≡ Status.FeedFault → Rose (F.faults feed.old) (F.faults feed.new) }
    ensures feed_always { F.faults feed.old < F.faults feed.new → (result ≡ Status.FeedFault) ⊎ (result ≡ Status.SinkFault) ⊎ (result ≡ Status.NoMemory) }
    ensures feed_report { result ≡ Status.FeedFault → (image.new ≡ image.old) × Appended (O.held out.old) (fault_report (codes "feed") 5) (O.held out.new) }
    ensures sink_cause { result ≡ Status.SinkFault → (Rose (O.faults out.old) (O.faults out.new)) ⊎ (Rose (I.faults image.old) (I.faults image.new)) }
    ensures out_always { O.faults out.old < O.faults out.new → result ≡ Status.SinkFault }
    ensures image_always { I.faults image.old < I.faults image.new → result ≡ Status.SinkFault }
    ensures image_failed { I.faults image.old < I.faults image.new → out.new ≡ out.old }
    ensures cut_short { result ≡ Status.SinkFault → (answer : AnAnswer) × IsPossible answer
        × (answer ≡ feed_failed → Rose (F.faults feed.old) (F.faults feed.new)) × (F.faults feed.old < F.faults feed.new → answer ≡ feed_failed)
        × IsCutShort answer (sinks (I.held image.old) (I.held image.new) (O.held out.old) (O.held out.new)) }
    ensures no_image { result ≢ Status.Done → result ≢ Status.SinkFault → image.new ≡ image.old }
    ensures no_build { (command : WordsValue) → IsCommand words.now command → is_build command ≡ false → image.new ≡ image.old }
    ensures no_packages { (command : WordsValue) → IsCommand words.now command → is_build command ≡ false → (result ≢ Status.PackagesFailed) × (result ≢ Status.Overwrites) }
    ensures words { (place : ℕ) → IsMisfit words.now place → (feed.new ≡ feed.old) × ((result ≡ Status.BadWords) ⊎ (result ≡ Status.SinkFault) ⊎ (result ≡ Status.NoMemory)) }
    ensures bad_words { result ≡ Status.BadWords → (place : ℕ) × IsMisfit words.now place × Appended (O.held out.old) (fault_report (misfit_words place) 7) (O.held out.new) }
{
    let Ok(answer) = answer_to(alloc, words, feed) else {
        return Status::NoMemory;
    };
    match put_answer(&answer, out, image) {
        Ok(()) => answer.status,
        Err(_) => Status::SinkFault,
    }
}
