//! The top call for one worker.
ghost use Rattle.std.specs.Prelude.{◌≡◌, ◌≢◌, ◌<◌, ◌⊎◌, List, Some, true, false, codes};
ghost use Rattle.feed_io.specs.declared.feed.FeedFile.{FeedFile};
ghost use Rattle.feed_io.specs.Cause.{Rose};
ghost use Rattle.feed_io.specs.Sink.{Appended};
ghost use Rattle.br_run.specs.declared.answer.Answer.{Answer as AnAnswer};
ghost use Rattle.br_run.specs.Answer.{IsCommandAnswer, IsPossible, feed_failed, has_one_worker, is_build, is_run};
ghost use Rattle.br_run.specs.Out.{Gives, IsRun};
ghost use Rattle.br_run.specs.Report.{fault_report};
ghost use Rattle.br_run.specs.Sinks.{sinks, IsCutShort};

use crate::commands::answer_command;
use crate::put::put_answer;
use crate::status::Status;
use br_words::Words;
use feed_io::{Feed, Sink};
use std::alloc::Global;

/// Whether a command is for one worker: all are but a `build` by more.
pub fn has_one_worker(command: &Words) -> bool
    ensures { result ≡ has_one_worker command.now }
{
    match command {
        Words::Build { workers, .. } => *workers == 1,
        _ => true,
    }
}

/// Runs the builder for a command, as `run` does for its words.
///
/// A `build` is by one worker ([`has_one_worker`]). The call always returns: it starts no thread, and waits for nothing.
pub fn run_still<F: Feed, O: Sink, I: Sink>(
    alloc: Global,
    command: &Words,
    feed: &mut F,
    out: &mut O,
    image: &mut I,
) -> Status
    requires { has_one_worker command.now ≡ true }
    // As of `run`, over the answers to this command.
    ensures answers { (list : List FeedFile) → F.left feed.old ≡ Some list
        → (Rose (F.faults feed.old) (F.faults feed.new) → ⊥) → (Rose (O.faults out.old) (O.faults out.new) → ⊥) → (Rose (I.faults image.old) (I.faults image.new) → ⊥)
        → result ≢ Status.NoMemory
        → Gives (IsCommandAnswer (is_run command.now) command.now list) result (sinks (I.held image.old) (I.held image.new) (O.held out.old) (O.held out.new)) }
    ensures told { (list : List FeedFile) → F.left feed.old ≡ Some list → IsRun (IsCommandAnswer (is_run command.now) command.now list) (F.faults feed.old) (F.faults feed.new) result (sinks (I.held image.old) (I.held image.new) (O.held out.old) (O.held out.new)) }

    // What holds over feeds and sinks that tell nothing, too.
    ensures memory { result ≡ Status.NoMemory → (out.new ≡ out.old) × (image.new ≡ image.old) }
    ensures feed_cause { result ≡ Status.FeedFault → Rose (F.faults feed.old) (F.faults feed.new) }
    ensures feed_always { F.faults feed.old < F.faults feed.new → (result ≡ Status.FeedFault) ⊎ (result ≡ Status.SinkFault) ⊎ (result ≡ Status.NoMemory) }
    ensures feed_report { result ≡ Status.FeedFault → (image.new ≡ image.old) × Appended (O.held out.old) (fault_report (codes "feed") 5) (O.held out.new) }
    ensures sink_cause { result ≡ Status.SinkFault → (Rose (O.faults out.old) (O.faults out.new)) ⊎ (Rose (I.faults image.old) (I.faults image.new)) }
    ensures out_always { O.faults out.old < O.faults out.new → result ≡ Status.SinkFault }
    ensures image_always { I.faults image.old < I.faults image.new → result ≡ Status.SinkFault }
    ensures image_failed { I.faults image.old < I.faults image.new → out.new ≡ out.old }
    ensures cut_short { result ≡ Status.SinkFault → (answer : AnAnswer) × IsPossible answer
        × (answer ≡ feed_failed → Rose (F.faults feed.old) (F.faults feed.new)) × (F.faults feed.old < F.faults feed.new → answer ≡ feed_failed)
        × IsCutShort answer (sinks (I.held image.old) (I.held image.new) (O.held out.old) (O.held out.new)) }
    ensures no_image { result ≢ Status.Done → result ≢ Status.SinkFault → image.new ≡ image.old }
    ensures no_build { is_build command.now ≡ false → image.new ≡ image.old }
    ensures no_packages { is_build command.now ≡ false → (result ≢ Status.PackagesFailed) × (result ≢ Status.Overwrites) }
    ensures no_words { result ≢ Status.BadWords }
{
    let Ok(answer) = answer_command(alloc, command, feed) else {
        return Status::NoMemory;
    };
    match put_answer(&answer, out, image) {
        Ok(()) => answer.status,
        Err(_) => Status::SinkFault,
    }
}
