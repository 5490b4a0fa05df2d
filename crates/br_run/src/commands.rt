//! From words and a feed to an answer: which command is run, and over which files.
ghost use Rattle.std.specs.Prelude.{◌≡◌, ◌≢◌, ℕ, ◌<◌, ◌⊎◌, List, Some, false, IfOk};
ghost use Rattle.br_words.specs.declared.command.Words.{Words as WordsValue};
ghost use Rattle.br_words.specs.Command.{IsCommand, IsMisfit};
ghost use Rattle.feed_io.specs.declared.feed.FeedFile.{FeedFile};
ghost use Rattle.feed_io.specs.Cause.{Rose};
ghost use Rattle.br_path.specs.Files.{AreSmall};
ghost use Rattle.br_run.specs.Answer.{IsAnswer, IsCommandAnswer, IsFilesAnswer, IsListAnswer, IsPossible, IsReport, bad_words, feed_failed, is_build, is_run};

use crate::answer::{
    Answer, answer_bad_input, answer_bad_words, answer_feed_failed, answer_not_yet,
};
use crate::build::answer_build;
use crate::config::answer_config;
use crate::fault::no_names;
use crate::plan::answer_plan;
use crate::show::{Show, answer_show};
use crate::status::Status;
use br_path::{Bytes, Files, Memory};
use br_words::{Words, WordsFault};
use build_report::InputFault;
use feed_io::{Feed, ReadFault, read_all};
use std::alloc::Global;

/// Finds the answer to words and the files of a feed, which is asked only where the words are a command.
#[tactic(auto, using(crate::proofs::Reports::bad_words_answered))]
pub fn answer_to<F: Feed>(alloc: Global, words: &[Bytes], feed: &mut F) -> Result<Answer, Memory>
    ensures told { (list : List FeedFile) → F.left feed.old ≡ Some list → IfOk result (λ answer. IsAnswer words.now list answer ⊎ (answer ≡ feed_failed)) }
    ensures misfit { (place : ℕ) → IsMisfit words.now place → IfOk result (λ answer. answer ≡ bad_words place) }
    ensures possible { IfOk result IsPossible }
    ensures report { (command : WordsValue) → IsCommand words.now command → is_build command ≡ false → IfOk result IsReport }
    ensures cause { IfOk result (λ answer. answer ≡ feed_failed → Rose (F.faults feed.old) (F.faults feed.new)) }
    ensures always { F.faults feed.old < F.faults feed.new → IfOk result (λ answer. answer ≡ feed_failed) }
    ensures asked { (place : ℕ) → IsMisfit words.now place → feed.new ≡ feed.old }
    ensures fits { IfOk result (λ answer. answer.status ≡ Status.BadWords → (place : ℕ) × IsMisfit words.now place) }
{
    match Words::read(words) {
        Ok(command) => answer_command(alloc, &command, feed),
        Err(fault) => match fault {
            WordsFault::At(place) => answer_bad_words(alloc, place),
            WordsFault::Memory => Err(Memory),
        },
    }
}

/// Finds the answer to a command over the files of a feed.
#[tactic(auto, using(crate::proofs::Reports::not_yet_answered))]
pub fn answer_command<F: Feed>(
    alloc: Global,
    command: &Words,
    feed: &mut F,
) -> Result<Answer, Memory>
    ensures told { (list : List FeedFile) → F.left feed.old ≡ Some list → IfOk result (λ answer. IsCommandAnswer (is_run command.now) command.now list answer ⊎ (answer ≡ feed_failed)) }
    ensures possible { IfOk result IsPossible }
    ensures report { is_build command.now ≡ false → IfOk result IsReport }
    ensures fits { IfOk result (λ answer. answer.status ≢ Status.BadWords) }
    ensures cause { IfOk result (λ answer. answer ≡ feed_failed → Rose (F.faults feed.old) (F.faults feed.new)) }
    ensures always { F.faults feed.old < F.faults feed.new → IfOk result (λ answer. answer ≡ feed_failed) }
{
    if is_run(command) {
        return answer_list(alloc, command, feed);
    }
    answer_not_yet(alloc)
}

/// Whether the command is run so far: all but `build` by more workers than one or with a trace.
fn is_run(command: &Words) -> bool
    ensures { result ≡ is_run command.now }
{
    match command {
        Words::Build { workers, trace } => *workers == 1 && !*trace,
        _ => true,
    }
}

#[tactic(auto, using(crate::proofs::Reports::feed_failed_answered, crate::proofs::Reports::bad_input_answered))]
fn answer_list<F: Feed>(alloc: Global, command: &Words, feed: &mut F) -> Result<Answer, Memory>
    ensures told { (list : List FeedFile) → F.left feed.old ≡ Some list → IfOk result (λ answer. IsListAnswer command.now list answer ⊎ (answer ≡ feed_failed)) }
    ensures possible { IfOk result IsPossible }
    ensures report { is_build command.now ≡ false → IfOk result IsReport }
    ensures fits { IfOk result (λ answer. answer.status ≢ Status.BadWords) }
    ensures cause { IfOk result (λ answer. answer ≡ feed_failed → Rose (F.faults feed.old) (F.faults feed.new)) }
    ensures always { F.faults feed.old < F.faults feed.new → IfOk result (λ answer. answer ≡ feed_failed) }
{
    let files = match read_all(alloc, feed) {
        Ok(files) => files,
        Err(fault) => match fault {
            ReadFault::Memory => return Err(Memory),
            ReadFault::Feed => return answer_feed_failed(alloc),
            other => return answer_bad_input(alloc, &InputFault::Read(other), &no_names(alloc)),
        },
    };
    answer_files(alloc, command, &files)
}

fn answer_files(alloc: Global, command: &Words, files: &Files) -> Result<Answer, Memory>
    requires { AreSmall files.now }
    ensures { IfOk result (IsFilesAnswer command.now files.now) }
{
    match command {
        Words::Build { .. } => answer_build(alloc, files),
        Words::Config => answer_config(alloc, files),
        Words::Plan => answer_plan(alloc, files),
        Words::ShowDepends(name) => answer_show(alloc, files, name.as_slice(), Show::Depends),
        Words::ShowRecursive(name) => answer_show(alloc, files, name.as_slice(), Show::Recursive),
        Words::ShowRdepends(name) => answer_show(alloc, files, name.as_slice(), Show::Rdepends),
    }
}
