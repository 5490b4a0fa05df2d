//! Commands.
ghost use Rattle.std.specs.Prelude.{◌≡◌};
ghost use Rattle.br_path.specs.Path.{Names};
ghost use Rattle.br_words.specs.Command.{HasOneAnswer};
ghost use Rattle.br_words.specs.Answers.{Gives, IsReading, Tells};
ghost use Rattle.br_words.specs.Reading as reading;

use crate::options::build;
use br_path::{Bytes, Memory};
use thiserror::Error;

/// What the builder is asked for.
#[derive(Debug, Drop)]
pub enum Words {
    /// The root file system, by so many workers, and perhaps with a trace of their work.
    Build { workers: u32, trace: bool },
    /// The configuration.
    Config,
    /// The tasks in their order.
    Plan,
    /// The packages that a package needs directly.
    ShowDepends(Bytes),
    /// The packages that a package needs, directly or through others.
    ShowRecursive(Bytes),
    /// The packages that need a package directly.
    ShowRdepends(Bytes),
}

/// Why words are no command.
#[derive(Debug, Drop, Error)]
pub enum WordsFault {
    /// The place of the first word that doesn't fit, from 0, or the number of words where one is missing.
    #[error("word {0} doesn't fit")]
    At(u32),
    #[error("out of memory")]
    Memory,
}

impl From<Memory> for WordsFault {
    ghost use Rattle.std.specs.Prelude.{◌≡◌};
    ghost use Rattle.br_words.specs.declared.command.WordsFault.TheVariants.{Memory as no_memory};

    ghost from_gives = { λ _ fault. fault ≡ no_memory };

    fn from(_memory: Memory) -> WordsFault {
        WordsFault::Memory
    }
}

impl Words {
    /// Reads the words after the program's name.
    pub fn read(words: &[Bytes]) -> Result<Words, WordsFault>
        ensures { IsReading words.now result }
    {
        read_words(words)
    }
}

/// A law with nothing to run: all words have one command, or one place of the first that doesn't fit, and not both.
pub fn one_answer()
    ensures { (words : Names) → HasOneAnswer words }
{}

#[tactic(auto, unfolding(crate::specs::Reading::read))]
fn read_words(words: &[Bytes]) -> Result<Words, WordsFault>
    ensures { Gives (reading.read words.now) result }
{
    let Some((command, rest)) = words.split_first() else {
        return Err(WordsFault::At(0));
    };
    if is_text(command, b"build") {
        return build(rest);
    }
    if is_text(command, b"config") {
        return ended(1, Words::Config, rest);
    }
    if is_text(command, b"plan") {
        return ended(1, Words::Plan, rest);
    }
    show(command, rest)
}

fn show(command: &Bytes, rest: &[Bytes]) -> Result<Words, WordsFault>
    ensures { Gives (reading.show command.now rest.now) result }
{
    if is_text(command, b"show-depends") {
        return match only_word(rest) {
            Ok(package) => Ok(Words::ShowDepends(package)),
            Err(fault) => Err(fault),
        };
    }
    if is_text(command, b"show-recursive-depends") {
        return match only_word(rest) {
            Ok(package) => Ok(Words::ShowRecursive(package)),
            Err(fault) => Err(fault),
        };
    }
    if is_text(command, b"show-rdepends") {
        return match only_word(rest) {
            Ok(package) => Ok(Words::ShowRdepends(package)),
            Err(fault) => Err(fault),
        };
    }
    Err(WordsFault::At(0))
}

/// The one word after the first.
fn only_word(rest: &[Bytes]) -> Result<Bytes, WordsFault>
    ensures { Tells (reading.only_word rest.now) result }
{
    match rest {
        [] => Err(WordsFault::At(1)),
        [package] => Ok(package.copy()?),
        _ => Err(WordsFault::At(2)),
    }
}

/// A command that ends before a place.
pub(crate) fn ended(place: u32, command: Words, rest: &[Bytes]) -> Result<Words, WordsFault>
    ensures { Gives (reading.ended place command rest.now) result }
{
    if rest.is_empty() {
        return Ok(command);
    }
    Err(WordsFault::At(place))
}

/// Whether a word is this text.
pub(crate) fn is_text(word: &Bytes, text: &[u8]) -> bool
    ensures { result ≡ reading.is_text word.now text.now }
{
    word.as_slice() == text
}
