//! The reading of words by a table.
ghost use Rattle.std.specs.Prelude.{ℕ, ◌≡◌, ◌<◌, ◌^◌, ◌↔◌, IsTrue, length, Contains, is_some, Ok, Err, option_copied};
ghost use Rattle.br_path.specs.Path.{Names};
ghost use Rattle.br_path.specs.Gives.{Gives, Leaves};
ghost use Rattle.opt_table.specs.Table.{Rows, is_rising};
ghost use Rattle.opt_table.specs.Given.{Read, has, value_of};
ghost use Rattle.opt_table.specs.Words.{AreRead, IsFirstFault, AreSome};
ghost use Rattle.opt_table.specs.declared.fault.OptFault.{OptFault};
ghost use Rattle.opt_table.specs.Reading.{is_end, letters_of, is_long, with_rest, group_of, said_of, behind, grown, options_of, IsTaken};
ghost use Rattle.opt_table.specs.declared.fault.OptFault.TheVariants.{Memory as no_memory};

use crate::fault::OptFault;
use crate::options::Options;
use crate::table::{OptRow, OptTable, row_of};
use br_path::{Bytes, is_text};
use std::alloc::Global;

/// A letter that waits for the next word, which is its value, and the place of its own word.
#[derive(Clone, Copy)]
struct Waiting {
    letter: u8,
    place: u32,
}

/// Reads the words of a command by the table of its letters, or tells the first word at fault.
///
/// By the table of `d`, and `m` with a value, the words `-dm 0755 etc` give `d`, `m` with `0755`, and the operand `etc`. In the
/// words `-d etc -x` the word at place 2 is at fault. There are fewer than 2^32 words.
///
/// The time is proportional to the bytes of the words, times the rows of the table. Values and operands are copied.
pub fn read_options<const N: usize>(
    alloc: Global,
    table: &OptTable<N>,
    words: &[Bytes],
) -> Result<Options, OptFault>
    requires { length words.now < 2 ^ 32 }
    ensures { Gives no_memory (options_of table.now words.now) result }
{
    let mut options = Options::new(alloc);
    options.read(alloc, table.rows(), words)?;
    Ok(options)
}

/// A law with nothing to run: by a table whose letters rise, words are read exactly as the rule says.
pub fn reading_is_by_the_rule()
    ensures read { (rows : Rows) (words : Names) (read : Read) → IsTrue (is_rising rows) → (options_of rows words ≡ Ok read) ↔ AreRead rows words read }
    ensures fault { (rows : Rows) (words : Names) (fault : OptFault) → IsTrue (is_rising rows) → (options_of rows words ≡ Err fault) ↔ IsFirstFault rows words fault }
{}

/// A law with nothing to run: what the rule reads stands in the table and among the words.
///
/// A letter that is given is one of the table, and has a value exactly where its row says so. The operands are words, in their order.
pub fn what_is_read_was_there()
    ensures letters { (rows : Rows) (words : Names) (read : Read) (letter : ℕ) → AreRead rows words read → IsTrue (has read letter) → Contains rows (record { letter = letter; value = is_some (value_of read letter) }) }
    ensures operands { (rows : Rows) (words : Names) (read : Read) → AreRead rows words read → AreSome read.operands words }
{}

impl Options {
    /// Reads words after what was read.
    fn read(&mut self, alloc: Global, rows: &[OptRow], words: &[Bytes]) -> Result<(), OptFault>
        requires { length words.now < 2 ^ 32 }
        ensures { Leaves no_memory (behind self.old (options_of rows.now words.now)) result self.new }
    {
        let mut waiting = None;
        let mut place = 0;
        let mut rest = words;
        while let Some((word, further)) = rest.split_first() {
            if is_end(waiting, word.as_slice()) {
                return Ok(self.put_operands(further)?);
            }
            waiting = self.take(alloc, rows, place, waiting, word)?;
            place += 1;
            rest = further;
        }
        match waiting {
            None => Ok(()),
            Some(waiting) => Err(OptFault::NeedsValue(waiting.place)),
        }
    }

    /// Reads a word that doesn't end the options. The letter that then waits is answered.
    fn take(
        &mut self,
        alloc: Global,
        rows: &[OptRow],
        place: u32,
        waiting: Option<Waiting>,
        word: &Bytes,
    ) -> Result<Option<Waiting>, OptFault>
        ensures { IsTaken (grown self.old (said_of rows.now place waiting word.now)) result self.new }
    {
        if let Some(waiting) = waiting {
            self.give(waiting.letter, Some(word.copy()?))?;
            return Ok(None);
        }
        match letters_of(word.as_slice()) {
            None => {
                self.put_operand(word.copy()?)?;
                Ok(None)
            }
            Some(letters) if is_long(letters) => Err(OptFault::Unknown(place)),
            Some(letters) => self.take_group(alloc, rows, place, letters),
        }
    }

    /// Reads the letters of a group.
    fn take_group(
        &mut self,
        alloc: Global,
        rows: &[OptRow],
        place: u32,
        letters: &[u8],
    ) -> Result<Option<Waiting>, OptFault>
        ensures { IsTaken (grown self.old (group_of rows.now place letters.now)) result self.new }
    {
        let mut rest = letters;
        while let Some((letter, further)) = rest.split_first() {
            let Some(row) = row_of(rows, *letter) else {
                return Err(OptFault::Unknown(place));
            };
            if row.value {
                return self.take_value(alloc, place, *letter, further);
            }
            self.give(*letter, None)?;
            rest = further;
        }
        Ok(None)
    }

    /// Reads the value of a letter out of the rest of its word. Where that is empty the letter waits for the next word.
    fn take_value(
        &mut self,
        alloc: Global,
        place: u32,
        letter: u8,
        value: &[u8],
    ) -> Result<Option<Waiting>, OptFault>
        ensures { IsTaken (grown self.old (Ok (with_rest place letter value.now))) result self.new }
    {
        if value.is_empty() {
            return Ok(Some(Waiting { letter, place }));
        }
        self.give(letter, Some(Bytes::from_slice(alloc, value)?))?;
        Ok(None)
    }
}

/// Whether a word ends the options.
fn is_end(waiting: Option<Waiting>, word: &[u8]) -> bool
    ensures { result ≡ is_end waiting word.now }
{
    waiting.is_none() && is_text(word, b"--")
}

/// The letters of a group, which stand after the `-` of a longer word.
fn letters_of(word: &[u8]) -> Option<&[u8]>
    ensures { option_copied result ≡ letters_of word.now }
{
    match word {
        [b'-', letters @ ..] if !letters.is_empty() => Some(letters),
        _ => None,
    }
}

/// Whether a word begins with `--`, by what stands after its first `-`.
fn is_long(letters: &[u8]) -> bool
    ensures { result ≡ is_long letters.now }
{
    letters.starts_with(b"-")
}
