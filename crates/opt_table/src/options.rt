//! What was read of the words of a command.
ghost use Rattle.std.specs.Prelude.{◌≡◌, ◌++◌, ◌∷◌, [], OnOk, option_copied};
ghost use Rattle.opt_table.specs.Given.{has, value_of, nothing, joined, only_given, only_operands};

use br_path::{Bytes, Memory};
use std::alloc::Global;
use std::marker::Model;

/// A letter that was given, and its value where it has one.
#[derive(Drop)]
pub(crate) struct Given {
    letter: u8,
    value: Option<Bytes>,
}

/// The letters that were given, and the operands, both in their order.
#[derive(Drop)]
pub struct Options {
    given: Vec<Given>,
    operands: Vec<Bytes>,
}

impl Model for Options {
    ghost use Rattle.opt_table.specs.Given.{Read};

    ghost Value = { Read };

    ghost view = { λ o. record { given = o.given.items; operands = o.operands.items } };
}

impl Options {
    /// Nothing read so far.
    pub(crate) fn new(alloc: Global) -> Options
        ensures { result ≡ nothing }
    {
        Options {
            given: Vec::new(alloc),
            operands: Vec::new(alloc),
        }
    }

    /// Whether the letter was given, with or without a value. It takes no memory.
    pub fn has(&self, letter: u8) -> bool
        ensures { result ≡ has self.now letter }
    {
        self.given.iter().any(|given| given.letter == letter)
    }

    /// The last value of the letter; none exactly where it was given without one, or not at all. It takes no memory.
    pub fn value(&self, letter: u8) -> Option<&[u8]>
        ensures { option_copied result ≡ value_of self.now letter }
    {
        let mut rest = self.given.as_slice();
        while let Some((given, front)) = rest.split_last() {
            if given.letter == letter
                && let Some(value) = &given.value
            {
                return Some(value.as_slice());
            }
            rest = front;
        }
        None
    }

    /// The operands, in their order. It takes no memory.
    pub fn operands(&self) -> &[Bytes]
        ensures { result.now ≡ self.now.operands }
    {
        self.operands.as_slice()
    }

    /// Puts a letter after those that were given.
    pub(crate) fn give(&mut self, letter: u8, value: Option<Bytes>) -> Result<(), Memory>
        ensures { OnOk result (self.new ≡ joined self.old (only_given (record { letter = letter; value = value } ∷ []))) }
    {
        Ok(self.given.push(Given { letter, value })?)
    }

    /// Puts an operand after the others.
    pub(crate) fn put_operand(&mut self, word: Bytes) -> Result<(), Memory>
        ensures { OnOk result (self.new ≡ joined self.old (only_operands (word ∷ []))) }
    {
        Ok(self.operands.push(word)?)
    }

    /// Puts operands after the others.
    pub(crate) fn put_operands(&mut self, words: &[Bytes]) -> Result<(), Memory>
        ensures { OnOk result (self.new ≡ joined self.old (only_operands words.now)) }
    {
        for word in words {
            self.operands.push(word.copy()?)?;
        }
        Ok(())
    }
}
