//! Words.
ghost use Rattle.std.specs.Prelude.{◌≡◌};
ghost use Rattle.br_path.specs.Gives.{Gives};
ghost use Rattle.sh_words.specs.Bytes.{ends_word};
ghost use Rattle.sh_words.specs.Words.{operator_behind_digits, begin_fault, word_of};
ghost use Rattle.sh_words.specs.Shown.{shown, with_left};
ghost use Rattle.sh_words.specs.declared.fault.WordFault.TheVariants.{Memory as no_memory};

use crate::fault::WordFault;
use crate::reader::Reader;
use br_path::{Bytes, is_blank, is_digit};
use std::alloc::Global;

impl Reader<'_> {
    /// Takes the word that begins here.
    #[tactic(auto, unfolding(crate::specs::Words::word_of))]
    pub(crate) fn word(&mut self, alloc: Global) -> Result<Bytes, WordFault>
        ensures { Gives no_memory (word_of (shown self.old)) (with_left result (shown self.new)) }
    {
        if let Some(fault) = self.begin_fault() {
            return Err(fault);
        }
        let mut word = Vec::new(alloc);
        while !self.ends_word() {
            self.piece(&mut word)?;
        }
        Ok(Bytes { items: word })
    }

    /// What keeps a word from beginning here: `~`, an operator, or digits alone right before one.
    fn begin_fault(&self) -> Option<WordFault>
        ensures { result ≡ begin_fault (shown self.now).place (shown self.now).text }
    {
        if self.front() == Some(b'~') {
            return Some(WordFault::Unsupported(b'~', self.place));
        }
        let place = self.operator_behind_digits()?;
        Some(WordFault::Unsupported(b'>', place))
    }

    /// The place of an operator here, or after digits alone.
    fn operator_behind_digits(&self) -> Option<u32>
        ensures { result ≡ operator_behind_digits (shown self.now).place (shown self.now).text }
    {
        let mut place = self.place;
        for byte in self.rest {
            if *byte == b'>' {
                return Some(place);
            }
            if !is_digit(*byte) {
                return None;
            }
            place += 1;
        }
        None
    }

    /// Whether a word that stands before this place ends here.
    fn ends_word(&self) -> bool
        ensures { result ≡ ends_word (shown self.now).text }
    {
        match self.front() {
            None => true,
            Some(byte) => is_blank(byte) || byte == b'>',
        }
    }
}
