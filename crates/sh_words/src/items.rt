//! What a line is made of: blanks, an operator with its target, and words.
ghost use Rattle.std.specs.Prelude.{◌≡◌, ◌<◌, ◌^◌, length};
ghost use Rattle.br_path.specs.Gives.{Gives, Leaves};
ghost use Rattle.sh_words.specs.Bytes.{is_over};
ghost use Rattle.sh_words.specs.Lines.{second, redirect_in, item, line_of};
ghost use Rattle.sh_words.specs.Shown.{shown};
ghost use Rattle.sh_words.specs.declared.fault.WordFault.TheVariants.{Memory as no_memory};

use crate::fault::WordFault;
use crate::line::{Line, Redirect};
use crate::reader::Reader;
use br_path::Names;
use std::alloc::Global;

/// Splits a text into the words of a line, or names its first fault.
///
/// `echo "a  b" c>>log` has the words `echo`, `a  b` and `c`, and the target `log`, which is appended to. Blanks before the
/// first word divide nothing. A byte that the rules don't name, such as a newline or a byte beyond ASCII, is a
/// byte like any other.
///
/// Whether the words are those of a command isn't asked here: a text of blanks has no words, and a line may be a
/// target alone.
///
/// The bytes are judged from the left, and the first at fault is named. That a quote doesn't close, or that an operator has
/// no word, is found at the line's end. The time is proportional to the text, and so is the memory.
#[tactic(auto, unfolding(crate::specs::Lines::line_of))]
pub fn split(alloc: Global, text: &[u8]) -> Result<Line, WordFault>
    requires { length text.now < 2 ^ 32 }
    ensures { Gives no_memory (line_of text.now) result }
{
    let mut reader = Reader::new(text);
    let mut line = Line {
        words: Names {
            items: Vec::new(alloc),
        },
        into: None,
    };
    while !reader.is_over() {
        reader.item(alloc, &mut line)?;
    }
    Ok(line)
}

impl Reader<'_> {
    /// Takes the blank, the operator with its target or the word that begins here.
    fn item(&mut self, alloc: Global, line: &mut Line) -> Result<(), WordFault>
        ensures { Leaves no_memory (item line.old (shown self.old)) result (line.new, shown self.new) }
    {
        match self.front() {
            None => Ok(()),
            Some(b' ' | b'\t') => {
                self.take();
                Ok(())
            }
            Some(b'>') => self.redirect(alloc, line),
            Some(_) => {
                let word = self.word(alloc)?;
                Ok(line.words.items.push(word)?)
            }
        }
    }

    /// Takes the operator that begins here, and its target.
    fn redirect(&mut self, alloc: Global, line: &mut Line) -> Result<(), WordFault>
        ensures { Leaves no_memory (redirect_in line.old (shown self.old).place (shown self.old).text) result (line.new, shown self.new) }
    {
        let Some((place, _)) = self.take() else {
            return Ok(());
        };
        if line.into.is_some() {
            return Err(WordFault::Unsupported(b'>', place));
        }
        let append = self.take_second();
        self.skip_blanks();
        if self.is_over() {
            return Err(WordFault::Unsupported(b'>', place));
        }
        let word = self.word(alloc)?;
        line.into = Some(Redirect { append, word });
        Ok(())
    }

    /// Takes a `>` right after the first.
    fn take_second(&mut self) -> bool
        ensures { second (shown self.old).place (shown self.old).text ≡ (result, shown self.new) }
    {
        if self.front() != Some(b'>') {
            return false;
        }
        self.take();
        true
    }

    /// Whether the line is over here: at its end, or at a comment.
    fn is_over(&self) -> bool
        ensures { result ≡ is_over (shown self.now).text }
    {
        match self.front() {
            None => true,
            Some(byte) => byte == b'#',
        }
    }
}
