//! The pieces of a word: bytes, bytes that a backslash takes, and texts in quotes.
ghost use Rattle.std.specs.Prelude.{◌≡◌, ◌+◌, ◌<◌, true, false, length, OnOk};
ghost use Rattle.br_path.specs.Gives.{Leaves};
ghost use Rattle.sh_words.specs.Bytes.{is_taken, is_unsupported};
ghost use Rattle.sh_words.specs.Pieces.{single, double, escaped};
ghost use Rattle.sh_words.specs.Words.{piece};
ghost use Rattle.sh_words.specs.Shown.{shown, GoesOn};
ghost use Rattle.sh_words.specs.declared.fault.WordFault.TheVariants.{Memory as no_memory};

use crate::fault::WordFault;
use crate::reader::Reader;

impl Reader<'_> {
    /// Takes the piece that begins here, and puts what it stands for after a word.
    pub(crate) fn piece(&mut self, word: &mut Vec<u8>) -> Result<(), WordFault>
        ensures { Leaves no_memory (piece word.old.items (shown self.old)) result (word.new.items, shown self.new) }
    {
        match self.take() {
            None => Ok(()),
            Some((_, b'\'')) => self.single(word),
            Some((_, b'"')) => self.double(word),
            Some((place, b'\\')) => self.escaped(place, word),
            Some((place, byte)) if is_unsupported(byte) => Err(WordFault::Unsupported(byte, place)),
            Some((_, byte)) => Ok(word.push(byte)?),
        }
    }

    /// Takes all to the next `'`.
    fn single(&mut self, word: &mut Vec<u8>) -> Result<(), WordFault>
        ensures { Leaves no_memory (single word.old.items (shown self.old).place (shown self.old).text) result (word.new.items, shown self.new) }
    {
        while let Some((_, byte)) = self.take() {
            if byte == b'\'' {
                return Ok(());
            }
            word.push(byte)?;
        }
        Err(WordFault::OpenQuote)
    }

    /// Takes all to the next `"` that no backslash takes.
    fn double(&mut self, word: &mut Vec<u8>) -> Result<(), WordFault>
        ensures { Leaves no_memory (double false word.old.items (shown self.old).place (shown self.old).text) result (word.new.items, shown self.new) }
    {
        while let Some((place, byte)) = self.take() {
            match byte {
                b'"' => return Ok(()),
                b'\\' => self.behind_backslash(word)?,
                b'$' | b'`' => return Err(WordFault::Unsupported(byte, place)),
                _ => word.push(byte)?,
            }
        }
        Err(WordFault::OpenQuote)
    }

    /// Takes the byte after a backslash in `"`.
    fn behind_backslash(&mut self, word: &mut Vec<u8>) -> Result<(), WordFault>
        ensures on { GoesOn (double true word.old.items (shown self.old).place (shown self.old).text) result (double false word.new.items (shown self.new).place (shown self.new).text) }
        ensures shorter { OnOk result (length (shown self.new).text < length (shown self.old).text) }
    {
        let Some((_, byte)) = self.take() else {
            return Err(WordFault::OpenQuote);
        };
        if !is_taken(byte) {
            word.push(b'\\')?;
        }
        Ok(word.push(byte)?)
    }

    /// Takes the byte after a backslash that stands at a place outside quotes.
    fn escaped(&mut self, place: u32, word: &mut Vec<u8>) -> Result<(), WordFault>
        requires { (shown self.old).place ≡ place + 1 }
        ensures { Leaves no_memory (escaped word.old.items place (shown self.old).text) result (word.new.items, shown self.new) }
    {
        match self.take() {
            None => Err(WordFault::Unsupported(b'\\', place)),
            Some((_, byte)) => Ok(word.push(byte)?),
        }
    }
}

/// Whether a backslash takes the byte in `"`.
fn is_taken(byte: u8) -> bool
    ensures { result ≡ is_taken byte }
{
    matches!(byte, b'"' | b'\\' | b'$' | b'`')
}

/// Whether the byte has a meaning for a shell, and none here.
fn is_unsupported(byte: u8) -> bool
    ensures { result ≡ is_unsupported byte }
{
    matches!(
        byte,
        b'$' | b'`' | b'|' | b'&' | b';' | b'<' | b'(' | b')' | b'*' | b'?' | b'['
    )
}
