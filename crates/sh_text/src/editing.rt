//! What a script does to lines and texts.
ghost use Rattle.std.specs.Prelude.{◌≡◌, ◌≤◌, ◌+◌, ◌++◌, ◌==◌, Bool, true, false, length, take, drop, map, OnOk, IfOk, IsTrue};
ghost use Rattle.std.specs.List.{slice_split};
ghost use Rattle.sh_text.specs.Editing as editing;
ghost use Rattle.sh_text.specs.Finding.{IsFound};

use crate::script::{Pattern, Script};
use br_path::{Bytes, Memory};
use memchr::memmem;
use std::alloc::{AllocError, Global};

impl Script {
    /// A text with each of its lines edited.
    ///
    /// A line is what stands before a newline, and what stands after the last one unless it is empty.
    pub(crate) fn edited(&self, alloc: Global, text: &[u8]) -> Result<Bytes, Memory>
        ensures { IfOk result (λ new. new ≡ editing.edited_text self.now text.now) }
    {
        let mut items = Vec::new(alloc);
        let lines = lines_of(alloc, text)?;
        self.put_lines(&lines, &mut items)?;
        Ok(Bytes { items })
    }

    /// Puts lines, edited, with a newline between two.
    fn put_lines(&self, lines: &[&[u8]], out: &mut Vec<u8>) -> Result<(), AllocError>
        ensures { OnOk result (out.new.items ≡ out.old.items ++ editing.edited_lines self.now (map (λ line. line.now) lines.now)) }
    {
        let Some((last, front)) = lines.split_last() else {
            return Ok(());
        };
        for line in front {
            self.put_line(line, out)?;
            out.push(b'\n')?;
        }
        self.put_last(last, out)
    }

    /// Puts what stands after the last newline, edited if it is a line.
    fn put_last(&self, line: &[u8], out: &mut Vec<u8>) -> Result<(), AllocError>
        ensures { OnOk result (out.new.items ≡ out.old.items ++ editing.edited_last self.now line.now) }
    {
        if line.is_empty() {
            return Ok(());
        }
        self.put_line(line, out)
    }

    /// Puts a line with the replacement where the pattern stands.
    fn put_line(&self, line: &[u8], out: &mut Vec<u8>) -> Result<(), AllocError>
        ensures { OnOk result (out.new.items ≡ out.old.items ++ editing.edited self.now line.now) }
    {
        let mut beginning = true;
        let mut rest = line;
        while let Some(place) = self.pattern.find(beginning, rest) {
            rest = self.put_first(place, rest, out)?;
            if !self.goes_on() {
                return out.extend_from_slice(rest);
            }
            beginning = false;
        }
        out.extend_from_slice(rest)
    }

    /// Puts what stands before a place, and the replacement. What stands after the pattern there is answered.
    fn put_first<'a>(
        &self,
        place: usize,
        rest: &'a [u8],
        out: &mut Vec<u8>,
    ) -> Result<&'a [u8], AllocError>
        requires { place + length self.now.pattern.bytes ≤ length rest.now }
        ensures put { OnOk result (out.new.items ≡ out.old.items ++ (take place rest.now ++ self.now.replacement)) }
        ensures behind { IfOk result (λ behind. behind.now ≡ drop (length self.now.pattern.bytes) (drop place rest.now)) }
    {
        let (front, found) = rest.split_at(place);
        out.extend_from_slice(front)?;
        out.extend_from_slice(self.replacement.as_slice())?;
        Ok(found.split_at(self.pattern.bytes.items.len()).1)
    }

    /// Whether the pattern counts at a second place of a line.
    fn goes_on(&self) -> bool
        ensures { result ≡ editing.goes_on self.now }
    {
        self.each && !self.pattern.bytes.items.is_empty()
    }
}

impl Pattern {
    /// The first place in a rest of a line where the pattern stands with its anchors met.
    fn find(&self, beginning: bool, rest: &[u8]) -> Option<usize>
        ensures { IsFound self.now beginning rest.now result }
    {
        if self.begins {
            if !beginning {
                return None;
            }
            return self.find_front(rest);
        }
        if self.ends {
            return self.find_back(rest);
        }
        memmem::find(rest, self.bytes.as_slice())
    }

    /// The same in a line for a pattern that must begin it.
    fn find_front(&self, line: &[u8]) -> Option<usize>
        requires { self.now.begins ≡ true }
        ensures { IsFound self.now true line.now result }
    {
        if self.is_front(line) { Some(0) } else { None }
    }

    /// Whether a line begins with the pattern, and ends with it if it must.
    fn is_front(&self, line: &[u8]) -> bool
        requires { self.now.begins ≡ true }
        ensures stands { result ≡ editing.stands self.now true line.now }
        ensures fits { IsTrue result → length self.now.bytes ≤ length line.now }
    {
        let bytes = self.bytes.as_slice();
        line.starts_with(bytes) && (line.len() == bytes.len() || !self.ends)
    }

    /// The same for a pattern that must end its line, wherever that begins.
    fn find_back(&self, rest: &[u8]) -> Option<usize>
        requires begins { self.now.begins ≡ false }
        requires ends { self.now.ends ≡ true }
        ensures { (beginning : Bool) → IsFound self.now beginning rest.now result }
    {
        let bytes = self.bytes.as_slice();
        if !rest.ends_with(bytes) {
            return None;
        }
        Some(rest.len() - bytes.len())
    }
}

/// What stands between the newlines of a text.
fn lines_of(alloc: Global, text: &[u8]) -> Result<Vec<&[u8]>, AllocError>
    ensures { IfOk result (λ lines. map (λ line. line.now) lines.items ≡ slice_split (λ byte. byte == 10) text.now) }
{
    text.split(|byte| *byte == b'\n').collect(alloc)
}
