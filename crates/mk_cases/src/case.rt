//! What one line does, and what it prints.
use crate::act::Act;
use crate::page::Page;
use crate::recipe::{put_error, put_recipe};
use crate::stopped::Stopped;
use crate::text::{divided, meant, number};
use crate::value::{put_fault, put_value, put_variable, put_words};
use br_path::{Bytes, Memory};
use mk_expand::{ExpandFault, Locals, Vars, expand, expand_reference, is_blank, words};
use mk_syntax::read;
use std::alloc::Global;

/// The cost that one expansion may come to.
const COST_LIMIT: usize = 1_048_576;

/// The lines of a recipe so far, the variables and local names of a case, and all that was printed.
#[derive(Drop)]
pub(crate) struct Case {
    alloc: Global,
    recipe: Vec<u8>,
    vars: Vars,
    locals: Locals,
    pub(crate) page: Page,
}

impl Case {
    pub(crate) fn new(alloc: Global) -> Case {
        Case {
            alloc,
            recipe: Vec::new(alloc),
            vars: Vars::new(alloc),
            locals: Locals::new(alloc),
            page: Page::new(alloc),
        }
    }

    /// Prints a line and what it answers.
    pub(crate) fn line(&mut self, line: &[u8]) -> Result<(), Stopped> {
        self.page.line(line)?;
        if is_comment(line) {
            return Ok(());
        }
        let meant = meant(self.alloc, line)?;
        match meant.as_slice().strip_prefix(b"|") {
            Some(text) => self.recipe_line(text),
            None => self.act(meant.as_slice()),
        }
    }

    fn act(&mut self, line: &[u8]) -> Result<(), Stopped> {
        let (word, text) = divided(line);
        match Act::of_word(word) {
            Some(Act::Begin) => self.begin(),
            Some(Act::Read) => self.read(text),
            Some(Act::Set) => self.set(text),
            Some(Act::Chain) => self.chain(text),
            Some(Act::Local) => self.local(text),
            Some(Act::Variable) => self.variable(text),
            Some(Act::Value) => self.value(text),
            Some(Act::Left) => self.left(text),
            Some(Act::Reference) => self.reference(text),
            Some(Act::Words) => self.words(text),
            Some(Act::Blank) => self.blank(text),
            None => Err(Stopped),
        }
    }

    fn begin(&mut self) -> Result<(), Stopped> {
        self.recipe.clear();
        self.vars = Vars::new(self.alloc);
        self.locals = Locals::new(self.alloc);
        Ok(())
    }

    fn recipe_line(&mut self, text: &[u8]) -> Result<(), Stopped> {
        self.recipe.extend_from_slice(text)?;
        Ok(self.recipe.push(b'\n')?)
    }

    fn read(&mut self, how: &[u8]) -> Result<(), Stopped> {
        if how == b"cut".as_slice() {
            self.recipe.pop();
        }
        self.read_recipe()?;
        self.recipe.clear();
        Ok(())
    }

    /// Reads the recipe, which has far fewer lines than can be numbered.
    #[tactic(auto, using(mk_syntax::proofs::RawLines::line_count_small))]
    fn read_recipe(&mut self) -> Result<(), Stopped> {
        let text = self.recipe.as_slice();
        if text.len() > 100_000_000 {
            return Err(Stopped);
        }
        match read(self.alloc, text) {
            Ok(recipe) => put_recipe(&mut self.page, &recipe),
            Err(error) => put_error(&mut self.page, &error),
        }
    }

    fn set(&mut self, text: &[u8]) -> Result<(), Stopped> {
        let (name, text) = divided(text);
        let (sign, text) = divided(text);
        match sign {
            b"=" => self.set_later(name, text),
            b":=" => self.set_now(name, text),
            b"+=" => self.append(name, text),
            _ => Err(Stopped),
        }
    }

    fn set_later(&mut self, name: &[u8], text: &[u8]) -> Result<(), Stopped> {
        let (name, text) = pair(self.alloc, name, text)?;
        Ok(self.vars.set(name, false, text)?)
    }

    fn set_now(&mut self, name: &[u8], text: &[u8]) -> Result<(), Stopped> {
        match self.expanded(text) {
            Ok(value) => self.set_simple(name, value),
            Err(fault) => put_fault(&mut self.page, &fault),
        }
    }

    fn set_simple(&mut self, name: &[u8], text: Bytes) -> Result<(), Stopped> {
        let name = Bytes::from_slice(self.alloc, name)?;
        Ok(self.vars.set(name, true, text)?)
    }

    /// Appends the value of a text to a simple variable, and to another the text.
    fn append(&mut self, name: &[u8], text: &[u8]) -> Result<(), Stopped> {
        if self.vars.is_simple(name) != Some(true) {
            return self.append_text(name, text);
        }
        match self.expanded(text) {
            Ok(value) => self.append_text(name, value.as_slice()),
            Err(fault) => put_fault(&mut self.page, &fault),
        }
    }

    fn append_text(&mut self, name: &[u8], text: &[u8]) -> Result<(), Stopped> {
        let (name, text) = pair(self.alloc, name, text)?;
        Ok(self.vars.append(name, text)?)
    }

    fn chain(&mut self, text: &[u8]) -> Result<(), Stopped> {
        let (count, text) = divided(text);
        for place in 0..number(count)? {
            self.link(place, text)?;
        }
        Ok(())
    }

    /// Sets the variable that comes after the one with this number.
    fn link(&mut self, place: usize, text: &[u8]) -> Result<(), Stopped> {
        let name = numbered(self.alloc, b"V#", place.saturating_add(1))?;
        let text = numbered(self.alloc, text, place)?;
        Ok(self.vars.set(name, false, text)?)
    }

    fn local(&mut self, text: &[u8]) -> Result<(), Stopped> {
        let (name, text) = divided(text);
        let (name, text) = pair(self.alloc, name, text)?;
        Ok(self.locals.add(name, text)?)
    }

    fn variable(&mut self, name: &[u8]) -> Result<(), Stopped> {
        let simple = self.vars.is_simple(name);
        put_variable(&mut self.page, simple, self.vars.text(name))
    }

    fn expanded(&self, text: &[u8]) -> Result<Bytes, ExpandFault> {
        expand(self.alloc, &self.vars, text, &self.locals)
    }

    fn value(&mut self, text: &[u8]) -> Result<(), Stopped> {
        match self.expanded(text) {
            Ok(value) => put_value(&mut self.page, value.as_slice()),
            Err(fault) => put_fault(&mut self.page, &fault),
        }
    }

    fn reference(&mut self, name: &[u8]) -> Result<(), Stopped> {
        match expand_reference(self.alloc, &self.vars, name, &self.locals) {
            Ok(value) => put_value(&mut self.page, value.as_slice()),
            Err(fault) => put_fault(&mut self.page, &fault),
        }
    }

    /// Prints the value of a text after a reference that leaves so much of the cost.
    fn left(&mut self, text: &[u8]) -> Result<(), Stopped> {
        let (left, text) = divided(text);
        match (COST_LIMIT - 2).checked_sub(number(left)?) {
            Some(length) => self.value_after(length, text),
            None => Err(Stopped),
        }
    }

    /// Prints the value of a text after a reference to a simple variable of so many bytes.
    fn value_after(&mut self, length: usize, text: &[u8]) -> Result<(), Stopped> {
        let items = vec![in self.alloc; b'x'; length]?;
        self.set_simple(b"-", Bytes { items })?;
        let (mut whole, text) = pair(self.alloc, b"$(-)", text)?;
        whole.items.extend_from_slice(text.as_slice())?;
        match self.expanded(whole.as_slice()) {
            Ok(value) => put_value(&mut self.page, rest(value.as_slice(), length)),
            Err(fault) => put_fault(&mut self.page, &fault),
        }
    }

    fn words(&mut self, text: &[u8]) -> Result<(), Stopped> {
        let found = words(self.alloc, text)?;
        put_words(&mut self.page, found.as_slice())
    }

    fn blank(&mut self, text: &[u8]) -> Result<(), Stopped> {
        match text.first() {
            None => Err(Stopped),
            Some(byte) if is_blank(*byte) => self.page.line(b"  a blank"),
            Some(_) => self.page.line(b"  no blank"),
        }
    }
}

/// Whether a line says nothing.
fn is_comment(line: &[u8]) -> bool {
    line.is_empty() || line.starts_with(b"#")
}

fn pair(alloc: Global, one: &[u8], other: &[u8]) -> Result<(Bytes, Bytes), Memory> {
    let one = Bytes::from_slice(alloc, one)?;
    let other = Bytes::from_slice(alloc, other)?;
    Ok((one, other))
}

/// A text with a number for each `#` of it.
fn numbered(alloc: Global, text: &[u8], number: usize) -> Result<Bytes, Stopped> {
    let digits = format!(in alloc; "{number}")?;
    let mut items = Vec::new(alloc);
    for byte in text {
        if *byte == b'#' {
            items.extend_from_slice(digits.as_bytes())?;
        } else {
            items.push(*byte)?;
        }
    }
    Ok(Bytes { items })
}

/// What a text has after so many bytes.
fn rest(text: &[u8], length: usize) -> &[u8] {
    if length <= text.len() {
        text.split_at(length).1
    } else {
        text
    }
}
