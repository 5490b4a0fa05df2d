//! What the lines of a case set and ask for.
use crate::chosen::{answer_recipes, answer_selection};
use crate::input::Input;
use crate::needs::Needs;
use crate::plans::answer_plan;
use crate::walks::Walks;
use case_text::{Page, Stopped, Table, found};
use std::alloc::Global;

/// What a line sets or asks for.
#[derive(Clone, Copy)]
enum Act {
    Begin,
    Package,
    Recipe,
    File,
    Packages,
    Line,
    Text,
    Value,
    Plan,
    Recipes,
    Selection,
    Needs,
    Walks,
}

const ACTS: [(&[u8], Act); 13] = [
    (b"case", Act::Begin),
    (b"package", Act::Package),
    (b"recipe", Act::Recipe),
    (b"file", Act::File),
    (b"packages", Act::Packages),
    (b"|", Act::Line),
    (b"+", Act::Text),
    (b"value", Act::Value),
    (b"plan", Act::Plan),
    (b"recipes", Act::Recipes),
    (b"selection", Act::Selection),
    (b"needs", Act::Needs),
    (b"walks", Act::Walks),
];

/// The input and the graphs of a case.
#[derive(Drop)]
pub(crate) struct Case {
    alloc: Global,
    input: Input,
    needs: Needs,
    walks: Walks,
}

impl Table for Case {
    fn line(&mut self, page: &mut Page, word: &[u8], text: &[u8]) -> Result<(), Stopped> {
        match found(&ACTS, word)? {
            Act::Begin => self.begin(),
            Act::Package => self.input.begin_package(text),
            Act::Recipe => self.input.begin_recipe(text),
            Act::File => self.input.begin_file(text),
            Act::Packages => self.input.put_packages(text),
            Act::Line => self.input.put_line(text),
            Act::Text => self.input.put(text),
            Act::Value => self.input.put_value(text),
            Act::Plan => answer_plan(self.alloc, page, &self.input, text),
            Act::Recipes => answer_recipes(self.alloc, page, &self.input, text),
            Act::Selection => answer_selection(self.alloc, page, &self.input, text),
            Act::Needs => self.needs.answer(page, text),
            Act::Walks => self.walks.answer(page, text),
        }
    }
}

impl Case {
    pub(crate) fn new(alloc: Global) -> Result<Case, Stopped> {
        let needs = Needs::new(alloc, 0)?;
        let walks = Walks::new(alloc)?;
        Ok(Case {
            alloc,
            input: Input::new(alloc),
            needs,
            walks,
        })
    }

    /// Begins a case, with nothing in it.
    fn begin(&mut self) -> Result<(), Stopped> {
        self.needs = Needs::new(self.alloc, 0)?;
        self.walks = Walks::new(self.alloc)?;
        self.input = Input::new(self.alloc);
        Ok(())
    }
}
