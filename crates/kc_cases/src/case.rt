//! What a line of the input does.
use crate::conditions::{answer_condition, answer_copy, answer_holds};
use crate::configs::{Telling, answer_lines_at, answer_solution, answer_wishes};
use crate::graphs;
use crate::input::FileTexts;
use crate::menus::{answer_count, answer_menu, answer_visible};
use crate::parts::{answer_lines, answer_parts};
use crate::rows::answer_row;
use crate::sheet::Sheet;
use crate::stopped::Stopped;
use crate::text::{divided, number, unfolded};
use crate::values::{add_value, answer_value};
use cycle_walks::Graph;
use kc_rows::is_symbol;
use kc_values::Values;
use std::alloc::Global;

/// What a case has stated so far, and all that is printed.
#[derive(Drop)]
pub(crate) struct Case {
    alloc: Global,
    files: FileTexts,
    wishes: Vec<u8>,
    values: Values,
    graph: Graph,
    pub(crate) sheet: Sheet,
}

impl Case {
    pub(crate) fn new(alloc: Global) -> Result<Case, Stopped> {
        Ok(Case {
            alloc,
            files: FileTexts::new(alloc),
            wishes: Vec::new(alloc),
            values: Values::new(alloc),
            graph: Graph::new(alloc, 0)?,
            sheet: Sheet::new(alloc),
        })
    }

    pub(crate) fn line(&mut self, line: &[u8]) -> Result<(), Stopped> {
        self.sheet.put_line(line)?;
        let (word, text) = divided(line);
        match word {
            b"" | b"#" => Ok(()),
            b"case" => self.clear(),
            _ => self.act(word, text),
        }
    }

    fn clear(&mut self) -> Result<(), Stopped> {
        self.graph = Graph::new(self.alloc, 0)?;
        self.files = FileTexts::new(self.alloc);
        self.wishes.clear();
        self.values = Values::new(self.alloc);
        Ok(())
    }

    fn act(&mut self, word: &[u8], text: &[u8]) -> Result<(), Stopped> {
        let text = unfolded(self.alloc, text)?;
        let text = text.as_slice();
        match word {
            b"|" => self.put_line(1, text),
            b"|-" => self.files.put(text),
            b"file" => self.files.begin(text),
            b"chain" => self.chain(text),
            b".config" => self.wish(text),
            b".config-" => Ok(self.wishes.extend_from_slice(text)?),
            b"value" => add_value(self.alloc, &mut self.values, text),
            b"graph" => self.begin_graph(text),
            b"names" => graphs::add(&mut self.graph, text),
            b"names-at" => graphs::insert(&mut self.graph, text),
            b"walk" => graphs::add_walk(&mut self.graph, text),
            _ => self.ask(word, text),
        }
    }

    fn ask(&mut self, word: &[u8], text: &[u8]) -> Result<(), Stopped> {
        let sheet = &mut self.sheet;
        match word {
            b"parts" => answer_parts(sheet, text),
            b"lines" => answer_lines(sheet, self.files.last()),
            b"condition" => answer_condition(sheet, text),
            b"copy" => answer_copy(sheet, text),
            b"holds" => answer_holds(sheet, &self.values, text),
            b"value-of" => answer_value(sheet, &self.values, text),
            b"row" => answer_row(sheet, text),
            b"symbol" => sheet.answer_whether(is_symbol(text)),
            _ => self.ask_of_graph(word, text),
        }
    }

    fn ask_of_graph(&mut self, word: &[u8], text: &[u8]) -> Result<(), Stopped> {
        let sheet = &mut self.sheet;
        match word {
            b"row-of" => graphs::answer_row(sheet, &self.graph, text),
            b"order" => graphs::answer_order(sheet, &self.graph),
            b"least" => graphs::answer_least(sheet, &self.graph),
            b"leads-back" => graphs::answer_back(sheet, &self.graph, text),
            b"reached" => graphs::answer_reached(sheet, &self.graph, text),
            _ => self.ask_of_files(word, text),
        }
    }

    fn ask_of_files(&mut self, word: &[u8], text: &[u8]) -> Result<(), Stopped> {
        let input = self.files.input()?;
        let sheet = &mut self.sheet;
        let wishes = self.wishes.as_slice();
        match word {
            b"wishes" => answer_wishes(sheet, wishes),
            b"wish" => answer_wishes(sheet, text),
            b"menu" => answer_menu(sheet, &input),
            b"count" => answer_count(sheet, &input),
            b"visible" => answer_visible(sheet, &input, &self.values, text),
            b"written" => answer_lines_at(sheet, &input, &self.values),
            b"config" => answer_solution(sheet, &input, wishes, Telling::Lines),
            b"values" => answer_solution(sheet, &input, wishes, Telling::Values),
            _ => self.repeat_line(word, text),
        }
    }

    // `N|` and a line of a file, N times.
    fn repeat_line(&mut self, word: &[u8], line: &[u8]) -> Result<(), Stopped> {
        match word.split_last() {
            Some((b'|', count)) => self.put_line(number(count)?, line),
            _ => Err(Stopped),
        }
    }

    fn put_line(&mut self, count: u32, line: &[u8]) -> Result<(), Stopped> {
        for _ in 0..count {
            self.files.put(line)?;
            self.files.put(b"\n")?;
        }
        Ok(())
    }

    fn chain(&mut self, text: &[u8]) -> Result<(), Stopped> {
        let (count, head) = divided(text);
        self.files.chain(number(count)?, head)
    }

    fn wish(&mut self, line: &[u8]) -> Result<(), Stopped> {
        self.wishes.extend_from_slice(line)?;
        Ok(self.wishes.push(b'\n')?)
    }

    fn begin_graph(&mut self, text: &[u8]) -> Result<(), Stopped> {
        self.graph = Graph::new(self.alloc, number(text)?)?;
        Ok(())
    }
}
