//! Answers of the recipes of a case's input, and of the packages that are selected.
ghost use Rattle.std.specs.Prelude.{map};
ghost use Rattle.selection.specs.Names.{AreRising};

use crate::input::Input;
use crate::plans::print_unnamed;
use br_path::Names;
use case_text::{Page, SmallFiles, Stopped, found, word};
use recipe_set::{Made, Recipes, read_recipes, upper_form};
use selection::{Listed, Selection, select_packages};
use std::alloc::Global;

/// What a line asks of the recipes.
#[derive(Clone, Copy)]
enum Question {
    Form,
    Made,
    Variable,
}

const QUESTIONS: [(&[u8], Question); 3] = [
    (b"form", Question::Form),
    (b"made", Question::Made),
    (b"variable", Question::Variable),
];

/// Answers a question about the recipes, or prints their first fault.
pub(crate) fn answer_recipes(
    alloc: Global,
    page: &mut Page,
    input: &Input,
    line: &[u8],
) -> Result<(), Stopped> {
    let (word, name) = word(line);
    match found(&QUESTIONS, word)? {
        Question::Form => answer_form(alloc, page, name),
        question => answer_read(alloc, page, input, question, name),
    }
}

fn answer_form(alloc: Global, page: &mut Page, name: &[u8]) -> Result<(), Stopped> {
    let form = upper_form(alloc, name)?;
    page.line(b"    ", form.as_slice())
}

fn answer_read(
    alloc: Global,
    page: &mut Page,
    input: &Input,
    question: Question,
    name: &[u8],
) -> Result<(), Stopped> {
    let files = input.files()?;
    match read_recipes(alloc, files.get(), input.values()) {
        Ok(recipes) => answer(page, &recipes, question, name),
        Err(fault) => print_unnamed(alloc, page, fault),
    }
}

fn answer(
    page: &mut Page,
    recipes: &Recipes,
    question: Question,
    name: &[u8],
) -> Result<(), Stopped> {
    match question {
        Question::Made => print_packages(page, recipes.packages.items.as_slice()),
        Question::Variable => print_variable(page, recipes, name),
        Question::Form => Err(Stopped),
    }
}

fn print_packages(page: &mut Page, packages: &[Made]) -> Result<(), Stopped> {
    if packages.is_empty() {
        return page.line(b"    nothing", b"");
    }
    for made in packages {
        page.put(b"    ")?;
        print_package(page, made)?;
        page.end()?;
    }
    Ok(())
}

/// A package, its folder, and whether it is a host package.
fn print_package(page: &mut Page, made: &Made) -> Result<(), Stopped> {
    page.put(made.name.as_slice())?;
    page.put(b" of ")?;
    page.put_path(&made.folder)?;
    if made.host {
        return page.put(b" host");
    }
    Ok(())
}

/// A variable, and the lines of its text between brackets, not expanded.
fn print_variable(page: &mut Page, recipes: &Recipes, name: &[u8]) -> Result<(), Stopped> {
    let (Some(simple), Some(text)) = (recipes.vars.is_simple(name), recipes.vars.text(name)) else {
        return page.line(b"    ", b"unset");
    };
    page.put(b"    ")?;
    page.put(if simple { b"simple" } else { b"later" })?;
    for line in text.split(|byte| *byte == b'\n') {
        page.put(b" [")?;
        page.put(line)?;
        page.put(b"]")?;
    }
    page.end()
}

/// Answers a question about the selected packages, or prints the first fault.
pub(crate) fn answer_selection(
    alloc: Global,
    page: &mut Page,
    input: &Input,
    line: &[u8],
) -> Result<(), Stopped> {
    let files = input.files()?;
    match read_recipes(alloc, files.get(), input.values()) {
        Ok(recipes) => select(alloc, page, &files, input, &recipes, line),
        Err(fault) => print_unnamed(alloc, page, fault),
    }
}

fn select(
    alloc: Global,
    page: &mut Page,
    files: &SmallFiles,
    input: &Input,
    recipes: &Recipes,
    line: &[u8],
) -> Result<(), Stopped>
    requires { AreRising (map (λ made. made.name) recipes.now.packages) }
{
    match select_packages(alloc, files.get(), input.values(), recipes) {
        Ok(selection) => print_selection(page, &selection, line),
        Err(fault) => print_unnamed(alloc, page, fault),
    }
}

/// The selected packages with their lists, or the place of one of them.
fn print_selection(page: &mut Page, selection: &Selection, line: &[u8]) -> Result<(), Stopped> {
    let (word, name) = word(line);
    if word == b"place".as_slice() {
        return print_place(page, selection.place(name));
    }
    if selection.packages().is_empty() {
        return page.line(b"    nothing", b"");
    }
    for listed in selection.packages() {
        print_listed(page, listed)?;
    }
    Ok(())
}

fn print_place(page: &mut Page, place: Option<u32>) -> Result<(), Stopped> {
    match place {
        Some(place) => page.numbers(b"    place", &[place]),
        None => page.line(b"    ", b"none"),
    }
}

/// A package with its three lists.
fn print_listed(page: &mut Page, listed: &Listed) -> Result<(), Stopped> {
    page.put(b"    ")?;
    print_package(page, &listed.made)?;
    print_list(page, b", needs", &listed.depends)?;
    print_list(page, b", before extracting", &listed.extract)?;
    print_list(page, b", before patching", &listed.patch)?;
    page.end()
}

/// A word and names, if there are names.
fn print_list(page: &mut Page, word: &[u8], names: &Names) -> Result<(), Stopped> {
    if names.items.is_empty() {
        return Ok(());
    }
    page.put(word)?;
    for name in &names.items {
        page.put(b" ")?;
        page.put(name.as_slice())?;
    }
    Ok(())
}
