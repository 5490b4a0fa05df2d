//! The lines of the faults of an input.
ghost use Rattle.std.specs.Prelude.{◌≡◌, ◌≢◌, ◌<◌, ◌++◌, ◌∷◌, IfOk, OnOk, length};
ghost use Rattle.br_path.specs.Path.{path_text};
ghost use Rattle.feed_io.specs.declared.read.ReadFault.TheVariants.{Memory as unread_memory};
ghost use Rattle.kc_equations.specs.declared.fault.SolveFault.TheVariants.{Memory as unsolved_memory};
ghost use Rattle.mk_expand.specs.declared.fault.ExpandFault.TheVariants.{Memory as no_value_memory};
ghost use Rattle.build_report.specs.Faults as text;

use crate::fault::InputFault;
use crate::lines::{push_name, push_number, push_path};
use br_path::{Bytes, Memory, Names, Path};
use feed_io::ReadFault;
use kc_equations::SolveFault;
use kc_syntax::{KcFault, KcKind};
use mk_expand::ExpandFault;
use mk_syntax::{MkFault, MkKind};
use recipe_set::PlanFault;
use std::alloc::{AllocError, Global};

/// The line of a fault.
///
/// ```text
/// fault config package/zlib/Config.in 3 bad-line
/// fault cycle zlib:make
/// ```
///
/// The names are those of the tasks, by their numbers. They are looked at only if tasks need one another in a circle.
pub fn fault_text(alloc: Global, fault: &InputFault, names: &Names) -> Result<Bytes, Memory>
    requires { text.HasLine names.now fault.now }
    ensures { IfOk result (λ b. b ≡ text.fault_text names.now fault.now) }
{
    let mut items = Vec::from_slice(alloc, b"fault ")?;
    push_fault(alloc, &mut items, fault, names)?;
    items.push(b'\n')?;
    Ok(Bytes { items })
}

/// Puts the words of a fault after a text.
fn push_fault(
    alloc: Global,
    items: &mut Vec<u8>,
    fault: &InputFault,
    names: &Names,
) -> Result<(), AllocError>
    requires { text.HasLine names.now fault.now }
    ensures { OnOk result (items.new.items ≡ items.old.items ++ text.fault_words names.now fault.now) }
{
    match fault {
        InputFault::Read(fault) => push_read(alloc, items, fault),
        InputFault::Menu(fault) => push_menu(alloc, items, fault),
        InputFault::Wish(line) => push_number(alloc, items, b"wish ", *line),
        InputFault::Solve(fault) => push_solve(items, fault),
        InputFault::Plan(fault) => push_plan(alloc, items, fault, names),
        InputFault::NoPackage(name) => push_name(items, b"no-package ", name.as_slice()),
    }
}

/// Puts what is wrong with the files that were read.
fn push_read(alloc: Global, items: &mut Vec<u8>, fault: &ReadFault) -> Result<(), AllocError>
    requires { fault.now ≢ unread_memory }
    ensures { OnOk result (items.new.items ≡ items.old.items ++ text.read_words fault.now) }
{
    match fault {
        ReadFault::Feed => items.extend_from_slice(b"feed"),
        ReadFault::TooManyFiles => items.extend_from_slice(b"too-many-files"),
        ReadFault::TooLarge => items.extend_from_slice(b"too-large"),
        ReadFault::BadPath(number) => push_number(alloc, items, b"path ", *number),
        ReadFault::Twice(at) => push_at(items, b"twice ", at),
        ReadFault::Memory => unreachable!(),
    }
}

/// Puts what is wrong with a file that declares the configuration.
fn push_menu(alloc: Global, items: &mut Vec<u8>, fault: &KcFault) -> Result<(), AllocError>
    ensures { OnOk result (items.new.items ≡ items.old.items ++ text.menu_words fault.now) }
{
    push_at(items, b"config ", &fault.file)?;
    push_number(alloc, items, b" ", fault.line)?;
    push_name(items, b" ", menu_kind(fault.kind))
}

fn menu_kind(kind: KcKind) -> &'static [u8]
    ensures { result.now ≡ text.menu_kind kind }
{
    match kind {
        KcKind::NoFile => b"no-file",
        KcKind::BadLine => b"bad-line",
        KcKind::BadString => b"bad-string",
        KcKind::OpenBlock => b"open-block",
        KcKind::Loop => b"loop",
        KcKind::TwoTypes => b"two-types",
        KcKind::NoType => b"no-type",
        KcKind::TooMany => b"too-many",
    }
}

/// Puts why the configuration isn't solved, and the symbol.
fn push_solve(items: &mut Vec<u8>, fault: &SolveFault) -> Result<(), AllocError>
    requires { fault.now ≢ unsolved_memory }
    ensures { OnOk result (items.new.items ≡ items.old.items ++ text.solve_words fault.now) }
{
    match fault {
        SolveFault::SelectOfChoice(symbol) => {
            push_name(items, b"select-of-choice ", symbol.as_slice())
        }
        SolveFault::SelectOfValue(symbol) => {
            push_name(items, b"select-of-value ", symbol.as_slice())
        }
        SolveFault::Cycle(symbol) => push_name(items, b"config-cycle ", symbol.as_slice()),
        SolveFault::BadNumber(symbol) => push_name(items, b"bad-number ", symbol.as_slice()),
        SolveFault::Memory => unreachable!(),
    }
}

/// Puts why there is no plan.
fn push_plan(
    alloc: Global,
    items: &mut Vec<u8>,
    fault: &PlanFault,
    names: &Names,
) -> Result<(), AllocError>
    requires { text.HasPlanLine names.now fault.now }
    ensures { OnOk result (items.new.items ≡ items.old.items ++ text.plan_words names.now fault.now) }
{
    match fault {
        PlanFault::WrongName(at) => push_at(items, b"wrong-name ", at),
        PlanFault::PatchFile(at) => push_at(items, b"patch-file ", at),
        PlanFault::Recipe(at, fault) => push_recipe(alloc, items, at, fault),
        PlanFault::Expand {
            package,
            variable,
            fault,
        } => push_expand(items, package, variable, fault),
        PlanFault::NoRecipe(name) => push_name(items, b"no-recipe ", name.as_slice()),
        PlanFault::UnknownDependency(owner, name) => {
            push_pair(items, b"unknown-dependency ", owner, name)
        }
        PlanFault::NotSelected(owner, name) => push_pair(items, b"not-selected ", owner, name),
        PlanFault::TooManyPackages => items.extend_from_slice(b"too-many-packages"),
        PlanFault::Cycle(task) => push_name(items, b"cycle ", name_at(names, *task)),
        PlanFault::Memory => unreachable!(),
    }
}

/// The name of a task.
fn name_at(names: &Names, task: u32) -> &[u8]
    requires { task < length names.now }
    ensures { result.now ≡ text.name_at names.now task }
{
    names.items[task as usize].as_slice()
}

/// Puts what is wrong with a recipe, with its path and the line.
fn push_recipe(
    alloc: Global,
    items: &mut Vec<u8>,
    at: &Path,
    fault: &MkFault,
) -> Result<(), AllocError>
    ensures { OnOk result (items.new.items ≡ items.old.items ++ text.recipe_words at.now fault.now) }
{
    push_at(items, b"recipe ", at)?;
    push_number(alloc, items, b" ", fault.line)?;
    items.push(b' ')?;
    push_recipe_kind(items, &fault.kind)
}

fn push_recipe_kind(items: &mut Vec<u8>, kind: &MkKind) -> Result<(), AllocError>
    ensures { OnOk result (items.new.items ≡ items.old.items ++ text.recipe_kind kind.now) }
{
    match kind {
        MkKind::BadLine => items.extend_from_slice(b"bad-line"),
        MkKind::OpenDefine => items.extend_from_slice(b"open-define"),
        MkKind::OpenIf => items.extend_from_slice(b"open-if"),
        MkKind::StrayElse => items.extend_from_slice(b"stray-else"),
        MkKind::Unsupported(word) => push_name(items, b"unsupported ", word.as_slice()),
    }
}

/// Puts why a text has no value, with its package and its variable.
fn push_expand(
    items: &mut Vec<u8>,
    owner: &Bytes,
    variable: &Bytes,
    fault: &ExpandFault,
) -> Result<(), AllocError>
    requires { fault.now ≢ no_value_memory }
    ensures { OnOk result (items.new.items ≡ items.old.items ++ text.expand_words owner.now variable.now fault.now) }
{
    push_pair(items, b"expand ", owner, variable)?;
    items.push(b' ')?;
    push_expand_kind(items, fault)
}

fn push_expand_kind(items: &mut Vec<u8>, fault: &ExpandFault) -> Result<(), AllocError>
    requires { fault.now ≢ no_value_memory }
    ensures { OnOk result (items.new.items ≡ items.old.items ++ text.expand_kind fault.now) }
{
    match fault {
        ExpandFault::SelfReference(name) => push_name(items, b"self-reference ", name.as_slice()),
        ExpandFault::BadCall => items.extend_from_slice(b"bad-call"),
        ExpandFault::Unsupported(name) => push_name(items, b"unsupported ", name.as_slice()),
        ExpandFault::TooCostly => items.extend_from_slice(b"too-costly"),
        ExpandFault::Memory => unreachable!(),
    }
}

/// Puts a word and a path.
fn push_at(items: &mut Vec<u8>, word: &[u8], at: &Path) -> Result<(), AllocError>
    ensures { OnOk result (items.new.items ≡ items.old.items ++ (word.now ++ path_text at.now)) }
{
    items.extend_from_slice(word)?;
    push_path(items, at)
}

/// Puts a word, a package, and a name that belongs to it.
fn push_pair(
    items: &mut Vec<u8>,
    word: &[u8],
    owner: &Bytes,
    name: &Bytes,
) -> Result<(), AllocError>
    ensures { OnOk result (items.new.items ≡ items.old.items ++ (word.now ++ (owner.now ++ 32 ∷ name.now))) }
{
    push_name(items, word, owner.as_slice())?;
    push_name(items, b" ", name.as_slice())
}
