//! The configuration that files state, or its first fault.
ghost use Rattle.std.specs.Prelude.{◌≡◌, ◌<◌, ◌^◌, IfOk, IfErr, length};
ghost use Rattle.br_path.specs.Files.{AreSmall};
ghost use Rattle.br_run.specs.Configured.{HasNoSolution, IsConfigFault, IsConfiguration, IsSolution, wishes_text};
ghost use Rattle.br_run.specs.Fault.{HasLine, Tells};

use crate::fault::NoAnswer;
use br_path::{Files, Memory, Names, Path};
use build_report::InputFault;
use dot_config::WishError;
use kc_menu::Menu;
use kc_solve::{SolveFault, Solved, solve};
use kc_syntax::{KcError, parse};
use kc_values::Values;
use std::alloc::Global;

/// A configuration: what is declared, the value of each symbol, and the symbols that are forced.
#[derive(Drop)]
pub(crate) struct Configuration {
    pub(crate) menu: Menu,
    pub(crate) values: Values,
    pub(crate) forced: Names,
}

/// The configuration of files: the menu that they declare, and what solves it and the wishes of `.config`.
pub(crate) fn configuration_of(alloc: Global, files: &Files) -> Result<Configuration, NoAnswer>
    requires { AreSmall files.now }
    ensures configuration { IfOk result (IsConfiguration files.now) }
    ensures fault { IfErr result (Tells (IsConfigFault files.now)) }
    ensures line { IfErr result HasLine }
{
    let text = wishes_text(alloc, files)?;
    let menu = match parse(alloc, files) {
        Ok(menu) => menu,
        Err(error) => match error {
            KcError::Fault(fault) => return Err(NoAnswer::of(alloc, InputFault::Menu(fault))),
            KcError::Memory => return Err(NoAnswer::Memory),
        },
    };
    match solution_of(alloc, &menu, text) {
        Ok(Solved { values, forced }) => Ok(Configuration {
            menu,
            values,
            forced,
        }),
        Err(fault) => Err(fault),
    }
}

/// The text of `.config`, which is empty where there is none.
fn wishes_text(alloc: Global, files: &Files) -> Result<&[u8], Memory>
    requires { AreSmall files.now }
    ensures text { IfOk result (λ text. text.now ≡ wishes_text files.now) }
    ensures small { IfOk result (λ text. length text.now < 2 ^ 31) }
{
    let at = match Path::parse(alloc, b".config") {
        Ok(at) => at,
        Err(_) => return Err(Memory),
    };
    Ok(files.get(&at).unwrap_or(&[]))
}

/// The values that solve a menu and the wishes that a text states, and the symbols that are forced.
fn solution_of(alloc: Global, menu: &Menu, text: &[u8]) -> Result<Solved, NoAnswer>
    requires { length text.now < 2 ^ 31 }
    ensures values { IfOk result (λ solved. IsSolution menu.now text.now solved.values solved.forced) }
    ensures fault { IfErr result (Tells (HasNoSolution menu.now text.now)) }
    ensures line { IfErr result HasLine }
{
    let wishes = match dot_config::read(alloc, text) {
        Ok(wishes) => wishes,
        Err(error) => match error {
            WishError::Line(line) => return Err(NoAnswer::of(alloc, InputFault::Wish(line))),
            WishError::Memory => return Err(NoAnswer::Memory),
        },
    };
    match solve(alloc, menu, &wishes) {
        Ok(solved) => Ok(solved),
        Err(fault) => match fault {
            SolveFault::Memory => Err(NoAnswer::Memory),
            other => Err(NoAnswer::of(alloc, InputFault::Solve(other))),
        },
    }
}
