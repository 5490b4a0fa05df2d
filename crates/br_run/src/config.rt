//! The command `config`: the lines of the configuration, or its first fault.
ghost use Rattle.std.specs.Prelude.{IfOk};
ghost use Rattle.br_path.specs.Files.{AreSmall};
ghost use Rattle.br_run.specs.Answer.{IsConfigAnswer};

use crate::answer::{Answer, answer_fault, answer_text};
use crate::configuration::configuration_of;
use br_path::{Files, Memory};
use std::alloc::Global;

/// Finds the answer to files whose configuration is asked for.
pub fn answer_config(alloc: Global, files: &Files) -> Result<Answer, Memory>
    requires { AreSmall files.now }
    ensures { IfOk result (IsConfigAnswer files.now) }
{
    let configuration = match configuration_of(alloc, files) {
        Ok(configuration) => configuration,
        Err(fault) => return answer_fault(alloc, &fault),
    };
    let lines = dot_config::write(alloc, &configuration.menu, &configuration.values)?;
    Ok(answer_text(lines))
}
