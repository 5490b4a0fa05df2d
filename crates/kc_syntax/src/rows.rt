//! Lines by their rows.

use crate::block::{Block, Owner};
use crate::error::KcError;
use crate::reader::Reader;
use crate::shared::SharedPath;
use kc_rows::Row;

impl Reader {
    ghost use Rattle.kc_syntax.specs.Shown.{shown, Follows};
    ghost use Rattle.kc_syntax.specs.Step as on;

    /// Takes a line. A source line changes nothing here: its file stands in its place.
    pub(crate) fn take_row(&mut self, row: Row, file: &SharedPath, line: u32) -> Result<(), KcError>
        ensures { Follows (on.row_step (shown self.old) file.now line row) result (shown self.new) }
    {
        match row {
            Row::MainMenu => self.main_menu(file, line),
            Row::Source(_) => Ok(()),
            Row::Menu => self.begin_menu(file, line),
            Row::EndMenu => self.end_block(file, line, Block::Menu),
            Row::If(condition) => self.begin_if(condition, file, line),
            Row::EndIf => self.end_block(file, line, Block::If),
            Row::Choice => self.begin_choice(file, line),
            Row::EndChoice => self.end_block(file, line, Block::Choice),
            Row::Comment => {
                self.owner = Owner::Comment;
                Ok(())
            }
            Row::Config(symbol) => self.begin_entry(symbol, file, line),
            Row::Typed(kind, prompt) => self.type_line(kind, prompt, file, line),
            Row::Prompt(condition) => self.prompt_line(condition, file, line),
            Row::DefBool(value, condition) => self.def_bool_line(value, condition, file, line),
            Row::Default {
                value,
                single,
                condition,
            } => self.default_line(value, single, condition, file, line),
            Row::Depends(condition) => self.depends_line(condition, file, line),
            Row::Select(symbol, condition) => self.select_line(symbol, condition, file, line),
            Row::Help => self.help_line(file, line),
            Row::DashedHelp => self.dashed_help_line(file, line),
        }
    }
}
