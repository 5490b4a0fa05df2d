//! Tables of the letters that a command takes.
ghost use Rattle.std.specs.Prelude.{◌≡◌, IsTrue};
ghost use Rattle.opt_table.specs.Table.{is_rising, table_of, row_of};

use std::marker::Model;

/// A letter, and whether it has a value.
#[derive(Clone, Copy)]
pub struct OptRow {
    pub letter: u8,
    pub value: bool,
}

/// The letters that a command takes, each above the one before in the order of bytes.
#[derive(Drop)]
pub struct OptTable<const N: usize> {
    rows: [OptRow; N],
}

impl<const N: usize> Model for OptTable<N> {
    ghost use Rattle.std.specs.Prelude.{List, IsTrue};
    ghost use Rattle.opt_table.specs.Table.{is_rising};
    ghost use Rattle.opt_table.specs.declared.table.OptRow.{OptRow};

    ghost Value = { List OptRow };

    ghost view = { λ table. table.rows };

    ghost invariant = { λ table. IsTrue (is_rising table.rows) };
}

impl<const N: usize> OptTable<N> {
    /// The table of these rows; none exactly where the letters don't rise. It takes no memory.
    pub fn make(rows: [OptRow; N]) -> Option<OptTable<N>>
        ensures { result ≡ table_of rows.entry }
    {
        if !is_rising(&rows) {
            return None;
        }
        Some(OptTable { rows })
    }

    /// The rows, in the order of their letters.
    pub fn rows(&self) -> &[OptRow]
        ensures rows { result.now ≡ self.now }
        ensures rising { IsTrue (is_rising self.now) }
    {
        &self.rows
    }
}

/// The table of these letters, in rising order, with `value` after each that has one: `letters![b'D', b'd', b'm' value]`.
///
/// It is an expression. A function that writes it with letters that don't rise isn't proved.
#[macro_export]
macro_rules! letters {
    (@row $letter:literal) => { $crate::OptRow { letter: $letter, value: false } };
    (@row $letter:literal value) => { $crate::OptRow { letter: $letter, value: true } };
    ($($letter:literal $($value:ident)?),* $(,)?) => {
        $crate::OptTable::make([$($crate::letters!(@row $letter $($value)?)),*]).unwrap()
    };
}

/// Whether the letters rise.
fn is_rising(rows: &[OptRow]) -> bool
    ensures { result ≡ is_rising rows.now }
{
    rows.is_sorted_by(|row, next| row.letter < next.letter)
}

/// The row of a letter, if the table has it.
pub(crate) fn row_of(rows: &[OptRow], letter: u8) -> Option<OptRow>
    ensures { result ≡ row_of rows.now letter }
{
    rows.iter().find(|row| row.letter == letter).copied()
}
