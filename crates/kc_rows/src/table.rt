//! What is read of lines, against the table of lines.
ghost use Rattle.std.specs.Prelude.{◌≡◌, List, Some};
ghost use Rattle.kc_text.specs.declared.part.Part.{Part};
ghost use Rattle.kc_rows.specs.declared.row.Row.{Row};
ghost use Rattle.kc_rows.specs.Row.{row};
ghost use Rattle.kc_rows.specs.Table.{IsRow};

/// A line is read as a row exactly where the table has a line of this form for the row, and of at most one.
pub fn lines_are_rows()
    ensures read { (line : Row) (parts : List Part) → row parts ≡ Some line → IsRow line parts }
    ensures found { (line : Row) (parts : List Part) → IsRow line parts → row parts ≡ Some line }
    ensures once { (line other : Row) (parts : List Part) → IsRow line parts → IsRow other parts → line ≡ other }
{}
