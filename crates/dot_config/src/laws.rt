//! What the grammar says of itself, and of what is written.
ghost use Rattle.std.specs.Prelude.{◌≡◌, ◌⊎◌, ℕ, List};
ghost use Rattle.kc_values.specs.Values.{Table, IsTable};
ghost use Rattle.kc_menu.specs.declared.menu.KcEntry.{KcEntry};
ghost use Rattle.kc_menu.specs.declared.wishes.Wish.{Wish};
ghost use Rattle.dot_config.specs.Reading.{IsReading, IsFirstFault};
ghost use Rattle.dot_config.specs.Writing.{config_text, written, numbered, AreReadable};

/// A text has wishes or a fault, never both, and no two of either. So `read` gives the wishes exactly where each line has a form.
pub fn one_reading()
    ensures wishes { (text : List ℕ) (wishes others : List Wish) → IsReading text wishes → IsReading text others → wishes ≡ others }
    ensures fault { (text : List ℕ) (number other : ℕ) → IsFirstFault text number → IsFirstFault text other → number ≡ other }
    ensures some { (text : List ℕ) → ((wishes : List Wish) × IsReading text wishes) ⊎ ((number : ℕ) × IsFirstFault text number) }
    ensures apart { (text : List ℕ) (wishes : List Wish) (number : ℕ) → IsReading text wishes → IsFirstFault text number → ⊥ }
{}

/// What `write` writes is read back: each value that has a line is then wished, in the order of the values.
///
/// That holds where each symbol's name has letters, digits and `_`, no string's text holds a newline, and each int's text is
/// empty or a bare word. Values that were solved for a menu that was read from files are meant to be so, since no line of a
/// file holds a newline, and an int whose text isn't a number is refused. That is no part of this law.
pub fn written_is_read()
    ensures { (entries : List KcEntry) (values : Table) → IsTable values → AreReadable values → IsReading (config_text entries values) (numbered 1 (written entries values)) }
{}
