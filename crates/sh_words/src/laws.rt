//! Laws with nothing to run, over what a line is.
ghost use Rattle.std.specs.Prelude.{◌≡◌, ◌↔◌, ◌⊎◌, ◌++◌, ℕ, IsTrue, List, None, Ok, Err};
ghost use Rattle.sh_words.specs.declared.fault.WordFault.{WordFault};
ghost use Rattle.sh_words.specs.declared.fault.WordFault.TheVariants.{OpenQuote, Unsupported};
ghost use Rattle.sh_words.specs.declared.line.Line.{Line};
ghost use Rattle.sh_words.specs.First.{Begins, IsMisfit, EndsEarly};
ghost use Rattle.sh_words.specs.Lines.{line_of};
ghost use Rattle.sh_words.specs.Bytes.{are_blanks};
ghost use Rattle.sh_words.specs.Grammar.{IsLine};
ghost use Rattle.sh_words.specs.Faults.{IsFault};
ghost use Rattle.sh_words.specs.Written.{written, is_gap, is_plain_text, between_blanks};

/// A text is read as a line exactly where the grammar has it, and has a fault exactly where the grammar goes on with no
/// line.
pub fn texts_are_lines()
    ensures line { (text : List ℕ) (line : Line) → IsLine text line ↔ (line_of text ≡ Ok line) }
    ensures fault { (text : List ℕ) (fault : WordFault) → IsFault text fault ↔ (line_of text ≡ Err fault) }
{}

/// Every line is read back as it is written: its words in quotes, with any blanks between them, and its target after.
pub fn written_is_read()
    ensures { (gap : List ℕ) (line : Line) → IsTrue (is_gap gap) → line_of (written gap line) ≡ Ok line }
{}

/// The byte that a fault names is the first with which no line goes on, or one that asks for more than is after it: a
/// backslash at the end, or an operator without a word. Where a quote doesn't close, some line begins with the whole text.
pub fn faults_are_first()
    ensures unsupported { (text : List ℕ) (byte place : ℕ) → line_of text ≡ Err (Unsupported byte place) → IsMisfit text byte place ⊎ EndsEarly text byte place }
    ensures quote { (text : List ℕ) → line_of text ≡ Err OpenQuote → Begins text }
{}

/// Blanks before a line and after it make no difference, and a text of blanks and plain bytes has the words between its
/// blanks.
pub fn blanks_divide()
    ensures before { (blanks text : List ℕ) (line : Line) → IsTrue (are_blanks blanks) → line_of text ≡ Ok line → line_of (blanks ++ text) ≡ Ok line }
    ensures behind { (text blanks : List ℕ) (line : Line) → IsTrue (are_blanks blanks) → line_of text ≡ Ok line → line_of (text ++ blanks) ≡ Ok line }
    ensures plain { (text : List ℕ) → IsTrue (is_plain_text text) → line_of text ≡ Ok (record { words = between_blanks text; into = None }) }
{}
