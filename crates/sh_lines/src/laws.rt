//! Laws of lines. Each is a function that does nothing, and ensures the law.
ghost use Rattle.std.specs.Prelude.{◌≡◌, ◌≤◌, ℕ, List, length, Ok};
ghost use Rattle.sh_words.specs.Lines.{line_of};
ghost use Rattle.sh_words.specs.declared.line.Line.{Line};

/// A line has no more words than bytes.
#[tactic(auto, using(crate::proofs::Few::few_words))]
pub fn lines_have_few_words()
    ensures { (text : List ℕ) (line : Line) → line_of text ≡ Ok line → length line.words ≤ length text }
{}
