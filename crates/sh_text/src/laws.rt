//! What formats, scripts and edited lines come to, as laws of their definitions.
ghost use Rattle.std.specs.Prelude.{◌≡◌, ◌↔◌, ℕ, ◌==◌, true, false, Bool, List, [], ◌∷◌, ◌++◌, length, take, drop, Some, Ok, codes, count_by};
ghost use Rattle.std.specs.List.{concat};
ghost use Rattle.br_path.specs.Path.{Names};
ghost use Rattle.sh_text.specs.declared.script.Script.{Script};
ghost use Rattle.sh_text.specs.Formats.{Format, format_of};
ghost use Rattle.sh_text.specs.Printing.{printed};
ghost use Rattle.sh_text.specs.Scripts.{script_of};
ghost use Rattle.sh_text.specs.Editing.{edited, edited_from, edited_text, goes_on};
ghost use Rattle.sh_text.specs.Finding.{StandsNowhere, StandsFirst};
ghost use Rattle.sh_text.specs.Laws.{IsFormat, IsScript, is_plain_text};

/// A text is a format by its parts and by no others, and else none.
pub fn formats_are_read()
    ensures { (text : List ℕ) (parts : Format) → (format_of text ≡ Some parts) ↔ IsFormat text parts }
{}

/// A format without backslash and `%` puts out its text, whatever words there are.
pub fn plain_formats_are_their_text()
    ensures { (text : List ℕ) (words : Names) → is_plain_text text ≡ true → printed (codes "--" ∷ text ∷ words) ≡ Ok text }
{}

/// The format `%s` puts out all words, one after another.
pub fn words_are_used_in_order()
    ensures { (words : Names) → printed (codes "%s" ∷ words) ≡ Ok (concat words) }
{}

/// A text is the script that it is written by, and no other, and else none.
pub fn scripts_are_read()
    ensures { (text : List ℕ) (script : Script) → (script_of text ≡ Some script) ↔ IsScript text script }
{}

/// A line in which the pattern stands nowhere stays.
pub fn other_lines_stay()
    ensures { (script : Script) (line : List ℕ) → StandsNowhere script.pattern true line → edited script line ≡ line }
{}

/// Of a line the first place where the pattern stands is replaced, and the rest stays.
pub fn first_place_is_replaced()
    ensures { (script : Script) (line : List ℕ) (place : ℕ) → goes_on script ≡ false → StandsFirst script.pattern true place line
        → edited script line ≡ take place line ++ (script.replacement ++ drop (length script.pattern.bytes) (drop place line)) }
{}

/// With `g` what stands after the first place is edited in the same way: from the left, without overlap, as long as the pattern stands.
pub fn each_place_is_replaced()
    ensures each { (script : Script) (beginning : Bool) (rest : List ℕ) (place : ℕ) → goes_on script ≡ true → StandsFirst script.pattern beginning place rest
        → edited_from script beginning 0 rest ≡ take place rest ++ (script.replacement ++ edited_from script false 0 (drop (length script.pattern.bytes) (drop place rest))) }
    ensures end { (script : Script) (beginning : Bool) (rest : List ℕ) → StandsNowhere script.pattern beginning rest → edited_from script beginning 0 rest ≡ rest }
{}

/// A text keeps its newlines, where the replacement has none.
pub fn newlines_stay()
    ensures { (script : Script) (text : List ℕ) → count_by (λ byte. byte == 10) script.replacement ≡ 0
        → count_by (λ byte. byte == 10) (edited_text script text) ≡ count_by (λ byte. byte == 10) text }
{}
