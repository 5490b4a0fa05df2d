//! What is true of images.
ghost use Rattle.std.specs.Prelude.{◌≡◌, ◌↔◌, ◌<◌, ◌^◌, List, ℕ, Ok, Some, length};
ghost use Rattle.root_image.specs.Lines.{Entries, Line, image_text, line_text};
ghost use Rattle.root_image.specs.Roots.{IsRoot};
ghost use Rattle.root_image.specs.Reading.{Place, image_of, line_in, lines_of};
ghost use Rattle.root_image.specs.Spelling.{IsLine, IsNumbered, MayStand};

/// A law with nothing to run: one text is the image of one root, and each root has one text.
pub fn one_root()
    ensures { (one other : Entries) → IsRoot one → IsRoot other → image_text one ≡ image_text other → one ≡ other }
{}

/// A law with nothing to run: a text of fewer than 2^32 lines is read as a root exactly where it is the image of this root.
pub fn images_are_read()
    ensures { (text : List ℕ) (root : Entries) → length (lines_of text) < 2 ^ 32 → (image_of text ≡ Ok root) ↔ (IsRoot root × (text ≡ image_text root)) }
{}

/// A law with nothing to run: each line has one spelling, of those that can stand where the reader stands. Its size, or its
/// count of entries, is below 2^64.
pub fn lines_are_spelled()
    ensures { (place : Place) (text : List ℕ) (line : Line) → IsNumbered line → (line_in place text ≡ Some line) ↔ (MayStand place line × IsLine line × (text ≡ line_text line)) }
{}
