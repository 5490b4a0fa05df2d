//! Laws of changes and trees, whatever kind of tree it is. Each is a function that does nothing, and ensures the law.
ghost use Rattle.tree_ops.specs.Laws.{ReachedLeadsOn, HeldStaysHeld, NamesAreCounted, TextsAreCounted, RootsAreCounted, OwnFilesStay, OtherFilesGetLabels, MovesAreWhole, NoMoveStays, HiddenIsBelow, OverByPaths, OverByLabels, OtherFilesStay, NamesAreExact, NamesRise};

/// Changes keep trees: each leads from a state that a task reaches to one, whatever it is.
pub fn changes_keep_trees()
    ensures next { ReachedLeadsOn }
    ensures held { HeldStaysHeld }
{}

/// What a pen counts moves as what stands in the tree does.
pub fn counts_move_alike()
    ensures names { NamesAreCounted }
    ensures texts { TextsAreCounted }
    ensures roots { RootsAreCounted }
{}

/// A change of contents or mode reaches all names of its file, and nothing else.
pub fn files_change_whole()
    ensures own { OwnFilesStay }
    ensures others { OtherFilesGetLabels }
{}

/// What is moved takes all that stands below it along.
pub fn moves_are_whole()
    ensures moved { MovesAreWhole }
    ensures same { NoMoveStays }
{}

/// What each look-up finds in a tree laid over another.
pub fn over_by_look_ups()
    ensures hidden { HiddenIsBelow }
    ensures paths { OverByPaths }
    ensures labels { OverByLabels }
{}

/// Other tasks' files keep their contents.
pub fn other_files_stay()
    ensures { OtherFilesStay }
{}

/// The names below a path are those that stand there, each once and in byte order.
pub fn names_below_are_exact()
    ensures exact { NamesAreExact }
    ensures rise { NamesRise }
{}
