//! What commands keep, wherever they end.
ghost use Rattle.file_laws.specs.Laws.{TouchKeepsAll, MkdirKeepsAll, ChmodKeepsNames};

/// touch leaves all that stood there as it was.
pub fn touch_keeps_all()
    ensures { TouchKeepsAll }
{}

/// mkdir leaves all that stood there as it was, with `p` and without.
pub fn mkdir_keeps_all()
    ensures { MkdirKeepsAll }
{}

/// chmod adds no name and takes none.
pub fn chmod_keeps_names()
    ensures { ChmodKeepsNames }
{}
