//! What commands make at a place.
ghost use Rattle.file_laws.specs.Laws.{LnAddsName, MvIsWhole, CpMakesFile, InstallMakesFile, SedMakesFile};

/// ln of a file to a place where nothing is gives the file one name more.
pub fn ln_adds_name()
    ensures { LnAddsName }
{}

/// mv takes all that stands at or below its source along.
pub fn mv_is_whole()
    ensures { MvIsWhole }
{}

/// cp of a file to a place where nothing is makes a file of its own there.
pub fn cp_makes_file()
    ensures { CpMakesFile }
{}

/// install makes a file of its own, whatever stood at its place.
pub fn install_makes_file()
    ensures { InstallMakesFile }
{}

/// sed with `i` makes a file of its own at its name, also where that is a link.
pub fn sed_makes_file()
    ensures { SedMakesFile }
{}
