//! The words that begin a line, and what a line does.
use br_path::Area;

/// What a line does.
#[derive(Clone, Copy)]
pub(crate) enum Act {
    Case,
    Input,
    In,
    Task(Rights),
    Fill,
    Read,
    Change(Change),
    Many,
    Look(Look),
    Walk(bool),
    Show,
    Copy,
    Counts,
    Run,
}

/// Which trees a task may change.
#[derive(Clone, Copy)]
pub(crate) enum Rights {
    Prep,
    Host,
    Target,
}

/// A change of a tree.
#[derive(Clone, Copy)]
pub(crate) enum Change {
    MakeFile,
    Write,
    Append,
    SetMode,
    Link,
    Symlink,
    Mkdir,
    Remove,
    Rename,
}

/// A question about one path.
#[derive(Clone, Copy)]
pub(crate) enum Look {
    Lookup,
    Mode,
    Text,
    Bytes,
    Children,
}

pub(crate) const ACTS: [(&[u8], Act); 29] = [
    (b"case", Act::Case),
    (b"input", Act::Input),
    (b"in", Act::In),
    (b"prep", Act::Task(Rights::Prep)),
    (b"host", Act::Task(Rights::Host)),
    (b"target", Act::Task(Rights::Target)),
    (b"fill", Act::Fill),
    (b"read", Act::Read),
    (b"make-file", Act::Change(Change::MakeFile)),
    (b"write", Act::Change(Change::Write)),
    (b"append", Act::Change(Change::Append)),
    (b"set-mode", Act::Change(Change::SetMode)),
    (b"link", Act::Change(Change::Link)),
    (b"symlink", Act::Change(Change::Symlink)),
    (b"mkdir", Act::Change(Change::Mkdir)),
    (b"remove", Act::Change(Change::Remove)),
    (b"rename", Act::Change(Change::Rename)),
    (b"mkdirs", Act::Many),
    (b"lookup", Act::Look(Look::Lookup)),
    (b"mode", Act::Look(Look::Mode)),
    (b"text", Act::Look(Look::Text)),
    (b"bytes", Act::Look(Look::Bytes)),
    (b"children", Act::Look(Look::Children)),
    (b"place", Act::Walk(false)),
    (b"follow", Act::Walk(true)),
    (b"show", Act::Show),
    (b"copy", Act::Copy),
    (b"counts", Act::Counts),
    (b"run", Act::Run),
];

pub(crate) const AREAS: [(&[u8], Area); 4] = [
    (b"build", Area::Build),
    (b"host", Area::Host),
    (b"staging", Area::Staging),
    (b"target", Area::Target),
];
