//! The functions of make that can be called.
ghost use Rattle.std.specs.Prelude.{◌≡◌};
ghost use Rattle.mk_expand.specs.Table.{entry, function_of};

/// A function.
#[derive(Clone, Copy)]
pub(crate) enum Function {
    Subst,
    Strip,
    AddPrefix,
    AddSuffix,
    Filter,
    FilterOut,
    PatSubst,
    Sort,
    FirstWord,
    If,
    Foreach,
    Call,
}

/// A function's name, the least number of its arguments, and the most, where there is one.
#[derive(Drop)]
pub(crate) struct Entry {
    pub name: &'static [u8],
    pub least: usize,
    pub most: Option<usize>,
}

const FUNCTIONS: [Function; 12] = [
    Function::Subst,
    Function::Strip,
    Function::AddPrefix,
    Function::AddSuffix,
    Function::Filter,
    Function::FilterOut,
    Function::PatSubst,
    Function::Sort,
    Function::FirstWord,
    Function::If,
    Function::Foreach,
    Function::Call,
];

impl Function {
    /// The table of functions.
    pub fn entry(self) -> Entry
        ensures name { result.name.now ≡ (entry self).0 }
        ensures least { result.least ≡ (entry self).1 }
        ensures most { result.most ≡ (entry self).2 }
    {
        match self {
            Function::Subst => row(b"subst", 3, Some(3)),
            Function::Strip => row(b"strip", 1, Some(1)),
            Function::AddPrefix => row(b"addprefix", 2, Some(2)),
            Function::AddSuffix => row(b"addsuffix", 2, Some(2)),
            Function::Filter => row(b"filter", 2, Some(2)),
            Function::FilterOut => row(b"filter-out", 2, Some(2)),
            Function::PatSubst => row(b"patsubst", 3, Some(3)),
            Function::Sort => row(b"sort", 1, Some(1)),
            Function::FirstWord => row(b"firstword", 1, Some(1)),
            Function::If => row(b"if", 2, Some(3)),
            Function::Foreach => row(b"foreach", 3, Some(3)),
            Function::Call => row(b"call", 1, None),
        }
    }

    /// The function of a name.
    pub fn of_name(name: &[u8]) -> Option<Function>
        ensures { result ≡ function_of name.now }
    {
        for function in FUNCTIONS {
            if function.entry().name == name {
                return Some(function);
            }
        }
        None
    }
}

fn row(name: &'static [u8], least: usize, most: Option<usize>) -> Entry
    ensures name { result.name.now ≡ name.now }
    ensures least { result.least ≡ least }
    ensures most { result.most ≡ most }
{
    Entry { name, least, most }
}
