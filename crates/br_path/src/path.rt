//! Paths: what they are, their order, and which stands above which.
ghost use Rattle.std.specs.Prelude.{List, ℕ, ◌≡◌, [], ◌∷◌, ◌++◌, refl, nat_eq, IfOk, OnOk, IsTrue, ◌↔◌, ◌+◌, ◌≤◌, length, take, drop};
ghost use Rattle.std.specs.Cmp.{nat_eq_equiv, partial_equiv_from_equiv, partial_order_from_agreeing_total};
ghost use Rattle.std.specs.Cmp.Lexicographic.{slice_cmp, pointwise, lists_per, lists_equiv, lists_total, lists_ties, nat_list_cmp_total, nat_list_eq_equiv, texts_ties};
ghost use Rattle.std.specs.Ordering.{nat_cmp, as_partial_cmp};

use crate::values::{Bytes, Memory};
use std::alloc::Global;
use std::cmp::Ordering;
use std::marker::Model;

/// Where a file or folder stands: the names that lead to it, from the root down.
///
/// A name has 1 to 255 bytes of printable ASCII without `/`, and isn't `.` or `..`. The text of a path, its
/// names with one `/` between them, has at most 1,024 bytes.
#[derive(Debug, Clone, Drop)]
pub struct Path {
    names: Vec<Bytes>,
}

impl Model for Path {
    ghost use Rattle.std.specs.Prelude.{List, ℕ};
    ghost use Rattle.br_path.specs.Path.{IsPath};

    ghost Value = { List (List ℕ) };

    ghost view = { λ p. p.names.items };

    ghost invariant = { λ p. IsPath p.names.items };
}

impl Path {
    ghost use Rattle.br_path.specs.Path.{IsName, IsPath, path_text, closed, parent_of, path_cmp, StartsWith};

    /// The root: no name at all.
    pub fn root(alloc: Global) -> Path
        ensures { result ≡ [] }
    {
        Path {
            names: Vec::new(alloc),
        }
    }

    /// The path of these names.
    pub(crate) fn from_names(names: Vec<Bytes>) -> Path
        requires { IsPath names.items }
        ensures { result ≡ names.items }
    {
        Path { names }
    }

    /// The names, from the root down.
    pub fn names(&self) -> &[Bytes]
        ensures names { result.now ≡ self.now }
        ensures path { IsPath self.now }
    {
        self.names.as_slice()
    }

    /// The same path once more.
    pub fn copy(&self) -> Result<Path, Memory>
        ensures { IfOk result (λ p. p ≡ self.now) }
    {
        Ok(self.clone()?)
    }

    /// The path of the first `len` names.
    pub fn prefix(&self, alloc: Global, len: usize) -> Result<Path, Memory>
        requires { len ≤ length self.now }
        ensures { IfOk result (λ p. p ≡ take len self.now) }
    {
        let mut names = Vec::new(alloc);
        for name in &self.names.as_slice()[..len] {
            names.push(name.copy()?)?;
        }
        Ok(Path { names })
    }

    /// The path of a name directly below this one.
    pub(crate) fn with_name(&self, name: Bytes) -> Result<Path, Memory>
        requires name { IsName name }
        requires short { length (closed self.now) + length name ≤ 1024 }
        ensures { IfOk result (λ p. p ≡ self.now ++ name ∷ []) }
    {
        let mut path = self.copy()?;
        path.names.push(name)?;
        Ok(path)
    }

    /// The names after the first `depth` of this path, below another path: `/a/b/c` from depth 1 below `/x/y` is `/x/y/b/c`.
    pub fn with_head(&self, alloc: Global, depth: usize, head: &Path) -> Result<Path, Memory>
        requires depth { depth ≤ length self.now }
        requires short { length (path_text (head.now ++ drop depth self.now)) ≤ 1024 }
        ensures { IfOk result (λ p. p ≡ head.now ++ drop depth self.now) }
    {
        let mut names = Vec::new(alloc);
        for name in head.names() {
            names.push(name.copy()?)?;
        }
        for tail in &self.names.as_slice()[depth..] {
            names.push(tail.copy()?)?;
        }
        Ok(Path { names })
    }

    /// The folder that the path stands in; none for the root.
    pub fn parent(&self, alloc: Global) -> Result<Option<Path>, Memory>
        ensures { IfOk result (λ p. p ≡ parent_of self.now) }
    {
        match self.names.len().checked_sub(1) {
            None => Ok(None),
            Some(len) => Ok(Some(self.prefix(alloc, len)?)),
        }
    }

    /// Orders by names from the root down, each by its bytes, and a path before all that stand below it.
    pub fn compare(&self, other: &Path) -> Ordering
        ensures { result ≡ path_cmp self.now other.now }
    {
        self.cmp(other)
    }

    /// Whether `head` is this path or stands above it.
    pub fn starts_with(&self, head: &Path) -> bool
        ensures { IsTrue result ↔ StartsWith self.now head.now }
    {
        self.names.as_slice().starts_with(head.names.as_slice())
    }
}

impl PartialEq for Path {
    ghost eq = { pointwise (pointwise nat_eq) };

    ghost laws = { lists_per (lists_per (partial_equiv_from_equiv nat_eq_equiv)) };

    fn eq(&self, other: &Path) -> bool {
        self.names.as_slice() == other.names.as_slice()
    }
}

impl Eq for Path {
    ghost laws = { lists_equiv nat_list_eq_equiv };
}

impl PartialOrd for Path {
    ghost partial_cmp = { as_partial_cmp (slice_cmp (slice_cmp nat_cmp)) };

    ghost laws = { partial_order_from_agreeing_total (slice_cmp (slice_cmp nat_cmp)) (lists_total nat_list_cmp_total) (λ x y. refl) (lists_ties (slice_cmp nat_cmp) texts_ties) };

    fn partial_cmp(&self, other: &Path) -> Option<Ordering> {
        Some(self.cmp(other))
    }
}

impl Ord for Path {
    ghost cmp = { slice_cmp (slice_cmp nat_cmp) };

    ghost total = { lists_total nat_list_cmp_total };

    ghost matches_partial_cmp = { λ x y. refl };

    ghost matches_eq = { lists_ties (slice_cmp nat_cmp) texts_ties };

    fn cmp(&self, other: &Path) -> Ordering {
        self.names.as_slice().cmp(other.names.as_slice())
    }
}
