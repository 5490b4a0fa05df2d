//! Words of a text, and words without repeats.
ghost use Rattle.std.specs.Prelude.{◌≡◌, IfOk, map, filter};
ghost use Rattle.mk_expand.specs.Words.{is_white, words};
ghost use Rattle.selection.specs.Lists.{distinct, host_name, is_left, taken_over};

use crate::names::is_same;
use br_path::{Bytes, Memory, Names};
use indexmap::IndexSet;
use std::alloc::Global;

/// The words of a text: what stands between spaces, tabs and newlines.
pub(crate) fn words(alloc: Global, text: &[u8]) -> Result<Names, Memory>
    ensures { IfOk result (λ names. names ≡ words text.now) }
{
    let mut names = Vec::new(alloc);
    for word in text.split(|byte| is_white(*byte)) {
        if !word.is_empty() {
            names.push(Bytes::from_slice(alloc, word)?)?;
        }
    }
    Ok(Names { items: names })
}

fn is_white(byte: u8) -> bool
    ensures { result ≡ is_white byte }
{
    byte == b' ' || byte == b'\t' || byte == b'\n'
}

/// Words without repeats, of which the first of each stays.
pub(crate) fn distinct(alloc: Global, words: Names) -> Result<Names, Memory>
    ensures { IfOk result (λ names. names ≡ distinct words) }
{
    let set = word_set(alloc, words)?;
    in_order(alloc, set)
}

/// The set of words, in the order in which they first stand.
fn word_set(alloc: Global, words: Names) -> Result<IndexSet<Vec<u8>>, Memory>
    ensures { IfOk result (λ set. map (λ key. key.items) set.keys ≡ distinct words) }
{
    let mut set = IndexSet::new(alloc);
    for word in words.items {
        set.insert(word.items)?;
    }
    Ok(set)
}

/// The words of a set, in their order.
fn in_order(alloc: Global, set: IndexSet<Vec<u8>>) -> Result<Names, Memory>
    ensures { IfOk result (λ names. names ≡ map (λ key. key.items) set.keys) }
{
    let mut names = Vec::new(alloc);
    for items in set {
        names.push(Bytes { items })?;
    }
    Ok(Names { items: names })
}

/// The words with `host-` before each that lacks it, except for those that a host package of this name doesn't take over.
pub(crate) fn taken_over(alloc: Global, own: &[u8], words: &Names) -> Result<Names, Memory>
    ensures { IfOk result (λ names. names ≡ taken_over own.now words.now) }
{
    let mut names = Vec::new(alloc);
    for word in &words.items {
        let name = host_name(alloc, word.as_slice())?;
        if !is_left(own, name.as_slice()) {
            names.push(name)?;
        }
    }
    Ok(Names { items: names })
}

/// A name with `host-` before it, unless it begins so.
fn host_name(alloc: Global, name: &[u8]) -> Result<Bytes, Memory>
    ensures { IfOk result (λ host. host ≡ host_name name.now) }
{
    if name.starts_with(b"host-") {
        return Bytes::from_slice(alloc, name);
    }
    let mut host = Bytes::from_slice(alloc, b"host-")?;
    host.items.extend_from_slice(name)?;
    Ok(host)
}

/// Whether a host package doesn't take a name over: its own, or that of the toolchain or the skeleton.
fn is_left(own: &[u8], name: &[u8]) -> bool
    ensures { result ≡ is_left own.now name.now }
{
    is_same(name, own) || is_same(name, b"host-toolchain") || is_same(name, b"host-skeleton")
}
