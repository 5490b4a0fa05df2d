//! The results of calls on the values of their arguments.
//!
//! A result is put at the end of a draft part by part, so it is never longer than the cost allows.
ghost use Rattle.std.specs.Prelude.{◌≡◌, ℕ, List, [], ◌++◌, ◌==◌, ◌<◌, not, map, filter, take, length, IfOk};
ghost use Rattle.mk_expand.specs.Words.{is_filled, words, row};
ghost use Rattle.mk_expand.specs.Lists.{replaced, is_matched, exchanged, sorted_with, IsSortOf, argument, applied};
ghost use Rattle.mk_expand.specs.Laws.{IsReplaced};
ghost use Rattle.mk_expand.specs.Draft.{put, IsRun};
ghost use Rattle.mk_expand.specs.Shown.{shown_spelling, is_matched_by};

use crate::blanks::words;
use crate::draft::Draft;
use crate::fault::ExpandFault;
use crate::function::Function;
use crate::pattern::{Exchange, Patterns, Spelling};
use br_path::{Bytes, Memory, Names};
use memchr::memmem;
use std::alloc::Global;
use std::collections::BTreeSet;

/// Puts the result of a call at the end of a draft.
pub(crate) fn put_applied(
    alloc: Global,
    function: Function,
    values: &Names,
    out: &mut Draft,
) -> Result<(), ExpandFault>
    ensures { IsRun (put (applied function values.now) out.old) result out.new }
{
    let (one, two, three) = (
        argument(values, 0),
        argument(values, 1),
        argument(values, 2),
    );
    match function {
        Function::Subst => put_replaced(one, two, three, out),
        Function::Strip => put_row(&words(alloc, one)?, out),
        Function::AddPrefix => put_prefixed(one, &words(alloc, two)?, out),
        Function::AddSuffix => put_suffixed(one, &words(alloc, two)?, out),
        Function::Filter => put_matched(alloc, one, two, out),
        Function::FilterOut => put_unmatched(alloc, one, two, out),
        Function::PatSubst => put_exchanged(one, two, &words(alloc, three)?, out),
        Function::Sort => put_sorted(alloc, &words(alloc, one)?, out),
        Function::FirstWord => put_first(&words(alloc, one)?, out),
        Function::Call => put_unquoted(alloc, two, out),
        Function::If | Function::Foreach => Ok(()),
    }
}

// The value at a place; none is empty.
fn argument(values: &Names, place: usize) -> &[u8]
    ensures { result.now ≡ argument place values.now }
{
    match values.items.get(place) {
        Some(value) => value.as_slice(),
        None => &[],
    }
}

// The words with a space between two.
#[tactic(auto, using(crate::proofs::Rows::rows))]
fn put_row(words: &[&[u8]], out: &mut Draft) -> Result<(), ExpandFault>
    ensures { IsRun (put (row (map (λ word. word.now) words.now)) out.old) result out.new }
{
    let mut gap: &[u8] = b"";
    for word in words {
        put_two(gap, word, out)?;
        gap = b" ";
    }
    Ok(())
}

// The words, each after a text.
fn put_prefixed(prefix: &[u8], words: &[&[u8]], out: &mut Draft) -> Result<(), ExpandFault>
    ensures { IsRun (put (row (map (λ word. prefix.now ++ word) (map (λ word. word.now) words.now))) out.old) result out.new }
{
    let mut gap: &[u8] = b"";
    for word in words {
        put_three(gap, prefix, word, out)?;
        gap = b" ";
    }
    Ok(())
}

// The words, each before a text.
fn put_suffixed(suffix: &[u8], words: &[&[u8]], out: &mut Draft) -> Result<(), ExpandFault>
    ensures { IsRun (put (row (map (λ word. word ++ suffix.now) (map (λ word. word.now) words.now))) out.old) result out.new }
{
    let mut gap: &[u8] = b"";
    for word in words {
        put_three(gap, word, suffix, out)?;
        gap = b" ";
    }
    Ok(())
}

fn put_two(one: &[u8], two: &[u8], out: &mut Draft) -> Result<(), ExpandFault>
    ensures { IsRun (put (one.now ++ two.now) out.old) result out.new }
{
    out.put(one)?;
    out.put(two)
}

fn put_three(one: &[u8], two: &[u8], three: &[u8], out: &mut Draft) -> Result<(), ExpandFault>
    ensures { IsRun (put (one.now ++ (two.now ++ three.now)) out.old) result out.new }
{
    out.put(one)?;
    put_two(two, three, out)
}

// The words, exchanged where they fit a pattern, except for those that become empty.
fn put_exchanged(
    pattern: &[u8],
    replacement: &[u8],
    words: &[&[u8]],
    out: &mut Draft,
) -> Result<(), ExpandFault>
    ensures { IsRun (put (row (filter is_filled (map (exchanged pattern.now replacement.now) (map (λ word. word.now) words.now)))) out.old) result out.new }
{
    let exchange = Exchange::new(pattern, replacement);
    let mut gap: &[u8] = b"";
    for word in words {
        let spelling = exchange.of(word);
        if !spelling.is_empty() {
            put_spelling(gap, &spelling, out)?;
            gap = b" ";
        }
    }
    Ok(())
}

fn put_spelling(gap: &[u8], spelling: &Spelling<'_>, out: &mut Draft) -> Result<(), ExpandFault>
    ensures { IsRun (put (gap.now ++ shown_spelling spelling.now) out.old) result out.new }
{
    out.put(gap)?;
    put_three(spelling.before, spelling.stem, spelling.after, out)
}

// The words of a text that fit a word of another.
fn put_matched<'a>(
    alloc: Global,
    patterns: &'a [u8],
    text: &'a [u8],
    out: &mut Draft,
) -> Result<(), ExpandFault>
    ensures { IsRun (put (row (filter (λ word. is_matched (words patterns.now) word) (words text.now))) out.old) result out.new }
{
    let patterns = Patterns::of(alloc, &words(alloc, patterns)?)?;
    put_fitting(&patterns, &words(alloc, text)?, out)
}

// The words of a text that fit no word of another.
fn put_unmatched<'a>(
    alloc: Global,
    patterns: &'a [u8],
    text: &'a [u8],
    out: &mut Draft,
) -> Result<(), ExpandFault>
    ensures { IsRun (put (row (filter (λ word. not (is_matched (words patterns.now) word)) (words text.now))) out.old) result out.new }
{
    let patterns = Patterns::of(alloc, &words(alloc, patterns)?)?;
    put_others(&patterns, &words(alloc, text)?, out)
}

// The words that fit one of the patterns.
#[tactic(auto, using(crate::proofs::Rows::rows))]
fn put_fitting<'a>(
    patterns: &Patterns<'a>,
    words: &[&'a [u8]],
    out: &mut Draft,
) -> Result<(), ExpandFault>
    ensures { IsRun (put (row (filter (λ word. is_matched_by patterns.now word) (map (λ word. word.now) words.now))) out.old) result out.new }
{
    let mut gap: &[u8] = b"";
    for word in words {
        if patterns.fits(word) {
            put_two(gap, word, out)?;
            gap = b" ";
        }
    }
    Ok(())
}

// The words that fit none of the patterns.
#[tactic(auto, using(crate::proofs::Rows::rows))]
fn put_others<'a>(
    patterns: &Patterns<'a>,
    words: &[&'a [u8]],
    out: &mut Draft,
) -> Result<(), ExpandFault>
    ensures { IsRun (put (row (filter (λ word. not (is_matched_by patterns.now word)) (map (λ word. word.now) words.now))) out.old) result out.new }
{
    let mut gap: &[u8] = b"";
    for word in words {
        if !patterns.fits(word) {
            put_two(gap, word, out)?;
            gap = b" ";
        }
    }
    Ok(())
}

// The distinct words in the order of their bytes.
fn put_sorted(alloc: Global, words: &[&[u8]], out: &mut Draft) -> Result<(), ExpandFault>
    ensures { IsRun (put (row (sorted_with [] (map (λ word. word.now) words.now))) out.old) result out.new }
{
    put_row(&sorted(alloc, words)?, out)
}

fn sorted<'a>(alloc: Global, words: &[&'a [u8]]) -> Result<Vec<&'a [u8]>, Memory>
    ensures { IfOk result (λ found. map (λ word. word.now) found.items ≡ sorted_with [] (map (λ word. word.now) words.now)) }
{
    let mut found = BTreeSet::new(alloc);
    for word in words {
        found.insert(*word)?;
    }
    Ok(found.into_iter().collect(alloc)?)
}

/// `sort` gives each of its words once, in the order of their bytes.
pub fn sorts_rise()
    ensures { (words : List (List ℕ)) → IsSortOf (sorted_with [] words) words }
{}

fn put_first(words: &[&[u8]], out: &mut Draft) -> Result<(), ExpandFault>
    ensures { IsRun (put (row (take 1 (map (λ word. word.now) words.now))) out.old) result out.new }
{
    match words.first() {
        Some(word) => out.put(word),
        None => Ok(()),
    }
}

// The words of a text without its quotes.
fn put_unquoted(alloc: Global, text: &[u8], out: &mut Draft) -> Result<(), ExpandFault>
    ensures { IsRun (put (row (words (filter (λ b. not (b == 34)) text.now))) out.old) result out.new }
{
    let bare = unquoted(alloc, text)?;
    put_row(&words(alloc, bare.as_slice())?, out)
}

fn unquoted(alloc: Global, text: &[u8]) -> Result<Bytes, Memory>
    ensures { IfOk result (λ bare. bare ≡ filter (λ b. not (b == 34)) text.now) }
{
    Ok(Bytes {
        items: text
            .iter()
            .copied()
            .filter(|byte| *byte != b'"')
            .collect(alloc)?,
    })
}

// A text with one text in it exchanged for another, from the left without overlap.
fn put_replaced(from: &[u8], to: &[u8], text: &[u8], out: &mut Draft) -> Result<(), ExpandFault>
    ensures { IsRun (put (replaced from.now to.now 0 text.now) out.old) result out.new }
{
    if from.is_empty() {
        return out.put(text);
    }
    put_each_replaced(from, to, text, out)
}

/// `subst` reads a text from the left: where what it looks for stands, it puts the other text and goes on after it, and
/// every other byte stays.
pub fn subst_replaces()
    ensures { (from to text : List ℕ) → 0 < length from → IsReplaced from to text (replaced from to 0 text) }
{}

fn put_each_replaced(
    from: &[u8],
    to: &[u8],
    text: &[u8],
    out: &mut Draft,
) -> Result<(), ExpandFault>
    requires { 0 < length from.now }
    ensures { IsRun (put (replaced from.now to.now 0 text.now) out.old) result out.new }
{
    let mut rest = text;
    loop {
        match memmem::find(rest, from) {
            None => return out.put(rest),
            Some(place) => {
                let (front, found) = rest.split_at(place);
                put_two(front, to, out)?;
                rest = found.split_at(from.len()).1;
            }
        }
    }
}
