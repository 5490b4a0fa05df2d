//! Patterns, in which a `%` stands for any text.
ghost use Rattle.std.specs.Prelude.{◌≡◌, ◌<◌, ◌==◌, ◌||◌, ℕ, List, None, IfOk, IfSome, OnOk, length, map, position};
ghost use Rattle.mk_expand.specs.Lists.{fit_round, fit_at, fit, is_fit, is_matched, with_stem, exchanged};
ghost use Rattle.mk_expand.specs.Shown.{shown_fit, shown_spelling, fit_by, filled_by, is_plain_of, is_round_of, is_matched_by, exchanged_by};

use br_path::Memory;
use std::alloc::Global;
use std::collections::BTreeSet;

/// How a word fits a pattern.
#[derive(Drop)]
pub(crate) enum Fit<'a> {
    Misses,
    /// The word is the pattern, which has no `%`.
    Equals,
    /// The text that the pattern's first `%` stands for.
    Stem(&'a [u8]),
}

/// A word in three parts, the middle of them the stem.
#[derive(Drop)]
pub(crate) struct Spelling<'a> {
    pub before: &'a [u8],
    pub stem: &'a [u8],
    pub after: &'a [u8],
}

impl<'a> Spelling<'a> {
    // A word with no stem.
    fn whole(word: &'a [u8]) -> Spelling<'a>
        ensures { shown_spelling result ≡ word.now }
    {
        Spelling {
            before: word,
            stem: &[],
            after: &[],
        }
    }

    pub fn is_empty(&self) -> bool
        ensures { result ≡ (length (shown_spelling self.now) == 0) }
    {
        self.before.is_empty() && self.stem.is_empty() && self.after.is_empty()
    }
}

/// What stands before the first `%` of a text and after it.
#[derive(Drop)]
pub(crate) struct Sides<'a> {
    before: &'a [u8],
    after: &'a [u8],
}

impl<'a> Sides<'a> {
    // The sides of a text that has a `%`.
    fn of(text: &'a [u8]) -> Option<Sides<'a>>
        ensures fits { (word : List ℕ) → fit_by text.now result word ≡ fit text.now word }
        ensures fills { (stem : List ℕ) → filled_by text.now result stem ≡ with_stem text.now stem (position (λ b. b == 37) text.now) }
    {
        match first_percent(text) {
            Some(place) => {
                let (before, rest) = text.split_at(place);
                Some(Sides {
                    before,
                    after: rest.split_at(1).1,
                })
            }
            None => None,
        }
    }

    // A word fits that begins and ends with the two texts, which don't overlap in it.
    fn fit_of<'b>(&self, word: &'b [u8]) -> Fit<'b>
        ensures { shown_fit result ≡ fit_round self.now.before.now self.now.after.now word.now }
    {
        if word.len() < self.before.len() {
            return Fit::Misses;
        }
        if word.len() - self.before.len() < self.after.len() {
            return Fit::Misses;
        }
        if !word.starts_with(self.before) {
            return Fit::Misses;
        }
        if !word.ends_with(self.after) {
            return Fit::Misses;
        }
        let behind = word.split_at(self.before.len()).1;
        Fit::Stem(behind.split_at(behind.len() - self.after.len()).0)
    }

    fn fits(&self, word: &[u8]) -> bool
        ensures { result ≡ is_fit (fit_round self.now.before.now self.now.after.now word.now) }
    {
        match self.fit_of(word) {
            Fit::Misses => false,
            Fit::Equals => true,
            Fit::Stem(_) => true,
        }
    }
}

// The place of the first `%` of a text.
fn first_percent(text: &[u8]) -> Option<usize>
    ensures place { result ≡ position (λ b. b == 37) text.now }
    ensures within { IfSome result (λ place. place < length text.now) }
{
    text.iter().position(|byte| *byte == b'%')
}

/// Patterns that many words are compared with. Those without a `%` are looked up, and only those with one cost a comparison.
#[derive(Drop)]
pub(crate) struct Patterns<'a> {
    plain: BTreeSet<&'a [u8]>,
    rounds: Vec<Sides<'a>>,
}

impl<'a> Patterns<'a> {
    /// The patterns of a list.
    pub fn of(alloc: Global, patterns: &[&'a [u8]]) -> Result<Patterns<'a>, Memory>
        ensures { IfOk result (λ made. (word : List ℕ) → is_matched_by made word ≡ is_matched (map (λ pattern. pattern.now) patterns.now) word) }
    {
        let mut made = Patterns {
            plain: BTreeSet::new(alloc),
            rounds: Vec::new(alloc),
        };
        for pattern in patterns {
            made.add(pattern)?;
        }
        Ok(made)
    }

    fn add(&mut self, pattern: &'a [u8]) -> Result<(), Memory>
        ensures { OnOk result ((word : List ℕ) → is_matched_by self.new word ≡ (is_fit (fit pattern.now word) || is_matched_by self.old word)) }
    {
        match Sides::of(pattern) {
            Some(sides) => self.rounds.push(sides)?,
            None => {
                self.plain.insert(pattern)?;
            }
        }
        Ok(())
    }

    /// Whether a word fits one of the patterns.
    pub fn fits(&self, word: &'a [u8]) -> bool
        ensures { result ≡ is_matched_by self.now word.now }
    {
        self.is_plain(word) || self.is_round(word)
    }

    // Whether a word is a pattern without a `%`.
    fn is_plain(&self, word: &'a [u8]) -> bool
        ensures { result ≡ is_plain_of self.now word.now }
    {
        self.plain.contains(&word)
    }

    // Whether a word fits a pattern with a `%`.
    fn is_round(&self, word: &[u8]) -> bool
        ensures { result ≡ is_round_of self.now.rounds.items word.now }
    {
        for sides in &self.rounds {
            if sides.fits(word) {
                return true;
            }
        }
        false
    }
}

/// The exchange of words that fit a pattern for a replacement.
#[derive(Drop)]
pub(crate) struct Exchange<'a> {
    pattern: &'a [u8],
    sides: Option<Sides<'a>>,
    replacement: &'a [u8],
    filling: Option<Sides<'a>>,
}

impl<'a> Exchange<'a> {
    /// The exchange by a pattern and a replacement.
    pub fn new(pattern: &'a [u8], replacement: &'a [u8]) -> Exchange<'a>
        ensures { (word : List ℕ) → exchanged_by result word ≡ exchanged pattern.now replacement.now word }
    {
        Exchange {
            pattern,
            sides: Sides::of(pattern),
            replacement,
            filling: Sides::of(replacement),
        }
    }

    /// What a word becomes.
    pub fn of<'b>(&'b self, word: &'b [u8]) -> Spelling<'b>
        ensures { shown_spelling result ≡ exchanged_by self.now word.now }
    {
        match self.fit_of(word) {
            Fit::Misses => Spelling::whole(word),
            Fit::Equals => Spelling::whole(self.replacement),
            Fit::Stem(stem) => self.with_stem(stem),
        }
    }

    // How a word fits the pattern.
    fn fit_of<'b>(&self, word: &'b [u8]) -> Fit<'b>
        ensures { shown_fit result ≡ fit_by self.now.pattern.now self.now.sides word.now }
    {
        match &self.sides {
            Some(sides) => sides.fit_of(word),
            None => fit_whole(self.pattern, word),
        }
    }

    // The replacement with a stem for its `%`.
    fn with_stem<'b>(&'b self, stem: &'b [u8]) -> Spelling<'b>
        ensures { shown_spelling result ≡ filled_by self.now.replacement.now self.now.filling stem.now }
    {
        match &self.filling {
            Some(sides) => Spelling {
                before: sides.before,
                stem,
                after: sides.after,
            },
            None => Spelling::whole(self.replacement),
        }
    }
}

fn fit_whole<'a>(pattern: &[u8], word: &'a [u8]) -> Fit<'a>
    ensures { shown_fit result ≡ fit_at pattern.now word.now None }
{
    if pattern == word {
        Fit::Equals
    } else {
        Fit::Misses
    }
}
