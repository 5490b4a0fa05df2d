//! Modes as words of a command.
//!
//! `755` and `0644` are modes. For chmod so is a clause as `u+x` or `go-w`; in `+w` nobody is named, so that it gives the owner
//! alone the bit.
ghost use Rattle.std.specs.Prelude.{◌≡◌, ◌≤◌, ◌<◌, IfSome, length, not, position, true};
ghost use Rattle.std.specs.List.{list_all};
ghost use Rattle.std.specs.Option.{option_copied};
ghost use Rattle.tree_worlds.specs.Operand.{up_to};
ghost use Rattle.sh_files.specs.Modes as modes;
ghost use Rattle.sh_files.specs.Modes.{IsModest};

/// What a mode becomes.
#[derive(Clone, Copy, PartialEq, Eq)]
pub enum ModeChange {
    /// This mode, whatever it was.
    To(u16),
    /// With these bits.
    Plus(u16),
    /// Without these bits.
    Minus(u16),
}

impl ModeChange {
    /// What it makes of a mode.
    #[tactic(auto, using(crate::proofs::Modes::or_modest))]
    pub fn of(self, old: u16) -> u16
        requires modest { IsModest self }
        requires old { old ≤ 4095 }
        ensures mode { result ≡ modes.changed_mode self old }
        ensures limit { result ≤ 4095 }
    {
        match self {
            ModeChange::To(mode) => mode,
            ModeChange::Plus(bits) => old | bits,
            ModeChange::Minus(bits) => old & (0o7777 ^ bits),
        }
    }
}

/// The mode that one to four octal digits write.
pub fn octal_mode(word: &[u8]) -> Option<u16>
    ensures mode { result ≡ modes.octal_mode word.now }
    ensures limit { IfSome result (λ mode. mode ≤ 4095) }
{
    if !is_octal(word) {
        return None;
    }
    Some(octal(word))
}

fn is_octal(word: &[u8]) -> bool
    ensures { result ≡ modes.is_octal word.now }
{
    1 <= word.len() && word.len() <= 4 && are_octal_digits(word)
}

fn are_octal_digits(word: &[u8]) -> bool
    ensures { result ≡ list_all modes.is_octal_digit word.now }
{
    word.iter().all(|byte| b'0' <= *byte && *byte <= b'7')
}

/// The number that octal digits write.
fn octal(digits: &[u8]) -> u16
    requires octal { modes.is_octal digits.now ≡ true }
    ensures value { result ≡ modes.octal_from 0 digits.now }
    ensures limit { result ≤ 4095 }
{
    let mut value = 0;
    for digit in digits {
        value = value * 8 + u16::from(*digit - b'0');
    }
    value
}

/// What a mode of chmod makes of a mode.
pub fn mode_change(word: &[u8]) -> Option<ModeChange>
    ensures change { result ≡ modes.mode_change word.now }
    ensures limit { IfSome result IsModest }
{
    match octal_mode(word) {
        Some(mode) => Some(ModeChange::To(mode)),
        None => clause(word),
    }
}

/// A clause: whom, a sign, and what.
fn clause(word: &[u8]) -> Option<ModeChange>
    ensures change { result ≡ modes.clause word.now }
    ensures limit { IfSome result IsModest }
{
    let (whom, rest) = word.split_at(whom_length(word));
    let (sign, what) = rest.split_first()?;
    if what.is_empty() || !are_whats(what) {
        return None;
    }
    signed(*sign, whom_bits(whom) & what_bits(what))
}

fn are_whats(letters: &[u8]) -> bool
    ensures { result ≡ list_all modes.is_what letters.now }
{
    letters.iter().all(|byte| is_what(*byte))
}

/// The change that a sign makes of bits.
fn signed(sign: u8, bits: u16) -> Option<ModeChange>
    requires limit { bits ≤ 4095 }
    ensures change { result ≡ modes.signed sign bits }
    ensures limit { IfSome result IsModest }
{
    match sign {
        b'+' => Some(ModeChange::Plus(bits)),
        b'-' => Some(ModeChange::Minus(bits)),
        _ => None,
    }
}

/// How many letters in front say whom.
fn whom_length(word: &[u8]) -> usize
    ensures length { result ≡ up_to (λ byte. not (modes.is_whom byte)) word.now }
    ensures within { result ≤ length word.now }
{
    match first_other(word) {
        None => word.len(),
        Some(at) => at,
    }
}

fn first_other(word: &[u8]) -> Option<usize>
    ensures first { result ≡ position (λ byte. not (modes.is_whom byte)) word.now }
    ensures within { IfSome result (λ at. at < length word.now) }
{
    word.iter().position(|byte| !is_whom(*byte))
}

fn is_whom(byte: u8) -> bool
    ensures { result ≡ modes.is_whom byte }
{
    matches!(byte, b'u' | b'g' | b'o' | b'a')
}

fn is_what(byte: u8) -> bool
    ensures { result ≡ modes.is_what byte }
{
    matches!(byte, b'r' | b'w' | b'x')
}

/// The bits of all that are named; if nobody is, of all without 0022.
fn whom_bits(letters: &[u8]) -> u16
    ensures bits { result ≡ modes.bits_of_whom letters.now }
    ensures limit { result ≤ 511 }
{
    if letters.is_empty() {
        return 0o755;
    }
    let mut bits = 0;
    for letter in letters {
        bits |= whom_bits_of(*letter);
    }
    bits
}

fn whom_bits_of(letter: u8) -> u16
    ensures bits { result ≡ modes.whom_bits letter }
    ensures limit { result ≤ 511 }
{
    match letter {
        b'u' => 0o700,
        b'g' => 0o070,
        b'o' => 0o007,
        _ => 0o777,
    }
}

fn what_bits(letters: &[u8]) -> u16
    ensures bits { result ≡ modes.bits_from modes.what_bits 0 letters.now }
    ensures limit { result ≤ 511 }
{
    let mut bits = 0;
    for letter in letters {
        bits |= what_bits_of(*letter);
    }
    bits
}

fn what_bits_of(letter: u8) -> u16
    ensures bits { result ≡ modes.what_bits letter }
    ensures limit { result ≤ 511 }
{
    match letter {
        b'r' => 0o444,
        b'w' => 0o222,
        _ => 0o111,
    }
}

/// The mode that an option gives, else another.
pub(crate) fn mode_or(word: Option<&[u8]>, mode: u16) -> Option<u16>
    requires limit { mode ≤ 4095 }
    ensures mode { result ≡ modes.mode_or (option_copied word.entry) mode }
    ensures limit { IfSome result (λ mode. mode ≤ 4095) }
{
    match word {
        None => Some(mode),
        Some(word) => octal_mode(word),
    }
}
