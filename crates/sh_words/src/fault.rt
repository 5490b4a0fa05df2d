//! Why a text is no line.
ghost use Rattle.std.specs.Prelude.{◌≡◌};
ghost use Rattle.sh_words.specs.declared.fault.WordFault.TheVariants.{Memory as no_memory};

use br_path::Memory;
use std::alloc::AllocFailed;

/// Why a text is no line.
#[derive(Clone, Copy, PartialEq, Eq)]
pub enum WordFault {
    /// A quote doesn't close.
    OpenQuote,
    /// A byte isn't supported where it stands. Its place counts the text's bytes from 0.
    ///
    /// Outside quotes these are `$`, a backquote, `|`, `&`, `;`, `<`, `(`, `)`, `*`, `?` and `[`, a `~` that begins a word, a
    /// backslash at the end, and a `>` that is the second, has digits alone right before it or has no word after it; in
    /// `"` a `$` or a backquote without a backslash. An operator is named by its first `>`.
    Unsupported(u8, u32),
    /// Out of memory.
    Memory,
}

impl From<Memory> for WordFault {
    ghost from_gives = { λ _ fault. fault ≡ no_memory };

    fn from(_memory: Memory) -> WordFault {
        WordFault::Memory
    }
}

impl<T: Drop> From<AllocFailed<T>> for WordFault {
    ghost from_gives = { λ _ fault. fault ≡ no_memory };

    fn from(_error: AllocFailed<T>) -> WordFault {
        WordFault::Memory
    }
}
