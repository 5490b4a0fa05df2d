//! What a `.config` file asks of the symbols.
ghost use Rattle.std.specs.Prelude.{◌≡◌};

use br_path::Bytes;
use std::marker::Model;

/// What is wished of a symbol.
#[derive(Debug)]
pub enum WishValue {
    /// That it is n, by the line `# S is not set`.
    No,
    /// A bare word.
    Word(Bytes),
    /// A quoted text, without the quotes and the backslashes that quote the byte after them.
    Quoted(Bytes),
}

// A proof then has one call at each place that lets a value go, and not a walk of its forms.
impl Drop for WishValue {
    fn drop(self) {
        match self {
            WishValue::No | WishValue::Word(_) | WishValue::Quoted(_) => {}
        }
    }
}

/// What a line asks of a symbol.
#[derive(Debug, Drop)]
pub struct Wish {
    pub symbol: Bytes,
    pub value: WishValue,
    /// The number of the line, from 1.
    pub line: u32,
}

/// Wishes in the order of their lines. Lines rise, and no symbol stands twice.
#[derive(Debug, Drop)]
pub struct Wishes {
    items: Vec<Wish>,
}

impl Model for Wishes {
    ghost use Rattle.std.specs.Prelude.{List};
    ghost use Rattle.kc_menu.specs.declared.wishes.Wish.{Wish};
    ghost use Rattle.kc_menu.specs.Wishes.{AreWishes};

    ghost Value = { List Wish };

    ghost view = { λ w. w.items.items };

    ghost invariant = { λ w. AreWishes w.items.items };
}

impl Wishes {
    ghost use Rattle.kc_menu.specs.Wishes.{AreWishes};

    /// The wishes of this list.
    pub fn new(items: Vec<Wish>) -> Wishes
        requires { AreWishes items.items }
        ensures { result ≡ items.items }
    {
        Wishes { items }
    }

    /// The wishes, in the order of their lines.
    pub fn as_slice(&self) -> &[Wish]
        ensures wishes { result.now ≡ self.now }
        ensures apart { AreWishes self.now }
    {
        self.items.as_slice()
    }
}
