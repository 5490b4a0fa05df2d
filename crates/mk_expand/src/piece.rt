//! The first piece of a text.
ghost use Rattle.std.specs.Prelude.{◌≡◌, ◌≤◌, drop, length};
ghost use Rattle.mk_expand.specs.Bracket.{close_of};
ghost use Rattle.mk_expand.specs.Piece.{reference_at, closed_len, behind_dollar, dollar_len, piece_of, piece_len};
ghost use Rattle.mk_expand.specs.Shown.{shown_piece};

use crate::bracket::Bracket;

/// A piece of a text.
#[derive(Drop)]
pub(crate) enum Piece<'a> {
    /// A byte that stands for itself, or `$$`, which stands for a dollar.
    Byte(u8),
    /// A `$` that begins nothing.
    Stray,
    /// A reference that doesn't close.
    Unclosed,
    /// A reference, by its brackets and its inside.
    Reference(Bracket, &'a [u8]),
}

/// The first piece of a text, given as its first byte and the rest, and what stands after the piece.
pub(crate) fn first_piece(first: u8, rest: &[u8]) -> (Piece<'_>, &[u8])
    ensures piece { shown_piece result.0 ≡ piece_of first rest.now }
    ensures behind { result.1.now ≡ drop (piece_len first rest.now) rest.now }
    ensures shorter { length result.1.now ≤ length rest.now }
{
    if first == b'$' {
        dollar(rest)
    } else {
        (Piece::Byte(first), rest)
    }
}

fn dollar(rest: &[u8]) -> (Piece<'_>, &[u8])
    ensures piece { shown_piece result.0 ≡ behind_dollar rest.now }
    ensures behind { result.1.now ≡ drop (dollar_len rest.now) rest.now }
    ensures shorter { length result.1.now ≤ length rest.now }
{
    let Some((next, behind)) = rest.split_first() else {
        return (Piece::Stray, rest);
    };
    match *next {
        b'$' => (Piece::Byte(b'$'), behind),
        b'(' => reference(Bracket::Round, behind),
        b'{' => reference(Bracket::Curly, behind),
        _ => (Piece::Stray, rest),
    }
}

fn reference(kind: Bracket, rest: &[u8]) -> (Piece<'_>, &[u8])
    ensures piece { shown_piece result.0 ≡ reference_at kind rest.now (close_of kind 0 0 rest.now) }
    ensures behind { result.1.now ≡ drop (closed_len (close_of kind 0 0 rest.now)) rest.now }
    ensures shorter { length result.1.now ≤ length rest.now }
{
    match kind.close(rest) {
        Some(place) => {
            (
                Piece::Reference(kind, rest.split_at(place).0),
                rest.split_at(place + 1).1,
            )
        }
        None => (Piece::Unclosed, rest),
    }
}
