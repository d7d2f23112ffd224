//! The token at a place of a text, and its number.

ghost use Rattle.std.specs.Prelude.{◌≡◌, ◌^◌, ◌<◌, Some, IfOk, OnOk, length, take, drop, slice_get};
ghost use Rattle.std.specs.Str.{IsCharBoundary};
ghost use Rattle.indexmap.specs.IndexSet.{index_set_len};
ghost use Rattle.ux_tokens.specs.First.{IsFront};
ghost use Rattle.ux_tokens.specs.Known.{AreKnown};
ghost use Rattle.ux_base.specs.Distinct.{with_text};
ghost use Rattle.ux_tokens.specs.Numbers.{texts_in};
ghost use Rattle.ux_tokens.specs.Regions.{IsFree};

use crate::first::first_token;
use crate::kind::Kind;
use crate::known::Known;
use crate::marks::mark_at;
use crate::numbering::number_of_kind;
use crate::piece::Piece;
use indexmap::IndexSet;
use std::alloc::AllocError;
use ux_alphabet::Alphabet;

/// The kind and the length in bytes of the token at a place, which is the mark where one begins
/// there. A mark begins with a character that is no letter, so that words and spaces cost no more.
fn token_at(alphabet: &Alphabet, text: &str, start: usize, free: &mut usize) -> (Kind, usize)
    requires some { start < length text.now }
    requires boundary { IsCharBoundary text.now start }
    requires free { IsFree text.now start free.old }
    ensures front { IsFront alphabet.now (drop start text.now) result.0 result.1 }
    ensures free { IsFree text.now start free.new }
{
    let (kind, len) = first_token(alphabet, &text[start..]);
    if kind == Kind::Other {
        return mark_at(text.as_bytes(), start, free).unwrap_or((kind, len));
    }
    (kind, len)
}

/// The token at a place of a text as a piece of what begins there, with its number.
// Two loops run it once a token.
#[inline(always)]
pub(crate) fn number_front<'a>(
    alphabet: &Alphabet,
    numbers: &mut IndexSet<&'a str>,
    known: &mut Known,
    free: &mut usize,
    text: &'a str,
    start: usize,
) -> Result<Piece, AllocError>
    requires some { start < length text.now }
    requires boundary { IsCharBoundary text.now start }
    requires free { IsFree text.now start free.old }
    requires room { index_set_len numbers.old < 2 ^ 32 }
    requires known { AreKnown (texts_in numbers.old) known.old }
    ensures front { IfOk result (λ piece.
        IsFront alphabet.now (drop start text.now) piece.kind piece.end) }
    ensures texts { IfOk result (λ piece. texts_in numbers.new
        ≡ with_text (texts_in numbers.old) (take piece.end (drop start text.now))) }
    ensures place { IfOk result (λ piece. slice_get (texts_in numbers.new) piece.number
        ≡ Some (take piece.end (drop start text.now))) }
    ensures known { OnOk result (AreKnown (texts_in numbers.new) known.new) }
    ensures free { OnOk result (IsFree text.now start free.new) }
{
    let (kind, end) = token_at(alphabet, text, start, free);
    let rest = &text[start..];
    let number = number_of_kind(numbers, known, kind, &rest[..end], rest.as_bytes())?;
    Ok(Piece { end, number, kind })
}
