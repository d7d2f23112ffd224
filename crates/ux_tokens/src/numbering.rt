//! The numbers of tokens: equal texts have the same, and numbers count by first appearance.

ghost use Rattle.std.specs.Prelude.{◌≡◌, ◌^◌, ◌<◌, ◌∷◌, [], Some, IfOk, OnOk, length, take, slice_get};
ghost use Rattle.std.specs.Int.{bytes_high_first};
ghost use Rattle.indexmap.specs.IndexSet.{index_set_len};
ghost use Rattle.ux_tokens.specs.Known.{AreKnown};
ghost use Rattle.ux_base.specs.Distinct.{with_text};
ghost use Rattle.ux_tokens.specs.Numbers.{texts_in};
ghost use Rattle.ux_tokens.specs.Tokens.{SPACE};
ghost use Rattle.ux_tokens.specs.declared.kind.Kind.TheVariants.{Space};

use crate::kind::Kind;
use crate::known::{Known, Short, short_front};
use indexmap::IndexSet;
use std::alloc::AllocError;

/// The number of a token, which is a new one where its text is new.
pub fn number_of<'a>(numbers: &mut IndexSet<&'a str>, token: &'a str) -> Result<u32, AllocError>
    requires { index_set_len numbers.old < 2 ^ 32 }
    ensures texts { OnOk result (texts_in numbers.new ≡ with_text (texts_in numbers.old) token.now) }
    ensures place { IfOk result (λ number. slice_get (texts_in numbers.new) number ≡ Some token.now) }
{
    let (number, _is_new) = numbers.insert_full(token)?;
    Ok(number as u32)
}

/// The number of a token of this kind, after which the text goes on. Nearly every second token is a
/// space, and most others are short: what was given to them is kept, so that few are looked up.
#[inline(always)]
pub(crate) fn number_of_kind<'a>(
    numbers: &mut IndexSet<&'a str>,
    known: &mut Known,
    kind: Kind,
    token: &'a str,
    rest: &[u8],
) -> Result<u32, AllocError>
    requires room { index_set_len numbers.old < 2 ^ 32 }
    requires known { AreKnown (texts_in numbers.old) known.old }
    requires is { kind ≡ Space → token.now ≡ SPACE ∷ [] }
    requires some { 0 < length token.now }
    requires front { take (length token.now) rest.now ≡ token.now }
    ensures texts { OnOk result (texts_in numbers.new ≡ with_text (texts_in numbers.old) token.now) }
    ensures place { IfOk result (λ number. slice_get (texts_in numbers.new) number ≡ Some token.now) }
    ensures known { OnOk result (AreKnown (texts_in numbers.new) known.new) }
{
    if kind == Kind::Space {
        return number_of_space(numbers, known, token);
    }
    match short_front(rest, token.len()) {
        Some(short) => number_of_short(numbers, known, short, token),
        None => number_of_long(numbers, known, token),
    }
}

/// The number of a space.
#[inline(always)]
fn number_of_space<'a>(
    numbers: &mut IndexSet<&'a str>,
    known: &mut Known,
    token: &'a str,
) -> Result<u32, AllocError>
    requires room { index_set_len numbers.old < 2 ^ 32 }
    requires known { AreKnown (texts_in numbers.old) known.old }
    requires is { token.now ≡ SPACE ∷ [] }
    ensures texts { OnOk result (texts_in numbers.new ≡ with_text (texts_in numbers.old) token.now) }
    ensures place { IfOk result (λ number. slice_get (texts_in numbers.new) number ≡ Some token.now) }
    ensures known { OnOk result (AreKnown (texts_in numbers.new) known.new) }
{
    if let Some(number) = known.space {
        return Ok(number);
    }
    let number = number_of(numbers, token)?;
    known.space = Some(number);
    Ok(number)
}

/// The number of a short text.
#[inline(always)]
fn number_of_short<'a>(
    numbers: &mut IndexSet<&'a str>,
    known: &mut Known,
    short: Short,
    token: &'a str,
) -> Result<u32, AllocError>
    requires room { index_set_len numbers.old < 2 ^ 32 }
    requires known { AreKnown (texts_in numbers.old) known.old }
    requires some { 0 < short.len }
    requires is { bytes_high_first short.len short.bytes ≡ token.now }
    ensures texts { OnOk result (texts_in numbers.new ≡ with_text (texts_in numbers.old) token.now) }
    ensures place { IfOk result (λ number. slice_get (texts_in numbers.new) number ≡ Some token.now) }
    ensures known { OnOk result (AreKnown (texts_in numbers.new) known.new) }
{
    if let Some(number) = known.find(short) {
        return Ok(number);
    }
    let number = number_of(numbers, token)?;
    known.put(short, number);
    Ok(number)
}

/// The number of another text.
fn number_of_long<'a>(
    numbers: &mut IndexSet<&'a str>,
    known: &Known,
    token: &'a str,
) -> Result<u32, AllocError>
    requires room { index_set_len numbers.old < 2 ^ 32 }
    requires known { AreKnown (texts_in numbers.old) known.now }
    ensures texts { OnOk result (texts_in numbers.new ≡ with_text (texts_in numbers.old) token.now) }
    ensures place { IfOk result (λ number. slice_get (texts_in numbers.new) number ≡ Some token.now) }
    ensures known { OnOk result (AreKnown (texts_in numbers.new) known.now) }
{
    number_of(numbers, token)
}
