//! What a part means: its text without the backslashes that protect, with its marks replaced.
//!
//! A part without a backslash and a mark is copied at once.

ghost use Rattle.std.specs.Prelude.{◌≡◌, ◌<◌, ◌++◌, ◌∷◌, [], true, length, string_bytes, IfOk, IfSome, IfNone, OnOk};
ghost use Rattle.ux_dela.specs.Reading.{characters, characters_from, mark_sign, mark_in, is_sign_before, IsSignAt};
ghost use Rattle.ux_dela.specs.Written.{meant_as};

use crate::joined::Joined;
use crate::part::{before, behind};
use std::alloc::{AllocError, Global};
use ux_base::Txt;

/// What a mark means, which is a bare `=`.
#[derive(Clone, Copy)]
pub enum Mark {
    /// A space.
    AsSpace,
    /// A hyphen.
    AsHyphen,
    /// A `=`, as any other character.
    AsItself,
}

/// The text that the part means. Its memory has no room to spare.
pub fn plain(alloc: Global, mark: Mark, part: &str) -> Result<Txt, AllocError>
    ensures { IfOk result (λ text. text ≡ meant_as (mark_sign mark) (characters part.now)) }
{
    let mut text = resolved(alloc, mark, part)?;
    text.shrink_to_fit();
    Ok(Txt::new(text))
}

/// Puts what the part means behind the texts. Only a part with a backslash or a mark takes memory
/// of its own, for the time of the call.
pub fn push_plain(
    alloc: Global,
    mark: Mark,
    part: &str,
    texts: &mut Joined,
) -> Result<(), AllocError>
    ensures { OnOk result (texts.new
        ≡ texts.old ++ meant_as (mark_sign mark) (characters part.now) ∷ []) }
{
    match find_sign(mark, false, part.as_bytes()) {
        None => texts.push(part),
        Some(_) => {
            let meant = resolved(alloc, mark, part)?;
            texts.push(meant.as_str())
        }
    }
}

/// The bytes that the part means.
fn resolved(alloc: Global, mark: Mark, part: &str) -> Result<String, AllocError>
    ensures { IfOk result (λ text. string_bytes text
        ≡ meant_as (mark_sign mark) (characters part.now)) }
{
    let mut text = String::with_capacity(alloc, part.len())?;
    let mut rest = part;
    let mut protected = false;
    while let Some(place) = find_sign(mark, protected, rest.as_bytes()) {
        let sign = rest.as_bytes()[place];
        put_front(&mut text, mark, before(rest, place), sign)?;
        rest = behind(rest, place);
        protected = sign == b'\\';
    }
    text.push_str(rest)?;
    Ok(text)
}

/// Puts the bytes before a sign behind the text, and what the sign means where it is a mark.
fn put_front(text: &mut String, mark: Mark, front: &str, sign: u8) -> Result<(), AllocError>
    ensures { OnOk result (string_bytes text.new
        ≡ string_bytes text.old ++ (front.now ++ mark_in (mark_sign mark) sign)) }
{
    text.push_str(front)?;
    if sign == b'=' {
        text.push_str(mark_text(mark))?;
    }
    Ok(())
}

/// The one byte that a mark means.
fn mark_text(mark: Mark) -> &'static str
    ensures { result.now ≡ mark_sign mark ∷ [] }
{
    match mark {
        Mark::AsSpace => " ",
        Mark::AsHyphen => "-",
        Mark::AsItself => "=",
    }
}

/// The place of the first sign that isn't copied: a backslash that protects, or a mark. The first
/// byte may be protected from outside.
fn find_sign(mark: Mark, protected: bool, text: &[u8]) -> Option<usize>
    requires { protected ≡ true → 0 < length text.now }
    ensures none { IfNone result
        (meant_as (mark_sign mark) (characters_from protected text.now) ≡ text.now) }
    ensures cut { IfSome result (λ place. IsSignAt (mark_sign mark) protected text.now place) }
{
    let mut now_protected = protected;
    for (place, byte) in text.iter().enumerate() {
        if !now_protected && is_sign(*byte, &text[place + 1..]) {
            return Some(place);
        }
        now_protected = false;
    }
    None
}

/// Whether the byte in front of this text is a mark or a backslash that protects.
fn is_sign(byte: u8, behind: &[u8]) -> bool
    ensures { result ≡ is_sign_before byte behind.now }
{
    byte == b'=' || (byte == b'\\' && !behind.is_empty())
}
