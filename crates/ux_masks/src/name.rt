//! Names of a mask text: where each ends, and what it means.
//!
//! A name ends before the first sign that no backslash protects. Signs are ASCII, so no text is cut
//! within a character.

ghost use Rattle.std.specs.Prelude.{◌≡◌, ◌<◌, ◌≤◌, ◌==◌, ◌↔◌, ◌++◌, ◌∷◌, true, if◌then◌else◌, length, take, drop, string_bytes, IsTrue, All, IfOk, MatchOption};
ghost use Rattle.std.specs.Str.{IsUtf8};
ghost use Rattle.ux_dela.specs.Reading.{characters, characters_from, IsPartEnd, IsSplit};
ghost use Rattle.ux_dela.specs.Signs.{BACKSLASH};
ghost use Rattle.ux_dela.specs.Written.{meant};
ghost use Rattle.ux_masks.specs.Names.{protects, means, IsBackslashAt};
ghost use Rattle.ux_masks.specs.Pieces.{is_code_name};
ghost use Rattle.ux_masks.specs.Signs.{is_sign, is_capital, is_code_character};

use std::alloc::{AllocError, Global};
use ux_base::Txt;

/// The name at the front of the text, and the rest from what ends the name on.
pub fn split_name(text: &str) -> (&str, &str)
    ensures split { IsSplit is_sign text.now result.0.now result.1.now }
    // Callers that go on with the rest in a loop have to know that it is text.
    ensures utf8 { IsUtf8 result.1.now }
{
    let end = name_len(text.as_bytes());
    (&text[..end], &text[end..])
}

/// How many bytes the name at the front has.
fn name_len(text: &[u8]) -> usize
    ensures within { result ≤ length text.now }
    ensures split { IsSplit is_sign text.now (take result text.now) (drop result text.now) }
{
    let mut place = 0;
    while !is_name_end(&text[place..]) {
        place += written_len(text[place]);
    }
    place
}

/// Whether a name ends before this rest of a text.
fn is_name_end(rest: &[u8]) -> bool
    ensures { IsTrue result ↔ IsPartEnd is_sign rest.now }
{
    match rest {
        [] | [b'\\'] => true,
        [byte, ..] => is_sign_byte(*byte),
    }
}

/// How many bytes a character takes that is written with this byte in front, if it is ASCII.
fn written_len(byte: u8) -> usize
    ensures { result ≡ (if byte == BACKSLASH then 2 else 1) }
{
    if byte == b'\\' { 2 } else { 1 }
}

/// Whether no name has the byte bare.
fn is_sign_byte(byte: u8) -> bool
    ensures { result ≡ is_sign byte }
{
    matches!(byte, b',' | b'.' | b'+' | b':' | b'~' | b'!' | b'<' | b'>')
}

/// Whether a name alone is taken for a code.
pub fn is_code(name: &str) -> bool
    ensures { result ≡ is_code_name (characters name.now) }
{
    match name.as_bytes() {
        [] => false,
        [first, ..] => is_capital_byte(*first) && are_code_bytes(name.as_bytes()),
    }
}

/// Whether each byte may stand in a code of capital letters.
fn are_code_bytes(name: &[u8]) -> bool
    ensures { IsTrue result ↔ All (λ b. is_code_character b ≡ true) name.now }
{
    name.iter().all(|byte| is_code_byte(*byte))
}

/// Whether the byte may stand in a code of capital letters.
fn is_code_byte(byte: u8) -> bool
    ensures { result ≡ is_code_character byte }
{
    is_capital_byte(byte) || (byte >= b'0' && byte <= b'9') || byte == b'_'
}

/// Whether the byte is a letter from A to Z.
fn is_capital_byte(byte: u8) -> bool
    ensures { result ≡ is_capital byte }
{
    byte >= b'A' && byte <= b'Z'
}

/// What the name means: each character without the backslash that protects it. Its memory has no
/// room to spare.
pub fn meaning(alloc: Global, name: &str) -> Result<Txt, AllocError>
    ensures { IfOk result (λ text. text ≡ meant (characters name.now)) }
{
    let mut text = String::with_capacity(alloc, name.len())?;
    let mut rest = name;
    let mut protected = false;
    while let Some(place) = find_backslash(protected, rest.as_bytes()) {
        text.push_str(&rest[..place])?;
        rest = &rest[place + 1..];
        protected = true;
    }
    text.push_str(rest)?;
    text.shrink_to_fit();
    Ok(Txt::new(text))
}

/// The place of the first backslash that protects. The first byte may be protected from outside.
fn find_backslash(protected: bool, text: &[u8]) -> Option<usize>
    requires { protected ≡ true → 0 < length text.now }
    ensures { MatchOption result (means protected text.now ≡ text.now)
        (IsBackslashAt protected text.now) }
{
    let mut now_protected = protected;
    for (place, byte) in text.iter().enumerate() {
        if !now_protected && is_protecting(*byte, &text[place + 1..]) {
            return Some(place);
        }
        now_protected = false;
    }
    None
}

/// Whether the byte in front of this text is a backslash that protects.
fn is_protecting(byte: u8, behind: &[u8]) -> bool
    ensures { result ≡ protects byte behind.now }
{
    byte == b'\\' && !behind.is_empty()
}
