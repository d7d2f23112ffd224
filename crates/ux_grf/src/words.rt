//! The words of a text: what stands between its spaces, or between its spaces and tabs.
//!
//! `specs/Words.antt` has the definition. Words are lent slices of the text.

ghost use Rattle.std.specs.Prelude.{◌≡◌, ◌+◌, ◌<◌, [], ◌∷◌, ◌++◌, filter, length, take, drop, map, IfOk, MatchOption, slice_index};
ghost use Rattle.ux_grf.specs.Words.{has_byte, is_gap, words_of, HasNoGapBefore, IsFirstGap};

use std::alloc::{AllocError, Global};

/// What stands between words.
#[derive(Clone, Copy)]
pub enum Gap {
    /// Spaces.
    Spaces,
    /// Spaces and tabs.
    Blanks,
}

/// The words of the text, in order.
pub fn words<'a>(alloc: Global, gap: Gap, text: &'a str) -> Result<Vec<&'a str>, AllocError>
    ensures { IfOk result (λ words. map (λ w. w.now) words.items ≡ words_of gap text.now) }
{
    let mut words = Vec::new(alloc);
    let mut rest = text;
    while !rest.is_empty() {
        let (word, after) = first_word(gap, rest);
        if !word.is_empty() {
            words.push(word)?;
        }
        rest = after;
    }
    Ok(words)
}

/// What stands before the first gap, and what stands after that gap.
fn first_word(gap: Gap, text: &str) -> (&str, &str)
    requires { 0 < length text.now }
    ensures words { words_of gap text.now
        ≡ filter has_byte (result.0.now ∷ []) ++ words_of gap result.1.now }
    ensures shorter { length result.1.now < length text.now }
{
    match first_gap(gap, text) {
        Some(end) => (&text[..end], after(text, end)),
        None => (text, &text[text.len()..]),
    }
}

/// The place of the first gap.
fn first_gap(gap: Gap, text: &str) -> Option<usize>
    ensures { MatchOption result (HasNoGapBefore gap text.now (length text.now)) (IsFirstGap gap text.now) }
{
    text.as_bytes()
        .iter()
        .position(|byte| is_gap_byte(gap, *byte))
}

/// Whether the byte stands between words.
pub fn is_gap_byte(gap: Gap, byte: u8) -> bool
    ensures { result ≡ is_gap gap byte }
{
    match gap {
        Gap::Spaces => byte == b' ',
        Gap::Blanks => byte == b' ' || byte == b'\t',
    }
}

/// What stands after an ASCII character.
pub fn after(text: &str, place: usize) -> &str
    requires inside { place < length text.now }
    requires ascii { slice_index text.now place < 128 }
    ensures { result.now ≡ drop (place + 1) text.now }
{
    &text[place + 1..]
}

/// What stands before an ASCII character.
pub fn before(text: &str, place: usize) -> &str
    requires inside { place < length text.now }
    requires ascii { slice_index text.now place < 128 }
    ensures { result.now ≡ take place text.now }
{
    &text[..place]
}

/// What stands from an ASCII character on.
pub fn from(text: &str, place: usize) -> &str
    requires inside { place < length text.now }
    requires ascii { slice_index text.now place < 128 }
    ensures { result.now ≡ drop place text.now }
{
    &text[place..]
}

/// What stands up to an ASCII character, with it.
pub fn through(text: &str, place: usize) -> &str
    requires inside { place < length text.now }
    requires ascii { slice_index text.now place < 128 }
    ensures { result.now ≡ take (place + 1) text.now }
{
    &text[..place + 1]
}
