//! Backslashes: the signs that they protect, and texts without them.
//!
//! `specs/Protection.antt` has the definitions. A backslash protects the character after it, so no
//! text is cut within a character: places are those of ASCII signs.

ghost use Rattle.std.specs.Prelude.{◌≡◌, ◌+◌, ◌<◌, ◌++◌, false, true, length, take, drop, slice_index, string_bytes, IfOk, IfSome, IfNone};
ghost use Rattle.ux_grf.specs.Protection.{ends_literal, is_stop, first_free, ends_open, protects, resolved, BACKSLASH};

use crate::words::{after, before};
use std::alloc::{AllocError, Global};

/// The signs at which a part of a text ends.
#[derive(Clone, Copy)]
pub enum Stop {
    /// A quotation mark.
    Mark,
    /// `>`.
    Greater,
    /// `}`.
    CloseBrace,
    /// Any sign that isn't part of a literal.
    LiteralEnd,
}

/// Whose backslashes protect.
#[derive(Clone, Copy)]
pub enum Layer {
    /// Those that the file needs between quotation marks.
    File,
    /// Those of the box language.
    Language,
}

/// The place of the first such sign that no backslash protects.
pub fn find_free(stop: Stop, text: &str) -> Option<usize>
    ensures place { result ≡ first_free stop false text.now }
    ensures inside { IfSome result (λ place. place < length text.now) }
    ensures stop { IfSome result (λ place. is_stop stop (slice_index text.now place) ≡ true) }
{
    let mut protected = false;
    for (place, byte) in text.as_bytes().iter().enumerate() {
        if is_stop_byte(stop, *byte) && !protected {
            return Some(place);
        }
        protected = *byte == b'\\' && !protected;
    }
    None
}

fn is_stop_byte(stop: Stop, byte: u8) -> bool
    ensures { result ≡ is_stop stop byte }
{
    match stop {
        Stop::Mark => byte == b'"',
        Stop::Greater => byte == b'>',
        Stop::CloseBrace => byte == b'}',
        Stop::LiteralEnd => is_literal_end(byte),
    }
}

fn is_literal_end(byte: u8) -> bool
    ensures { result ≡ ends_literal byte }
{
    matches!(byte, b'"' | b'<' | b'{' | b'#' | b'+' | b'/' | b' ' | b'\t')
}

/// Whether the text ends in a backslash that protects nothing.
pub fn is_open(text: &str) -> bool
    ensures { result ≡ ends_open false text.now }
{
    let mut protected = false;
    for byte in text.as_bytes() {
        protected = *byte == b'\\' && !protected;
    }
    protected
}

/// The text without the backslashes that protect.
pub fn resolve(alloc: Global, layer: Layer, text: &str) -> Result<String, AllocError>
    ensures { IfOk result (λ plain. string_bytes plain ≡ resolved layer false text.now) }
{
    let mut plain = String::new(alloc);
    let mut rest = text;
    let mut protected = false;
    while let Some(place) = find_backslash(layer, protected, rest.as_bytes()) {
        plain.push_str(before(rest, place))?;
        rest = after(rest, place);
        protected = true;
    }
    plain.push_str(rest)?;
    Ok(plain)
}

/// The place of the first backslash that protects.
fn find_backslash(layer: Layer, protected: bool, text: &[u8]) -> Option<usize>
    ensures none { IfNone result (resolved layer protected text.now ≡ text.now) }
    ensures cut { IfSome result (λ place. resolved layer protected text.now
        ≡ take place text.now ++ resolved layer true (drop (place + 1) text.now)) }
    ensures inside { IfSome result (λ place. place < length text.now) }
    ensures backslash { IfSome result (λ place. slice_index text.now place ≡ BACKSLASH) }
{
    let mut now_protected = protected;
    for (place, byte) in text.iter().enumerate() {
        if *byte == b'\\' && !now_protected && may_protect(layer, &text[place + 1..]) {
            return Some(place);
        }
        now_protected = false;
    }
    None
}

/// Whether a backslash before this text protects its first character.
fn may_protect(layer: Layer, text: &[u8]) -> bool
    ensures { result ≡ protects layer text.now }
{
    match layer {
        Layer::File => text.first() == Some(&b'"') || text.first() == Some(&b'\\'),
        Layer::Language => true,
    }
}
