//! The parts of a line: where each ends, and what stands behind it.
//!
//! A part ends before the first sign of its kind that no backslash protects. Places are those of
//! ASCII signs, so no text is cut within a character.

ghost use Rattle.std.specs.Prelude.{◌≡◌, ◌<◌, ◌≤◌, ◌+◌, ◌==◌, ◌↔◌, IsTrue, if◌then◌else◌, ◌∷◌, [], length, take, drop, slice_index};
ghost use Rattle.ux_dela.specs.Reading.{is_stop, characters, Begins, IsPartEnd, IsSplit, Splits};
ghost use Rattle.std.specs.Str.{IsUtf8};
ghost use Rattle.ux_dela.specs.Signs.{BACKSLASH};
ghost use Rattle.ux_dela.specs.Written.{has_bare};

/// The signs at which a part ends.
#[derive(Clone, Copy)]
pub enum Stop {
    /// `,`, which ends a form.
    Comma,
    /// `.`, which ends a lemma.
    Dot,
    /// `/`, which ends the codes.
    Slash,
    /// `+` or `:`, which end a code.
    Code,
    /// `:`, which ends an inflection code.
    Colon,
    /// `+`, which ends a code of a line of lemmas.
    Plus,
    /// `=`, a mark.
    Equals,
    /// `{` or `}`.
    Brace,
}

/// The first part of a text.
#[derive(Clone, Copy)]
pub enum Split<'a> {
    /// A sign ends the part. Something or nothing stands behind the sign.
    Ended { part: &'a str, behind: &'a str },
    /// The part is the whole text.
    Last { part: &'a str },
    /// A backslash ends the text, with no character behind it.
    Open,
}

/// The first part of the text.
pub fn first_part(stop: Stop, text: &str) -> Split<'_>
    ensures { Splits (is_stop stop) text.now result }
{
    let (part, rest) = split_part(stop, text);
    match rest.as_bytes().first() {
        None => Split::Last { part },
        Some(b'\\') => Split::Open,
        Some(_) => Split::Ended {
            part,
            behind: &rest[1..],
        },
    }
}

/// The first part of the text, and the rest from what ends the part on.
pub fn split_part(stop: Stop, text: &str) -> (&str, &str)
    ensures split { IsSplit (is_stop stop) text.now result.0.now result.1.now }
    // Callers that go on with the rest in a loop have to know that it is text.
    ensures utf8 { IsUtf8 result.1.now }
{
    let end = part_len(stop, text.as_bytes());
    (&text[..end], &text[end..])
}

/// How many bytes the first part has.
fn part_len(stop: Stop, text: &[u8]) -> usize
    ensures within { result ≤ length text.now }
    ensures split { IsSplit (is_stop stop) text.now (take result text.now) (drop result text.now) }
{
    let mut place = 0;
    while !is_part_end(stop, &text[place..]) {
        place += written_len(text[place]);
    }
    place
}

/// Whether a part ends before this rest of a text.
fn is_part_end(stop: Stop, rest: &[u8]) -> bool
    ensures { IsTrue result ↔ IsPartEnd (is_stop stop) rest.now }
{
    match rest {
        [] | [b'\\'] => true,
        [byte, ..] => is_stop_byte(stop, *byte),
    }
}

/// How many bytes a character takes that is written with this byte in front, if it is ASCII.
fn written_len(byte: u8) -> usize
    ensures { result ≡ (if byte == BACKSLASH then 2 else 1) }
{
    if byte == b'\\' { 2 } else { 1 }
}

/// Whether such a sign stands bare in the text.
pub fn has_bare_sign(stop: Stop, text: &str) -> bool
    ensures { result ≡ has_bare (is_stop stop) (characters text.now) }
{
    let mut protected = false;
    for byte in text.as_bytes() {
        if is_stop_byte(stop, *byte) && !protected {
            return true;
        }
        protected = *byte == b'\\' && !protected;
    }
    false
}

/// Whether the text begins with the byte.
pub fn begins_with(text: &str, byte: u8) -> bool
    ensures { IsTrue result ↔ Begins text.now byte }
{
    match text.as_bytes().first() {
        Some(first) => *first == byte,
        None => false,
    }
}

/// Whether the text is one backslash.
pub fn is_backslash(text: &str) -> bool
    ensures { IsTrue result ↔ (text.now ≡ BACKSLASH ∷ []) }
{
    text == "\\"
}

/// What stands before an ASCII character.
pub fn before(text: &str, place: usize) -> &str
    requires inside { place < length text.now }
    requires ascii { slice_index text.now place < 128 }
    ensures { result.now ≡ take place text.now }
{
    &text[..place]
}

/// What stands behind an ASCII character.
pub fn behind(text: &str, place: usize) -> &str
    requires inside { place < length text.now }
    requires ascii { slice_index text.now place < 128 }
    ensures { result.now ≡ drop (place + 1) text.now }
{
    &text[place + 1..]
}

fn is_stop_byte(stop: Stop, byte: u8) -> bool
    ensures { result ≡ is_stop stop byte }
{
    match stop {
        Stop::Comma => byte == b',',
        Stop::Dot => byte == b'.',
        Stop::Slash => byte == b'/',
        Stop::Code => byte == b'+' || byte == b':',
        Stop::Colon => byte == b':',
        Stop::Plus => byte == b'+',
        Stop::Equals => byte == b'=',
        Stop::Brace => byte == b'{' || byte == b'}',
    }
}
