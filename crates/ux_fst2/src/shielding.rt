//! Texts with a backslash before some of their signs.

ghost use Rattle.std.specs.Prelude.{◌≡◌, ◌+◌, ◌<◌, ◌++◌, ◌∷◌, [], length, take, drop, slice_index, string_bytes, OnOk, MatchOption};
ghost use Rattle.ux_dela.specs.Printed.{shielded};
ghost use Rattle.ux_dela.specs.Written.{written};
ghost use Rattle.ux_grf.specs.Protection.{BACKSLASH};
ghost use Rattle.ux_fst2.specs.Inner.{is_shielded, IsShieldedAt};

use std::alloc::AllocError;

/// The signs that get a backslash.
#[derive(Clone, Copy)]
pub(crate) enum Signs {
    /// Those that mean something in the text of a token.
    Text,
    /// Those that mean something in an output.
    Output,
    /// All but ASCII letters, digits, `_` and characters past ASCII.
    Name,
}

/// Puts the text, with a backslash before each of the signs.
pub(crate) fn put_shielded(out: &mut String, signs: Signs, text: &str) -> Result<(), AllocError>
    ensures { OnOk result (string_bytes out.new
        ≡ string_bytes out.old ++ written (shielded (is_shielded signs) text.now)) }
{
    let mut rest = text;
    while let Some(place) = find_sign(signs, rest.as_bytes()) {
        put_sign(out, before(rest, place), sign_at(rest, place))?;
        rest = behind(rest, place);
    }
    out.push_str(rest)
}

/// Puts the text before a sign, a backslash and the sign.
fn put_sign(out: &mut String, front: &str, sign: &str) -> Result<(), AllocError>
    ensures { OnOk result (string_bytes out.new
        ≡ string_bytes out.old ++ (front.now ++ BACKSLASH ∷ sign.now)) }
{
    out.push_str(front)?;
    out.push_str("\\")?;
    out.push_str(sign)
}

/// The place of the first such sign.
fn find_sign(signs: Signs, text: &[u8]) -> Option<usize>
    ensures { MatchOption result (written (shielded (is_shielded signs) text.now) ≡ text.now)
        (IsShieldedAt signs text.now) }
{
    for (place, byte) in text.iter().enumerate() {
        if is_shielded_byte(signs, *byte) {
            return Some(place);
        }
    }
    None
}

fn is_shielded_byte(signs: Signs, byte: u8) -> bool
    ensures { result ≡ is_shielded signs byte }
{
    match signs {
        Signs::Text => matches!(
            byte,
            b'+' | b'/'
                | b':'
                | b'<'
                | b'>'
                | b'"'
                | b'{'
                | b'}'
                | b'$'
                | b'#'
                | b'\\'
                | b' '
                | b'\t'
        ),
        Signs::Output => matches!(byte, b'\\' | b'$' | b'<'),
        Signs::Name => byte < 128 && !byte.is_ascii_alphanumeric() && byte != b'_',
    }
}

/// What stands before an ASCII character.
fn before(text: &str, place: usize) -> &str
    requires inside { place < length text.now }
    requires ascii { slice_index text.now place < 128 }
    ensures { result.now ≡ take place text.now }
{
    &text[..place]
}

/// What stands behind an ASCII character.
fn behind(text: &str, place: usize) -> &str
    requires inside { place < length text.now }
    requires ascii { slice_index text.now place < 128 }
    ensures { result.now ≡ drop (place + 1) text.now }
{
    &text[place + 1..]
}

/// The ASCII character at a place.
fn sign_at(text: &str, place: usize) -> &str
    requires inside { place < length text.now }
    requires ascii { slice_index text.now place < 128 }
    ensures { result.now ≡ slice_index text.now place ∷ [] }
{
    &text[place..place + 1]
}
