//! The fields of a line, and its numbers. Fields are lent, and parted by spaces alone.

ghost use Rattle.std.specs.Prelude.{◌≡◌, ◌<◌, ◌↔◌, ◌∷◌, [], ℕ, List, length, IsTrue, MatchOption};
ghost use Rattle.std.specs.Str.Parse.{IsNumeral};
ghost use Rattle.ux_fst2_file.specs.Fields.{SPACE, IsNumber, begins_with_field, before_space, fields_of, from_space, without_end_spaces, without_spaces};
ghost use Rattle.ux_fst2_file.specs.Lines.{MINUS};
ghost use Rattle.bstr.specs.Find.{IsFirstByte, is_byte};

use bstr::ByteSlice;

/// Whether a field begins the text.
pub(crate) fn has_field_first(text: &str) -> bool
    ensures { result ≡ begins_with_field text.now }
{
    match text.as_bytes().first() {
        Some(byte) => *byte != b' ',
        None => false,
    }
}

/// The text behind a `-`, which begins it.
pub(crate) fn behind_minus(text: &str) -> Option<&str>
    ensures { MatchOption result ((rest : List ℕ) → text.now ≡ MINUS ∷ rest → ⊥)
        (λ rest. text.now ≡ MINUS ∷ rest.now) }
{
    text.strip_prefix('-')
}

/// The text without the spaces before its first field.
pub(crate) fn skip_spaces(text: &str) -> &str
    ensures { result.now ≡ without_spaces text.now }
{
    text.trim_start_matches(' ')
}

/// The text without the spaces at its end.
pub(crate) fn trim_end(text: &str) -> &str
    ensures { result.now ≡ without_end_spaces text.now }
{
    text.trim_end_matches(' ')
}

/// The place of the first space.
fn first_space(text: &str) -> Option<usize>
    ensures { IsFirstByte (is_byte SPACE) text.now result }
{
    text.as_bytes().find_byte(b' ')
}

/// What stands before the first space, and the text from there on.
pub(crate) fn split_field(text: &str) -> (&str, &str)
    ensures field { result.0.now ≡ before_space text.now }
    ensures rest { result.1.now ≡ from_space text.now }
{
    match first_space(text) {
        Some(end) => (&text[..end], &text[end..]),
        None => (text, &text[text.len()..]),
    }
}

/// The first field of a text, and what stands behind it.
pub(crate) fn next_field(text: &str) -> Option<(&str, &str)>
    ensures { MatchOption result (fields_of text.now ≡ [])
        (λ (field, rest). (fields_of text.now ≡ field.now ∷ fields_of rest.now)
        × (length rest.now < length text.now)) }
{
    let text = skip_spaces(text);
    if text.is_empty() {
        return None;
    }
    Some(split_field(text))
}

/// Whether the text is digits, one at least.
fn is_numeral(text: &str) -> bool
    ensures { IsTrue result ↔ IsNumeral 10 text.now }
{
    for byte in text.as_bytes() {
        if !byte.is_ascii_digit() {
            return false;
        }
    }
    !text.is_empty()
}

/// The number that the text is. What 32 bits don't hold is as their greatest number.
pub(crate) fn read_number(text: &str) -> Option<u32>
    ensures { MatchOption result ((number : ℕ) → IsNumber text.now number → ⊥)
        (IsNumber text.now) }
{
    if !is_numeral(text) {
        return None;
    }
    Some(text.parse::<u32>().unwrap_or(u32::MAX))
}
