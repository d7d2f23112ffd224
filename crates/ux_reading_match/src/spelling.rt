//! How texts are spelled: their letters, and the cases of these.

ghost use Rattle.std.specs.Prelude.{◌↔◌, All, IsTrue};
ghost use Rattle.std.specs.List.{AllZip};
ghost use Rattle.std.specs.Str.{chars};
ghost use Rattle.ux_alphabet.specs.Letters.{Fits, IsLetter, IsLower, IsUpper};
ghost use Rattle.ux_reading_match.specs.Matching.{BeginsSo, IsWordy, IsWordyNot, IsWordySo};
ghost use Rattle.ux_reading_match.specs.Cases.{IsOfCase};

use ux_alphabet::Alphabet;

/// What a mask asks of letters.
#[derive(Clone, Copy)]
pub(crate) enum Case {
    /// Lower-case letters alone.
    Lower,
    /// Upper-case letters alone.
    Upper,
    /// An upper-case letter first.
    First,
}

/// Whether the text is one or more letters, of this case.
pub(crate) fn is_cased(text: &str, alphabet: &Alphabet, case: Case) -> bool
    ensures { IsTrue result ↔ IsWordySo alphabet.now (IsOfCase alphabet.now case) text.now }
{
    is_wordy(text, alphabet) && is_of_case(text, alphabet, case)
}

/// Whether the text is one or more letters, not of this case.
pub(crate) fn is_wordy_otherwise(text: &str, alphabet: &Alphabet, case: Case) -> bool
    ensures { IsTrue result ↔ IsWordyNot alphabet.now (IsOfCase alphabet.now case) text.now }
{
    is_wordy(text, alphabet) && !is_of_case(text, alphabet, case)
}

/// Whether the text is one or more letters.
pub(crate) fn is_wordy(text: &str, alphabet: &Alphabet) -> bool
    ensures { IsTrue result ↔ IsWordy alphabet.now text.now }
{
    !text.is_empty() && are_letters(text, alphabet)
}

/// Whether each character of the text is a letter.
fn are_letters(text: &str, alphabet: &Alphabet) -> bool
    ensures { IsTrue result ↔ All (IsLetter alphabet.now) (chars text.now) }
{
    let mut all = true;
    for c in text.chars() {
        if !alphabet.is_letter(c) {
            all = false;
        }
    }
    all
}

/// Whether the text is of the case.
fn is_of_case(text: &str, alphabet: &Alphabet, case: Case) -> bool
    ensures { IsTrue result ↔ IsOfCase alphabet.now case (chars text.now) }
{
    match case {
        Case::Lower => is_lower(text, alphabet),
        Case::Upper => is_upper(text, alphabet),
        Case::First => begins_upper(text, alphabet),
    }
}

/// Whether the text has lower-case letters alone.
fn is_lower(text: &str, alphabet: &Alphabet) -> bool
    ensures { IsTrue result ↔ All (IsLower alphabet.now) (chars text.now) }
{
    let mut all = true;
    for c in text.chars() {
        if !alphabet.is_lower(c) {
            all = false;
        }
    }
    all
}

/// Whether the text has upper-case letters alone.
fn is_upper(text: &str, alphabet: &Alphabet) -> bool
    ensures { IsTrue result ↔ All (IsUpper alphabet.now) (chars text.now) }
{
    let mut all = true;
    for c in text.chars() {
        if !alphabet.is_upper(c) {
            all = false;
        }
    }
    all
}

/// Whether the text's first character is an upper-case letter.
fn begins_upper(text: &str, alphabet: &Alphabet) -> bool
    ensures { IsTrue result ↔ BeginsSo (IsUpper alphabet.now) (chars text.now) }
{
    match text.chars().next() {
        Some(c) => alphabet.is_upper(c),
        None => false,
    }
}

/// Whether a text has as many characters as the entry, and each of the entry's fits.
pub(crate) fn fits_text(alphabet: &Alphabet, entry: &str, text: &str) -> bool
    ensures { IsTrue result ↔ AllZip (Fits alphabet.now) (chars entry.now) (chars text.now) }
{
    let mut rest = entry.chars();
    for c in text.chars() {
        let Some(first) = rest.next() else {
            return false;
        };
        if !alphabet.fits(first, c) {
            return false;
        }
    }
    match rest.next() {
        Some(_) => false,
        None => true,
    }
}
