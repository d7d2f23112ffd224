//! How words are spelled: the cases of their letters.

ghost use Rattle.std.specs.Prelude.{◌↔◌, All, IsTrue};
ghost use Rattle.std.specs.Str.{chars};
ghost use Rattle.ux_alphabet.specs.Letters.{IsLower, IsUpper};
ghost use Rattle.ux_lexical_tables.specs.Accepting.{BeginsSo};
ghost use Rattle.ux_lexical_tables.specs.Ends.{IsOfCase};

use ux_alphabet::Alphabet;

/// What a mask asks of a word's letters.
#[derive(Clone, Copy)]
pub(crate) enum Case {
    /// Lower-case letters alone.
    Lower,
    /// Upper-case letters alone.
    Upper,
    /// An upper-case letter first.
    First,
}

/// Whether the word is of the case. Takes a step a character.
pub(crate) fn is_of_case(word: &str, alphabet: &Alphabet, case: Case) -> bool
    ensures { IsTrue result ↔ IsOfCase alphabet.now case (chars word.now) }
{
    match case {
        Case::Lower => is_lower(word, alphabet),
        Case::Upper => is_upper(word, alphabet),
        Case::First => begins_upper(word, alphabet),
    }
}

/// Whether the word has lower-case letters alone.
fn is_lower(word: &str, alphabet: &Alphabet) -> bool
    ensures { IsTrue result ↔ All (IsLower alphabet.now) (chars word.now) }
{
    let mut all = true;
    for c in word.chars() {
        if !alphabet.is_lower(c) {
            all = false;
        }
    }
    all
}

/// Whether the word has upper-case letters alone.
fn is_upper(word: &str, alphabet: &Alphabet) -> bool
    ensures { IsTrue result ↔ All (IsUpper alphabet.now) (chars word.now) }
{
    let mut all = true;
    for c in word.chars() {
        if !alphabet.is_upper(c) {
            all = false;
        }
    }
    all
}

/// Whether the word's first letter is an upper-case one.
fn begins_upper(word: &str, alphabet: &Alphabet) -> bool
    ensures { IsTrue result ↔ BeginsSo (IsUpper alphabet.now) (chars word.now) }
{
    match word.chars().next() {
        Some(c) => alphabet.is_upper(c),
        None => false,
    }
}
