//! Which readings a mask accepts.

ghost use Rattle.std.specs.Prelude.{◌↔◌, IsTrue};
ghost use Rattle.ux_reading_match.specs.Matching.{Accepts, AcceptsEntry, AcceptsForm, AcceptsRaw, IsDigit, IsSpelled};

use crate::spelling::{Case, is_cased, is_wordy, is_wordy_otherwise};
use ux_alphabet::Alphabet;
use ux_dela::Entry;
use ux_masks::Mask;
use ux_sentence::Reading;

/// Whether the mask accepts the reading. Takes no memory.
pub fn accepts(mask: &Mask, reading: &Reading, alphabet: &Alphabet) -> bool
    ensures { IsTrue result ↔ Accepts alphabet.now mask.now reading.now }
{
    match reading {
        Reading::Word(entry) => accepts_entry(mask, entry, alphabet),
        Reading::Raw(text) => accepts_raw(mask, text.as_str(), alphabet),
    }
}

/// Whether the mask accepts the entry.
fn accepts_entry(mask: &Mask, entry: &Entry, alphabet: &Alphabet) -> bool
    ensures { IsTrue result ↔ AcceptsEntry alphabet.now mask.now entry.now }
{
    match mask.lexical() {
        Some(_) => mask.meets(entry),
        None => accepts_form(mask, entry.form.as_str(), alphabet),
    }
}

/// Whether the mask accepts an entry of this form, whatever else it has.
fn accepts_form(mask: &Mask, form: &str, alphabet: &Alphabet) -> bool
    ensures { IsTrue result ↔ AcceptsForm alphabet.now mask.now form.now }
{
    match mask {
        Mask::Token | Mask::Dic => true,
        Mask::SDic => is_wordy(form, alphabet),
        Mask::CDic => !is_wordy(form, alphabet),
        Mask::Word
        | Mask::Lower
        | Mask::NotLower
        | Mask::Upper
        | Mask::NotUpper
        | Mask::First
        | Mask::NotFirst => is_spelled(mask, form, alphabet),
        Mask::NotWord
        | Mask::NotDic
        | Mask::NotSDic
        | Mask::TDic
        | Mask::Nb
        | Mask::Lexical(_)
        | Mask::NotLexical(_) => false,
    }
}

/// Whether the mask accepts the text, which has no entry.
fn accepts_raw(mask: &Mask, text: &str, alphabet: &Alphabet) -> bool
    ensures { IsTrue result ↔ AcceptsRaw alphabet.now mask.now text.now }
{
    match mask {
        Mask::Token => true,
        Mask::NotWord => !is_wordy(text, alphabet),
        Mask::NotDic | Mask::NotSDic | Mask::NotLexical(_) => is_wordy(text, alphabet),
        Mask::Nb => is_digit(text),
        Mask::Word
        | Mask::Lower
        | Mask::NotLower
        | Mask::Upper
        | Mask::NotUpper
        | Mask::First
        | Mask::NotFirst => is_spelled(mask, text, alphabet),
        Mask::Dic | Mask::SDic | Mask::CDic | Mask::TDic | Mask::Lexical(_) => false,
    }
}

/// Whether the mask asks for letters alone, and the text has them.
fn is_spelled(mask: &Mask, text: &str, alphabet: &Alphabet) -> bool
    ensures { IsTrue result ↔ IsSpelled alphabet.now mask.now text.now }
{
    match mask {
        Mask::Word => is_wordy(text, alphabet),
        Mask::Lower => is_cased(text, alphabet, Case::Lower),
        Mask::NotLower => is_wordy_otherwise(text, alphabet, Case::Lower),
        Mask::Upper => is_cased(text, alphabet, Case::Upper),
        Mask::NotUpper => is_wordy_otherwise(text, alphabet, Case::Upper),
        Mask::First => is_cased(text, alphabet, Case::First),
        Mask::NotFirst => is_wordy_otherwise(text, alphabet, Case::First),
        Mask::NotWord
        | Mask::Dic
        | Mask::NotDic
        | Mask::SDic
        | Mask::NotSDic
        | Mask::CDic
        | Mask::TDic
        | Mask::Nb
        | Mask::Token
        | Mask::Lexical(_)
        | Mask::NotLexical(_) => false,
    }
}

/// Whether the text is one digit from 0 to 9.
fn is_digit(text: &str) -> bool
    ensures { IsTrue result ↔ IsDigit text.now }
{
    match text.as_bytes() {
        [byte] => byte.is_ascii_digit(),
        _ => false,
    }
}
