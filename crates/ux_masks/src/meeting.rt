//! Whether an entry has what a lexical mask asks for. Takes no memory.
//!
//! Inflection codes are compared by characters, since a character's bytes may lie within those of
//! others.

ghost use Rattle.std.specs.Prelude.{◌≡◌, ◌↔◌, IsTrue, All, Contains};
ghost use Rattle.std.specs.Str.{chars};
ghost use Rattle.ux_masks.specs.Meets.{IsTold, HasCode, HasCharacters, MeetsAlternative, MeetsSome, MeetsParts};

use crate::lexical::Parts;
use ux_base::{Lst, Txt};
use ux_dela::Entry;

/// Whether the entry has what the parts ask for.
pub fn meets_parts(parts: &Parts, entry: &Entry) -> bool
    ensures { IsTrue result ↔ MeetsParts parts.now entry.now }
{
    is_told(&parts.form, &entry.form)
        && is_told(&parts.lemma, &entry.lemma)
        && has_codes(entry, &parts.need)
        && has_no_code(entry, &parts.forbid)
        && meets_some(&parts.infl, entry)
}

/// Whether the text is the one that is told, if one is.
fn is_told(told: &Option<Txt>, text: &Txt) -> bool
    ensures { IsTrue result ↔ IsTold told.now text.now }
{
    match told {
        None => true,
        Some(told) => told == text,
    }
}

/// Whether the entry has each of the codes.
fn has_codes(entry: &Entry, codes: &Lst<Txt>) -> bool
    ensures { IsTrue result ↔ All (HasCode entry.now) codes.now }
{
    codes.as_slice().iter().all(|code| has_code(entry, code))
}

/// Whether the entry has none of the codes.
fn has_no_code(entry: &Entry, codes: &Lst<Txt>) -> bool
    ensures { IsTrue result ↔ All (λ code. HasCode entry.now code → ⊥) codes.now }
{
    !codes.as_slice().iter().any(|code| has_code(entry, code))
}

/// Whether the code is the grammatical code of the entry, or one of its semantic codes.
fn has_code(entry: &Entry, code: &Txt) -> bool
    ensures { IsTrue result ↔ HasCode entry.now code.now }
{
    entry.gram == *code || entry.sem.contains(code.as_str())
}

/// Whether one inflection code of the entry has all characters of one alternative, if there are any.
fn meets_some(alternatives: &Lst<Txt>, entry: &Entry) -> bool
    ensures { IsTrue result ↔ MeetsSome alternatives.now entry.now }
{
    if alternatives.as_slice().is_empty() {
        return true;
    }
    for alternative in alternatives.as_slice() {
        if meets_alternative(alternative, entry) {
            return true;
        }
    }
    false
}

/// Whether one inflection code of the entry has all characters of the alternative.
fn meets_alternative(alternative: &Txt, entry: &Entry) -> bool
    ensures { IsTrue result ↔ MeetsAlternative entry.now alternative.now }
{
    for number in 0..entry.infl.len() {
        if has_characters(entry.infl.text(number), alternative.as_str()) {
            return true;
        }
    }
    false
}

/// Whether the code has each character of the alternative. Takes a step for each pair of theirs.
fn has_characters(code: &str, alternative: &str) -> bool
    ensures { IsTrue result ↔ HasCharacters code.now alternative.now }
{
    let mut all = true;
    for wanted in alternative.chars() {
        if !has_character(code, wanted) {
            all = false;
        }
    }
    all
}

/// Whether the code has the character.
fn has_character(code: &str, wanted: char) -> bool
    ensures { IsTrue result ↔ Contains (chars code.now) wanted }
{
    let mut found = false;
    for character in code.chars() {
        if character == wanted {
            found = true;
        }
    }
    found
}
