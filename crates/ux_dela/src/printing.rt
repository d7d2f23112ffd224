//! Entries and their codes as text.
//!
//! What is printed reads back as the entry that it was printed from. `specs/Printed.antt` has the
//! definitions: which signs get a backslash depends on the part in which they stand.

ghost use Rattle.std.specs.Prelude.{◌≡◌, ℕ, ◌<◌, ◌++◌, ◌∷◌, [], length, slice_index, string_bytes, IsTrue, ◌↔◌, IfOk, OnOk, MatchOption};
ghost use Rattle.ux_base.specs.Lines.{lines_of};
ghost use Rattle.ux_dela.specs.Files.{AreEntries};
ghost use Rattle.ux_dela.specs.Printed.{IsCodesText, IsPrintable, printed, printed_codes, printed_list, shielded, shielded_form, shielded_lemma, all_shielded};
ghost use Rattle.ux_dela.specs.Reading.{characters, is_shielded, IsShieldedAt, MayBeCodes};
ghost use Rattle.ux_dela.specs.Signs.{DOT, BACKSLASH, is_printed_code_sign, is_slash};
ghost use Rattle.ux_dela.specs.Written.{IsPart, written, all_behind};
ghost use Rattle.ux_dela.specs.declared.entry.Codes.{Codes};

use crate::codes::{CodeFault, read_list};
use crate::entry::{Codes, Entry};
use crate::part::{Stop, before, begins_with, behind, split_part};
use crate::tag::has_feed;
use crate::texts::Texts;
use std::alloc::{AllocError, Global};
use ux_base::{NoMemory, Txt};

/// The signs that get a backslash.
#[derive(Clone, Copy)]
pub(crate) enum Signs {
    /// Those that end a form or a lemma, and marks.
    Form,
    /// Those that end a code.
    Code,
}

/// The entry as a line of forms, without a line feed. A printable entry reads back from it.
pub fn print_delaf(alloc: Global, entry: &Entry) -> Result<String, NoMemory>
    ensures line { IfOk result (λ line. string_bytes line ≡ printed entry.now) }
    ensures alone { IsPrintable entry.now → lines_of (printed entry.now) ≡ printed entry.now ∷ [] }
    ensures same { IsPrintable entry.now → AreEntries (printed entry.now) (entry.now ∷ []) }
{
    let mut line = String::new(alloc);
    put_entry(&mut line, entry)?;
    Ok(line)
}

/// The codes, as they stand in a line.
pub fn print_codes(alloc: Global, codes: &Codes) -> Result<String, NoMemory>
    ensures { IfOk result (λ text.
        string_bytes text ≡ printed_list codes.now.gram codes.now.sem codes.now.infl) }
{
    let mut text = String::new(alloc);
    put_codes(&mut text, &codes.gram, &codes.sem, &codes.infl)?;
    Ok(text)
}

/// The codes for which the text is what is printed, if there are any.
pub fn read_codes(alloc: Global, text: &str) -> Result<Option<Codes>, NoMemory>
    ensures { IfOk result (λ found. MatchOption found
        ((codes : Codes) → IsCodesText text.now codes → ⊥) (IsCodesText text.now)) }
{
    if !may_be_codes(text) {
        return Ok(None);
    }
    match read_list(alloc, text) {
        Ok(codes) => if_printed(alloc, text, codes),
        Err(CodeFault::Empty(_)) => Ok(None),
        Err(CodeFault::NoRoom) => Err(NoMemory),
    }
}

/// Whether the text has no line feed, and neither a comment nor a lone backslash ends it.
fn may_be_codes(text: &str) -> bool
    ensures { IsTrue result ↔ MayBeCodes text.now }
{
    !has_feed(text) && are_whole(text)
}

/// Whether no comment and no lone backslash ends the codes.
fn are_whole(text: &str) -> bool
    ensures { IsTrue result ↔ IsPart is_slash (characters text.now) }
{
    let (_, rest) = split_part(Stop::Slash, text);
    rest.is_empty()
}

/// The codes, if the text is what is printed for them.
fn if_printed(alloc: Global, text: &str, codes: Codes) -> Result<Option<Codes>, NoMemory>
    ensures { IfOk result (λ found. MatchOption found
        (text.now ≡ printed_list codes.gram codes.sem codes.infl → ⊥)
        (λ given. (given ≡ codes) × (text.now ≡ printed_list codes.gram codes.sem codes.infl))) }
{
    let mut printed = String::new(alloc);
    put_codes(&mut printed, &codes.gram, &codes.sem, &codes.infl)?;
    if printed.as_str() == text {
        return Ok(Some(codes));
    }
    Ok(None)
}

/// Puts the entry behind the line.
fn put_entry(line: &mut String, entry: &Entry) -> Result<(), AllocError>
    ensures { OnOk result (string_bytes line.new ≡ string_bytes line.old ++ printed entry.now) }
{
    put_form(line, entry.form.as_str())?;
    line.push_str(",")?;
    put_behind_form(line, entry)
}

/// Puts what stands behind the comma.
fn put_behind_form(line: &mut String, entry: &Entry) -> Result<(), AllocError>
    ensures { OnOk result (string_bytes line.new ≡ string_bytes line.old
        ++ (written (shielded_lemma entry.now.form entry.now.lemma)
        ++ (DOT ∷ printed_codes entry.now))) }
{
    put_lemma(line, entry.form.as_str(), entry.lemma.as_str())?;
    line.push_str(".")?;
    put_codes(line, &entry.gram, &entry.sem, &entry.infl)
}

/// Puts the form, with a backslash before a `/` that begins it.
fn put_form(line: &mut String, form: &str) -> Result<(), AllocError>
    ensures { OnOk result (string_bytes line.new
        ≡ string_bytes line.old ++ written (shielded_form form.now)) }
{
    if !begins_with(form, b'/') {
        return put_shielded(line, Signs::Form, form);
    }
    line.push_str("\\/")?;
    put_shielded(line, Signs::Form, &form[1..])
}

/// Puts the lemma, unless it is the form.
fn put_lemma(line: &mut String, form: &str, lemma: &str) -> Result<(), AllocError>
    ensures { OnOk result (string_bytes line.new
        ≡ string_bytes line.old ++ written (shielded_lemma form.now lemma.now)) }
{
    if lemma == form {
        return Ok(());
    }
    put_shielded(line, Signs::Form, lemma)
}

/// Puts the codes with their signs.
fn put_codes(text: &mut String, gram: &Txt, sem: &Texts, infl: &Texts) -> Result<(), AllocError>
    ensures { OnOk result (string_bytes text.new
        ≡ string_bytes text.old ++ printed_list gram.now sem.now infl.now) }
{
    put_shielded(text, Signs::Code, gram.as_str())?;
    put_all(text, "+", sem)?;
    put_all(text, ":", infl)
}

/// Puts the codes, with the sign before each.
fn put_all(text: &mut String, sign: &str, codes: &Texts) -> Result<(), AllocError>
    ensures { (byte : ℕ) → sign.now ≡ byte ∷ [] → OnOk result (string_bytes text.new
        ≡ string_bytes text.old
        ++ written (all_behind byte (all_shielded is_printed_code_sign codes.now))) }
{
    for number in 0..codes.len() {
        text.push_str(sign)?;
        put_shielded(text, Signs::Code, codes.text(number))?;
    }
    Ok(())
}

/// Puts the part, with a backslash before each of the signs.
fn put_shielded(text: &mut String, signs: Signs, part: &str) -> Result<(), AllocError>
    ensures { OnOk result (string_bytes text.new
        ≡ string_bytes text.old ++ written (shielded (is_shielded signs) part.now)) }
{
    let mut rest = part;
    while let Some(place) = find_sign(signs, rest.as_bytes()) {
        put_sign(text, before(rest, place), sign_at(rest, place))?;
        rest = behind(rest, place);
    }
    text.push_str(rest)
}

/// Puts the text before a sign, a backslash and the sign.
fn put_sign(text: &mut String, front: &str, sign: &str) -> Result<(), AllocError>
    ensures { OnOk result (string_bytes text.new
        ≡ string_bytes text.old ++ (front.now ++ BACKSLASH ∷ sign.now)) }
{
    text.push_str(front)?;
    text.push_str("\\")?;
    text.push_str(sign)
}

/// The place of the first such sign.
fn find_sign(signs: Signs, text: &[u8]) -> Option<usize>
    ensures { MatchOption result (written (shielded (is_shielded signs) text.now) ≡ text.now)
        (IsShieldedAt signs text.now) }
{
    for (place, byte) in text.iter().enumerate() {
        if is_shielded_byte(signs, *byte) {
            return Some(place);
        }
    }
    None
}

fn is_shielded_byte(signs: Signs, byte: u8) -> bool
    ensures { result ≡ is_shielded signs byte }
{
    match signs {
        Signs::Form => matches!(byte, b',' | b'.' | b'=' | b'\\'),
        Signs::Code => matches!(byte, b'+' | b':' | b'/' | b'\\'),
    }
}

/// The ASCII character at a place.
fn sign_at(text: &str, place: usize) -> &str
    requires inside { place < length text.now }
    requires ascii { slice_index text.now place < 128 }
    ensures { result.now ≡ slice_index text.now place ∷ [] }
{
    &text[place..place + 1]
}
