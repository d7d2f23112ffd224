//! How parts go on with the next character of a text.

ghost use Rattle.std.specs.Prelude.{◌≡◌, ℕ, List, All, IsTrue, OnOk, IfOk, [], ◌∷◌};
ghost use Rattle.std.specs.List.Sorted.{IsStrictlyIncreasing};
ghost use Rattle.std.specs.Str.{chars};
ghost use Rattle.ux_alphabet.specs.Letters.{Letters, FitsAlone};
ghost use Rattle.ux_dict.specs.Parts.{AreCandidates, GoOn, GoOnAlone, IsContinued, IsFollowed, IsPart};

use crate::candidates::fitting_letters;
use crate::parts::{Part, form_len, going_on};
use std::alloc::{AllocError, Global};
use ux_alphabet::Alphabet;

/// The parts whose forms go on with characters that fit the text. Most texts have characters alone
/// that no others fit, and take a few binary searches for each part.
pub(crate) fn gone_on<'a>(
    alloc: Global,
    parts: &[Part<'a>],
    letters: &[char],
    text: &str,
    alphabet: &Alphabet,
) -> Result<Vec<Part<'a>>, AllocError>
    requires { IsStrictlyIncreasing letters.now }
    ensures { IfOk result (λ next.
        GoOn alphabet.now letters.now (chars text.now) parts.now next.items) }
{
    if parts.is_empty() {
        return Ok(Vec::new(alloc));
    }
    if fit_alone(text, alphabet) {
        return followed(alloc, parts, text);
    }
    gone_on_by_runs(alloc, parts, letters, text, alphabet)
}

/// Whether no other character fits one of the text.
fn fit_alone(text: &str, alphabet: &Alphabet) -> bool
    ensures { IsTrue result → All (FitsAlone alphabet.now) (chars text.now) }
{
    for c in text.chars() {
        if !alphabet.fits_alone(c) {
            return false;
        }
    }
    true
}

/// The parts whose forms go on with characters that fit the text. Characters next to each other that
/// no others fit are gone on with at once. Another character takes a step for each different
/// character of all forms, and a few binary searches for each part, of which there are as many as
/// ways to write the front of the text with lower-case letters.
fn gone_on_by_runs<'a>(
    alloc: Global,
    parts: &[Part<'a>],
    letters: &[char],
    text: &str,
    alphabet: &Alphabet,
) -> Result<Vec<Part<'a>>, AllocError>
    requires { IsStrictlyIncreasing letters.now }
    ensures { IfOk result (λ next.
        GoOn alphabet.now letters.now (chars text.now) parts.now next.items) }
{
    let mut next = Vec::from_slice(alloc, parts)?;
    // The characters behind those that the parts fit.
    let mut run = String::with_capacity(alloc, text.len())?;
    for c in text.chars() {
        if alphabet.fits_alone(c) {
            run.push(c)?;
            continue;
        }
        let behind = behind_run(alloc, next, run.as_str())?;
        next = next_parts(alloc, &behind, letters, c, alphabet)?;
        run.clear();
    }
    behind_run(alloc, next, run.as_str())
}

/// One part alone.
pub(crate) fn one<'a>(alloc: Global, part: Part<'a>) -> Result<Vec<Part<'a>>, AllocError>
    ensures { IfOk result (λ parts. parts.items ≡ part.entry ∷ []) }
{
    let mut parts = Vec::new(alloc);
    parts.push(part)?;
    Ok(parts)
}

/// The parts whose forms go on with the characters, which no others fit.
fn behind_run<'a>(
    alloc: Global,
    parts: Vec<Part<'a>>,
    run: &str,
) -> Result<Vec<Part<'a>>, AllocError>
    ensures { IfOk result (λ next. GoOnAlone (chars run.now) parts.entry.items next.items) }
{
    if run.is_empty() {
        return Ok(parts);
    }
    followed(alloc, &parts, run)
}

/// The parts of which each goes on with the text.
fn followed<'a>(alloc: Global, parts: &[Part<'a>], more: &str) -> Result<Vec<Part<'a>>, AllocError>
    ensures { IfOk result (λ next. GoOnAlone (chars more.now) parts.now next.items) }
{
    let mut next = Vec::new(alloc);
    for part in parts {
        push_going_on(&mut next, part, more)?;
    }
    Ok(next)
}

/// The parts whose forms go on with a letter that fits the character.
fn next_parts<'a>(
    alloc: Global,
    parts: &[Part<'a>],
    letters: &[char],
    c: char,
    alphabet: &Alphabet,
) -> Result<Vec<Part<'a>>, AllocError>
    requires { IsStrictlyIncreasing letters.now }
    ensures { IfOk result (λ next. GoOn alphabet.now letters.now (c ∷ []) parts.now next.items) }
{
    if parts.is_empty() {
        return Ok(Vec::new(alloc));
    }
    let fitting = fitting_letters(alloc, letters, c, alphabet)?;
    continued(alloc, parts, &fitting)
}

/// The parts of which each goes on with one of the letters.
fn continued<'a>(
    alloc: Global,
    parts: &[Part<'a>],
    letters: &[char],
) -> Result<Vec<Part<'a>>, AllocError>
    requires { IsStrictlyIncreasing letters.now }
    ensures { IfOk result (λ next. (alphabet : Letters) (all : List ℕ) (c : ℕ) →
        AreCandidates alphabet all c letters.now →
        GoOn alphabet all (c ∷ []) parts.now next.items) }
{
    let mut next = Vec::new(alloc);
    for part in parts {
        push_continued(&mut next, part, letters)?;
    }
    Ok(next)
}

/// Puts the entries of a part that go on with one of the letters last, as a part for each letter.
fn push_continued<'a>(
    parts: &mut Vec<Part<'a>>,
    part: &Part<'a>,
    letters: &[char],
) -> Result<(), AllocError>
    requires { IsStrictlyIncreasing letters.now }
    ensures { OnOk result ((front : List ℕ) → IsPart front part.now →
        IsContinued front letters.now part.now parts.old.items parts.new.items) }
{
    for letter in letters {
        push_letter(parts, part, *letter)?;
    }
    Ok(())
}

/// Puts the entries of a part that go on with the letter last, if there are any.
fn push_letter<'a>(
    parts: &mut Vec<Part<'a>>,
    part: &Part<'a>,
    letter: char,
) -> Result<(), AllocError>
    ensures { OnOk result ((front : List ℕ) → IsPart front part.now →
        IsContinued front (letter ∷ []) part.now parts.old.items parts.new.items) }
{
    let mut buffer = [0; 4];
    push_going_on(parts, part, letter.encode_utf8(&mut buffer))
}

/// Puts the entries of a part that go on with the text last, if there are any.
fn push_going_on<'a>(
    parts: &mut Vec<Part<'a>>,
    part: &Part<'a>,
    more: &str,
) -> Result<(), AllocError>
    ensures { OnOk result ((front : List ℕ) → IsPart front part.now →
        IsFollowed front (chars more.now) part.now parts.old.items parts.new.items) }
{
    let next = going_on(part, more.as_bytes());
    if let Some(first) = next.entries.first() {
        // The first form has all these bytes, so that their number fits.
        let _len = form_len(first);
        parts.push(Part {
            entries: next.entries,
            keys: next.keys,
            len: part.len.saturating_add(more.len()),
        })?;
    }
    Ok(())
}
