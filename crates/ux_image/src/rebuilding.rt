//! From codes back to entries.

ghost use Rattle.std.specs.Prelude.{◌≡◌, ◌-◌, ◌++◌, IfOk, OnOk, MatchOption, string_bytes, option_copied, length, drop};
ghost use Rattle.ux_dela.specs.declared.entry.Entry.{Entry as EntryRecord};
ghost use Rattle.std.specs.Str.{chars};
ghost use Rattle.ux_image.specs.Codes.{front_chars, Rebuilds, rebuilt_lemma, made_of, made_of_pieces, changed};
ghost use Rattle.ux_image.specs.Cutting.{changed_by};

use crate::characters::{count_chars, front_chars};
use crate::code::{Code, Pair};
use crate::pieces::split_piece;
use std::alloc::{AllocError, Global};
use ux_base::{Mem, Txt};
use ux_dela::{Entry, read_codes};

/// The entry that the code makes of the form; none where its codes aren't such as are printed.
/// Takes a step a byte.
pub fn rebuild(alloc: Global, form: &str, code: &Code) -> Mem<Option<Entry>>
    ensures { IfOk result (λ found. MatchOption found
        ((entry : EntryRecord) → Rebuilds form.now code.now entry → ⊥)
        (Rebuilds form.now code.now)) }
{
    let Some(codes) = read_codes(alloc, code.codes.as_str())? else {
        return Ok(None);
    };
    Ok(Some(Entry {
        form: Txt::from_str(alloc, form)?,
        lemma: lemma_of(alloc, form, code.pairs.as_slice())?,
        gram: codes.gram,
        sem: codes.sem,
        infl: codes.infl,
    }))
}

/// The lemma that the pairs make of the form. Takes a step a byte.
pub fn lemma_of(alloc: Global, form: &str, pairs: &[Pair]) -> Mem<Txt>
    ensures { IfOk result (λ lemma. lemma ≡ rebuilt_lemma pairs.now form.now) }
{
    let mut text = String::new(alloc);
    put_made(&mut text, pairs, form)?;
    if text.is_empty() {
        text.push_str(form)?;
    }
    Ok(Txt::new(text))
}

/// Puts what the pairs make of the form behind the text.
fn put_made(text: &mut String, pairs: &[Pair], form: &str) -> Result<(), AllocError>
    ensures { OnOk result (string_bytes text.new
        ≡ string_bytes text.old ++ made_of pairs.now form.now) }
{
    if pairs.len() == 1 {
        return put_changed(text, pairs.first(), form);
    }
    put_pieces(text, pairs, form)
}

/// Puts the form with its pieces changed behind the text.
fn put_pieces(text: &mut String, pairs: &[Pair], form: &str) -> Result<(), AllocError>
    ensures { OnOk result (string_bytes text.new
        ≡ string_bytes text.old ++ made_of_pieces pairs.now form.now) }
{
    let mut pairs_left = pairs;
    let mut rest = form;
    while let Some(cut) = split_piece(rest) {
        put_changed(text, pairs_left.first(), cut.piece)?;
        text.push_str(cut.separator)?;
        pairs_left = behind_first(pairs_left);
        rest = cut.behind;
    }
    put_changed(text, pairs_left.first(), rest)
}

/// The pairs behind the first one.
fn behind_first(pairs: &[Pair]) -> &[Pair]
    ensures { result.now ≡ drop 1 pairs.now }
{
    match pairs.split_first() {
        Some((_, later)) => later,
        None => pairs,
    }
}

/// Puts the piece as its pair changes it behind the text; a piece without a pair stays.
fn put_changed(text: &mut String, pair: Option<&Pair>, piece: &str) -> Result<(), AllocError>
    ensures { OnOk result (string_bytes text.new
        ≡ string_bytes text.old ++ changed_by (option_copied pair.entry) piece.now) }
{
    match pair {
        Some(pair) => {
            text.push_str(without_end(piece, pair.taken))?;
            text.push_str(pair.added.as_str())
        }
        None => text.push_str(piece),
    }
}

/// The piece without so many characters at its end, or nothing where it has fewer.
fn without_end(piece: &str, taken: u32) -> &str
    ensures { result.now ≡ front_chars (length (chars piece.now) - taken) piece.now }
{
    front_chars(piece, count_chars(piece).saturating_sub(taken as usize))
}
