//! The compound entries of a text: those of spans of two or more tokens.

ghost use Rattle.std.specs.Prelude.{◌≡◌, ◌↔◌, All, ◌<◌, ◌≤◌, ◌∷◌, ◌++◌, ◌≢◌, ℕ, List, [], IfOk, IsTrue, OnOk, IsSomeAnd, length, map, slice_get, slice_range};
ghost use Rattle.std.specs.List.{AllZip};
ghost use Rattle.ux_dela.specs.Sound.{IsSound};
ghost use Rattle.ux_dela.specs.declared.entry.Entry.{Entry};
ghost use Rattle.ux_tokens.specs.Numbers.{different_texts};
ghost use Rattle.ux_tokens.specs.Tokens.{joined};
ghost use Rattle.ux_lexical_tables.specs.Kept.{row_of};
ghost use Rattle.ux_lexical_tables.specs.Spans.{MayBound, MayStand, text_of};
ghost use Rattle.ux_lexical_tables.specs.Tables.{IsSimpleForm};
ghost use Rattle.ux_apply.specs.Applying.{contents};
ghost use Rattle.ux_apply.specs.Cursors.{AreReachedBy, WhereLedBy};
ghost use Rattle.ux_apply.specs.declared.priority.Priority.{Priority};
ghost use Rattle.ux_apply.specs.Kept.{AreRowsUpTo, AreSoundMembers, IsNearestLast, IsFront, IsStart};
ghost use Rattle.ux_apply.specs.Applied.{AreOfSpan, IsCompoundRow};

use crate::applying::applying_there;
use crate::cursors::{Cursor, begin, go_on, may_go_on};
use crate::priority::Priority;
use crate::starts::{Start, nearest_last, start_at};
use crate::tagged::is_simple;
use std::alloc::{AllocError, Global};
use std::collections::BTreeMap;
use ux_alphabet::Alphabet;
use ux_base::Mem;
use ux_dela::Entry;
use ux_lexical_tables::Rows;
use ux_lexical_tables::spans::{may_bound, may_stand};
use ux_lexicon::Lexicon;
use ux_tokens::Text;

/// The compound entries of the text. From each token the dictionaries are gone along once, as far as
/// some form may begin with the tokens.
pub(crate) fn compounds<L: Lexicon>(
    alloc: Global,
    text: &Text,
    starts: &[Start],
    alphabet: &Alphabet,
    dics: &[(Priority, L)],
) -> Mem<Rows>
    requires { AllZip (IsStart alphabet.now (contents L.content dics.now))
        (different_texts text.now) starts.now }
    ensures rows { IfOk result
        (AreRowsUpTo (IsCompoundRow alphabet.now (contents L.content dics.now) text.now)
        (length text.now)) }
    ensures sound { IfOk result (AreRowsUpTo (λ _. AreSoundMembers) (length text.now)) }
{
    let mut rows = BTreeMap::new(alloc);
    for first in 0..text.len() {
        let row = row_from(alloc, text, first, starts, alphabet, dics)?;
        put_row(&mut rows, first, row)?;
    }
    Ok(rows)
}

/// Keeps the row, with no room beyond it, if it isn't empty.
pub(crate) fn put_row<T: Drop>(
    rows: &mut BTreeMap<usize, Vec<T>>,
    first: usize,
    mut row: Vec<T>,
) -> Mem<()>
    ensures here { OnOk result (row_of rows.old first ≡ [] → row_of rows.new first ≡ row.items) }
    ensures others { OnOk result ((other : ℕ) → other ≢ first →
        row_of rows.new other ≡ row_of rows.old other) }
{
    if !row.is_empty() {
        row.shrink_to_fit();
        rows.insert(first, row)?;
    }
    Ok(())
}

/// The compound entries that begin at a token.
fn row_from<L: Lexicon>(
    alloc: Global,
    text: &Text,
    first: usize,
    starts: &[Start],
    alphabet: &Alphabet,
    dics: &[(Priority, L)],
) -> Mem<Vec<(usize, Entry)>>
    requires started { AllZip (IsStart alphabet.now (contents L.content dics.now))
        (different_texts text.now) starts.now }
    requires within { first < length text.now }
    ensures row { IfOk result (λ row.
        IsCompoundRow alphabet.now (contents L.content dics.now) text.now first row.items) }
    ensures sound { IfOk result (λ row. AreSoundMembers row.items) }
{
    if let Some(entry) = text.tag(first) {
        return own_row(alloc, first, entry, alphabet);
    }
    if !may_bound(text.kind(first)) {
        return Ok(Vec::new(alloc));
    }
    let start = start_at(starts, text.number(first));
    match nearest_last(text, first, start) {
        Some(last) => spans_from(alloc, text, first, last, alphabet, dics),
        None => Ok(Vec::new(alloc)),
    }
}

/// The own compound entry of a tag at the place, if the form has a character that is no letter.
fn own_row(
    alloc: Global,
    place: usize,
    entry: &Entry,
    alphabet: &Alphabet,
) -> Mem<Vec<(usize, Entry)>>
    ensures letters { IfOk result (λ row. IsSimpleForm alphabet.now entry.now → row.items ≡ []) }
    ensures others { IfOk result (λ row. (IsSimpleForm alphabet.now entry.now → ⊥) →
        row.items ≡ (place, entry.now) ∷ []) }
    ensures sound { IfOk result (λ row. IsSound entry.now → AreSoundMembers row.items) }
{
    let mut row = Vec::new(alloc);
    if is_simple(entry, alphabet) {
        return Ok(row);
    }
    row.push((place, entry.copy()?))?;
    Ok(row)
}

/// The compound entries of the spans that begin at a token, from the one with this last token on,
/// one span after the other. Goes along the dictionaries once.
fn spans_from<L: Lexicon>(
    alloc: Global,
    text: &Text,
    first: usize,
    nearest: usize,
    alphabet: &Alphabet,
    dics: &[(Priority, L)],
) -> Mem<Vec<(usize, Entry)>>
    requires begins { IsSomeAnd (slice_get text.now first) (λ token. MayBound token.kind) }
    requires from { IsNearestLast text.now first nearest }
    requires within { first < length text.now }
    ensures row { IfOk result (λ row.
        IsCompoundRow alphabet.now (contents L.content dics.now) text.now first row.items) }
    ensures sound { IfOk result (λ row. AreSoundMembers row.items) }
{
    let mut row = Vec::new(alloc);
    let mut cursors = begin(alloc, dics)?;
    // The first token by which the dictionaries haven't been gone along.
    let mut next = first;
    for last in nearest..text.len() {
        if !may_stand(text.kind(last)) {
            return Ok(row);
        }
        cursors = go_on_to(alloc, &cursors, text, next, last, alphabet)?;
        if !may_go_on(&cursors) {
            return Ok(row);
        }
        next = last + 1;
        let entries = entries_to(alloc, text, first, last, &cursors, alphabet)?;
        push_row(&mut row, last, entries)?;
    }
    Ok(row)
}

/// Where the tokens so far lead with the next ones up to this last one.
fn go_on_to<'a>(
    alloc: Global,
    cursors: &[Cursor<'a>],
    text: &Text,
    next: usize,
    last: usize,
    alphabet: &Alphabet,
) -> Mem<Vec<Cursor<'a>>>
    requires in_order { next ≤ last }
    requires within { last < length text.now }
    ensures { IfOk result (λ all. (dics : List (Priority × List Entry)) (first : ℕ) → first ≤ next →
        AreReachedBy alphabet.now dics (joined (slice_range text.now first next)) cursors.now →
        AreReachedBy alphabet.now dics (text_of text.now first last) all.items) }
{
    go_on(alloc, cursors, text.slice(next, last), alphabet)
}

/// Puts the entries last, with their last token.
fn push_row(
    row: &mut Vec<(usize, Entry)>,
    last: usize,
    entries: Vec<Entry>,
) -> Result<(), AllocError>
    ensures { OnOk result
        (row.new.items ≡ row.old.items ++ map (λ entry. (last, entry)) entries.items) }
{
    for entry in entries {
        row.push((last, entry))?;
    }
    Ok(())
}

/// The entries of a span of two or more tokens, if it is one. Its text led to the cursors.
fn entries_to(
    alloc: Global,
    text: &Text,
    first: usize,
    last: usize,
    cursors: &[Cursor<'_>],
    alphabet: &Alphabet,
) -> Mem<Vec<Entry>>
    requires longer { first < last }
    requires within { last < length text.now }
    requires front { IsFront text.now first last }
    ensures entries { IfOk result (λ entries.
        WhereLedBy alphabet.now (text_of text.now first last) cursors.now
        (λ dics. AreOfSpan alphabet.now dics text.now first last entries.items)) }
    ensures sound { IfOk result (λ entries.
        WhereLedBy alphabet.now (text_of text.now first last) cursors.now
        (λ _. All IsSound entries.items)) }
{
    if !may_bound(text.kind(last)) {
        return Ok(Vec::new(alloc));
    }
    applying_there(alloc, cursors, text.slice(first, last), alphabet)
}
