//! The lines of each section, each once and in order of their bytes.
//!
//! A section's lines are collected as they come, in a hashed set, and sorted once at the end: one
//! long entry may be told at each place of a text, and is kept once.

ghost use Rattle.std.specs.Prelude.{◌≡◌, ◌↔◌, ◌<◌, ℕ, [], Contains, IfOk, IfSome, OnOk, Some, length, slice_get};
ghost use Rattle.std.specs.List.{IsDistinct};
ghost use Rattle.std.specs.List.Sorted.{IsStrictlySortedBy};
ghost use Rattle.ux_report.specs.Lines.{FromSome, HasMore, IsCompoundBefore, IsLongerPrinted, IsPrinted, IsSimpleAt, IsText, LieWithin};

use indexmap::IndexSet;
use std::alloc::{AllocError, Global};
use std::hash::Hash;
use ux_base::{Mem, Txt};
use ux_dela::{Entry, print_delaf};
use ux_lexical_tables::LexicalTables;
use ux_tokens::Text;

/// Lines, each once, in the order in which they came.
pub(crate) type Lines = IndexSet<Txt>;

/// What is printed for the simple entries of the words at these places.
pub(crate) fn simple_lines(
    alloc: Global,
    applied: &LexicalTables,
    places: &[Option<usize>],
) -> Mem<Lines>
    requires { LieWithin places.now (length applied.now.simple) }
    ensures { IfOk result (λ lines.
        HasMore [] (FromSome places.now (IsSimpleAt applied.now)) lines.keys) }
{
    let mut lines = IndexSet::new(alloc);
    for place in places {
        put_simple(&mut lines, alloc, applied, *place)?;
    }
    Ok(lines)
}

/// Puts what is printed for the simple entries of the word at the place, if there is one.
fn put_simple(
    lines: &mut Lines,
    alloc: Global,
    applied: &LexicalTables,
    place: Option<usize>,
) -> Mem<()>
    requires { IfSome place (λ place. place < length applied.now.simple) }
    ensures { OnOk result
        (HasMore lines.old.keys (IsSimpleAt applied.now place) lines.new.keys) }
{
    match place {
        Some(place) => put_entries(lines, alloc, applied.simple(place)),
        None => Ok(()),
    }
}

/// Puts what is printed for the entries.
fn put_entries(lines: &mut Lines, alloc: Global, entries: &[Entry]) -> Mem<()>
    ensures { OnOk result
        (HasMore lines.old.keys (FromSome entries.now IsPrinted) lines.new.keys) }
{
    for entry in entries {
        put_entry(lines, alloc, entry)?;
    }
    Ok(())
}

/// What is printed for the compound entries of all spans of two or more tokens.
pub(crate) fn compound_lines(alloc: Global, applied: &LexicalTables, count: usize) -> Mem<Lines>
    requires { count ≡ length applied.now.compounds }
    ensures { IfOk result (λ lines.
        HasMore [] (IsCompoundBefore applied.now count) lines.keys) }
{
    let mut lines = IndexSet::new(alloc);
    for first in 0..count {
        put_row(&mut lines, alloc, first, applied.compounds(first))?;
    }
    Ok(lines)
}

/// Puts what is printed for the entries of a row whose spans are longer than the first token.
fn put_row(lines: &mut Lines, alloc: Global, first: usize, row: &[(usize, Entry)]) -> Mem<()>
    ensures { OnOk result
        (HasMore lines.old.keys (FromSome row.now (IsLongerPrinted first)) lines.new.keys) }
{
    for (last, entry) in row {
        put_longer(lines, alloc, first, *last, entry)?;
    }
    Ok(())
}

/// Puts what is printed for the entry of a span, if it has two or more tokens.
fn put_longer(lines: &mut Lines, alloc: Global, first: usize, last: usize, entry: &Entry) -> Mem<()>
    ensures { OnOk result
        (HasMore lines.old.keys (IsLongerPrinted first (last, entry.now)) lines.new.keys) }
{
    if first < last {
        return put_entry(lines, alloc, entry);
    }
    Ok(())
}

/// Puts what is printed for the entry.
fn put_entry(lines: &mut Lines, alloc: Global, entry: &Entry) -> Mem<()>
    ensures { OnOk result (HasMore lines.old.keys (IsPrinted entry.now) lines.new.keys) }
{
    let line = print_delaf(alloc, entry)?;
    put_line(lines, Txt::new(line))
}

/// The texts of the unknown words, of which each number has a place.
pub(crate) fn unknown_lines(
    alloc: Global,
    text: &Text,
    applied: &LexicalTables,
    places: &[Option<usize>],
) -> Mem<Lines>
    requires { LieWithin places.now (length text.now) }
    ensures { IfOk result (λ lines.
        HasMore [] (FromSome applied.now.unknown (IsText text.now places.now)) lines.keys) }
{
    let mut lines = IndexSet::new(alloc);
    for number in applied.unknown() {
        put_word(&mut lines, alloc, text, places, *number)?;
    }
    Ok(lines)
}

/// Puts the text of the word of this number, if it has a place.
fn put_word(
    lines: &mut Lines,
    alloc: Global,
    text: &Text,
    places: &[Option<usize>],
    number: u32,
) -> Mem<()>
    requires { LieWithin places.now (length text.now) }
    ensures { OnOk result
        (HasMore lines.old.keys (IsText text.now places.now number) lines.new.keys) }
{
    match place_at(places, number) {
        Some(place) => put_line(lines, Txt::from_str(alloc, text.token(place))?),
        None => Ok(()),
    }
}

/// The place of the word of this number, if it has one.
fn place_at(places: &[Option<usize>], number: u32) -> Option<usize>
    ensures { (place : ℕ) → (result ≡ Some place) ↔ (slice_get places.now number ≡ Some (Some place)) }
{
    match places.get(number as usize) {
        Some(place) => *place,
        None => None,
    }
}

/// Puts the line, if it isn't there yet.
fn put_line(lines: &mut Lines, line: Txt) -> Mem<()>
    ensures { OnOk result (HasMore lines.old.keys (λ other. other ≡ line) lines.new.keys) }
{
    lines.insert(line)?;
    Ok(())
}

/// The items of a set, in order. Takes the memory of the list alone, and a few comparisons an item.
pub(crate) fn in_order<T: Ord + Hash + Drop>(alloc: Global, set: IndexSet<T>) -> Mem<Vec<T>>
    ensures in_order { IfOk result (λ sorted. IsStrictlySortedBy T.cmp sorted.items) }
    ensures same { IfOk result (λ sorted. (item : T) →
        Contains sorted.items item ↔ Contains set.keys item) }
{
    let mut sorted = listed(alloc, set)?;
    sorted.sort_unstable();
    Ok(sorted)
}

/// The items of a set, as a list.
fn listed<T: Eq + Hash + Drop>(alloc: Global, set: IndexSet<T>) -> Result<Vec<T>, AllocError>
    ensures items { IfOk result (λ listed. listed.items ≡ set.keys) }
    ensures once { IfOk result (λ listed. IsDistinct T.eq listed.items) }
{
    set.into_iter().collect(alloc)
}
