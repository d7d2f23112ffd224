//! The numbers of the words without a simple entry.

ghost use Rattle.std.specs.Prelude.{◌≡◌, ◌↔◌, ◌⊎◌, ℕ, false, true, Contains, IfOk, OnOk, Some, get_or, slice_get, slice_set};
ghost use Rattle.std.specs.List.Sorted.{IsStrictlyIncreasing};
ghost use Rattle.ux_lexical_tables.specs.Kept.{items_in, row_at};
ghost use Rattle.ux_apply.specs.Unknown.{AreMarkedIn, HasNoRow, IsWithoutRow};

use std::alloc::{AllocError, Global};
use std::collections::BTreeSet;
use ux_base::Mem;
use ux_dela::Entry;
use ux_lexical_tables::Words;
use ux_lexical_tables::rows::row_of_number;

/// The numbers of the words whose rows are empty, each once and ascending. Takes a step a token,
/// and one insertion for each different unknown word. A number beyond the rows, which no text has,
/// would be inserted at each of its places.
pub(crate) fn unknown_numbers(alloc: Global, words: &Words, rows: &[Vec<Entry>]) -> Mem<Vec<u32>>
    ensures ascending { IfOk result (λ unknown. IsStrictlyIncreasing unknown.items) }
    ensures exact { IfOk result (λ unknown. (number : ℕ) →
        Contains unknown.items number ↔ IsWithoutRow words.now rows.now number) }
{
    let set = unknown_set(alloc, words, rows)?;
    Ok(numbers_in(alloc, set)?)
}

fn unknown_set(
    alloc: Global,
    words: &Words,
    rows: &[Vec<Entry>],
) -> Result<BTreeSet<u32>, AllocError>
    ensures { IfOk result (λ set. (number : ℕ) →
        Contains set.keys number ↔ IsWithoutRow words.now rows.now number) }
{
    let mut set = BTreeSet::new(alloc);
    let mut marks = vec![in alloc; false; rows.len()]?;
    for place in 0..words.len() {
        put_unknown(&mut set, &mut marks, words.at(place), rows)?;
    }
    Ok(set)
}

/// Puts the number of the word into the set, if its row is empty. A mark tells that a number is in
/// the set already.
fn put_unknown(
    set: &mut BTreeSet<u32>,
    marks: &mut Vec<bool>,
    word: Option<u32>,
    rows: &[Vec<Entry>],
) -> Result<(), AllocError>
    requires { AreMarkedIn marks.now.items set.now.keys }
    ensures marked { OnOk result (AreMarkedIn marks.new.items set.new.keys) }
    ensures numbers { OnOk result ((number : ℕ) → Contains set.new.keys number
        ↔ (Contains set.old.keys number ⊎ HasNoRow rows.now number word)) }
{
    if let Some(number) = unknown_at(word, rows) {
        put_number(set, marks, number)?;
    }
    Ok(())
}

/// Puts the number into the set, unless its mark tells that it is there, and marks it.
fn put_number(set: &mut BTreeSet<u32>, marks: &mut Vec<bool>, number: u32) -> Result<(), AllocError>
    requires { AreMarkedIn marks.now.items set.now.keys }
    ensures marked { OnOk result (AreMarkedIn marks.new.items set.new.keys) }
    ensures numbers { OnOk result ((other : ℕ) → Contains set.new.keys other
        ↔ (Contains set.old.keys other ⊎ (number ≡ other))) }
{
    if is_marked(marks, number) {
        return Ok(());
    }
    set.insert(number)?;
    mark(marks, number);
    Ok(())
}

/// Whether the number is marked.
fn is_marked(marks: &[bool], number: u32) -> bool
    ensures { result ≡ get_or marks.now number false }
{
    match marks.get(number as usize) {
        Some(marked) => *marked,
        None => false,
    }
}

/// Marks the number, if there is a mark for it.
fn mark(marks: &mut Vec<bool>, number: u32)
    ensures { marks.new.items ≡ slice_set marks.old.items number true }
{
    if let Some(marked) = marks.get_mut(number as usize) {
        *marked = true;
    }
}

/// The number of the word, if its row is empty.
fn unknown_at(word: Option<u32>, rows: &[Vec<Entry>]) -> Option<u32>
    ensures { (number : ℕ) → (result ≡ Some number) ↔ HasNoRow rows.now number word }
{
    match word {
        Some(_) if row(rows, word).is_empty() => word,
        _ => None,
    }
}

/// The row of the word, if it is one.
fn row(rows: &[Vec<Entry>], word: Option<u32>) -> &[Entry]
    ensures { result.now ≡ row_at rows.now word }
{
    match word {
        Some(number) => row_of_number(rows, number),
        None => &[],
    }
}

fn numbers_in(alloc: Global, set: BTreeSet<u32>) -> Result<Vec<u32>, AllocError>
    ensures items { IfOk result (λ numbers. numbers.items ≡ set.keys) }
    ensures ascending { IfOk result (λ numbers. IsStrictlyIncreasing numbers.items) }
{
    set.into_iter().collect(alloc)
}
