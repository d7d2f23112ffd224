//! The rows of entries that the tables of a text are made of.

ghost use Rattle.std.specs.Prelude.{◌≡◌, slice_get};
ghost use Rattle.ux_lexical_tables.specs.Kept.{items_in, row_of};

use std::collections::BTreeMap;
use ux_dela::Entry;

/// Compound entries with their last tokens, by first token, where there are any.
pub type Rows = BTreeMap<usize, Vec<(usize, Entry)>>;

/// Own simple entries by the places of tags, where there are any.
pub type Tagged = BTreeMap<usize, Vec<Entry>>;

/// The row of a number, if there is one. Takes no memory.
pub fn row_of_number(rows: &[Vec<Entry>], number: u32) -> &[Entry]
    ensures { result.now ≡ items_in (slice_get rows.now number) }
{
    match rows.get(number as usize) {
        Some(row) => row.as_slice(),
        None => &[],
    }
}

/// The row of a place.
pub(crate) fn own_at(rows: &Tagged, place: usize) -> &[Entry]
    ensures { result.now ≡ row_of rows.now place }
{
    match rows.get(&place) {
        Some(row) => row.as_slice(),
        None => &[],
    }
}
