//! The own entries of a text's tags.

ghost use Rattle.std.specs.Prelude.{◌≡◌, ◌↔◌, ◌<◌, ◌∷◌, [], IfOk, IsTrue, length};
ghost use Rattle.ux_lexical_tables.specs.Kept.{row_of};
ghost use Rattle.ux_lexical_tables.specs.Tables.{IsSimpleForm};
ghost use Rattle.ux_apply.specs.Kept.{AreRowsUpTo, IsOwnRow};

use crate::compounds::put_row;
use std::alloc::Global;
use std::collections::BTreeMap;
use ux_alphabet::Alphabet;
use ux_base::Mem;
use ux_dela::Entry;
use ux_lexical_tables::Tagged;
use ux_tokens::Text;

/// The own entries of the tags whose forms have letters alone.
pub(crate) fn tagged(alloc: Global, text: &Text, alphabet: &Alphabet) -> Mem<Tagged>
    ensures { IfOk result (AreRowsUpTo (IsOwnRow alphabet.now text.now) (length text.now)) }
{
    let mut rows = BTreeMap::new(alloc);
    for place in 0..text.len() {
        let row = own_simple(alloc, text, place, alphabet)?;
        put_row(&mut rows, place, row)?;
    }
    Ok(rows)
}

/// The own simple entry of the token at the place, if it is a tag and has one.
fn own_simple(alloc: Global, text: &Text, place: usize, alphabet: &Alphabet) -> Mem<Vec<Entry>>
    requires { place < length text.now }
    ensures { IfOk result (λ row. IsOwnRow alphabet.now text.now place row.items) }
{
    match text.tag(place) {
        Some(entry) => if_simple(alloc, entry, alphabet),
        None => Ok(Vec::new(alloc)),
    }
}

/// The entry, if its form has letters alone.
fn if_simple(alloc: Global, entry: &Entry, alphabet: &Alphabet) -> Mem<Vec<Entry>>
    ensures letters { IfOk result (λ row.
        IsSimpleForm alphabet.now entry.now → row.items ≡ entry.now ∷ []) }
    ensures others { IfOk result (λ row.
        (IsSimpleForm alphabet.now entry.now → ⊥) → row.items ≡ []) }
{
    let mut row = Vec::new(alloc);
    if !is_simple(entry, alphabet) {
        return Ok(row);
    }
    row.push(entry.copy()?)?;
    Ok(row)
}

/// Whether the form has letters alone.
pub(crate) fn is_simple(entry: &Entry, alphabet: &Alphabet) -> bool
    ensures { IsTrue result ↔ IsSimpleForm alphabet.now entry.now }
{
    let mut simple = true;
    for c in entry.form.as_str().chars() {
        if !alphabet.is_letter(c) {
            simple = false;
        }
    }
    simple
}
