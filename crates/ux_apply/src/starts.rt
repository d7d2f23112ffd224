//! How spans with entries may begin.
//!
//! In a text of words the second token of a span is mostly a space. So what the dictionaries answer
//! of a token and a space is asked once for each different token, and not at each of its places.
//! Where each letter is a word, it is mostly a letter, and the first step of the span asks.

ghost use Rattle.std.specs.Prelude.{◌≡◌, ◌<◌, ◌⊎◌, ◌+◌, ◌≤◌, ◌^◌, ℕ, List, IfOk, IsTrue, MatchOption, Some, length, slice_get};
ghost use Rattle.ux_dela.specs.declared.entry.Entry.{Entry};
ghost use Rattle.ux_apply.specs.declared.priority.Priority.{Priority};
ghost use Rattle.ux_apply.specs.Cursors.{AreReachedBy};
ghost use Rattle.ux_apply.specs.Kept.{IsNearestLast, IsOver, IsSpaceAt, IsStart};
ghost use Rattle.ux_apply.specs.declared.starts.Start.TheVariants.{Spaced};

use crate::cursors::{Cursor, go_on, may_go_on};
use std::alloc::Global;
use ux_alphabet::Alphabet;
use ux_base::Mem;
use ux_tokens::Text;
use ux_tokens::kind::Kind;

/// How forms may begin with a token.
#[derive(Clone, Copy)]
pub(crate) enum Start {
    /// No form does.
    Never,
    /// Some form may, but none with a space behind it.
    Unspaced,
    /// Some form may, also with a space behind it.
    Spaced,
}

/// How forms may begin with a token whose text led to the cursors, where some may.
pub(crate) fn start_there(alloc: Global, cursors: &[Cursor<'_>], alphabet: &Alphabet) -> Mem<Start>
    ensures { IfOk result (λ start. (dics : List (Priority × List Entry)) (text : List ℕ) →
        AreReachedBy alphabet.now dics text cursors.now → IsStart alphabet.now dics text start) }
{
    let spaced = go_on(alloc, cursors, " ", alphabet)?;
    if !may_go_on(&spaced) {
        return Ok(Start::Unspaced);
    }
    Ok(Start::Spaced)
}

/// How forms may begin with the token of this number.
pub(crate) fn start_at(starts: &[Start], number: u32) -> Start
    ensures { (result ≡ Spaced) ⊎ (slice_get starts.now number ≡ Some result) }
{
    match starts.get(number as usize) {
        Some(start) => *start,
        None => Start::Spaced,
    }
}

/// The last token of the shortest span that begins at the token and has to be tried, if any has.
pub(crate) fn nearest_last(text: &Text, first: usize, start: Start) -> Option<usize>
    requires { first < length text.now }
    ensures { MatchOption result (IsOver text.now first start) (IsNearestLast text.now first) }
{
    let spaced = is_space_behind(text, first);
    match start {
        Start::Never => None,
        Start::Unspaced if spaced => None,
        Start::Spaced if spaced => Some(first + 2),
        Start::Unspaced | Start::Spaced => Some(first + 1),
    }
}

/// Whether a space stands behind the token.
fn is_space_behind(text: &Text, place: usize) -> bool
    requires { place < length text.now }
    ensures space { IsTrue result → IsSpaceAt text.now (place + 1) }
    ensures room { (place + 1 ≤ length text.now) × (length text.now < 2 ^ 64) }
{
    let count = text.len();
    place + 1 < count && is_space(text, place + 1)
}

/// Whether a space stands at the place.
fn is_space(text: &Text, place: usize) -> bool
    requires { place < length text.now }
    ensures { IsTrue result → IsSpaceAt text.now place }
{
    text.kind(place) == Kind::Space && text.token(place) == " "
}
