//! Where contexts that may not follow are closed, by the numbers of states.
//!
//! Where the body of such a context doesn't apply, no run of it is followed to a step that closes it,
//! and yet the search goes on behind it. So each graph of a net tells, for the state into which the
//! context opens, the one state into which it is closed.

ghost use Rattle.std.specs.Prelude.{◌≡◌, ℕ, ◌+◌, ◌<◌, [], ◌++◌, length, get_or, IfOk, OnOk};
ghost use Rattle.std.specs.List.{list_any};
ghost use Rattle.ux_admission.specs.ToldClosings.{is_refusing as is_refusing_of, is_refused as is_refused_of, closing_from, closings_at, closings_of};

use std::alloc::Global;
use ux_base::{Lst, Mem};
use ux_boxes::{Place, row_at};
use ux_net::{Closing, Label};

/// Where the contexts of a graph that may not follow are closed, from the states for which its places
/// stand, and from the rows of its places, of which the first has the number `before`.
pub fn closings(
    alloc: Global,
    places: &[Place],
    stands: &[u32],
    closers: &[Lst<usize>],
    before: usize,
) -> Mem<Vec<Closing>>
    requires room { before + length places.now < 18446744073709551616 }
    ensures { IfOk result (λ list. list.items ≡ closings_of (λ p. get_or stands.now p 0) places.now
        (λ p. get_or closers.now (before + p) [])) }
{
    let mut list = Vec::new(alloc);
    for place in 0..places.len() {
        let row = row_at(closers, before + place);
        push_closing(places, stands, place, row, &mut list)?;
    }
    Ok(list)
}

/// Adds where the context is closed that opens into the place, if it may not follow.
fn push_closing(
    places: &[Place],
    stands: &[u32],
    place: usize,
    row: &[usize],
    list: &mut Vec<Closing>,
) -> Mem<()>
    ensures { OnOk result (list.new.items ≡ list.old.items
        ++ closings_at (λ p. get_or stands.now p 0) places.now (λ p. row.now) place) }
{
    if !is_refused(places, place) {
        return Ok(());
    }
    match row.first() {
        None => Ok(()),
        Some(closer) => {
            list.push(Closing {
                opening: state_at(stands, place),
                closing: state_at(stands, *closer),
            })?;
            Ok(())
        },
    }
}

/// The state for which a place stands.
fn state_at(stands: &[u32], place: usize) -> u32
    ensures { result ≡ get_or stands.now place 0 }
{
    match stands.get(place) {
        Some(state) => *state,
        None => 0,
    }
}

/// Whether a context that may not follow opens into the place.
fn is_refused(places: &[Place], place: usize) -> bool
    ensures { result ≡ is_refused_of places.now place }
{
    match places.get(place) {
        Some(found) => have_refusing(found.lines.as_slice()),
        None => false,
    }
}

/// Whether one of the lines opens a context that may not follow.
fn have_refusing(lines: &[Lst<Label>]) -> bool
    ensures { result ≡ list_any is_refusing_of lines.now }
{
    lines.iter().any(is_refusing)
}

/// Whether the line opens a context that may not follow.
fn is_refusing(line: &Lst<Label>) -> bool
    ensures { result ≡ is_refusing_of line.now }
{
    match line.as_slice() {
        [Label::Negative] => true,
        _ => false,
    }
}
