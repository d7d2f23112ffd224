//! Numbers of the states that are made of places.
//!
//! The states of places come first, then the chain states, by place, line and label. Two tables,
//! each made in one pass, give the number of a place's state and that of its first chain state.

ghost use Rattle.std.specs.Prelude.{◌≡◌, ◌+◌, ◌<◌, length, IfOk, cond};
ghost use Rattle.ux_boxes.specs.Places.{label_lines, place_output as place_output_of};
ghost use Rattle.ux_compile.specs.Construct.{AreFit, has_state as has_state_of, number as number_of, line_at, called_at, chain_len as chain_len_of, chain_start, table_of};

use std::alloc::Global;
use ux_base::Mem;
use ux_boxes::Place;
use ux_grf::Piece;
use ux_net::Label;

/// Whether the place has a state.
pub(crate) fn has_state(places: &[Place], place: usize) -> bool
    ensures { result ≡ has_state_of places.now place }
{
    match places.get(place) {
        Some(found) => place != 1 && found.reached,
        None => false,
    }
}

/// How many lines a place has.
pub(crate) fn line_count(places: &[Place], place: usize) -> usize
    ensures { result ≡ length (label_lines places.now place) }
{
    match places.get(place) {
        Some(found) => found.lines.as_slice().len(),
        None => 0,
    }
}

/// The labels of a line, as it is drawn.
pub(crate) fn labels(places: &[Place], place: usize, line: usize) -> &[Label]
    ensures { result.now ≡ line_at places.now place line }
{
    match places.get(place) {
        Some(found) => match found.lines.as_slice().get(line) {
            Some(labels) => labels.as_slice(),
            None => &[],
        },
        None => &[],
    }
}

/// What the place puts out.
pub(crate) fn place_output(places: &[Place], place: usize) -> &[Piece]
    ensures { result.now ≡ place_output_of places.now place }
{
    match places.get(place) {
        Some(found) => found.output.as_slice(),
        None => &[],
    }
}

/// The graph that a line calls behind an output: the place puts something out, and the line is a
/// call.
pub(crate) fn called_behind(places: &[Place], place: usize, line: usize) -> Option<u32>
    ensures { result ≡ called_at places.now place line }
{
    if place_output(places, place).is_empty() {
        return None;
    }
    match labels(places, place, line) {
        [Label::Call(graph), ..] => Some(*graph),
        _ => None,
    }
}

/// How many chain states a line has.
pub(crate) fn chain_len(places: &[Place], place: usize, line: usize) -> usize
    ensures { result ≡ chain_len_of places.now place line }
{
    let labels = labels(places, place, line);
    match called_behind(places, place, line) {
        None => labels.len().saturating_sub(1),
        Some(_) => labels.len(),
    }
}

/// The number of the state of each place.
pub(crate) fn numbers(alloc: Global, places: &[Place]) -> Mem<Vec<u32>>
    requires { AreFit places.now }
    ensures { IfOk result (λ numbers.
        numbers.items ≡ table_of places.now (number_of places.now)) }
{
    let mut numbers = Vec::new(alloc);
    let mut number: u32 = 0;
    for place in 0..places.len() {
        numbers.push(number)?;
        number += state_count(places, place);
    }
    Ok(numbers)
}

/// 1 where the place has a state, else 0.
fn state_count(places: &[Place], place: usize) -> u32
    ensures { result ≡ cond (has_state_of places.now place) 1 0 }
{
    if has_state(places, place) { 1 } else { 0 }
}

/// The number of the first chain state of each place.
pub(crate) fn starts(alloc: Global, places: &[Place]) -> Mem<Vec<u32>>
    requires { AreFit places.now }
    ensures { IfOk result (λ starts.
        starts.items ≡ table_of places.now (chain_start places.now)) }
{
    let mut starts = Vec::new(alloc);
    let mut start = count(places);
    for place in 0..places.len() {
        starts.push(start)?;
        start = next_start(places, place, start);
    }
    Ok(starts)
}

/// How many places have a state.
fn count(places: &[Place]) -> u32
    requires { AreFit places.now }
    ensures { result ≡ number_of places.now (length places.now) }
{
    let mut count: u32 = 0;
    for place in 0..places.len() {
        count += state_count(places, place);
    }
    count
}

/// The number of the first chain state after those of the place.
fn next_start(places: &[Place], place: usize, start: u32) -> u32
    requires fit { AreFit places.now }
    requires place { place < length places.now }
    requires start { start ≡ chain_start places.now place }
    ensures { result ≡ chain_start places.now (place + 1) }
{
    let mut first = start;
    for line in 0..line_count(places, place) {
        first += chain_len(places, place, line) as u32;
    }
    first
}
