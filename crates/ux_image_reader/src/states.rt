//! Reading states, each of which is tested by itself.

ghost use Rattle.std.specs.Prelude.{◌≡◌, ◌*◌, ◌≤◌, ◌<◌, ◌^◌, ◌↔◌, IfErr, IfOk, IsTrue, OnOk, SomeIff, length, take};
ghost use Rattle.ux_dawg.specs.Flat.{state_of};
ghost use Rattle.ux_image_reader.specs.Layout.{final_number, place_behind, written, written_edge};
ghost use Rattle.ux_image_reader.specs.Reading.{EdgePasses, IsAbove, IsNextLetter, Passes, ReadsEdges, ReadsStates, Stops, StopsStates, letters_of, numbers_left};
ghost use Rattle.ux_image_reader.specs.Tests.{used_by, IsWhole, Pass, PassAsEdges};

use crate::cursor::Cursor;
use crate::error::ImageError;
use crate::limits::{Limits, is_alive, is_list};
use crate::numbers::read_number;
use std::alloc::Global;
use ux_dawg::{Edge, States};

/// Reads so many states.
pub(crate) fn read_states(
    alloc: Global,
    count: u32,
    lists: u32,
    cursor: &mut Cursor<'_>,
) -> Result<States, ImageError>
    ensures ok { IfOk result (ReadsStates count lists count cursor.old cursor.new) }
    ensures err { IfErr result (StopsStates count lists cursor.old) }
{
    let mut states = States::new(alloc);
    // Filled again for each state, so that none has to ask for memory of its own.
    let mut edges = Vec::new(alloc);
    let mut used = 0;
    for number in 0..count {
        let limits = Limits {
            count,
            lists,
            number,
            used,
        };
        let code = read_state(limits, &mut edges, cursor)?;
        used = used.max(number_of_list(code));
        states.push(code, edges.as_slice())?;
    }
    Ok(states)
}

/// Reads a state, which is tested against the limits: its list, and its edges, which take the place
/// of those that were there.
fn read_state(
    limits: Limits,
    edges: &mut Vec<Edge>,
    cursor: &mut Cursor<'_>,
) -> Result<Option<u32>, ImageError>
    ensures ok { IfOk result (λ code.
        Passes cursor.old cursor.new (written (state_of code edges.new.items))) }
    ensures passed { IfOk result (λ code. Pass limits (written (state_of code edges.new.items))) }
    ensures err { IfErr result (Stops (Pass limits (numbers_left cursor.old))
        (IsWhole (numbers_left cursor.old)) cursor.old.place) }
{
    let offset = cursor.place;
    let list = read_number(cursor)?;
    if !is_list(limits, list) {
        return Err(ImageError::BadState { offset });
    }
    let many = read_number(cursor)?;
    if !is_alive(limits, list, many) {
        return Err(ImageError::BadState { offset });
    }
    read_edges(limits.number, many, offset, edges, cursor)?;
    Ok(list.checked_sub(1))
}

/// How many lists the states use, where they take them in the order of their numbers.
pub(crate) fn count_used(states: &States) -> u32
    requires { used_by states.now < 2 ^ 32 }
    ensures { result ≡ used_by states.now }
{
    let mut used = 0;
    for number in 0..states.len() {
        used = used.max(number_of_list(states.code(number)));
    }
    used
}

/// The place of the byte behind the first states, of which there are so many.
pub(crate) fn place_behind(states: &States, many: usize) -> usize
    requires within { many ≤ length states.now }
    requires fits { place_behind states.now < 2 ^ 64 }
    ensures { result ≡ place_behind (take many states.now) }
{
    let mut place = 16;
    for number in 0..many {
        place += 8 + 8 * states.edges(number).len();
    }
    place
}

/// The number of a list as it is written.
fn number_of_list(list: Option<u32>) -> u32
    requires { final_number list < 2 ^ 32 }
    ensures { result ≡ final_number list }
{
    match list {
        Some(list) => list + 1,
        None => 0,
    }
}

/// Reads so many edges of the state of this number, which begins at the offset, in the place of those
/// that were there.
fn read_edges(
    number: u32,
    many: u32,
    offset: usize,
    edges: &mut Vec<Edge>,
    cursor: &mut Cursor<'_>,
) -> Result<(), ImageError>
    ensures ok { OnOk result (ReadsEdges number many cursor.old cursor.new edges.new.items) }
    ensures err { IfErr result (Stops (PassAsEdges number many (numbers_left cursor.old))
        (2 * many ≤ length (numbers_left cursor.old)) offset) }
{
    edges.clear();
    for _ in 0..many {
        let edge = read_edge(number, edges.as_slice(), offset, cursor)?;
        edges.push(edge)?;
    }
    Ok(())
}

/// Reads the edge behind these ones.
fn read_edge(
    number: u32,
    before: &[Edge],
    offset: usize,
    cursor: &mut Cursor<'_>,
) -> Result<Edge, ImageError>
    ensures ok { IfOk result (λ edge. Passes cursor.old cursor.new (written_edge edge)) }
    ensures passed { IfOk result (λ edge. EdgePasses number before.now (written_edge edge)) }
    ensures err { IfErr result (Stops (EdgePasses number before.now (numbers_left cursor.old))
        (2 ≤ length (numbers_left cursor.old)) offset) }
{
    let code = read_number(cursor)?;
    let Some(letter) = letter_of(before, code) else {
        return Err(ImageError::BadState { offset });
    };
    let target = read_number(cursor)?;
    if target >= number {
        return Err(ImageError::BadState { offset });
    }
    Ok(Edge { letter, target })
}

/// The character of this code, if it may stand behind these edges.
fn letter_of(before: &[Edge], code: u32) -> Option<char>
    ensures { SomeIff result (IsNextLetter before.now code) code }
{
    let letter = char::from_u32(code)?;
    if letter == '\n' || !is_above(before, letter) {
        return None;
    }
    Some(letter)
}

/// Whether the character is higher than that of the last edge.
fn is_above(before: &[Edge], letter: char) -> bool
    ensures { IsTrue result ↔ IsAbove (letters_of before.now) letter }
{
    match before.last() {
        Some(edge) => edge.letter < letter,
        None => true,
    }
}
