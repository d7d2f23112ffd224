//! The image of a content: the bytes of its automaton and of its lists of codes.

ghost use Rattle.std.specs.Prelude.{◌≡◌, ◌+◌, ◌<◌, ◌^◌, ◌++◌, [], All, IfOk, OnOk, length, map, nat_eq, option_map, slice_get};
ghost use Rattle.std.specs.List.{flat_map, position_or_len};
ghost use Rattle.std.specs.Option.{option_to_list};
ghost use Rattle.ux_dawg.specs.Flat.{state_of};
ghost use Rattle.ux_image.specs.Contents.{IsContent};
ghost use Rattle.ux_image.specs.Images.{IsImage, IsLaidOut, lists_of, renumbered};
ghost use Rattle.ux_image.specs.Layout.{number_bytes, state_bytes, list_bytes, final_number, StateFits, ListFits};
ghost use Rattle.ux_image.specs.Lent.{lent};

use crate::code::CodeList;
use crate::fields::{put_count, put_edges, put_list, put_number};
use crate::listing::{Listing, list_codes, number_of};
use crate::numbering::{order_of, place_in};
use indexmap::IndexSet;
use std::alloc::Global;
use ux_base::{Mem, NoMemory};
use ux_dawg::{Dawg, Edge};
use ux_dict::Stored;

/// The bytes with which each image begins.
const MAGIC: [u8; 8] = [0x55, 0x58, 0x55, 0x44, 0x49, 0x02, 0x0d, 0x0a];

/// For how many bytes of a state there is room from the beginning: 8, and 8 for each of two edges.
/// Each state but the root has an edge that leads to it, so that at most half as much again is taken
/// as the states need.
const STATE_ROOM: usize = 24;

/// The image of a content, which is given up before its automaton is finished, so that both are not
/// there at once. `is_content` tells what it asks.
///
/// Takes a step a byte. Where 32 bits don't hold a number, it answers that memory ran out: there is
/// none in a content of fewer than 2^30 bytes.
pub fn image_of(alloc: Global, content: Vec<Stored>) -> Mem<Vec<u8>>
    requires { IsContent content.items }
    ensures { IfOk result (λ bytes. IsImage content.items bytes.items) }
{
    let Listing { builder, lists } = list_codes(alloc, &content)?;
    drop(content);
    let automaton = builder.finish()?;
    let order = order_of(alloc, &automaton)?;
    bytes_of(alloc, &automaton, &order, &lists)
}

/// The bytes of an automaton and its lists, which are numbered in this order.
fn bytes_of(
    alloc: Global,
    automaton: &Dawg,
    order: &IndexSet<u32>,
    lists: &IndexSet<CodeList>,
) -> Mem<Vec<u8>>
    ensures { IfOk result (λ bytes. IsLaidOut (map (renumbered order.now.keys) automaton.now)
        (lists_of lists.now.keys order.now.keys) bytes.items) }
{
    let used = lists_in(alloc, order, lists)?;
    let mut bytes = Vec::with_capacity(alloc, automaton.len().saturating_mul(STATE_ROOM))?;
    bytes.extend_from_slice(&MAGIC)?;
    put_state_count(&mut bytes, automaton)?;
    put_count(&mut bytes, used.len())?;
    put_states(&mut bytes, automaton, order)?;
    put_lists(&mut bytes, &used)?;
    Ok(bytes)
}

/// The lists of these numbers.
fn lists_in<'a>(
    alloc: Global,
    order: &IndexSet<u32>,
    lists: &'a IndexSet<CodeList>,
) -> Mem<Vec<&'a CodeList>>
    ensures { IfOk result (λ used. lent used.items
        ≡ lists_of lists.now.keys order.now.keys) }
{
    let mut used = Vec::new(alloc);
    for number in order.as_slice() {
        push_list(&mut used, lists, *number)?;
    }
    Ok(used)
}

/// Adds the list of the number, if there is one.
fn push_list<'a>(
    used: &mut Vec<&'a CodeList>,
    lists: &'a IndexSet<CodeList>,
    number: u32,
) -> Mem<()>
    ensures { OnOk result (lent used.new.items
        ≡ lent used.old.items ++ option_to_list (slice_get lists.now.keys number)) }
{
    if let Some(list) = lists.get_index(number as usize) {
        used.push(list)?;
    }
    Ok(())
}

/// Puts how many states there are.
fn put_state_count(bytes: &mut Vec<u8>, automaton: &Dawg) -> Mem<()>
    ensures bytes { OnOk result (bytes.new.items
        ≡ bytes.old.items ++ number_bytes (length automaton.now)) }
    ensures fits { OnOk result (length automaton.now < 2 ^ 32) }
{
    // The root is the last state.
    let root = number_of(automaton.root())?;
    put_number(bytes, one_more(root)?)
}

/// The next number, where 32 bits hold it.
fn one_more(number: u32) -> Mem<u32>
    ensures { IfOk result (λ next. next ≡ number + 1) }
{
    number.checked_add(1).ok_or(NoMemory)
}

/// Puts all states, in order.
fn put_states(bytes: &mut Vec<u8>, automaton: &Dawg, order: &IndexSet<u32>) -> Mem<()>
    ensures bytes { OnOk result (bytes.new.items ≡ bytes.old.items
        ++ flat_map state_bytes (map (renumbered order.now.keys) automaton.now)) }
    ensures fits { OnOk result (All StateFits (map (renumbered order.now.keys) automaton.now)) }
{
    let root = automaton.root();
    for number in 0..root {
        put_state_at(bytes, automaton, order, number)?;
    }
    put_state_at(bytes, automaton, order, root)
}

/// Puts the state of the number.
fn put_state_at(
    bytes: &mut Vec<u8>,
    automaton: &Dawg,
    order: &IndexSet<u32>,
    number: usize,
) -> Mem<()>
    requires { number < length automaton.now }
    ensures bytes { OnOk result (bytes.new.items ≡ bytes.old.items
        ++ flat_map state_bytes (map (renumbered order.now.keys)
        (option_to_list (slice_get automaton.now number)))) }
    ensures fits { OnOk result (All StateFits (map (renumbered order.now.keys)
        (option_to_list (slice_get automaton.now number)))) }
{
    put_state(
        bytes,
        order,
        automaton.code(number),
        automaton.edges(number),
    )
}

/// Puts the state with this number of a list and these edges.
fn put_state(
    bytes: &mut Vec<u8>,
    order: &IndexSet<u32>,
    code: Option<u32>,
    edges: &[Edge],
) -> Mem<()>
    ensures bytes { OnOk result (bytes.new.items ≡ bytes.old.items
        ++ state_bytes (renumbered order.now.keys (state_of code edges.now))) }
    ensures fits { OnOk result (StateFits (renumbered order.now.keys (state_of code edges.now))) }
{
    put_number(bytes, final_in(order, code)?)?;
    put_edges(bytes, edges)
}

/// How a state tells the place of its number.
fn final_in(order: &IndexSet<u32>, code: Option<u32>) -> Mem<u32>
    ensures { IfOk result (λ number. number ≡ final_number
        (option_map (λ c. position_or_len (nat_eq c) order.now.keys) code)) }
{
    match code {
        Some(code) => one_more(number_of(place_in(order, code))?),
        None => Ok(0),
    }
}

/// Puts the lists, in order.
fn put_lists(bytes: &mut Vec<u8>, lists: &[&CodeList]) -> Mem<()>
    ensures bytes { OnOk result (bytes.new.items ≡ bytes.old.items
        ++ flat_map list_bytes (lent lists.now)) }
    ensures fits { OnOk result (All ListFits (lent lists.now)) }
{
    for list in lists {
        put_list(bytes, list)?;
    }
    Ok(())
}
