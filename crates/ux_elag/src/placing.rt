//! The states of a sentence by their places.
//!
//! Only the states that links have count, beside the first and the last, so that a sentence may
//! tell of any number of states.

ghost use Rattle.std.specs.Prelude.{◌≡◌, ◌↔◌, ◌<◌, ◌++◌, ℕ, All, Contains, IfOk, OnOk, length, map};
ghost use Rattle.std.specs.declared.cmp.Ordering.TheVariants.{Equal};
ghost use Rattle.std.specs.List.{HoldsAt};
ghost use Rattle.std.specs.List.Sorted.{IsStrictlySortedBy};
ghost use Rattle.std.specs.Ordering.{nat_cmp};
ghost use Rattle.ux_elag.specs.Numbers.{HasEnds, IsFormed, IsPlaced, IsWithin, ends_of, stated, states_in};

use crate::ranks::{in_order, place_of};
use std::alloc::Global;
use ux_base::{Mem, NoMemory};
use ux_reading_table::{NumberedLink, NumberedSentence};
use ux_subsets::{Automaton, Link};

/// The links of the sentence between the places of their states, of which the last is the last.
pub(crate) fn place_states(alloc: Global, sentence: &NumberedSentence) -> Mem<Automaton>
    requires some { 0 < sentence.now.states }
    requires formed { IsFormed sentence.now }
    ensures { IfOk result (IsPlaced sentence.now) }
{
    let states = states_of(alloc, sentence)?;
    let links = placed_links(alloc, sentence.links.as_slice(), states.as_slice())?;
    Ok(Automaton {
        last: states.len() - 1,
        links,
    })
}

/// The first state, the last, and those of links, in ascending order.
fn states_of(alloc: Global, sentence: &NumberedSentence) -> Mem<Vec<u64>>
    requires { 0 < sentence.now.states }
    ensures rise { IfOk result (λ states. IsStrictlySortedBy nat_cmp states.items) }
    ensures same { IfOk result (λ states. (state : ℕ) →
        Contains states.items state ↔ Contains (states_in sentence.now) state) }
{
    let mut states = Vec::new(alloc);
    states.push(0)?;
    states.push(sentence.states - 1)?;
    let links = sentence.links.as_slice();
    for link in links {
        push_ends(&mut states, link)?;
    }
    Ok(in_order(states))
}

/// Adds the states of the link.
fn push_ends(states: &mut Vec<u64>, link: &NumberedLink) -> Mem<()>
    ensures { OnOk result (states.new.items ≡ states.old.items ++ ends_of link.now) }
{
    states.push(link.from)?;
    states.push(link.to)?;
    Ok(())
}

/// The links, with the places of their states.
fn placed_links(alloc: Global, links: &[NumberedLink], states: &[u64]) -> Mem<Vec<Link>>
    requires in_order { IsStrictlySortedBy nat_cmp states.now }
    requires there { All (HasEnds states.now) links.now }
    ensures placed { IfOk result (λ found. map (stated states.now) found.items ≡ links.now) }
    ensures within { IfOk result (λ found. All (IsWithin (length states.now)) found.items) }
{
    let mut found = Vec::new(alloc);
    for link in links {
        found.push(Link {
            from: narrow_place_of(states, &link.from)?,
            reading: link.reading,
            to: narrow_place_of(states, &link.to)?,
        })?;
    }
    Ok(found)
}

/// The place of a state in a list in order that has it. A place of more than 32 bits is want of
/// memory.
fn narrow_place_of(states: &[u64], state: &u64) -> Mem<u32>
    requires in_order { IsStrictlySortedBy nat_cmp states.now }
    requires there { Contains states.now state.now }
    ensures inside { IfOk result (λ place. place < length states.now) }
    ensures equal { IfOk result
        (HoldsAt (λ other. nat_cmp other state.now ≡ Equal) states.now) }
{
    let place = place_of(states, state);
    if place > u32::MAX as usize {
        return Err(NoMemory);
    }
    Ok(place as u32)
}
