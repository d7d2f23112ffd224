//! The states to which runs come, and what is kept aside of the others.

ghost use Rattle.std.specs.Prelude.{◌≡◌, [], length, get_or, false, IfOk};
ghost use Rattle.std.specs.Vec.Iter.{into_iter_items};
ghost use Rattle.ux_boxes.specs.Places.{is_reached};
ghost use Rattle.ux_states.specs.Building.{is_met as is_met_by, searched_from, aside_from};

use std::alloc::Global;
use std::vec::IntoIter;
use ux_base::{Lst, Mem, NoMemory};
use ux_boxes::Place;
use ux_net::{State, UnmetState};

/// The states of a graph, parted.
#[derive(Drop)]
pub(crate) struct Parted {
    /// The states that are searched: bare ones, where no run comes.
    pub searched: Vec<State>,
    /// What is kept aside of those.
    pub unmet: Vec<UnmetState>,
}

/// The states, parted by whether a run comes to their hubs.
pub(crate) fn part(
    alloc: Global,
    mut states: IntoIter<State>,
    places: &[Place],
    hubs: &[u32],
) -> Mem<Parted>
    ensures searched { IfOk result (λ parted. parted.searched.items
        ≡ searched_from (is_met_by places.now hubs.now) 0 (into_iter_items states)) }
    ensures unmet { IfOk result (λ parted. parted.unmet.items
        ≡ aside_from (is_met_by places.now hubs.now) 0 (into_iter_items states)) }
{
    let mut searched = Vec::new(alloc);
    let mut unmet = Vec::new(alloc);
    while let Some(state) = states.next() {
        let number = searched.len();
        if is_met(places, hubs, number) {
            searched.push(state)?;
        } else {
            unmet.push(entry_of(number, state)?)?;
            searched.push(bare_state(alloc))?;
        }
    }
    Ok(Parted { searched, unmet })
}

/// Whether a run comes to the state of this number.
fn is_met(places: &[Place], hubs: &[u32], number: usize) -> bool
    ensures { result ≡ is_met_by places.now hubs.now number }
{
    let hub = match hubs.get(number) {
        Some(hub) => *hub,
        None => 0,
    };
    match places.get(hub as usize) {
        Some(place) => place.reached,
        None => false,
    }
}

/// What is kept aside of a state of this number. States are fewer than 32 bits number.
fn entry_of(number: usize, state: State) -> Mem<UnmetState>
    ensures { IfOk result (λ entry. (entry.number ≡ number) × (entry.is_final ≡ state.is_final)
        × (entry.edges ≡ state.edges)) }
{
    let State { is_final, edges } = state;
    Ok(UnmetState {
        number: u32::try_from(number).map_err(|_| NoMemory)?,
        is_final,
        edges,
    })
}

/// A state without edges in which no word ends.
fn bare_state(alloc: Global) -> State
    ensures no_end { result.is_final ≡ false }
    ensures no_edge { result.edges ≡ [] }
{
    State {
        is_final: false,
        edges: Lst::new(Vec::new(alloc)),
    }
}
