//! How many characters the shortest form with each list of codes has.
//!
//! States lead to states of lower numbers, so the way to a state is known once the edges of all
//! states above it were followed.

ghost use Rattle.std.specs.Prelude.{◌≡◌, ◌-◌, ◌<◌, All, IfOk, IfSome, length, min, slice_index, slice_set};
ghost use Rattle.ux_dawg.specs.Paths.{AreStates, MakeAutomaton};
ghost use Rattle.ux_image_lists.specs.Depths.{lowered_at, AreDepths, AreLowered};
ghost use Rattle.ux_dawg.specs.declared.state.Edge.{Edge as EdgeRecord};
ghost use Rattle.ux_image_lists.specs.Shortest.{AreShortest};
ghost use Rattle.ux_image_reader.specs.Fronts.{AreAccepted};

use std::alloc::Global;
use ux_base::Mem;
use ux_dawg::{Edge, States};

/// The number of a state to which no way was found, and of a list of which no form was.
pub(crate) const UNREACHED: usize = usize::MAX;

/// How many characters the shortest form with each list has. The time is linear in the edges.
pub(crate) fn shortest_forms(alloc: Global, states: &States, lists: u32) -> Mem<Vec<usize>>
    requires accepted { AreAccepted lists states.now }
    requires automaton { MakeAutomaton states.now }
    ensures { IfOk result (λ shortest. AreShortest states.now lists shortest.items) }
{
    let depths = depths_of(alloc, states)?;
    let mut shortest = vec![in alloc; UNREACHED; lists as usize]?;
    for number in 0..states.len() {
        lower_list(&mut shortest, states.code(number), depths[number]);
    }
    Ok(shortest)
}

/// Lowers the number of the list to this one, if there is a list.
fn lower_list(shortest: &mut [usize], list: Option<u32>, depth: usize)
    requires { IfSome list (λ number. number < length shortest.old) }
    ensures { shortest.new ≡ lowered_at shortest.old list depth }
{
    if let Some(number) = list {
        lower(shortest, number as usize, depth);
    }
}

/// How many edges the shortest way from the root to each state has.
fn depths_of(alloc: Global, states: &States) -> Mem<Vec<usize>>
    requires states { AreStates states.now }
    requires some { 0 < length states.now }
    ensures { IfOk result (λ depths.
        AreDepths states.now (length states.now - 1) (length states.now) depths.items) }
{
    let root = states.len() - 1;
    let mut depths = vec![in alloc; UNREACHED; states.len()]?;
    depths[root] = 0;
    for done in 0..states.len() {
        let number = root - done;
        let depth = depths[number].saturating_add(1);
        lower_targets(&mut depths, states.edges(number), depth);
    }
    Ok(depths)
}

/// Lowers the number of each target to this one.
fn lower_targets(depths: &mut [usize], edges: &[Edge], depth: usize)
    requires { All (λ (e : EdgeRecord). e.target < length depths.old) edges.now }
    ensures { AreLowered edges.now depth depths.old depths.new }
{
    for edge in edges {
        lower(depths, edge.target as usize, depth);
    }
}

/// Lowers the number at the place to this one, if it is higher.
fn lower(numbers: &mut [usize], place: usize, number: usize)
    requires { place < length numbers.old }
    ensures { numbers.new ≡ slice_set numbers.old place (min (slice_index numbers.old place) number) }
{
    numbers[place] = numbers[place].min(number);
}
