//! The states that no later form can change, each once.
//!
//! All their edges stand in one list, and a state is looked up from what it would be: neither a
//! look-up nor a state takes memory of its own. Edges lead to lower numbers. So the number after
//! the target of a state's last edge tells three cases apart:
//!
//! - It is the next number: no state has an edge to that target yet, and so the state is new. It
//!   gets the number, and *follows* its target.
//! - The state of that number is the one. It stands beside the target, and is compared first.
//! - It is another one, or there is none. Then the state doesn't follow, and is looked up in the
//!   index by its hash: a step for each edge, and one for each other state in the bucket.
//!
//! The index has only the states that don't follow. A state without edges follows if it is the
//! first. One that follows costs 8 bytes, and 8 for each edge; one in the index also 12 of its
//! link, and 8 to 16 of buckets. All but the buckets take up to twice as much where a list has
//! just grown.

ghost use Rattle.std.specs.Prelude.{◌≡◌, ◌≢◌, [], IfOk, get_or, length};
ghost use Rattle.ux_dawg.specs.Building.{bare};
ghost use Rattle.ux_dawg.specs.Flat.{state_of};
ghost use Rattle.ux_dawg.specs.Paths.{AreStates};
ghost use Rattle.ux_dawg.specs.Register.{follower_of, AreOnceStates, IsKeptState};

use crate::hash::state_hash;
use crate::index::{Index, is_state};
use crate::state::Edge;
use crate::states::States;
use std::alloc::Global;
use std::marker::Model;
use ux_base::Mem;

/// States that are numbered, each once. Contracts see the list of them.
#[derive(Debug, Drop)]
pub struct Register {
    states: States,
    index: Index,
}

impl Model for Register {
    ghost use Rattle.std.specs.Prelude.{List};
    ghost use Rattle.ux_dawg.specs.declared.state.State.{State};
    ghost use Rattle.ux_dawg.specs.Indexed.{IsRegister};

    ghost Value = { List State };

    ghost view = { λ r. r.states };

    ghost invariant = { λ r. IsRegister r.states r.index };
}

impl Register {
    /// No state. Takes no memory.
    pub(crate) fn new(alloc: Global) -> Register
        ensures { result ≡ [] }
    {
        Register {
            states: States::new(alloc),
            index: Index::new(alloc),
        }
    }

    /// The number of the state with this number of a list and these edges, which is a new one where
    /// the state is new.
    pub(crate) fn keep(&mut self, code: Option<u32>, edges: &[Edge]) -> Mem<usize>
        requires { AreStates self.old }
        ensures { IfOk result (λ i.
            IsKeptState self.old self.new (state_of code edges.now) i) }
    {
        let number = follower(edges);
        if number == self.states.len() {
            self.states.push(code, edges)?;
            return Ok(number);
        }
        if is_state(&self.states, number, code, edges) {
            return Ok(number);
        }
        self.look_up(code, edges)
    }

    /// The same for a state that isn't the one after the target of its last edge: the index has it,
    /// or it is new.
    fn look_up(&mut self, code: Option<u32>, edges: &[Edge]) -> Mem<usize>
        requires { get_or self.old (follower_of edges.now) bare ≢ state_of code edges.now }
        ensures { IfOk result (λ i.
            IsKeptState self.old self.new (state_of code edges.now) i) }
    {
        self.index.widen()?;
        let hash = state_hash(code, edges);
        match self.index.place(&self.states, hash, code, edges) {
            Some(number) => Ok(number),
            None => self.index.store(&mut self.states, hash, code, edges),
        }
    }

    /// The states by their numbers.
    pub(crate) fn into_states(self) -> States
        ensures states { result ≡ self }
        ensures once { AreOnceStates result }
    {
        self.states
    }
}

/// The number after the target of the last edge; 0 where there is no edge.
fn follower(edges: &[Edge]) -> usize
    ensures { result ≡ follower_of edges.now }
{
    match edges.last() {
        Some(edge) => edge.target as usize + 1,
        None => 0,
    }
}
