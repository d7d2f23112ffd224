//! A compiled grammar: a recursive transition network, whose graphs of states call each other by
//! number. The first graph is the main graph.

ghost use Rattle.std.specs.Prelude.{◌≡◌, ◌↔◌, ℕ, ◌≤◌, ◌<◌, Some, IsSomeAnd, IsTrue, length, slice_get, option_copied, get_or};
ghost use Rattle.ux_net.specs.Closings.{closings_at, closing_of, Ascend, TellsClosings};
ghost use Rattle.ux_net.specs.Marked.{IsMarked};
ghost use Rattle.ux_net.specs.Masks.{IsMaskCount};
ghost use Rattle.ux_net.specs.Measured.{IsMeasured};
ghost use Rattle.ux_net.specs.Nets.{graph_at, states_of, ArePlain, CutNothing};
ghost use Rattle.ux_net.specs.Sound.{IsSound};
ghost use Rattle.ux_net.specs.Whole.{AreAside, unmet_at, whole_states_of};

use crate::closings::told;
use crate::labels::{Kept, are_all};
use crate::net_graph::{Closing, NetGraph, Rank, UnmetState};
use crate::state::{Edge, State};
use crate::whole::kept_aside;
use std::marker::Model;

/// A compiled grammar: a recursive transition network. Contracts see it as the list of its graphs.
#[derive(Drop)]
pub struct Net {
    graphs: Vec<NetGraph>,
    masks: usize,
}

impl Model for Net {
    ghost use Rattle.std.specs.Prelude.{List};
    ghost use Rattle.ux_net.specs.declared.net_graph.NetGraph.{NetGraph};
    ghost use Rattle.ux_net.specs.Masks.{IsMaskCount};
    ghost use Rattle.ux_net.specs.Sound.{IsSound};

    ghost Value = { List NetGraph };

    ghost view = { λ net. net.graphs.items };

    ghost invariant = { λ net.
        IsSound net.graphs.items × IsMaskCount net.graphs.items net.masks };
}

impl Net {
    /// The net of these graphs, on which so many different masks stand. Takes no memory.
    pub fn of(graphs: Vec<NetGraph>, masks: usize) -> Net
        requires sound { IsSound graphs.items }
        requires counted { IsMaskCount graphs.items masks }
        ensures { result ≡ graphs.items }
    {
        Net { graphs, masks }
    }

    /// How many graphs there are. They are counted from 1, and the first is the main graph.
    pub fn graphs(&self) -> u32
        ensures count { result ≡ length self.now }
        ensures some { 1 ≤ result }
    {
        self.graphs.len() as u32
    }

    /// How many different masks stand on the edges. Takes no memory.
    pub fn masks(&self) -> usize
        ensures { IsMaskCount self.now result }
    {
        self.masks
    }

    /// Every walk through a net ends: its ranks fall along each edge that may take nothing.
    pub fn is_measured(&self)
        ensures { IsMeasured self.now }
    {
        let _ = &self.graphs;
    }

    /// The states have marks, by which what a net enters can be searched in an order.
    pub fn is_marked(&self)
        ensures { IsMarked self.now }
    {
        let _ = &self.graphs;
    }

    /// Each context that may not follow is closed into one state, which `closing` tells.
    pub fn tells_closings(&self)
        ensures { TellsClosings self.now }
    {
        let _ = &self.graphs;
    }

    /// Whether no label bounds a context or cuts. Looks at each edge, and takes no memory.
    pub fn is_plain(&self) -> bool
        ensures { IsTrue result ↔ ArePlain self.now }
    {
        are_all(&self.graphs, Kept::Plain)
    }

    /// Whether no label cuts off what stands on its left. Looks at each edge, and takes no memory.
    pub fn cuts_nothing(&self) -> bool
        ensures { IsTrue result ↔ CutNothing self.now }
    {
        are_all(&self.graphs, Kept::Uncut)
    }

    /// The name of a graph.
    pub fn name(&self, graph: u32) -> &str
        requires from { 1 ≤ graph }
        requires to { graph ≤ length self.now }
        ensures { IsSomeAnd (graph_at self.now graph) (λ g. result.now ≡ g.name) }
    {
        self.graphs[graph as usize - 1].name.as_str()
    }

    /// How many states a graph has.
    pub fn states(&self, graph: u32) -> u32
        requires from { 1 ≤ graph }
        requires to { graph ≤ length self.now }
        ensures count { result ≡ length (states_of self.now graph) }
        ensures some { 1 ≤ result }
    {
        self.states_in(graph).len() as u32
    }

    /// Whether a word of the graph may end at the state.
    pub fn is_final(&self, graph: u32, state: u32) -> bool
        requires from { 1 ≤ graph }
        requires to { graph ≤ length self.now }
        requires inside { state < length (states_of self.now graph) }
        ensures { IsSomeAnd (slice_get (states_of self.now graph) state)
            (λ s. result ≡ s.is_final) }
    {
        self.states_in(graph)[state as usize].is_final
    }

    /// The rank of a state; the lowest one, where the graph has no such state. Takes no memory.
    pub fn rank(&self, graph: u32, state: u32) -> Rank
        requires from { 1 ≤ graph }
        requires to { graph ≤ length self.now }
        ensures { IsSomeAnd (graph_at self.now graph)
            (λ g. result ≡ get_or g.ranks state (record { major = 0; minor = 0 })) }
    {
        match self.graphs[graph as usize - 1]
            .ranks
            .as_slice()
            .get(state as usize)
        {
            Some(rank) => *rank,
            None => Rank { major: 0, minor: 0 },
        }
    }

    /// The state into which the body that begins at a state is closed, where a context that may not
    /// follow opens into it. Takes no memory: a binary search.
    pub fn closing(&self, graph: u32, state: u32) -> Option<u32>
        ensures { result ≡ closing_of self.now graph state }
    {
        told(self.closings(graph), state)
    }

    /// The edges of a state, in order.
    pub fn edges(&self, graph: u32, state: u32) -> &[Edge]
        requires from { 1 ≤ graph }
        requires to { graph ≤ length self.now }
        requires inside { state < length (states_of self.now graph) }
        ensures { IsSomeAnd (slice_get (states_of self.now graph) state)
            (λ s. result.now ≡ s.edges) }
    {
        self.states_in(graph)[state as usize].edges.as_slice()
    }

    /// An edge of a state, counted from 0.
    pub fn edge(&self, graph: u32, state: u32, k: u32) -> Option<&Edge>
        requires from { 1 ≤ graph }
        requires to { graph ≤ length self.now }
        requires inside { state < length (states_of self.now graph) }
        ensures { IsSomeAnd (slice_get (states_of self.now graph) state)
            (λ s. option_copied result ≡ slice_get s.edges k) }
    {
        self.edges(graph, state).get(k as usize)
    }

    /// Whether a word of the graph may end at the state, as a file tells it: also of a state to which
    /// no run comes. Takes no memory: a binary search.
    pub fn is_whole_final(&self, graph: u32, state: u32) -> bool
        requires from { 1 ≤ graph }
        requires to { graph ≤ length self.now }
        requires inside { state < length (states_of self.now graph) }
        ensures { IsSomeAnd (slice_get (whole_states_of self.now graph) state)
            (λ s. result ≡ s.is_final) }
    {
        match kept_aside(self.unmet(graph), state) {
            Some(unmet) => unmet.is_final,
            None => self.is_final(graph, state),
        }
    }

    /// The edges of a state in order, as a file tells them: also of a state to which no run comes.
    /// Takes no memory: a binary search.
    pub fn whole_edges(&self, graph: u32, state: u32) -> &[Edge]
        requires from { 1 ≤ graph }
        requires to { graph ≤ length self.now }
        requires inside { state < length (states_of self.now graph) }
        ensures { IsSomeAnd (slice_get (whole_states_of self.now graph) state)
            (λ s. result.now ≡ s.edges) }
    {
        match kept_aside(self.unmet(graph), state) {
            Some(unmet) => unmet.edges.as_slice(),
            None => self.edges(graph, state),
        }
    }

    /// The state of this number in the graph of this number, where there is one.
    pub fn state(&self, graph: u32, state: u32) -> Option<&State>
        ensures { option_copied result ≡ slice_get (states_of self.now graph) state }
    {
        let graph = self.graphs.get((graph as usize).checked_sub(1)?)?;
        graph.states.as_slice().get(state as usize)
    }

    /// Where the contexts of a graph that may not follow are closed; nothing, where there is no such
    /// graph.
    fn closings(&self, graph: u32) -> &[Closing]
        ensures told { result.now ≡ closings_at (graph_at self.now graph) }
        ensures ascend { Ascend result.now }
    {
        let Some(before) = (graph as usize).checked_sub(1) else {
            return &[];
        };
        match self.graphs.get(before) {
            Some(found) => found.closings.as_slice(),
            None => &[],
        }
    }

    /// What is kept aside of a graph.
    fn unmet(&self, graph: u32) -> &[UnmetState]
        requires from { 1 ≤ graph }
        requires to { graph ≤ length self.now }
        ensures entries { result.now ≡ unmet_at (graph_at self.now graph) }
        ensures aside { AreAside result.now (states_of self.now graph) }
    {
        self.graphs[graph as usize - 1].unmet.as_slice()
    }

    /// The states of a graph.
    fn states_in(&self, graph: u32) -> &[State]
        requires from { 1 ≤ graph }
        requires to { graph ≤ length self.now }
        ensures states { result.now ≡ states_of self.now graph }
        ensures some { 1 ≤ length result.now }
        ensures few { length result.now < 4294967296 }
    {
        self.graphs[graph as usize - 1].states.as_slice()
    }
}
