//! A compiled grammar as its file tells it: graphs of states, and tags.

use ux_base::{Lst, Txt};

/// What an edge bears.
#[derive(Clone, Copy, Drop)]
pub enum Fst2Label {
    /// A tag, by its number from 0.
    Tag(u32),
    /// A call of a graph, by its number from 1.
    Call(u32),
}

/// An edge of a state. It takes twelve bytes.
#[derive(Clone, Copy, Drop)]
pub struct Fst2Edge {
    /// The label.
    pub label: Fst2Label,
    /// The state to which it leads, by its number from 0.
    pub target: u32,
}

/// A state of a graph.
#[derive(Drop)]
pub struct Fst2State {
    /// Whether the state is final.
    pub is_final: bool,
    /// The edges, in order.
    pub edges: Lst<Fst2Edge>,
}

/// A graph.
#[derive(Drop)]
pub struct Fst2Graph {
    /// The name.
    pub name: Txt,
    /// The states, from state 0.
    pub states: Lst<Fst2State>,
}

/// A compiled grammar.
#[derive(Drop)]
pub struct Fst2File {
    /// The graphs, from graph 1.
    pub graphs: Lst<Fst2Graph>,
    /// The tags as texts, from tag 0. What a tag says is not read here.
    pub tags: Lst<Txt>,
}
