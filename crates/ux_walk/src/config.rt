//! Visits and configurations: which graph is entered where, and where a walk goes on in it,
//! as a few numbers.
//!
//! All of it is small and copied freely; the events that a caller sees are made of it at the end.

/// A state of a graph.
#[derive(Clone, Copy, PartialEq, Eq, Hash)]
pub struct Frame {
    /// The number of the graph, counted from 1.
    pub graph: u32,
    /// The number of the state.
    pub state: u32,
}

/// A visit of a graph: that it is entered at a position.
#[derive(Clone, Copy, PartialEq, Eq, Hash)]
pub struct Visit {
    /// The number of the graph, counted from 1.
    pub graph: u32,
    /// The position in the text at which it begins.
    pub at: usize,
}

/// Where a visit goes on, and what was before in it.
#[derive(Clone, Copy, PartialEq, Eq, Hash)]
pub struct Config {
    /// The number of the visit.
    pub visit: usize,
    /// The state in which it goes on.
    pub here: Frame,
    /// The position in the text.
    pub at: usize,
    /// The number of the list of the events since the visit began, latest first.
    pub events: usize,
}

/// What waits for the derivations of a visit that it made.
#[derive(Clone, Copy, PartialEq, Eq, Hash)]
pub struct Return {
    /// The number of the visit that called.
    pub visit: usize,
    /// The state in which that goes on.
    pub here: Frame,
    /// The number of the list of the events in it before the call, latest first.
    pub events: usize,
}

/// A derivation of a visit that was found.
#[derive(Clone, Copy, PartialEq, Eq, Hash)]
pub struct Found {
    /// The position at which it ends.
    pub end: usize,
    /// The number of the list of its events, latest first.
    pub events: usize,
}
