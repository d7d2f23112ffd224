//! Where a walk stands, as a few numbers: visits, configurations, who waits, and what was found.
//!
//! All of it is small and copied freely. A number of a fold's state stands where a list of events
//! would: what leads to one state of the fold falls together.

/// A graph that is entered at a position, in a state of the fold.
#[derive(Clone, Copy, PartialEq, Eq, Hash)]
pub struct Visit {
    /// The number of the graph, counted from 1.
    pub graph: u32,
    /// The position in the text at which it begins.
    pub at: usize,
    /// The state of the fold in which it begins.
    pub fold: usize,
}

/// Where a visit goes on.
#[derive(Clone, Copy, PartialEq, Eq, Hash)]
pub struct Config {
    /// The visit.
    pub visit: Visit,
    /// The number of the state of its graph.
    pub state: u32,
    /// The position in the text.
    pub at: usize,
    /// The state of the fold.
    pub fold: usize,
}

/// A caller, which goes on behind what the visit that it called derives.
#[derive(Clone, Copy, PartialEq, Eq, Hash)]
pub struct Return {
    /// The visit that was called.
    pub callee: Visit,
    /// The visit that called.
    pub caller: Visit,
    /// The number of the state in which that goes on.
    pub to: u32,
}

/// What a visit derives: where it ends, and in which state of the fold.
#[derive(Clone, Copy, PartialEq, Eq, Hash)]
pub struct Found {
    /// The visit.
    pub visit: Visit,
    /// The position at which it ends.
    pub end: usize,
    /// The state of the fold.
    pub fold: usize,
}

/// What a walk has seen.
#[derive(Clone, Copy, PartialEq, Eq, Hash)]
pub enum Item {
    /// A configuration.
    At(Config),
    /// A caller that waits.
    Waits(Return),
    /// What a visit derives.
    Ends(Found),
}

/// A configuration without the states of the fold.
#[derive(Clone, Copy, PartialEq, Eq, Hash)]
pub struct Mark {
    /// The number of the graph, counted from 1.
    pub graph: u32,
    /// The position at which it was entered.
    pub from: usize,
    /// The number of the state.
    pub state: u32,
    /// The position in the text.
    pub at: usize,
}

/// Where derivations of the main graph end, and to which state of the fold their events come.
#[derive(Clone, Copy, PartialEq, Eq, Hash)]
pub struct End {
    /// The position at which they end.
    pub end: usize,
    /// The state of the fold.
    pub fold: usize,
}
