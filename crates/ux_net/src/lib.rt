//! Compiled grammars: graphs that call each other, as states and edges.
//!
//! A `Net` is the graphs of a grammar, of which the first is the main graph. `ux_compile` makes it
//! of drawn graphs. Graphs are counted from 1, and states and edges from 0.
//!
//! `Label` is what stands on an edge. A state has a rank, which falls along each edge that may take
//! nothing, so every walk ends; and a net tells where contexts that may not follow are closed. Begin
//! with `specs/Words.antt`: the words of a graph of boxes, of places and of states are one
//! definition. `specs/Nets.antt` says what a net is, `specs/Sound.antt` what holds of each.
#![tactic(auto)]

mod closings;
mod label;
mod labels;
mod masks;
mod net;
mod net_graph;
mod state;
mod state_graph;
mod whole;

pub use label::Label;
pub use masks::count_masks;
pub use net::Net;
pub use net_graph::{Closing, NetGraph, Rank, UnmetState};
pub use state::{Edge, State};
pub use state_graph::StateGraph;
