//! States as places, and which graphs of states are refused.
//!
//! ```text
//! states --place_states--> places --admit_states--> closers, levels, ranks
//! ```
//!
//! Which grammars are refused is found by places, each with the lines by which a step comes into it.
//! Edges of states aren't so: their labels stand between two states. So `place_states` makes a place of
//! each state and kind of label that leads into it. One place of a state is its hub, from which its
//! edges lead: its only one, as most states have, or one more, into which a step takes nothing.
//! `admit_states` refuses the graphs, or gives what it found of the places. Begin with
//! `specs/Standing.antt`, which says what holds between places and states;
//! `specs/RefusingStates.antt` says why graphs are refused.
#![tactic(auto)]

mod admitted;
mod arrival;
mod arrivals;
mod keeping;
mod meeting;
mod placed;
mod raw;

pub use admitted::{Admitted, admit_states};
pub use placed::{Placed, place_states};
