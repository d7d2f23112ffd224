//! The boxes of graphs as places, whose lines are split into labels.
//!
//! `refuse_missing` tests the calls and `refuse_bad_masks` the mask texts, each by the first bad
//! one. `split_graph` makes a place of each box of a graph: its lines are lists of labels, and it
//! leads where the box does. `offsets` numbers the places of all graphs, and `rows_by_graph` cuts
//! what stands at them into rows. Graphs are counted from 1; nodes count boxes, from 0.
//!
//! Begin with `specs/Boxes.antt`, which says what graphs of boxes mean, and `specs/Places.antt`.
//! `specs/Refusing.antt` says when a mask text and a call are refused; `NetError` has all causes
//! for which a grammar isn't compiled.
#![tactic(auto)]

mod bad_masks;
mod error;
mod missing;
mod naming;
mod offsets;
mod output;
mod place;
mod rows;
mod split;

pub use bad_masks::refuse_bad_masks;
pub use error::NetError;
pub use missing::{names_of, refuse_missing};
pub use naming::name_of;
pub use offsets::{count_of, offsets_of};
pub use output::copied_output;
pub use place::Place;
pub use rows::{row_at, rows_by_graph};
pub use split::split_graph;
