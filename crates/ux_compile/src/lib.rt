//! Compiles the graphs of a grammar: boxes become states and edges.
//!
//! `compile` takes the graphs of a grammar and answers its net, or the first cause of refusal.
//! Graphs are counted from 1, the main graph first; nodes count boxes, and boxes, states and edges
//! are counted from 0.
//!
//! ```text
//! graphs --ux_boxes--> places --ux_admission--> ranks --construct, ranks, closings--> Net
//! ```
//!
//! `grammar` has the parts in their order. `numbering` numbers the states, `construct` makes them,
//! `ranks` ranks them, and `closings` notes where contexts that may not follow are closed.
//! `specs/Construct.antt` says which states a net has, `specs/Refusing.antt` when each refusal
//! comes.
#![tactic(auto)]

mod closings;
mod compiling;
mod construct;
mod grammar;
mod numbering;
mod ranks;

pub use compiling::compile;
