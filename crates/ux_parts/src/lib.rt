//! The parts of a compiled grammar: what a search of it takes by itself.
//!
//! A part is a graph, searched from its first state, or the body of a context, searched from the
//! state after the edge that opens it. `Parts::of` lists the parts of a net in an order in which
//! each comes after those that it enters with nothing taken. So at one position a search of parts in
//! this order asks of others only what is known.
//!
//! `specs/Runs.antt` says what such a search sees of the meaning: which states runs reach, where they
//! end or close a context, and where one step leads. `specs/Ordered.antt` says what an order is, and
//! `specs/Parts.antt` what the parts are. `ux_net` has marks of states (`Marked`) that speak of edges
//! alone; `proofs/Marked.antt` has the law that a net with such marks has an order and levels.
//!
//! A state is told by its rank in `ordering`, where the parts are put in order and numbered.
#![tactic(auto)]

mod ordering;
mod part;
mod parts;

pub use part::Part;
pub use parts::Parts;
