//! Grammars without calls: copies of graphs in place of their calls, to a depth.
//!
//! ```text
//! net --which graphs have a word, how big--> states of copies --of_states--> flat net
//! ```
//!
//! `flatten` makes the flat net of a net. Its one graph has the states of the main graph, and in place
//! of each call a copy of the graph that is called, one depth deeper. A call deeper than the depth
//! becomes a text that no token has. So the flat net derives exactly what the grammar derives where
//! calls are followed to the depth. Begin with `specs/Copies.antt`, which says which states the flat
//! graph has, and `specs/Depths.antt`, which says what it derives.
//!
//! ```text
//! let flat = flatten(alloc, &net, 10)?;
//! ```
#![tactic(auto)]

mod admitting;
mod copying;
mod cuts;
mod error;
mod flattening;
mod negative;
mod pending;
mod sizes;
mod source;
mod told;
mod words;

pub use error::FlattenError;
pub use flattening::flatten;
