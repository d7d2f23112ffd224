//! Walks of one grammar over one text, by a lazy automaton.
//!
//! A walk goes from a start over the tokens to each position at which the grammar's main graph may
//! end. Masks take one token or several, so a walk may come to several positions at once: an agenda
//! has them in order, each once, with the automaton's front there. Begin with `walker`; the walk
//! itself stands in `walking`, and its agenda in `agenda`.
//!
//! ```text
//! let mut walker = Walker::of(alloc, &masked)?;
//! if walker.may_begin(start) {
//!     walker.ends_from(alloc, start, &mut ends)?;
//! }
//! ```
#![tactic(auto)]

mod agenda;
mod walker;
mod walking;

pub use walker::Walker;
