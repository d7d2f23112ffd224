//! Where a grammar is found in sentence automata. The manual, on searching the text automaton.
//!
//! A sentence is an input of the chart like a text: its states are the positions, and a label takes
//! what a link reads. States are huge numbers in hostile files, so only those that links have get
//! positions. A chart begins with lists of its own, so some sentences are searched together, side by
//! side.
//!
//! ```text
//! sentences --gather--> links --Lattice::of--> positions and arcs --LatticeBasis--> Chart::fill
//!                                    |                                                  |
//!                                reaching: which positions lie on a path                |
//!                                    \------------------ listing -----------------------/--> spans
//!
//! let finder = Finder::of(alloc, &net, &alphabet, &table)?;
//! let spans = finder.spans(alloc, &sentences)?;                   // sentence 1, from 0 to 2
//! ```
//!
//! Begin with `finder`, and with `specs/Spans.antt`, which says where a grammar is found;
//! `proofs/Meanings.antt` has the argument: a derivation over a sentence is one over its positions.
#![tactic(auto)]

pub mod basis;
mod beginning;
pub mod finder;
mod gathering;
pub mod lattice;
mod listing;
mod ranks;
mod reaching;
pub mod span;

pub use finder::Finder;
pub use span::Span;
