//! The concordance of hits: each with what stands before and behind it, in an order.
//!
//! In go a text and hits in it, and out comes a text with a line for each hit. `specs/Concordance.antt`
//! says what a concordance is. A column is counted as a terminal shows it, by the display widths of
//! Unicode: some characters take two, and some none.
//!
//! `context` cuts what stands around a hit, `line` puts a hit and its contexts together, `order` sorts
//! the lines, and `concordance` writes them. A context is a part of the text until it is written.
//!
//! ```text
//! let concordance = concord(alloc, &text, hits.as_slice(), 40, 40, Sort::LC)?;
//! ```
#![tactic(auto)]

mod characters;
mod concordance;
mod context;
mod line;
mod order;
mod width;

pub use concordance::concord;
