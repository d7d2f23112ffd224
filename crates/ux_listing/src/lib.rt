//! The one listing: what the main graph of a net derives from a start, each derivation folded to a
//! state as the walk goes, over what leads to a wanted end alone.
//!
//! `list_to` works in two phases. The first (`marking`) walks without a fold, so each graph is
//! entered from a position once, and marks backwards what leads to a wanted end, callers among it.
//! The second (`listing`) walks over marked configurations alone and carries a state of a fold
//! (`ux_folds`) in place of a list of events: derivations that come to one state go on as one, and no
//! two lists are joined. So what the second phase sees is bounded by what the fold tells apart on
//! ways to wanted ends, and not by derivations; a call that leads to none isn't entered.
//!
//! Both phases are one walk (`walking`): from item to item, each once, where an item is a
//! configuration, a caller that waits, or what a visit derives. Over an edge the events of its output
//! come first, then what its label gives (`following`). Whoever waits for a visit, and what was found
//! of it, stand in groups by visit (`groups`), so each pair is met once. A visit has the state in
//! which it is entered, so what is found of it carries the whole state, and its callers go on in it.
//!
//! `specs/Runs.antt` says what runs derive, and `MeaningLemmas` that this is what the grammar means;
//! how a label applies is told by `ux_walk::matching`, which contexts do by the trait `Contexts`.
//!
//! ```text
//! let mut look_ups = LookUps::new(alloc);
//! let first = fold.start(start)?;
//! let found = list_to(alloc, &masked, &contexts, &mut look_ups, &mut fold, ends, start, first)?;
//! ```
#![tactic(auto)]

pub mod config;
mod following;
mod groups;
mod listing;
mod marking;
pub mod marks;
mod outputs;
mod sets;
mod walking;

pub use listing::{list, list_all, list_to};
pub use marking::{MarkSet, marks_to};
