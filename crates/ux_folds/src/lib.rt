//! Folds: what is made of the events of a derivation as they come, in place of a list of them.
//!
//! A fold's state is a number, so a walk that carries it tells derivations apart by what is made of
//! them, and no further: those that come to one state go on as one. `fold` has the trait with its
//! laws. `RenderingFold` renders: its states stand for what is rendered so far, as
//! `specs/Tables.antt` says, and a state's hit is the one that the events before it render
//! (`proofs/RenderedLaw.antt`). `NoFold` makes nothing of events.
//!
//! ```text
//! let mut fold = RenderingFold::new(alloc, &text, mode, novar, &asked_names);
//! let first = fold.start(start)?;
//! let after = fold.add(first, LentEvent::Take { from: 0, to: 1 })?;
//! ```
#![tactic(auto)]

pub mod fold;
mod following;
pub mod kept;
pub mod lists;
mod names;
pub mod numbered;
mod putting;
pub mod rendering;
pub mod tables;
mod taking;
mod variables;

pub use fold::{Fold, LentEvent, NoFold};
pub use names::asked_name;
pub use rendering::RenderingFold;
