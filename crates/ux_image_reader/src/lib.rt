//! Images of dictionaries, read.
//!
//! An image is a file of bytes: a magic, two counts, the states of a minimal automaton, and the lists
//! of codes in which its forms end. Begin with `front`, which reads all that stands before the lists,
//! or names the first fault of the file. `specs/Fronts.antt` says which bytes have which front and why
//! bytes have none. Inside, `numbers` reads numbers, `states` reads states and tests each by itself,
//! `places` tests them together, and `visit` goes through them as they are to be numbered.
//!
//! ```text
//! let front = read_front(alloc, &bytes)?;
//! let first = front.states.edges(front.states.len() - 1);    // the edges from the root on
//! ```
#![tactic(auto)]

mod cursor;
pub mod error;
pub mod front;
mod limits;
mod numbers;
mod places;
mod states;
mod visit;

pub use error::ImageError;
pub use front::{Front, Version, read_front};
