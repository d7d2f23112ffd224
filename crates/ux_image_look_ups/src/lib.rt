//! Places in an automaton to which texts lead, and the forms that fit a text.
//!
//! A text leads from the root on by each way to write it with lower-case letters that some form has.
//! A place has the states behind these ways, each once, and not the ways: there may be twice as many
//! with each capital of the text, while there are never more states than the automaton has. Begin
//! with `places`, where `begin` gives the place of the empty text; `going_on` leads on by more of a
//! text. Where a form ends, `ending` gives the forms that fit the text, for which `spelling` goes
//! along the text once more, and keeps to what leads to an end. Which states are those of a place
//! stands in `specs/Ways.antt`.
//!
//! ```text
//! let place = begin(alloc, states)?;
//! let place = go_on(alloc, states, &place, "The", &alphabet)?;
//! ending(alloc, states, &place, "The", &alphabet)?      // the forms `The` and `the`, with their lists' numbers
//! ```
#![tactic(auto)]

pub mod depths;
pub mod ends;
pub mod going_on;
pub mod places;
pub mod spelling;
pub mod steps;

pub use depths::longest;
pub use ends::ending;
pub use going_on::go_on;
pub use places::{Place, begin, may_go_on};
