//! Whether the marks `$<` and `$>` of a grammar stand so that all of its main graph's words lie
//! between them.
//!
//! A grammar of the morphological mode is matched inside a word. That its whole main graph stands
//! between the marks, and no mark stands in another graph, is this project's own rule. A net goes in,
//! and the first state that breaks the rule comes out, if there is one.
//!
//! ```text
//! stage: where a chain of edges stands, and which states are bad there
//!    |
//! meeting: in which stages chains meet each state
//!    |
//! checking: the first bad state
//! ```
//!
//! Begin with `checking`, and with `specs/Marks.antt`. All of it is linear in the net.
//!
//! ```text
//! check_marks(rt.alloc(), &net)?;      // Err(BadMarks { graph, node }) for the graph `un`
//! ```
#![tactic(auto)]

mod checking;
mod error;
mod meeting;
mod rules;
mod stage;

pub use checking::check_marks;
pub use error::MorphError;
pub use stage::Stage;
