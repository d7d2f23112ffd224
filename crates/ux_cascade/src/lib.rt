//! Cascades: the hits of a text are rewritten, step by step and round by round.
//!
//! `rewrite` puts the texts of hits in place of their tokens. In a round of a step the step's hits are
//! rewritten, and the text that this leaves is cut into tokens anew; a step takes so many rounds, and a
//! cascade is one step after the other. What a cascade comes to stands in `specs/Cascades.antt`, and
//! what is rewritten in `specs/Rewriting.antt`. Which hits a step has in a text is told by a `Finder`,
//! so this crate knows no grammar.
//!
//! `cascade` begins with a text, and `apply_steps` with its tokens. Beside the round's hits two texts
//! are in memory, that before the round and that after it.
//!
//! ```text
//! let outcome = cascade(alloc, text, &alphabet, &[1, 9], &finder)?;   // outcome.text, outcome.rounds
//! ```
#![tactic(auto)]

mod between;
mod cascading;
mod error;
mod finder;
mod outcome;
mod rewriting;
mod rounds;
mod trace;

pub use cascading::{apply_steps, cascade};
pub use error::CascadeError;
pub use finder::Finder;
pub use outcome::{Outcome, Round};
pub use rewriting::{Rewritten, rewrite};
pub use trace::trace_text;
