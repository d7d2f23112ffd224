//! Walks through a compiled grammar by an automaton that is made as walks need it.
//!
//! A walk is at a position of the text with a set of stacks: the frames that may still have to be
//! gone through. Such a set is a *front*, named by a number. `Automaton::step` leads from a front
//! and a position to the fronts behind the next space, the next token and spans of several tokens,
//! and tells whether a walk ends here. So it is the subset construction, done lazily, after the
//! lazy automata of regex libraries (`hybrid` in Rust's regex-automata). Its letters are the
//! different tokens of the text, and its states are sets of stacks, not of states, since graphs
//! call graphs.
//!
//! ```text
//! front --closed--> all that is reached without a token --transition, by the token's number--> front
//! ```
//!
//! A transition is kept by the closed front and the token's number and kind. What masks accept is
//! read from the text's table. It is told by the number too, but where a span of several tokens may
//! begin: there it is worked out anew. A state of many edges gets an index by its literals when it is
//! first met, so that few of them are tried at a token. So does a front of many stands, as
//! `front_index` says. Begin with `automaton`; `kept` says what is kept, and `targets` where edges
//! lead.
//!
//! ```text
//! let mut automaton = Automaton::of(alloc, &masked)?;
//! let front = automaton.begin(alloc)?;
//! let step = automaton.step(alloc, front, start)?;
//! // Walks go on at start + 1 from step.over_space, and behind the token from step.over_token.
//! ```
#![tactic(auto)]

pub mod automaton;
mod closed;
mod edges;
mod front_index;
mod front_indexes;
mod fronts;
mod kept;
mod marks;
mod onward;
mod slots;
pub mod step;
mod takers;
mod taking;
mod target;
mod targets;
mod transitions;

pub use automaton::Automaton;
pub use step::{Landing, Step};
