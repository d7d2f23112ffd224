//! The automata of a text's sentences, from its tokens and their entries.
//!
//! A text goes in with the tables of its entries (`ux_lexical_tables`), and out come its sentences,
//! each with its states and links. Begin with `runs`, which finds the sentences as runs of tokens,
//! and `sentence`, which makes the automaton of one: a text of many megabytes has millions of
//! links, so a caller may take one sentence after the other. `build` makes all of them. What a
//! sentence is stands in `specs/Runs.antt`, what its links are in `specs/Built.antt`, and what its
//! paths mean in terms of dictionaries in `specs/DictionaryPaths.antt`. Inside, `states` numbers
//! the states of a run, `readings` lists what begins at a token, and `keyed` puts that in order.
//!
//! ```text
//! let tables = apply(rt.alloc(), &text, &alphabet, &dics)?;
//! for run in &runs(rt.alloc(), &text)? {
//!     sentence(rt.alloc(), &text, &tables, *run, number)?      // its states and links
//! }
//! ```
#![tactic(auto)]

pub mod building;
mod keyed;
mod readings;
pub mod run;
mod runs_of;
mod states;

pub use building::{build, sentence};
pub use run::Run;
pub use runs_of::runs;
