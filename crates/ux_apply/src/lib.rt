//! Dictionaries applied to a text: which entries apply to its words and to its longer spans.
//!
//! Begin with `applied`, whose `apply` looks up every token and span of a text, and gives what it finds
//! as tables (`LexicalTables` of `ux_lexical_tables`), which need no dictionary any more. Which entries
//! apply to one text, by the priorities of the dictionaries, stands in `specs/Applying.antt`, and which
//! tables they give in `specs/Applied.antt`. Inside, `cursors` goes along all dictionaries with a text,
//! `applying` takes the entries of the text so far, `numbered` asks about each different token once,
//! `starts` how spans may begin with it, and `compounds` goes along the spans of two or more tokens.
//!
//! ```text
//! let dics = [(Priority::of("animals.dic"), lexicon)];
//! let tables = apply(rt.alloc(), &text, &alphabet, &dics)?;
//! tables.simple(0)      // the entries of the first token, if it is a word
//! ```
#![tactic(auto)]

pub mod applied;
mod applying;
mod compounds;
mod cursors;
mod numbered;
pub mod priority;
mod starts;
mod tagged;
mod unknown;

pub use applied::apply;
pub use priority::Priority;
