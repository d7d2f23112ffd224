//! What dictionaries have for the tokens and spans of a text, as tables, and which spans a mask accepts
//! by them.
//!
//! `ux_apply` fills the tables of a text from dictionaries, and searches read them, so that these need
//! no dictionary. Begin with `tables`: `LexicalTables` has the simple entries of each token, the
//! compound entries that begin there, and the unknown words, and tells where the spans end that a mask
//! accepts from a token on (`ends`). What the tables are stands in `specs/Tables.antt`, when they belong
//! to a text in `specs/Belonging.antt`, and what a mask accepts in `specs/Accepting.antt`.
//!
//! ```text
//! let tables = LexicalTables::from_parts(words, entries, tags, compounds, unknown);
//! tables.simple(0)      // the entries of the first token, if it is a word
//! tables.ends(alloc, &text, &alphabet, &mask, 0, &mut DigitRun::none(), &mut steps)?    // after its spans
//! ```
#![tactic(auto)]

pub mod digits;
mod ends;
pub mod rows;
pub mod spans;
mod spelling;
pub mod tables;
pub mod words;

pub use digits::DigitRun;
pub use rows::{Rows, Tagged};
pub use tables::LexicalTables;
pub use words::Words;
