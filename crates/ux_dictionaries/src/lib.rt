//! The dictionaries of a command, in the order of their names.
//!
//! File names go in, and the dictionaries of those files with their priorities come out, or the stop
//! that names the first file that isn't accepted. A file of forms mostly becomes an automaton, and an
//! image stays the one that it is (`AnyLexicon`). What such a file is stands in
//! `specs/Dictionaries.antt`, and that it is so in one way in `proofs/DictionaryLaws.antt`. Begin with
//! `dictionaries`. `texts` reads what commands that look words up read: an alphabet, a text and its
//! dictionaries, by the plan in `specs/Texts.antt`.
//!
//! ```text
//! let dics = read_dictionaries(alloc, &names, folder)?;      // each dictionary_format names
//! let applied = apply(alloc, &text, &alphabet, &dics)?;
//! ```
#![tactic(auto)]

pub mod dictionaries;
pub mod texts;

pub use dictionaries::read_dictionaries;
pub use texts::{LookedUp, read_text_with_dictionaries};
