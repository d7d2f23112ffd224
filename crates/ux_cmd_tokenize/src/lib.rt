//! The command `tokenize`: the different tokens of a text.
//!
//! The names of a text and its alphabet go in, and the token file of the text comes out, or the stop
//! that names the first file that isn't accepted. What is read and what answers it is the command
//! `tokenize` of `specs/Tokenize.antt`. Begin with `tokenizing`.
//!
//! ```text
//! let file = tokenize(alloc, "text.txt", "alphabet.txt", false, folder)?;      // 2, The, cat, each on a line
//! ```
#![tactic(auto)]

pub mod tokenizing;

pub use tokenizing::tokenize;
