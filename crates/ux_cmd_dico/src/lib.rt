//! The command `dico`: which entries of dictionaries apply to a text.
//!
//! The names of a text, its alphabet and dictionaries go in, and the report of the entries that apply to
//! the text comes out, or the stop that names the first file that isn't accepted. What is read and what
//! answers it is the command `dico` of `specs/Dico.antt`. Begin with `reporting`.
//!
//! ```text
//! let report = dico(alloc, "text.txt", "alphabet.txt", &dics, false, folder)?;      // #DLF 1, ..
//! ```
#![tactic(auto)]

pub mod reporting;

pub use reporting::dico;
