//! The command `morpho`: what a grammar finds inside the words of a text, as the lines of a dictionary.
//!
//! The names of a graph, a text, its alphabet and dictionaries go in. For each different word the graph
//! is matched against its letters, with the entries of the dictionaries, and the entries that it gives
//! to the word come out; or the stop that names the first file that isn't accepted. What is read and
//! what answers it is the command `morpho` of `specs/Morpho.antt`; what a grammar gives to one word
//! stands in `ux_morpho`, and where the marks `$<` and `$>` may stand in `ux_marks`. Begin with
//! `command`.
//!
//! `files` reads the files: the alphabet twice from one file, since the text is cut into words and the
//! grammar into letters. `words` goes along the text.
//!
//! ```text
//! let answer = morpho(alloc, "un.grf", "text.txt", "alphabet.txt", &dics, folder)?;
//! ```
#![tactic(auto)]

mod command;
mod files;
mod words;

pub use command::morpho;
