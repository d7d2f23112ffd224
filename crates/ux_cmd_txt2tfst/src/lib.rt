//! The command `txt2tfst`: the automata of a text's sentences.
//!
//! The names of a text, its alphabet and dictionaries go in, and the automaton of each sentence comes
//! out as text, or the stop that names the first file that isn't accepted. What is read and what answers
//! it is the command `txt2tfst` of `specs/Tfst.antt`; what a sentence is, and which links it has, is in
//! `ux_text_automaton`, and how it is written in `ux_sentence`. Begin with `command`. One sentence is
//! in memory at a time.
//!
//! ```text
//! let automata = txt2tfst(alloc, "text.txt", "alphabet.txt", &dics, false, folder)?;      // #TFST 1, ..
//! ```
#![tactic(auto)]

pub mod command;
mod writing;

pub use command::txt2tfst;
