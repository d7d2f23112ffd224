//! The command `cascade`: a text, rewritten by the hits of grammars, one after the other.
//!
//! The names of a text, its alphabet, the graphs of steps and dictionaries go in, and the text comes
//! out that the steps leave, behind a line for each round where the trace is asked for; or the stop that
//! names the first file that isn't accepted. What is read and what answers it is the command `cascade`
//! of `specs/Cascade.antt`; what a cascade comes to stands in `ux_cascade`, and what a hit is in
//! `ux_locate`. Begin with `command`.
//!
//! `files` reads the files, and `searching` finds the hits of the steps, as `ux_cascade` asks for them.
//! The nets and the dictionaries are made once for all rounds.
//!
//! ```text
//! let answer = cascade(alloc, "text.txt", "alphabet.txt", &steps, &dics, false, folder)?;
//! ```
#![tactic(auto)]

mod command;
mod files;
mod searching;

pub use command::cascade;
