//! The command `tfind`: where a grammar is found in the automata of sentences.
//!
//! The names of a graph, a file of sentence automata and an alphabet go in, and a line for each place
//! where the graph is found comes out, or the stop that names the first file that isn't accepted.
//! What is read and what answers it is the command `tfind` of `specs/Tfind.antt`; where a grammar is
//! found is in `ux_tfst_locate`. Begin with `finding`; `files` refuses what can't be searched, and
//! `printing` writes the lines.
//!
//! ```text
//! let answer = tfind(alloc, "np.grf", "text.tfst", "alphabet.txt", folder)?;      // #T, 1 0 2, ..
//! ```
#![tactic(auto)]

mod files;
pub mod finding;
mod printing;

pub use finding::tfind;
