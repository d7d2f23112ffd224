//! The command `fst2`: a compiled grammar as a file.
//!
//! The names of a graph and an alphabet go in, and the text of the grammar's net comes out, or the
//! stop that names the first file that isn't accepted. What is read and what answers it is the
//! command `fst2` of `specs/Fst2.antt`. Begin with `compiled`.
//!
//! ```text
//! let file = fst2(alloc, "noun.grf", "alphabet.txt", false, folder)?;      // 0000000001, -1 noun, ..
//! ```
#![tactic(auto)]

pub mod compiled;

pub use compiled::fst2;
