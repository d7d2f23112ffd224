//! The command `flatten`: a grammar as one compiled graph without calls.
//!
//! The names of a graph and an alphabet and a depth go in, and the text of the flat net comes out, or
//! the stop that names the first file that isn't accepted. What is read and what answers it is the
//! command `flatten` of `specs/Flatten.antt`; which net is the flat one, and what it derives, is in
//! `ux_flatten`. Begin with `flattening`.
//!
//! ```text
//! let file = flatten(alloc, "np.grf", "alphabet.txt", 10, folder)?;      // 0000000001, -1 np, ..
//! ```
#![tactic(auto)]

pub mod flattening;

pub use flattening::flatten;
