//! The graphs of a grammar, read one after another, and the net that they compile to.
//!
//! A word names the file of the main graph. The graphs that it calls stand beside it, as NAME.grf,
//! and are read in the order in which they are called, each once. `read_graphs` gives them all, and
//! `read_net` the net of a grammar that has a meaning; `read_drawn_net` does so where it is drawn, and
//! `read_marked_net` where it is drawn for the morphological mode.
//! `drawn_graph` reads one graph that calls none.
//!
//! Begin with `specs/Graphs.antt`: which files are read in which order, and what each must be. A
//! grammar is `grammar_plan` there, which a command's plan takes in.
//!
//! ```text
//! let alphabet = read_alphabet(alloc, alphabet, false, folder)?;
//! let net = read_net(alloc, graph, &alphabet, folder)?;
//! ```
#![tactic(auto)]

mod compiled;
pub mod compiling;
pub mod graphs;
pub mod naming;

pub use compiling::{read_drawn_net, read_marked_net, read_net};
pub use graphs::{drawn_graph, read_graphs};
pub use naming::{callee_file, graph_file, named_file};
