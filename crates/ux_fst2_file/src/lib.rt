//! The text of compiled grammars (`.fst2` files), both ways.
//!
//! `read` cuts a text into graphs of states and into tags. The edges of a state bear numbers: that
//! of a tag, or that of a graph that is called. What a tag says is not read here: a tag is the text
//! of its line. `print` writes the text of a file, and what it writes for a file that can be
//! spelled reads back as that file.
//!
//! ```text
//! 0000000001      the number of graphs, in ten digits
//! -1 g            graph 1, whose name is g
//! : 1 1           state 0: an edge of tag 1 to state 1, with a space behind each number
//! : 2 2           state 1: an edge of tag 2 to state 2
//! t               state 2, which is final
//! f               the end of the graph
//! %<E>            tag 0
//! %the            tag 1
//! %<N>/[N]        tag 2
//! f               the end of the file
//! ```
//!
//! Begin with `file`, which has the types. `specs/Lines.antt` says what one line is,
//! `specs/Files.antt` what a whole text says, `specs/Refusals.antt` when it is refused, and
//! `specs/Printed.antt` what is printed. `cursor` goes from line to line, and counts them.
//!
//! A file is looked through in four steps, of which the third is the caller's: the number of graphs
//! (`BadCount`), the lines of the graphs (`BadLine`), then the tags, from tag 0, and whether the
//! last `f` is there, and at the end the labels and targets (`bad_label`).
//!
//! ```text
//! let said = read(alloc, text)?;
//! for tag in said.file.tags.as_slice() { .. }
//! if !said.is_ended { .. }
//! if let Some(line) = bad_label(&said) { .. }
//! ```
//!
//! Reading takes time in the text. A number of a line is compared, and never reserves memory: an
//! edge takes twelve bytes, and has at least four in the text.
#![tactic(auto)]

mod cursor;
pub mod error;
mod fields;
pub mod file;
pub mod labels;
mod line;
pub mod printing;
pub mod reading;
pub mod text;

pub use error::Fst2Error;
pub use file::{Fst2Edge, Fst2File, Fst2Graph, Fst2Label, Fst2State};
pub use labels::bad_label;
pub use printing::print;
pub use reading::read;
pub use text::Fst2Text;
