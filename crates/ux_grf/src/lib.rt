//! Graph files: their boxes, and the items that stand in the boxes.
//!
//! `read_grf` turns the text of a graph file into a `Graph`, or names the first cause of refusal.
//! `read_marked` does so for graphs of the morphological mode, which have two more lines.
//! `read_content` reads one content of the box language, `needs` lists the graphs that a graph calls.
//! Boxes are counted from 0, and such a number is a node. Box 0 is the start of a graph, box 1 its
//! end. `specs/File.antt` says which graph a text draws and when each refusal comes,
//! `specs/WellFormed.antt` what holds of every graph. The box language stands in `specs/Items.antt`,
//! `specs/Lines.antt`, `specs/Output.antt` and `specs/Content.antt`.
//!
//! Inside, `header`, `box_line` and `targets` read the lines of a file, `boxes` makes the boxes, and
//! `content` reads what stands in those that are reached.
#![tactic(auto)]

mod box_line;
mod boxes;
pub mod calls;
pub mod content;
pub mod error;
pub mod graph;
mod header;
pub mod item;
mod line;
mod marked;
mod number;
mod output;
mod protection;
mod read;
mod start;
mod targets;
mod words;

pub use calls::needs;
pub use content::{Content, read_content};
pub use error::GrfError;
pub use graph::{Graph, GraphKind, GrfBox};
pub use item::{Item, Piece};
pub use read::{read_grf, read_marked};
