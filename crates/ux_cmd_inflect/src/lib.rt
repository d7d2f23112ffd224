//! The command `inflect`: the forms of lemmas, by the graphs of their classes.
//!
//! The name of a file of lemmas goes in, and the lines of their forms come out, or the stop that names
//! the first file that isn't accepted. What is read and what answers it is the command `inflect` of
//! `specs/Inflect.antt`; what a graph does to a lemma is in `ux_inflect`. Begin with `inflecting`;
//! `classes` numbers the classes, and `files` reads the lemmas and the graph of each class, once.
//!
//! ```text
//! let lines = inflect(alloc, "nouns.dic", folder)?;      // chats,chat.N:p, ..
//! ```
#![tactic(auto)]

mod classes;
mod files;
pub mod inflecting;

pub use inflecting::inflect;
