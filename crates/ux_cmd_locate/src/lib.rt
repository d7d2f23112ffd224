//! The command `locate`: the places of a text that a grammar takes, rendered in a mode, and kept by
//! a policy.
//!
//! In go the names of a graph, a text, an alphabet and dictionaries, and out comes the index of the
//! hits, as bytes, or the first file that stops the reading. Begin with `specs/Locate.antt`, which
//! says what is read and what answers it; what a hit is and what an index is stands in `ux_locate`.
//!
//! `files` reads the files, also for the command `concord`, and `command` applies the dictionaries to the text and has the hits
//! listed and written.
//!
//! ```text
//! let (mode, policy, novar) = (Mode::Merge, Policy::All, NoVar::Nothing);
//! let index =
//!     locate(alloc, "noun.grf", "text.txt", "alphabet.txt", &dics, mode, policy, novar, false, folder)?;
//! ```
#![tactic(auto)]

mod command;
mod files;

pub use command::locate;
pub use files::{Files, read_files};
