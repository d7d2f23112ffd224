//! The command `concord`: the concordance of the places of a text that a grammar takes.
//!
//! In go the names of a graph, a text, an alphabet and dictionaries, as for a search, and out comes the
//! concordance of the hits, as bytes, or the first file that stops the reading. Begin with
//! `specs/Concord.antt`, which says what is read and what answers it; what a hit is stands in
//! `ux_locate`, and what a concordance is in `ux_concordance`. `hits` has the hits found, and `command` reads
//! the files and has the hits laid out.
//!
//! ```text
//! let (mode, policy, novar) = (Mode::Merge, Policy::Longest, NoVar::Nothing);
//! let layout = Layout { left: 40, right: 40, sort: Sort::LC };
//! let names = ("noun.grf", "text.txt", "alphabet.txt");
//! let lines = concord(alloc, names.0, names.1, names.2, &dics, mode, policy, novar, false, layout, folder)?;
//! ```
#![tactic(auto)]

mod command;
mod hits;
mod layout;

pub use command::concord;
pub use layout::Layout;
