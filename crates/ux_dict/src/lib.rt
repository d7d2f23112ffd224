//! Dictionaries, and the forms of theirs that fit a text.
//!
//! `ListLexicon` is a dictionary of entries that were read, and `reading` makes it of a file with no
//! list of them. `ListReached` is a place in it, to which a text leads, and from which longer texts
//! go on. `stored` is an entry as a dictionary keeps it, with codes that `codes_table` shares, and
//! `stored_table` keeps all entries or each once; `content_in` and `content_of` give a content as such
//! entries. What any dictionary answers says `ux_lexicon`. Which list of
//! entries a dictionary has stands in `specs/Content.antt`, which forms fit a text in
//! `specs/Forms.antt`, and where a text leads in `specs/Places.antt`.
//!
//! ```text
//! let lexicon = ListLexicon::new(rt.alloc(), entries)?;
//! lexicon.fitting(rt.alloc(), "The", &alphabet)?      // the entries of `the` and `The`
//! let red = lexicon.begin(rt.alloc())?.go_on(rt.alloc(), "red", &alphabet)?;
//! red.go_on(rt.alloc(), " fox", &alphabet)?.ending(rt.alloc())?      // the entries of `red fox`
//! ```
#![tactic(auto)]

mod candidates;
mod codes_table;
mod continuing;
mod entry_table;
mod keys;
pub mod list_lexicon;
pub mod list_reached;
mod measures;
pub mod once;
pub mod parts;
pub mod reading;
mod sorting;
mod stored;
mod stored_table;

pub use list_lexicon::{ListLexicon, content_of};
pub use list_reached::ListReached;
pub use once::different;
pub use reading::content_in;
pub use stored::Stored;
pub use stored_table::store_all;
