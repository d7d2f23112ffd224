//! Dictionaries as images of their automata: entries as codes, and the bytes of an image.
//!
//! Begin with `coding`, which turns an entry into its code, and `rebuilding`, which makes an entry
//! of a form and a code. `listing` takes a content as a dictionary keeps it, and puts each form into
//! an automaton with the number of its list of codes, which `register` knows: a list that was met
//! before is found by a `sketch` of the form's entries, and told by `comparing` it with them.
//! `numbering` finds the order in which states use these numbers, and `image` lays out the automaton
//! and the lists. What codes and images are stands in `specs/Codes.antt` and `specs/Images.antt`.
//! `laws` shows that a code makes its entry again and no other one, and that a content has one image,
//! which tells it.
//!
//! ```text
//! cat,.N:s        nothing off, N:s           4 --c--> 3 --a--> 2 --t--> 1 --s--> 0
//! cats,cat.N:p    a character off, N:p                         N:s, list 1       N:p, list 0
//! ```
//!
//! ```text
//! let entries = store_all(alloc, entries)?;
//! let code = code_of(alloc, &entries[0])?;
//! let entry = rebuild(alloc, "cats", &code)?;
//! if is_content(&entries) {
//!     let bytes = image_of(alloc, entries)?;
//! }
//! ```
#![tactic(auto)]

mod characters;
mod code;
mod coding;
mod comparing;
mod content;
mod fields;
mod image;
mod laws;
mod listing;
mod numbering;
mod pieces;
mod rebuilding;
mod register;
mod sketch;

pub use code::{Code, CodeList, Pair};
pub use coding::{code_of, is_short};
pub use content::{dictionary_is_content, is_content};
pub use image::image_of;
pub use laws::{code_decides_entry, code_makes_entry, content_decides_image, image_tells_content};
pub use listing::{Listing, list_codes};
pub use rebuilding::{lemma_of, rebuild};
