//! Dictionaries that are automata: those of their images, or of the forms of a text.
//!
//! A look-up goes along the edges of the automaton, and makes the entries that were asked for of
//! their forms and codes; no list of all entries is there. Begin with `lexicon`, where `read_image`
//! makes an `ImageLexicon` of an image, or with `of_text`, where `read_text` makes one of a file of forms.
//! `reached` is a place in one, to which a text leads. Inside,
//! `coded` is the automaton with its lists of codes, `lists` reads these once, and `entries` makes
//! entries. `counts` counts them once: `apart` finds the lists whose codes make an entry each, `sums`
//! adds up the codes of all forms by states, and a `walk` goes to the forms of other lists, one at a
//! time. `finding` goes to the list of a form by its letters. Which entries an automaton and its lists
//! tell stands in `specs/Told.antt`.
//!
//! ```text
//! let lexicon = read_image(alloc, &bytes)?;
//! lexicon.fitting(alloc, "The", &alphabet)?      // the entries of `the` and `The`
//! ```
#![tactic(auto)]

mod apart;
pub mod coded;
pub mod codes;
mod counts;
mod entries;
mod finding;
pub mod lexicon;
mod lists;
pub mod of_text;
pub mod reached;
mod sums;
mod walk;

pub use coded::Coded;
pub use codes::{ReadCode, ReadList};
pub use lexicon::{ImageLexicon, read_image};
pub use of_text::read_text;
pub use reached::ImageReached;
