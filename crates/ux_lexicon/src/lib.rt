//! Dictionaries of any kind, and places in them.
//!
//! `Lexicon` says what a dictionary answers. There are two kinds: `list` makes one of the entries that
//! were read (`ListLexicon` of `ux_dict`), and `image` one that is an automaton, that of an image or of
//! a file of forms (`ImageLexicon` of `ux_image_lexicon`), of which only the entries that are asked for
//! are made. `AnyLexicon` is a dictionary of either kind, and `reading` makes one of a file of forms:
//! a list, where a line is longer than any word fills. `Reached` is a place in a dictionary, to which a
//! text leads, and from which longer texts go on. Where a text leads stands in `specs/Reached.antt`, and
//! what the content of a dictionary of either kind is in `specs/Any.antt`. Begin with `lexicon`.
//!
//! ```text
//! let lexicon = AnyLexicon::Image(read_image(rt.alloc(), &bytes)?);
//! lexicon.fitting(rt.alloc(), "The", &alphabet)?      // the entries of `the` and `The`
//! let red = lexicon.begin(rt.alloc())?.go_on(rt.alloc(), "red", &alphabet)?;
//! let fox = red.go_on(rt.alloc(), " fox", &alphabet)?;
//! fox.ending(rt.alloc(), "red fox", &alphabet)?      // the entries of `red fox`
//! ```
#![tactic(auto)]

pub mod any_lexicon;
pub mod image;
pub mod lexicon;
pub mod list;
pub mod reached;
pub mod reading;

pub use any_lexicon::AnyLexicon;
pub use lexicon::Lexicon;
pub use reached::Reached;
pub use reading::read_dictionary;
