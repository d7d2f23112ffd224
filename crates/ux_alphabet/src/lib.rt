//! The letters of a language, as an alphabet file lists them.
//!
//! Begin with `alphabet`: `Alphabet::read` reads the file's text, and its other calls answer for
//! one character or two. What the lines of a file say stands in `specs/Letters.antt`, how they are
//! read in `specs/File.antt`. Inside, `reading` makes the list of lines, `spans`, `upper_forms` and
//! `pairs` make tables of it, and `tables` keeps them, so that a question about a character is a
//! look-up.
//!
//! ```text
//! let alphabet = Alphabet::read(rt.alloc(), "Tt\nÉe\n")?;
//! alphabet.is_upper('T')          // true
//! alphabet.fits('e', 'É')         // true: É is an upper-case form of e
//! alphabet.by_character()         // the same letters, each of them a word of its own
//! ```
#![tactic(auto)]

pub mod alphabet;
pub mod error;
pub mod line;
mod pairs;
mod reading;
mod spans;
mod tables;
mod upper_forms;

pub use alphabet::Alphabet;
pub use error::AlphabetError;
pub use line::Line;
