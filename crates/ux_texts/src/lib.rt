//! The alphabet of a command, and the text that is cut by its letters.
//!
//! File names go in, and what the readers make of the files comes out, or the stop that names the first
//! file that isn't accepted. What the files of each kind are stands in `specs/Texts.antt`, and that they
//! are sound in `proofs/TextLaws.antt`.
//!
//! Begin with `alphabets`: `read_alphabet` reads the letters. `texts` has the calls that read a text in
//! them: `read_text` its tokens, `read_token_file` only what the token file tells of them.
//!
//! ```text
//! let (alphabet, text) = read_letters_and_text(alloc, text, alphabet, false, folder)?;
//! ```
#![tactic(auto)]

pub mod alphabets;
pub mod texts;

pub use alphabets::read_alphabet;
pub use texts::{read_letters_and_text, read_text, read_token_file};
