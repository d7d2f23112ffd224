//! The automata of a text's sentences, in memory and as text.
//!
//! Begin with `sentence`: a sentence is a list of links between numbered states, and each link has
//! a reading. `specs/Paths.antt` says which reading lists a sentence spells. `printing` writes
//! sentences, one by one or as a file, and `reader` reads them back, one by one or all of a file.
//! The format is in `specs/Written.antt`, and when a file is refused in `specs/Files.antt`.
//!
//! ```text
//! let mut sentences = Sentences::open("#TFST 1\nS 1 3 2\n0 1 a\n1 2 {run,.V:W}\n")?;
//! while let Some(sentence) = sentences.next(alloc)? { .. }
//! ```
#![tactic(auto)]

pub mod error;
pub mod link;
pub mod number;
pub mod passage;
pub mod printing;
pub mod reader;
pub mod reading;
pub mod sentence;
pub mod sentence_line;

pub use error::SentenceError;
pub use printing::{print, print_head, print_reading, print_sentence};
pub use reader::{Sentences, check, read};
pub use reading::read_reading;
pub use sentence::{Link, Reading, Sentence};
