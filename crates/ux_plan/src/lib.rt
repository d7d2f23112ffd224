//! Plans: what a command reads, in which order, and what stops it.
//!
//! A `Plan` (in `specs/Plans.antt`) names the files of a command, what each must be, and what comes of
//! them. Three recursions say all of it: `Comes` which value the files of a folder come to, `Halts`
//! which file stops the reading first, and why, and `Stopped` (in `specs/Stopping.antt`) the same by
//! the files alone. That no plan does both, memory aside, and that it stops in one way, are laws, by
//! induction (`proofs/OneStop.antt`), so a command owes no more than that its formats are sound
//! (`specs/Laws.antt`). A `Command` is a plan with its laws, and what answers what was read.
//!
//! `read_bytes` reads a file, and `read_decoded` its text, where the type of reasons has one for files
//! without a text (`OfDecode`). A command's reader is written over them, and proved by the steps of
//! `proofs/PlanSteps.antt`, `proofs/Growing.antt` and `proofs/InTurn.antt`: a file that is read, a test,
//! one plan after another, a list of files, a list of plans.
//!
//! `folder_of` and `base_of` take the word of a file apart.
//!
//! ```text
//! let alphabet = read_alphabet(alloc, alphabet, chars, folder)?;  // reads alphabet (alphabet_format chars) (λ letters.
//! let text = read_text(alloc, text, &alphabet, folder)?;          // reads text (text_format letters) (λ tokens.
//! Ok((alphabet, text))                                            // gives (letters, tokens)))
//! ```
#![tactic(auto)]

pub mod decoding;
pub mod file_names;
pub mod reading;
pub mod stop;

pub use decoding::{OfDecode, decode_file, read_decoded};
pub use file_names::{base_of, folder_of};
pub use reading::{absent, read_bytes, read_fault, refused, too_large};
pub use stop::Stop;
