//! The readings of a file of sentence automata by number, and its sentences in these numbers.
//!
//! A file has many links and few different readings. `ReadingTable::of` goes over the file once,
//! reads each different text once, and numbers the readings in the order in which they come.
//! `NumberedSentences` then reads the file sentence by sentence, each link's reading told by its
//! number, and `print_numbered` writes such a sentence. Begin with `table`; `specs/Numbered.antt`
//! says what these numbers are, and `proofs/CallerLemmas.antt` has what a caller's proof cites. Beside
//! each reading `ReadingTable::alike` tells one with the same codes (`specs/Alike.antt`).
//!
//! ```text
//! the file             table.texts()     sentences.next(alloc, &table)
//! #TFST 1
//! S 1 4 4                                number 1, 4 states
//! 0 1 he               0  he             0 1 0
//! 1 2 {run,.V}         1  {run,.V}       1 2 1
//! 1 2 {run,run.V}      2  dogs           1 2 1
//! 2 3 dogs                               2 3 2
//!
//! let table = ReadingTable::of(alloc, text)?;
//! let mut sentences = NumberedSentences::open(text);
//! while let Some(sentence) = sentences.next(alloc, &table)? {
//!     print_numbered(&sentence, table.texts(), &mut file)?;
//! }
//! ```
//!
//! Costs: a line of a link takes two numbers and a look-up in `of`, which notes the place of its text
//! in 4 bytes; in `next` two numbers and a comparison with the text at that place, and no memory but
//! its 24 bytes in the sentence that is read. A different reading takes some 130 bytes beside its
//! printed text. `print_numbered` takes no memory but the file's.
#![tactic(auto)]

mod bare;
mod codes;
pub mod entry_parts;
mod fields;
mod likes;
mod noting;
pub mod numbered;
pub mod numbered_text;
pub mod printing;
pub mod sentences;
pub mod table;

pub use entry_parts::EntryParts;
pub use numbered::{NumberedLink, NumberedSentence};
pub use numbered_text::NumberedText;
pub use printing::print_numbered;
pub use sentences::NumberedSentences;
pub use table::ReadingTable;
