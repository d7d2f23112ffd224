//! The report on the dictionaries that apply to a text.
//!
//! Begin with `report`, which prints the entries that were found and the words for which none was.
//! What has to stand there is in `specs/Report.antt`. Inside, `words` finds a place of each
//! different word, `lines` collects the lines of each section, and `report` puts the sections one
//! behind the other.
//!
//! ```text
//! let applied = apply(rt.alloc(), &text, &alphabet, &dics)?;
//! report(rt.alloc(), &text, &applied)?      // #DLF 1, the.DET:s, #DLC 0, #ERR 1, zyx, each on a line
//! ```
#![tactic(auto)]

mod lines;
pub mod reporting;
mod words;

pub use reporting::report;
