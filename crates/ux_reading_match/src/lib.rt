//! Which readings of sentences the labels of a net match.
//!
//! A grammar is searched in sentence automata as in a text: its labels meet the readings on the
//! links in place of tokens. Begin with `matching`: `matches` tells whether one label matches one
//! reading, by the table of `specs/Matching.antt`. `accepting` has its lines of masks, and
//! `spelling` what these ask of letters. `readings` has the readings of a file, each read once, and
//! `usability` tells whether a net can be searched so.
//!
//! ```text
//! usable(alloc, &net)?;
//! let readings = Readings::of(alloc, &table)?;                    // 0: {cats,cat.N:p}
//! readings.matches(&label, 0, &alphabet)                          // by <N>, <cat>, cats, <DIC>, ..
//! ```
#![tactic(auto)]

pub mod accepting;
pub mod error;
pub mod matching;
pub mod readings;
mod spelling;
pub mod usability;

pub use accepting::accepts;
pub use error::TfstError;
pub use matching::matches;
pub use readings::Readings;
pub use usability::usable;
