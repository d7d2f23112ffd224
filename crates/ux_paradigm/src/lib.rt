//! The paradigm of a class of lemmas: the lines of their forms, of which each ending is inflected once.
//!
//! What a graph does to a lemma, it does at its end. So a class that accepts the last letters of a
//! lemma accepts the lemma, and the lemma's forms are those of its last letters behind what it begins
//! with (`inflected_behind` in `proofs/Locality.antt`). A `Paradigm` keeps, for each ending that
//! occurred, the ends of the lines of its forms; a further lemma with the ending takes a look-up and
//! the writing of its lines.
//!
//! Begin with `paradigm`. `tail` has what is kept of an ending, `letters` where it begins, and
//! `printing` puts lines together.
//!
//! ```text
//! let mut paradigm = Paradigm::new(alloc, net);             // of `LCRable/:s`
//! let lines = paradigm.lines(alloc, &stem)?;                // of regret,A1: regrettable,regret.A:s
//! ```
#![tactic(auto)]

mod letters;
pub mod paradigm;
mod printing;
mod tail;

pub use paradigm::Paradigm;
