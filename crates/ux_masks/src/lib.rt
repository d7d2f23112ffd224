//! Lexical masks: patterns such as `<be.V:P3s>`, by which a grammar asks for entries of dictionaries.
//!
//! Begin with `mask`: `Mask::read` reads what stands between `<` and `>`, and `Mask::meets` says
//! whether an entry of a dictionary meets a mask. How masks are written stands in
//! `specs/Texts.antt`, and what they ask for in `specs/Meets.antt`.
//!
//! ```text
//! let mask = Mask::read(rt.alloc(), "be.V:P3s")?;
//! mask.meets(&entry)
//! ```
#![tactic(auto)]

pub mod error;
pub mod lexical;
pub mod mask;
mod meeting;
mod name;
mod named;
mod reader;
mod sign;

pub use error::MaskError;
pub use lexical::{Lexical, Parts};
pub use mask::Mask;
