//! The command `compress`: the image of a dictionary.
//!
//! The name of a dictionary goes in, and the bytes of its image come out, or the stop that names it.
//! What is read and what answers it is the command `compress` of `specs/Compress.antt`. Begin with
//! `compressing`; `content` makes the content of a file of forms.
//!
//! ```text
//! let image = compress(alloc, "animals.dic", folder)?;      // UXUDI, ..
//! ```
#![tactic(auto)]

pub mod compressing;
mod content;

pub use compressing::compress;
