//! The layout of an image: its states, and its lists of codes.
//!
//! Begin with `image`, which reads both, or names the first fault of the file; `specs/Images.antt`
//! says which. Behind its states an image has its lists of codes, which `lists` reads.
//! `specs/Fields.antt` says how a field of a file is put together of others, and `specs/Lists.antt`
//! what a list of codes is in the bytes, in both versions. Inside, `shortest` finds how many
//! characters the shortest form with each list has, by which version 1 is tested; `rest` reads
//! numbers and texts, and `codes` a code. `sizes` counts the letters of an image's forms, without
//! listing these.
//!
//! ```text
//! let image = read_layout(alloc, &bytes)?;
//! let letters = count_letters(alloc, &image)?;
//! ```
#![tactic(auto)]

mod codes;
pub mod image;
pub mod lists;
mod rest;
mod shortest;
pub mod sizes;

pub use image::{Image, read_layout};
pub use lists::read_lists;
pub use sizes::count_letters;
