//! Images of dictionaries, as files of a command.
//!
//! A file name goes in, and the entries that the image of this name tells come out (`read_image`), or the
//! dictionary that it is, with none of its entries made (`read_lexicon`), or the stop that names the file.
//! What such a file is, and which names are those of images, stands in `specs/ImageFiles.antt`, and that it
//! is so in one way in `proofs/ImageFileLaws.antt`. Begin with `images`.
//!
//! ```text
//! let entries = if is_image(name) { read_image(alloc, name, folder)? } else { .. };
//! ```
#![tactic(auto)]

pub mod images;

pub use images::{is_image, read_image, read_lexicon};
