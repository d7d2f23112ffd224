//! Images read whole, and their content.
//!
//! Begin with `content`: `read_content` gives the entries that a file tells, or the first fault of
//! the file. `image` reads the layout, and refuses one of which too much would come. Inside, `walk`
//! lists the forms of the automaton in ascending order, and `entries` makes the entries of each form
//! by the codes of its list. What the content of a file is stands in `specs/Contents.antt` and
//! `specs/Files.antt`. A file has one content or one fault (`proofs/ContentLaws.antt`), and the image
//! of a content reads back (`proofs/ReadBackLaws.antt`).
//!
//! ```text
//! let entries = read_content(alloc, &bytes)?;
//! ```
#![tactic(auto)]

pub mod content;
pub mod entries;
pub mod image;
mod walk;

pub use content::{entries_of, read_content};
pub use entries::text_of;
pub use image::read_image;
