//! Dictionary lines in the formats DELAF and DELAS, and the bodies of tags.
//!
//! Begin with `delaf`, which reads files of inflected forms, and `delas`, which reads files of
//! lemmas with their classes; `counting` counts what they would read. `tag` reads what stands between
//! a tag's braces, and `printing` prints entries and codes. What lines say stands in
//! `specs/Delaf.antt` and `specs/Delas.antt`: a line is the joining of its parts, each character of
//! which is bare or behind a backslash. Inside, `part`
//! cuts a text at the sign that ends a part, `plain` takes backslashes off, and `codes` reads lists.
//! `texts` is the list of codes that an entry owns, and `joined` how it grows.
//!
//! ```text
//! let entries = read_delaf(rt.alloc(), "sits,sit.V:P3s/verb\n")?;
//! print_delaf(rt.alloc(), &entries[0])?      // sits,sit.V:P3s
//! ```
#![tactic(auto)]

pub mod bare;
mod codes;
pub mod counting;
pub mod delaf;
pub mod delas;
pub mod entry;
pub mod error;
pub mod joined;
mod part;
mod plain;
pub mod printing;
pub mod tag;
pub mod texts;

pub use bare::{BareLine, bare_line};
pub use counting::{count_delaf, count_delas};
pub use delaf::{read_delaf, read_delaf_line};
pub use delas::read_delas;
pub use entry::{Codes, Entry, Stem};
pub use error::DelaError;
pub use joined::Joined;
pub use printing::{print_codes, print_delaf, read_codes};
pub use tag::read_tag;
pub use texts::Texts;
