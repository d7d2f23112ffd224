//! Nets as text, and text as graphs of states: `.fst2` files.
//!
//! `print` writes a net: its graphs with their states, and its tags. A tag is the text of a label
//! and of what an edge puts out; tags are numbered by first use, and equal ones stand once.
//! `read_states` reads such a text back as graphs of states, or names the first cause of refusal.
//!
//! ```text
//! net --print--> file of numbers and tags --ux_fst2_file--> text
//! text --ux_fst2_file--> file of numbers and tags --read_tag, bad_label--> graphs of states
//! ```
//!
//! Begin with `specs/Tags.antt`: `tag_text` is how a tag is printed, `IsTag` what one says, which is
//! more, since a file may spell a tag in another way. `specs/Masks.antt` has the text of a mask,
//! `specs/Files.antt` the file of a net, `specs/Reading.antt` what a text says and why it is refused,
//! and `specs/Spelling.antt` which nets read back. `laws` says which tags do.
//!
//! ```text
//! let text = print(alloc, &net)?;
//! let graphs = read_states(alloc, text.as_str())?;
//! ```
#![tactic(auto)]

mod error;
pub mod laws;
mod masks;
pub mod printing;
pub mod reading;
mod shielding;
pub mod tag;
mod tag_text;

pub use error::Fst2Error;
pub use printing::print;
pub use reading::read_states;
pub use tag::{Tag, read_tag};
pub use tag_text::print_tag;
