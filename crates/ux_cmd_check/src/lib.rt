//! The command `check`: how many entries a dictionary has.
//!
//! The name of a dictionary goes in, and a line with the number of its entries comes out, or the stop
//! that names it. What is read and what answers it are the commands `check_entries` and `check_stems`
//! of `specs/Check.antt`. Begin with `checking`: entries are counted line by line, or by the automaton of
//! an image, and no list of them is kept. `entries_line` writes the answer.
//!
//! ```text
//! let line = check_entries(alloc, "animals.dic", folder)?;      // entries 3
//! ```
#![tactic(auto)]

pub mod checking;
mod printing;

pub use checking::{check_entries, check_stems};
