//! Why files are refused: the errors of all readers of files as one type, and the line that tells each.
//!
//! `Reason` has a variant for each reader, which wraps the reader's own error whole. A command gives it
//! with the name of the file. `say_refusal` writes its line; which line that is stands in
//! `specs/Reasons.antt`.
//!
//! ```text
//! say_refusal(&mut err, "d.dic", &Reason::Dela(error))?;      // refused: d.dic: NoComma line=3 place=8
//! ```
#![tactic(auto)]

pub mod reason;
pub mod telling;

pub use reason::Reason;
pub use telling::{say, say_refusal};
