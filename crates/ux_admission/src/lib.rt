//! Which grammars are admitted, by their places: contexts are closed, none that may not follow uses
//! what has it, no loop takes nothing, and no unit begins with itself.
//!
//! ```text
//! places --closers_of, refuse_bad_contexts--> --levels_of--> levels --admit--> ranks
//! ```
//!
//! `leading` notes where steps lead, `closers` finds into which places contexts are closed, and
//! `context_close` refuses those that aren't. `uses` links the places; `negative_recursion` makes
//! levels of the links, or refuses a negative context that uses the graph or body with it.
//! `admissible` refuses loops that take nothing and units that begin with themselves, and ranks the
//! places. `ways`, `edges`, `freeness` and `cycles` are its parts. `told_closings` lists, by the
//! numbers of states, where contexts that may not follow are closed. Begin with
//! `specs/ContextClose.antt`, `specs/NegativeRecursion.antt` and `specs/Admissible.antt`, which say
//! of any grammar what is refused.
#![tactic(auto)]

mod admissible;
mod closers;
mod context_close;
mod cycles;
mod edges;
mod freeness;
mod leading;
mod line;
mod negative_recursion;
mod spot;
mod told_closings;
mod uses;
mod way;
mod ways;

pub use admissible::{Admission, AdmissionError, admit};
pub use closers::closers_of;
pub use context_close::{first_bad_context, refuse_bad_contexts};
pub use line::{is_opening, is_silent};
pub use negative_recursion::{LevelsError, levels_of};
pub use spot::Spot;
pub use told_closings::closings;
pub use uses::{Link, links_of};
