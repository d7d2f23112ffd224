//! The rules of ELAG, read from their graphs. The manual, on ELAG.
//!
//! A rule says which readings may follow each other: where its if-part is found in a list of
//! readings, its then-part has to be found too. `Rule::of` turns a graph, as `ux_grf` reads it,
//! into places and steps, or names the first cause of refusal. Place 0 is the start, place 1 the
//! end, and the runs of steps from the one to the other spell the words of the graph.
//!
//! Begin with `test`, the tests that one reading passes, and `step`, what a step is marked by.
//! `specs/Runs.antt` says which lists of readings satisfy a rule, `specs/Words.antt` which words a
//! graph has, `specs/Rules.antt` which rule is that of a graph, and `specs/Refusing.antt` when each
//! refusal comes; `proofs/Laws.antt` that none comes with another, or with a rule.
//!
//! Inside, `calls` finds the first call, `items` and `draft` make the steps box by box, `phases`
//! searches which marks the paths have met at each place, `marks` finds the first bad box by it, and
//! `leaving` lists the steps by place.
//!
//! ```text
//! let rule = Rule::of(rt.alloc(), &graph)?;
//! rule.steps()[0].from      // 0, the start
//! ```
#![tactic(auto)]

mod calls;
mod draft;
pub mod error;
mod items;
mod leaving;
mod marks;
mod phases;
pub mod rule;
pub mod step;
pub mod test;

pub use error::RuleError;
pub use rule::Rule;
pub use step::{Sign, Step};
pub use test::Test;
