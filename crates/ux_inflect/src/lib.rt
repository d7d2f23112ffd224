//! The inflected forms of a lemma, by the graph of its class. The manual, on inflection.
//!
//! Each whole word of the graph, with words of called graphs in the places of the calls, does
//! something to the lemma and puts out codes: that is one entry. `inflect` gives the entries of a
//! stem, or the first cause of refusal.
//!
//! Begin with `specs/Strokes.antt`, the table of the operators, and `specs/Whole.antt`, what a word
//! is; `specs/Inflected.antt` says which entries there are, and `specs/Refusing.antt` when each
//! refusal comes.
//!
//! Words aren't listed. `exploring` looks at configurations: the states to go on from, both sides of
//! the cursor, and the output so far, each once. So forty stages of two equal boxes cost forty. It
//! ends since the net has no cycle: `classes` searches its calls and states, and gives them ranks
//! that fall along each call and edge. A first search keeps of a form how many characters it has,
//! and of an output how far its codes are read, which is all that a refusal asks for; `refusing`
//! finds the places with a fault, and `least` the least text that leads to one, from its end. Only
//! where there is none, a second search keeps the forms themselves, and `outcomes` lists them.
//!
//! A search takes a step for each configuration and each edge that leaves its state; a step copies
//! the form, the output and the stack of calls. Calls keep no native stack.
//!
//! ```text
//! let stems = read_delas(rt.alloc(), "regret,A1\n")?;
//! let entries = inflect(rt.alloc(), &stems[0], &net)?;      // of `LCRable/:s`: regrettable,regret.A:s
//! ```
#![tactic(auto)]

mod classes;
mod codes;
mod config;
pub mod error;
mod exploring;
mod form;
pub mod inflecting;
mod items;
mod least;
mod outcomes;
mod refusing;
mod rows;
mod stepping;
pub mod stroke;
mod survey;

pub use error::InflectError;
pub use inflecting::inflect;
pub use stroke::Stroke;
