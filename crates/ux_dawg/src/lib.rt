//! The minimal acyclic automaton of a sorted list of forms, each with a number.
//!
//! A `Builder` makes it a form at a time, as Daciuk, Mihov, Watson and Watson describe it (2000):
//! the states on the way of the last form are pending, and each state is given up to a *register*
//! when no later form can go through it. There equal states are one. So every state has its number
//! from the order in which states are given up, and each edge leads to a lower number; the root is
//! the last. The forms `cat` and `cats`, with the numbers 0 and 1, give
//!
//! ```text
//! 4 --c--> 3 --a--> 2 --t--> 1 (0) --s--> 0 (1)
//! ```
//!
//! Begin with `builder`. Contracts see a builder as the list of its forms (`specs/Forms.antt`), and
//! the automaton as the list of its states. `specs/Automaton.antt` says what the automaton of some
//! forms is: exact, minimal, and numbered by the least words that lead to its states. `laws` shows
//! that there is only one. Inside, `pending` begins states and gives them up, `register` keeps each
//! once, in the list that `states` has, and `index` finds by their `hash` those that don't stand
//! beside the target of their last edge.
//!
//! ```text
//! let mut builder = Builder::new(alloc);
//! for form in &forms {
//!     if builder.may_add(form.letters.as_slice()) {
//!         builder = builder.add(form.letters.as_slice(), form.code)?;
//!     }
//! }
//! let automaton = builder.finish()?;
//! let number = automaton.number_of(&['c', 'a', 't']);
//! ```
//!
//! An automaton that was written somewhere is made again of its states by `Dawg::of_states`, or
//! read into `States`, which has all edges in one list. `first_repeated` finds the first of them
//! that equals an earlier one, by the index of a register.
#![tactic(auto)]

mod builder;
mod dawg;
mod fit;
mod hash;
mod index;
mod items;
mod laws;
mod pending;
mod register;
mod repeated;
mod sorted;
mod state;
mod states;

pub use builder::{Builder, build};
pub use dawg::Dawg;
pub use fit::are_states;
pub use items::Items;
pub use laws::forms_decide_states;
pub use repeated::first_repeated;
pub use sorted::{are_sorted, comes_before, have_few_letters};
pub use state::{Edge, Form, State};
pub use states::States;
