//! Automata of reading lists, made so that each list has one path.
//!
//! An automaton has the states 0 to its last one, and links by readings, each to a greater state. A
//! list is spelled by links from state 0 to the last one. `apply` keeps the lists that satisfy what a
//! machine watches, by Brzozowski's construction of 1962: determinise, read backwards, determinise,
//! read backwards.
//!
//! ```text
//! links --subsets, beside the machine--> a state for each set of states that a list reaches
//!       --reversed_links, subsets beside AnyList, reversed_links--> the answer
//! ```
//!
//! After the first pass a list leads to one state. After the second a list that is read backwards
//! does. So in the answer no list has two paths, no two states have the same lists to the last one,
//! and no two but the last have the same lists from the first one. What lies on no path is in
//! neither pass. `specs/Paths.antt` says it (`IsLeft`), `specs/Machines.antt` what a pass makes.
//!
//! Sets are reached by their least states, since links lead to sets with greater ones, and numbered
//! as they are reached, so that links lead to greater numbers; which of two sets with the same least
//! state comes first is left open. A set is kept until it has its links. States are numbers of 32
//! bits, and more sets are want of memory.
//!
//! A pass sorts the links, in a step each where they are in order. A set takes a step for each link
//! that leaves it, and for each reading a step of the machine and a comparison with the sets of the
//! same least state, or a look-up where there are more than 32; where a set has several states,
//! their links are put into one list and sorted. Beside the source's links and its own, 12 bytes
//! each, a pass holds 8 bytes a link of the source, 4 a state, the sets that are kept, and 24 a state
//! between the one that is due and the farthest to which a link leads so far; the second pass takes
//! the first one's links and turns them in place. There may be exponentially many sets; there are as
//! many as states, or few more, where the lists nearly tell the state, as in the automaton of a
//! sentence.
//!
//! `apply_again` takes an answer of `apply`, as where rules are applied in turn. Where the machine
//! leaves all of it, that is found in the first pass, and the answer is the automaton itself.
//!
//! ```text
//! let kept = apply(alloc, &mut machine, &links, last)?;
//! let kept = apply_again(alloc, &mut another, kept)?;
//! ```
#![tactic(auto)]

pub mod agenda;
pub mod automaton;
pub mod departures;
pub mod expanding;
pub mod machine;
pub mod numbering;
pub mod passes;
pub mod reaching;
pub mod rows;
pub mod runs;
pub mod sets;

pub use automaton::{Automaton, Link};
pub use machine::{AnyList, Machine};
pub use passes::{apply, apply_again, subsets};
