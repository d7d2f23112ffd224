//! Rules over lists of readings, and what an automaton has that satisfies one.
//!
//! A rule is steps between places, from place 0 to its ends. A step is free, or has a mark, If or
//! Then, or reads one reading, by the number of a test. `specs/Rules.antt` says which lists of
//! readings satisfy a rule: at each point of the list at which some if-pair is found, some then-pair
//! is found. Readings that pass the same tests are of one *kind*, and the monitor numbers the kinds.
//!
//! ```text
//! steps, ends --Monitor::new--> Monitor --+
//! tests --kind_of--> kinds, links, last --+-- keep_satisfying --> the automaton of what satisfies
//! ```
//!
//! A monitor is made once a rule, and serves any number of automata. It keeps the places of left
//! words and what is owed since each point (`watching`, `owing`): what it *sees*. What it sees
//! depends on the rule and on the kinds of the readings alone. So it numbers what it sees, each once,
//! and remembers for a number and a kind the number of what is seen next (`memory`). What is
//! remembered serves all automata. Where it has become too much, it is forgotten before the next one.
//!
//! | Work | Cost |
//! |---|---|
//! | `Monitor::new` | a step of the rule each, and memory for each place up to the greatest |
//! | `kind_of` | the tests, times a logarithm of their number |
//! | a step that is remembered | a look-up |
//! | another step | the rule's size and the tests, for each thing owed, times a logarithm |
//!
//! Free steps are followed when a step is taken (`moving`): one walk, which looks at the steps of a
//! place once. A rule without them would have a step for each pair of places that free steps join,
//! and so more than the square of its boxes.
//!
//! ```text
//! let mut monitor = Monitor::new(alloc, &steps, &[end])?;
//! let kinds = [monitor.kind_of(alloc, &[0, 2])?, monitor.kind_of(alloc, &[])?];
//! let kept = keep_satisfying(alloc, &mut monitor, &kinds, &links, last)?;
//! ```
//!
//! `keep_satisfying_again` takes such an answer, and gives it back where all of it satisfies.
//!
//! Several rules are watched at once by a `Product`: what each of their monitors sees has one number
//! together (`joint`), and so a list goes through all rules by one step a reading.
//! `keep_satisfying_each` gives what satisfies each rule by one such pass, or nothing where the rules
//! together see so much that the pass takes more than sixteen steps a link. The caller then applies
//! them in turn.
//!
//! ```text
//! let parts = vec![in alloc; Part::new(&first, &first_kinds), Part::new(&second, &second_kinds)];
//! let mut product = Product::of(alloc, &parts, readings, &[])?;
//! let kept = keep_satisfying_each(alloc, &mut product, &parts, &links, last);
//! ```
#![tactic(auto)]

pub mod joint;
pub mod keeping;
pub mod memory;
pub mod monitor;
pub mod moving;
pub mod owing;
pub mod part;
pub mod places;
pub mod product;
pub mod rule;
pub mod steps;
pub mod watching;

pub use keeping::{keep_satisfying, keep_satisfying_again};
pub use monitor::Monitor;
pub use part::Part;
pub use product::{Product, keep_satisfying_each};
pub use rule::{Sign, Step};
