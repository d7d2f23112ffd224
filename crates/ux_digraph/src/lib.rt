//! Searches through graphs of numbered nodes, and sets that are closed under rules.
//!
//! A graph is the list of the rows of its nodes: node u has an edge to each node of row u. What the
//! nodes stand for doesn't matter here.
//!
//! ```text
//! 0 --> 1 <--> 2 --> 3      the rows [1], [2], [1, 3] and []
//! ```
//!
//! `reached` marks the nodes that a path leads to: from node 1 those are 1, 2 and 3. `components`
//! numbers the nodes so that two have one number where each leads to the other, and so that no
//! number rises along an edge: 2, 1, 1 and 0. So in a graph with no cycle the numbers fall along
//! each edge, and a node lies on a cycle where one of its edges leads to a node of its own number:
//! `proofs/ComponentsLemmas.antt` has both. `closure` marks the places that follow from facts by
//! rules with two premises.
//!
//! All three take time and memory linear in what they are given, keep stacks of their own in place
//! of calling themselves, and ask that nothing leads outside, which `are_edges_inside` and
//! `are_rules_inside` test. `specs/Paths.antt` says what a path is, `specs/Components.antt` what
//! the numbers mean, `specs/Rules.antt` what follows.
//!
//! ```text
//! if are_edges_inside(&edges) {
//!     let marks = reached(alloc, &edges, 1)?;
//!     let numbers = components(alloc, &edges)?;
//! }
//! ```
#![tactic(auto)]

mod checking;
pub mod closing;
mod grouping;
mod reaching;

pub use checking::{are_edges_inside, are_rules_inside};
pub use closing::{Rule, closure};
pub use grouping::components;
pub use reaching::reached;
