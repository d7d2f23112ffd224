//! Nets from states: a compiled grammar that comes from a file.
//!
//! ```text
//! states --place_states--> places --admit_states--> closers, levels, ranks --building--> Net
//! ```
//!
//! `of_states` makes the net with exactly the states that it is given, or refuses them. A state has the
//! rank and the mark of its hub, the place from which its edges lead (`ux_state_places`). A state to
//! which no run comes is kept aside, since no rank need fall along its edges. Begin with
//! `specs/Building.antt`, which says how a graph is built. `read_printed` reads what is printed for a
//! net, and has the law of that.
//!
//! ```text
//! let net = of_states(alloc, graphs)?;
//! let edges = net.whole_edges(1, 0);
//! ```
#![tactic(auto)]

mod building;
mod compiling;
mod parting;
mod printed;

pub use compiling::of_states;
pub use printed::read_printed;
