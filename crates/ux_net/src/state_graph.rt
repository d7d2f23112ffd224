//! A graph as a file has it.

use crate::state::State;
use ux_base::{Lst, Txt};

/// A graph as states and nothing else: what a file tells of it. State 0 is its start.
#[derive(Drop)]
pub struct StateGraph {
    /// The name by which others call it.
    pub name: Txt,
    /// The states, by number.
    pub states: Lst<State>,
}
