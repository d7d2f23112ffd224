//! The states of an automaton, and the forms that it is made of.

use crate::items::Items;
use ux_base::Lst;

/// An edge to another state of the automaton.
#[derive(Clone, Copy, Debug, PartialEq, Eq, Hash)]
pub struct Edge {
    /// The character that it takes.
    pub letter: char,
    /// The number of the state to which it leads.
    pub target: u32,
}

/// A state.
#[derive(Debug, Drop)]
pub struct State {
    /// The number of the form that ends here, if one does.
    pub code: Option<u32>,
    /// The edges, in ascending order of their characters.
    pub edges: Items<Edge>,
}

/// A form with its number: that of its list of codes in a dictionary.
#[derive(Debug, Drop)]
pub struct Form {
    /// Its characters.
    pub letters: Lst<char>,
    /// Its number.
    pub code: u32,
}
