//! The steps of a rule.

use crate::test::Test;

/// What a step is marked by.
#[derive(Drop)]
pub enum Sign {
    /// By nothing: the step is free.
    Free,
    /// By `<!>`, the mark of an if-part.
    If,
    /// By `<=>`, the mark of a then-part.
    Then,
    /// By the test of one reading.
    Read(Test),
}

/// A step of a rule from a place to a place.
#[derive(Drop)]
pub struct Step {
    /// The place from which it leads.
    pub from: usize,
    /// The place to which it leads.
    pub to: usize,
    /// What it is marked by.
    pub sign: Sign,
}
