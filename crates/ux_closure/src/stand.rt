//! Stands: stacks as two numbers.

use ux_walk::config::Frame;

/// Where a walk stands, and what it has to go through then. It names a stack that isn't empty.
#[derive(Clone, Copy, PartialEq, Eq, Hash)]
pub struct Stand {
    /// The first frame of the stack: the state in which the walk stands.
    pub here: Frame,
    /// The number of the list of the other frames.
    pub back: usize,
}
