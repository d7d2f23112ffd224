//! Closures: all that some stacks reach without taking a token.

use crate::stand::Stand;

/// The stacks that are reached from given ones without taking a token.
#[derive(Drop)]
pub struct Closure {
    /// Those that aren't empty, each stand once.
    pub stands: Vec<Stand>,
    /// Whether the empty stack is reached: a walk may end here.
    pub ends: bool,
}
