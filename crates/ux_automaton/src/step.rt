//! Where walks go on from a front and a position.

/// How walks go on. A front 0 has no stack: no walk goes on there.
#[derive(Drop)]
pub struct Step {
    /// Whether a walk ends at the position.
    pub ends: bool,
    /// The front after the space that stands there.
    pub over_space: usize,
    /// The front after one token, which may stand after a space.
    pub over_token: usize,
    /// The fronts after spans of several tokens, each end once.
    pub landings: Vec<Landing>,
}

/// A front to which a span of several tokens leads.
#[derive(Clone, Copy)]
pub struct Landing {
    /// The position after the span.
    pub at: usize,
    /// The front there.
    pub front: usize,
}
