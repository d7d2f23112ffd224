//! What a cascade comes to.

use ux_base::{Lst, Txt};

/// A round of a step.
#[derive(Debug, Drop)]
pub struct Round {
    /// The step, counted from 0.
    pub step: usize,
    /// Which of the step's rounds it is, counted from 1.
    pub round: u32,
    /// How many hits were rewritten.
    pub spans: u32,
}

/// The text that a cascade leaves, and its rounds.
#[derive(Debug, Drop)]
pub struct Outcome {
    /// The text, its tokens joined.
    pub text: Txt,
    /// Of each step the rounds up to the first that left the joined tokens as they were, that one with
    /// them.
    pub rounds: Lst<Round>,
}
