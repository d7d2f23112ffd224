//! What a walk reaches without taking a token.
//!
//! A stack is the frames that a walk still has to go through, innermost first. `closure` takes some
//! stacks, and answers all that one of them reaches over edges that take nothing, into graphs that
//! are called, and back from final states. `specs/Passing.antt` says what one such step is, and
//! `specs/Taking.antt` how walks go on from there.
//!
//! ```text
//! stands --Met::of--> met --round, round, ..--> met --into_closure--> Closure
//! ```
//!
//! A round goes one step on from each stand that the round before it met first. Ranks fall along
//! each such step, so rounds end; and no stand is gone on from twice, so the work is in states and
//! edges, however many ways lead to a stand.
#![tactic(auto)]

pub mod closing;
pub mod met;
pub mod passing;
pub mod stand;
