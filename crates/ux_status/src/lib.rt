//! How a run ends: its exit status, and the line on standard error that tells it.
//!
//! `Status` has every ending. `Status::number` is the exit status, and `tell` writes the line. Both are
//! told in `specs/Statuses.antt`, which carries the crate's public meaning; why a file is refused is a
//! `Reason` of `ux_reasons`.
//!
//! ```text
//! tell(&mut err, &Status::Absent { name })?;      // absent: g.grf
//! ```
#![tactic(auto)]

pub mod status;
pub mod telling;

pub use status::Status;
pub use telling::tell;
