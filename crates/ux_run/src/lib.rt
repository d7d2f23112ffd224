//! The top call: the words of a command line in, the result and the status out.
//!
//! `top_call::run` does the work over a folder and two sinks; the program `unitex` gives it the real
//! ones. What is asked for is told by one table, `asked_of` in `specs/Running.antt`: for each request
//! the command that answers it. Here `commands` has a line for each; reading and work stand in the
//! crates of the commands. `stops` has what stops a command as a status.
#![tactic(auto)]

mod commands;
mod stops;
mod top_call;

pub use top_call::run;
pub use ux_reasons::Reason;
pub use ux_status::Status;
