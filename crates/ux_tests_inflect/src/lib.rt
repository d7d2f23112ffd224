//! Tests of the inflection of stems: what the top call can't show.
//!
//! Which forms a stem has, and why it has none, is shown by rows of `unitex_rows`. `comparing`
//! compares a row's answer.
#![tactic(auto)]

#[cfg(test)]
mod comparing;
#[cfg(test)]
mod rows;
