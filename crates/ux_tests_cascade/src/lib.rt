//! Tests of cascades: what the top call can't show.
//!
//! What a cascade of graphs comes to is shown by rows of `unitex_rows`. Here the hits are those of
//! `fronts`, a finder in memory. `comparing` compares a row's answer.
#![tactic(auto)]

#[cfg(test)]
mod cascades;
#[cfg(test)]
mod comparing;
#[cfg(test)]
mod fronts;
