//! Tests of masks, nets, walks, walkers and hits: what the top call can't show.
//!
//! They stand apart from the tests of the other libraries (`ux_tests_files`), since these can be
//! proved before the search is. What a user sees is shown by rows of `unitex_rows`. `comparing`
//! compares a row's answer.
#![tactic(auto)]

#[cfg(test)]
mod comparing;
#[cfg(test)]
mod locate;
#[cfg(test)]
mod masks;
#[cfg(test)]
mod net;
#[cfg(test)]
mod walk;
