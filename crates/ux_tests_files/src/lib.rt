//! Tests of the readers of single files and of words and tokens: what the top call can't show.
//!
//! A crate is proved once more with its tests, so those of the libraries stand in crates of their
//! own, a file a crate: values inside a library, faults of folders and sinks, and each public call
//! once on its happy path. What a user sees is shown by rows of `unitex_rows`. `comparing` compares
//! a row's answer. The rows on dictionaries stand in `ux_tests_dictionaries`, those on nets and
//! walks in `ux_tests_search`, those of the top call in the program's crate.
#![tactic(auto)]

#[cfg(test)]
mod alphabet;
#[cfg(test)]
mod base;
#[cfg(test)]
mod comparing;
#[cfg(test)]
mod digraph;
#[cfg(test)]
mod grf;
#[cfg(test)]
mod tokens;
#[cfg(test)]
mod words;
