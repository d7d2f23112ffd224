//! Tests of dictionary lines, minimal automata, dictionaries and their images: what the top call
//! can't show.
//!
//! They stand apart from the tests of the other readers (`ux_tests_files`), so that both are proved
//! at once. What a user sees is shown by rows of `unitex_rows`. `comparing` compares a row's
//! answer.
#![tactic(auto)]

#[cfg(test)]
mod comparing;
#[cfg(test)]
mod dawg;
#[cfg(test)]
mod dela;
#[cfg(test)]
mod dict;
#[cfg(test)]
mod image;
#[cfg(test)]
mod image_reader;
#[cfg(test)]
mod states;
