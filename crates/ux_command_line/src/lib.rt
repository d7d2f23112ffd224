//! What the words of the command line ask for.
//!
//! `Request::of` reads the words after the program's name, for every command. The tables of the
//! commands, their options and the options' values stand in `specs/Tables.antt`, how words are
//! read in `specs/Arguments.antt` and `specs/Steps.antt`, which request they are in
//! `specs/Requests.antt`, and how a request is written in `specs/Writing.antt`. Inside, `command`
//! has the table of options, `arguments` has clap read the words after the command, `options` and
//! `names` take what it found, `steps` reads the steps of a cascade, and `building` makes the
//! request.
//!
//! A new option is a variant and a row of `OptionName` with its place in the lists of its commands,
//! the same in `specs/Tables.antt`, a line in `proofs/TableLemmas.antt`, and what requests make of
//! it. A new kind of value is a variant of `Takes` besides.
//!
//! ```text
//! Request::of(alloc, &words)?     // locate --mode=merge g.grf t.txt a.txt d.dic
//! ```
#![tactic(auto)]

mod arguments;
mod building;
mod command;
pub mod error;
pub mod help;
mod names;
mod number;
mod options;
pub mod request;
mod steps;
mod values;

pub use error::WordsError;
pub use help::{HELP, VERSION};
pub use request::{CascadeStep, Request, Search};
