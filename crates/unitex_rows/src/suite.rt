//! A file of rows: what its rows share, and the rows.

use crate::malformed::Malformed;
use crate::named::Named;
use std::alloc::Global;

/// A run, and what it has to give.
#[derive(Drop)]
pub struct Row {
    /// What the row shows.
    pub name: String,
    /// Its own files.
    pub files: Vec<Named>,
    /// The names of the shared files that it doesn't have.
    pub without: Vec<String>,
    /// The words behind the program's name.
    pub words: Vec<String>,
    /// What has to be written to standard output.
    pub out: Vec<u8>,
    /// What has to be written to standard error.
    pub err: Vec<u8>,
    /// The exit status.
    pub status: u8,
}

impl Row {
    /// A row of this name, of which no more is known.
    pub fn new(alloc: Global, name: &str) -> Result<Row, Malformed> {
        Ok(Row {
            name: String::from_str(alloc, name)?,
            files: Vec::new(alloc),
            without: Vec::new(alloc),
            words: Vec::new(alloc),
            out: Vec::new(alloc),
            err: Vec::new(alloc),
            status: 0,
        })
    }
}

/// What stands in a file of rows.
#[derive(Drop)]
pub struct Suite {
    /// Texts that contents name.
    pub texts: Vec<Named>,
    /// Files that each row has.
    pub files: Vec<Named>,
    /// The rows in their order.
    pub rows: Vec<Row>,
}

impl Suite {
    /// The suite without a row. Takes no memory.
    pub fn new(alloc: Global) -> Suite {
        Suite {
            texts: Vec::new(alloc),
            files: Vec::new(alloc),
            rows: Vec::new(alloc),
        }
    }
}
