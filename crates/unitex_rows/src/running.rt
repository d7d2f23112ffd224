//! Runs a row.

use crate::named::{Named, bytes_of, copy_of};
use crate::outcome::Outcome;
use crate::suite::{Row, Suite};
use std::alloc::{AllocError, Global};
use ux_base::{Mem, MemFolder, MemSink};
use ux_run::run;

/// The bytes that a run may write to each sink. No row writes as many.
const ROOM: usize = 1_048_576;

/// Runs a row of a suite, over a folder and sinks in memory.
pub fn run_row(alloc: Global, suite: &Suite, row: &Row) -> Mem<Outcome> {
    let mut folder = MemFolder::new(files_of(alloc, suite, row)?, Vec::new(alloc));
    let mut out = MemSink::new(alloc, ROOM, Vec::new(alloc))?;
    let mut err = MemSink::new(alloc, ROOM, Vec::new(alloc))?;
    let words = row.words.as_slice();
    let status = run(alloc, words, &mut folder, &mut out, &mut err).number();
    Ok(Outcome { out, err, status })
}

/// The files of a row: its own, and those of the suite that it neither leaves out nor has itself.
fn files_of(alloc: Global, suite: &Suite, row: &Row) -> Result<Vec<Named>, AllocError> {
    let mut files = Vec::new(alloc);
    for file in &row.files {
        files.push(copy_of(alloc, file)?)?;
    }
    for file in &suite.files {
        if has_shared(row, file.0.as_str()) {
            files.push(copy_of(alloc, file)?)?;
        }
    }
    Ok(files)
}

/// Whether a row has the shared file of this name.
fn has_shared(row: &Row, name: &str) -> bool {
    let left_out = row.without.iter().any(|other| other.as_str() == name);
    !left_out && bytes_of(row.files.as_slice(), name).is_none()
}
