//! Runs rows of the top call, which stand in files as data, and says which give something else.
//!
//! The words are names of files of rows. `docs/FORMATS.md` says how a row is written. Each row runs
//! over a folder and sinks in memory; of each file the number of its rows is written, and what a
//! row expects and what came where they differ. Begin with `suite`, then `reader` and `running`.
#![tactic(auto)]

mod content;
mod escapes;
mod malformed;
mod named;
mod outcome;
mod place;
mod reader;
mod running;
mod suite;

use crate::outcome::Outcome;
use crate::reader::Reader;
use crate::running::run_row;
use crate::suite::{Row, Suite};
use anyhow::{Context, Result, bail};
use std::env;
use std::rt::Files;
use ux_base::{Folder, RealFolder};
use ux_decode::decode;

fn main(rt: HostRuntime) -> Result<()> {
    let mut differ = 0_usize;
    for name in env::args(&rt)?.skip(1) {
        differ = differ.saturating_add(compare_file(&rt, name.as_str())?);
    }
    if differ > 0 {
        bail!("{differ} rows differ");
    }
    Ok(())
}

/// Runs the rows of a file, and counts those that give something else.
fn compare_file<R: Files + Print + AllocGlobal>(rt: &R, name: &str) -> Result<usize> {
    let suite = read_suite(rt, name)?;
    let mut differ = 0_usize;
    for row in &suite.rows {
        let got = run_row(rt.alloc(), &suite, row)?;
        if !got.is_as(row) {
            differ = differ.saturating_add(1);
            tell_difference(rt, row, &got)?;
        }
    }
    let count = suite.rows.len();
    println!(rt; "{name}: {count} rows, {differ} differ")?;
    Ok(differ)
}

/// Reads a file of rows. The first line that isn't accepted is named.
fn read_suite<R: Files + AllocGlobal>(rt: &R, name: &str) -> Result<Suite> {
    let alloc = rt.alloc();
    let bytes = RealFolder::new(rt)
        .read(alloc, name)
        .context(format_args!("{name}"))?;
    let text = decode(alloc, bytes).context(format_args!("{name}"))?;
    let mut reader = Reader::new(alloc);
    for (place, line) in text.split('\n').enumerate() {
        let number = place.saturating_add(1);
        reader
            .read_line(line)
            .context(format_args!("{name}:{number}"))?;
    }
    reader.finish().context(format_args!("{name}"))
}

/// Writes what a row expects, and what came.
fn tell_difference<R: Print + AllocGlobal>(rt: &R, row: &Row, got: &Outcome) -> Result<()> {
    println!(rt; "differs: {}", row.name)?;
    println!(rt; "status: expected {}, came {}", row.status, got.status)?;
    tell_bytes(rt, "output expected", row.out.as_slice())?;
    tell_bytes(rt, "output that came", got.out.bytes())?;
    tell_bytes(rt, "error expected", row.err.as_slice())?;
    tell_bytes(rt, "error that came", got.err.bytes())
}

/// The bytes that are shown of an output.
const SHOWN: usize = 2000;

/// Writes bytes as text, under a heading.
fn tell_bytes<R: Print + AllocGlobal>(rt: &R, heading: &str, bytes: &[u8]) -> Result<()> {
    let shown = &bytes[..bytes.len().min(SHOWN)];
    let text = String::from_utf8_lossy(rt.alloc(), shown)?;
    println!(rt; "{heading}, {} bytes:\n{text}", bytes.len())?;
    Ok(())
}
