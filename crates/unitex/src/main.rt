//! The program `unitex`: the corpus processor's command line.
//!
//! `main` gives the words, a folder of real files, and standard output and standard error to
//! `ux_run::run`, which does the work, and ends with the number of its status. The rows of that call
//! are data, which `unitex_rows` runs; the tests here are of what no row shows.
#![tactic(auto)]

#[cfg(test)]
mod tests;

use std::alloc::Global;
use std::process::ExitCode;
use std::{env, io};
use ux_base::{RealFolder, StdSink};
use ux_run::{Status, run};

/// The exit status where the system's words can't be had though memory did not run out.
const NO_WORDS: u8 = 8;

fn main(rt: HostRuntime) -> ExitCode {
    match words(&rt) {
        Ok(words) => {
            let mut folder = RealFolder::new(&rt);
            let mut out = StdSink::new(rt.stdout());
            let mut err = StdSink::new(rt.stderr());
            let status = run(
                rt.alloc(),
                words.as_slice(),
                &mut folder,
                &mut out,
                &mut err,
            );
            ExitCode::from(status.number())
        },
        Err(error) if error.kind() == io::ErrorKind::OutOfMemory => {
            ExitCode::from(Status::NoMemory.number())
        },
        Err(_) => ExitCode::from(NO_WORDS),
    }
}

/// The words after the program's name.
fn words<R: env::Env + AllocGlobal>(rt: &R) -> io::Result<Vec<String>> {
    let mut words = Vec::new(rt.alloc());
    for word in env::args(rt)?.skip(1) {
        words.push(word)?;
    }
    Ok(words)
}
