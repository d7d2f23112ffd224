//! How many entries a file has, with no list of them.
//!
//! Each line is cut as `delaf` and `delas` cut it, and its codes are looked through: none of them is
//! kept. A file is refused as by its reader.

ghost use Rattle.std.specs.Prelude.{◌≡◌, ◌⊎◌, IfOk, IfErr};
ghost use Rattle.ux_dela.specs.Files.{IsEntryCount, IsStemCount, Refuses, RefusesStems};
ghost use Rattle.ux_dela.specs.declared.error.DelaError.{DelaError};
ghost use Rattle.ux_dela.specs.declared.error.DelaError.TheVariants.{NoMemory};

use crate::error::DelaError;
use crate::{delaf, delas};
use std::alloc::Global;
use ux_base::lines;

/// The number of entries of a file of forms, or why its first bad line is refused. The time is
/// linear in the text. Takes no memory.
pub fn count_delaf(text: &str) -> Result<usize, DelaError>
    ensures ok { IfOk result (IsEntryCount text.now) }
    ensures refused { IfErr result (λ error. Refuses text.now error) }
    ensures exact { IfOk result (λ _. (error : DelaError) → Refuses text.now error → ⊥) }
{
    // A text has at most as many lines as bytes, and fewer bytes than half of what `usize` counts;
    // so a line's number fits, and two entries for each line.
    let _bytes = text.len();
    let mut number = 0;
    let mut count = 0;
    for line in lines(text) {
        number += 1;
        count += delaf::count_line(line, number)?;
    }
    Ok(count)
}

/// The number of stems of a file of lemmas, or why its first bad line is refused. Keeps the
/// class of one line at a time; the time is linear in the text.
pub fn count_delas(alloc: Global, text: &str) -> Result<usize, DelaError>
    ensures ok { IfOk result (IsStemCount text.now) }
    ensures refused { IfErr result (λ error. (error ≡ NoMemory) ⊎ RefusesStems text.now error) }
    ensures exact { IfOk result (λ _. (error : DelaError) → RefusesStems text.now error → ⊥) }
{
    // A text has at most as many lines as bytes, so that a line's number fits, and the count.
    let _bytes = text.len();
    let mut number = 0;
    let mut count = 0;
    for line in lines(text) {
        number += 1;
        count += delas::count_line(alloc, line, number)?;
    }
    Ok(count)
}
