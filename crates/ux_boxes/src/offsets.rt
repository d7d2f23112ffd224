//! The places of all graphs in one row, one graph after another.

ghost use Rattle.std.specs.Prelude.{◌≡◌, ℕ, suc, ◌+◌, ◌<◌, List, length, get_or, IfOk};
ghost use Rattle.ux_boxes.specs.Numbers.{AreOffsets, all_places};

use crate::place::Place;
use std::alloc::Global;
use ux_base::{Lst, Mem, NoMemory};

/// How many places stand before each graph, and after the last. Where they are more than `usize`
/// counts, it is out of memory, since a list has an entry for each.
pub fn offsets_of(alloc: Global, graphs: &[Lst<Place>]) -> Mem<Vec<usize>>
    ensures { IfOk result (λ offsets. AreOffsets graphs.now offsets.items) }
{
    let mut offsets = Vec::new(alloc);
    let mut total: usize = 0;
    offsets.push(0)?;
    for places in graphs {
        total = add(total, places.as_slice().len())?;
        offsets.push(total)?;
    }
    Ok(offsets)
}

/// How many places all graphs have.
pub fn count_of(graphs: &[Lst<Place>], offsets: &[usize]) -> usize
    requires { AreOffsets graphs.now offsets.now }
    ensures { result ≡ all_places graphs.now }
{
    offsets[graphs.len()]
}

/// The sum, where `usize` has it.
fn add(total: usize, more: usize) -> Mem<usize>
    ensures sum { IfOk result (λ sum. sum ≡ total + more) }
    ensures few { IfOk result (λ sum. sum < 18446744073709551616) }
{
    total.checked_add(more).ok_or(NoMemory)
}
