//! Entries without those that stand once more.

ghost use Rattle.std.specs.Prelude.{IfOk};
ghost use Rattle.ux_dict.specs.Content.{AreDifferent};

use crate::entry_table::first_ones;
use std::alloc::Global;
use ux_base::Mem;
use ux_dela::Entry;

/// The entries that differ, each at its first place alone. Takes a step an entry, however many of
/// them are equal.
pub fn different(alloc: Global, entries: Vec<Entry>) -> Mem<Vec<Entry>>
    ensures { IfOk result (λ different. AreDifferent entries.items different.items) }
{
    Ok(first_ones(alloc, entries)?)
}
