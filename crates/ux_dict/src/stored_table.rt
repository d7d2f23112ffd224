//! The entries of a list as a dictionary keeps them.

ghost use Rattle.std.specs.Prelude.{◌≡◌, ◌++◌, IfOk, OnOk, []};
ghost use Rattle.indexmap.specs.IndexSet.{insert_all};
ghost use Rattle.ux_dict.specs.Equal.{entry_eq};

use crate::codes_table::CodesTable;
use crate::stored::Stored;
use indexmap::IndexSet;
use std::alloc::{AllocError, Global};
use ux_base::Mem;
use ux_dela::Entry;

/// The entries in their order, as a dictionary keeps them. Takes a step a byte.
pub fn store_all(alloc: Global, entries: Vec<Entry>) -> Mem<Vec<Stored>>
    ensures { IfOk result (λ kept. kept.items ≡ entries.items) }
{
    let mut codes = CodesTable::new(alloc);
    let mut kept = Vec::new(alloc);
    put_all(alloc, entries, &mut codes, &mut kept)?;
    Ok(kept)
}

/// Puts the entries behind the others. Each is freed of what is shared before the next one is looked
/// at, so that no second copy of all entries is there at any time.
pub(crate) fn put_all(
    alloc: Global,
    entries: Vec<Entry>,
    codes: &mut CodesTable,
    kept: &mut Vec<Stored>,
) -> Result<(), AllocError>
    ensures { OnOk result (kept.new.items ≡ kept.old.items ++ entries.items) }
{
    for entry in entries {
        kept.push(Stored::of(alloc, entry, codes)?)?;
    }
    Ok(())
}

/// The entries that differ, in the order of their first places. Takes a step an entry.
pub(crate) fn first_ones_of(alloc: Global, entries: Vec<Stored>) -> Result<Vec<Stored>, AllocError>
    ensures { IfOk result (λ first. first.items ≡ insert_all entry_eq [] entries.items) }
{
    let mut table = IndexSet::new(alloc);
    insert_each(entries, &mut table)?;
    entries_in(alloc, table)
}

/// Puts the entries that the table doesn't have behind its others.
fn insert_each(entries: Vec<Stored>, table: &mut IndexSet<Stored>) -> Result<(), AllocError>
    ensures { OnOk result (table.new.keys ≡ insert_all entry_eq table.old.keys entries.items) }
{
    for entry in entries {
        table.insert(entry)?;
    }
    Ok(())
}

/// The entries of the table, in its order.
fn entries_in(alloc: Global, table: IndexSet<Stored>) -> Result<Vec<Stored>, AllocError>
    ensures { IfOk result (λ entries. entries.items ≡ table.keys) }
{
    table.into_iter().collect(alloc)
}
