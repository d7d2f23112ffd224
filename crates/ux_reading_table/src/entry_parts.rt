//! The parts of a reading that is an entry, lent from its text.

ghost use Rattle.std.specs.Prelude.{◌≡◌, IfOk};
ghost use Rattle.ux_reading_table.specs.Entries.{entry_of};

use std::alloc::Global;
use ux_base::{Mem, Txt};
use ux_dela::{Codes, Entry};

/// The parts of an entry.
#[derive(Clone, Copy)]
pub struct EntryParts<'t> {
    /// The form.
    pub form: &'t str,
    /// The lemma.
    pub lemma: &'t str,
    /// The codes.
    pub codes: &'t Codes,
}

/// The entry of these parts.
pub(crate) fn own_entry(alloc: Global, parts: &EntryParts<'_>) -> Mem<Entry>
    ensures { IfOk result (λ entry. entry ≡ entry_of parts.now) }
{
    let Codes { gram, sem, infl } = parts.codes.copy()?;
    Ok(Entry {
        form: Txt::from_str(alloc, parts.form)?,
        lemma: Txt::from_str(alloc, parts.lemma)?,
        gram,
        sem,
        infl,
    })
}
