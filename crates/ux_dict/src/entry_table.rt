//! The different entries of a list, each at its first place.
//!
//! Entries are looked up by all of their parts, so that a list of many entries of one form costs no
//! more than another.

ghost use Rattle.std.specs.Prelude.{◌≡◌, IfOk, []};
ghost use Rattle.indexmap.specs.IndexSet.{insert_all};
ghost use Rattle.ux_dict.specs.Equal.{entry_eq};

use indexmap::IndexSet;
use std::alloc::{AllocError, Global};
use std::hash::{Hash, Hasher};
use std::marker::Model;
use ux_dela::Entry;

/// An entry, compared by all of its parts.
#[derive(Drop)]
pub struct Whole {
    entry: Entry,
}

impl Model for Whole {
    ghost use Rattle.ux_dela.specs.declared.entry.Entry.{Entry};

    ghost Value = { Entry };

    ghost view = { λ whole. whole.entry };
}

impl Whole {
    fn new(entry: Entry) -> Whole
        ensures { result ≡ entry }
    {
        Whole { entry }
    }

    fn into_entry(self) -> Entry
        ensures { result ≡ self }
    {
        let Whole { entry } = self;
        entry
    }
}

impl PartialEq for Whole {
    ghost use Rattle.std.specs.Cmp.{partial_equiv_from_equiv};
    ghost use Rattle.ux_dict.specs.Equal.{entry_eq};
    ghost use Rattle.ux_dict.specs.Equal.{entry_equiv};

    ghost eq = { entry_eq };

    ghost laws = { partial_equiv_from_equiv entry_equiv };

    fn eq(&self, other: &Whole) -> bool {
        self.entry.same(&other.entry)
    }
}

impl Eq for Whole {
    ghost use Rattle.ux_dict.specs.Equal.{entry_equiv};

    ghost laws = { entry_equiv };
}

impl Hash for Whole {
    ghost use Rattle.std.specs.Hash as fed;
    ghost use Rattle.ux_dict.specs.Equal.{writes_of, entry_eq-Decides};

    ghost hash_input = { writes_of };

    ghost respects_eq = { (fed.same_Alike writes_of entry_eq-Decides).fed };

    fn hash<H: Hasher>(&self, state: &mut H) {
        self.entry.form.hash(state);
        self.entry.lemma.hash(state);
        self.entry.gram.hash(state);
        self.entry.sem.hash(state);
        self.entry.infl.hash(state);
    }
}

/// The entries that differ, in the order of their first places. Takes a step an entry.
pub(crate) fn first_ones(alloc: Global, entries: Vec<Entry>) -> Result<Vec<Entry>, AllocError>
    ensures { IfOk result (λ kept. kept.items ≡ insert_all entry_eq [] entries.items) }
{
    let table = table_of(alloc, entries)?;
    entries_of(alloc, table)
}

fn table_of(alloc: Global, entries: Vec<Entry>) -> Result<IndexSet<Whole>, AllocError>
    ensures { IfOk result (λ table. table.keys ≡ insert_all entry_eq [] entries.items) }
{
    entries
        .into_iter()
        .map(|entry| Whole::new(entry))
        .collect(alloc)
}

fn entries_of(alloc: Global, table: IndexSet<Whole>) -> Result<Vec<Entry>, AllocError>
    ensures { IfOk result (λ entries. entries.items ≡ table.keys) }
{
    table
        .into_iter()
        .map(|whole| whole.into_entry())
        .collect(alloc)
}
