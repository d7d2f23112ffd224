//! Entries in order of their forms, each once.
//!
//! Entries whose forms ascend stay where they are: dictionaries are mostly sorted, and most forms
//! stand once. Otherwise equal entries have one form. So once entries stand in order of form, they are
//! told apart run by run, and a form with few entries that differ takes no table.

ghost use Rattle.std.specs.Prelude.{◌≡◌, ◌++◌, ◌↔◌, [], IfOk, IsTrue, OnOk, IsPermutation, IsSortedByKey};
ghost use Rattle.std.specs.Cmp.Lexicographic.{slice_cmp};
ghost use Rattle.std.specs.List.Sorted.{IsStableByKey};
ghost use Rattle.std.specs.Ordering.{nat_cmp};
ghost use Rattle.indexmap.specs.IndexSet.{insert_all};
ghost use Rattle.ux_dict.specs.Content.{form_of, IsContent};
ghost use Rattle.ux_dict.specs.Equal.{entry_eq};
ghost use Rattle.ux_dict.specs.Runs.{AllDiffer, AreRising, GoesOn, HasOtherForm};

use crate::stored::Stored;
use crate::stored_table::first_ones_of;
use std::alloc::{AllocError, Global};

/// The most entries of a form of which each two are compared. More of them are told apart by a table,
/// since the comparisons grow with the square.
const FEW: usize = 8;

/// The content of a list of entries: each once, in order of form. Takes a step a byte and no memory
/// where the forms ascend, and else sorts the entries.
pub(crate) fn in_order(alloc: Global, entries: Vec<Stored>) -> Result<Vec<Stored>, AllocError>
    ensures { IfOk result (λ content. IsContent entries.items content.items) }
{
    if ascend(&entries) {
        return Ok(entries);
    }
    let mut entries = entries;
    sort_by_form(&mut entries)?;
    once_by_form(alloc, entries)
}

/// Whether each form is below the next one. Stops at the first that isn't.
fn ascend(entries: &[Stored]) -> bool
    ensures { IsTrue result → AreRising entries.now }
{
    entries.is_sorted_by(|entry, next| entry.form().cmp(&next.form()).is_lt())
}

/// Sorts entries by form, and leaves those of one form in their order.
fn sort_by_form(entries: &mut Vec<Stored>) -> Result<(), AllocError>
    ensures moved { OnOk result (IsPermutation entries.old.items entries.new.items) }
    ensures sorted { OnOk result (IsSortedByKey form_of (slice_cmp nat_cmp) entries.new.items) }
    ensures stable { OnOk result
        (IsStableByKey form_of (slice_cmp nat_cmp) entries.old.items entries.new.items) }
{
    entries.sort_by(|entry, other| entry.form().cmp(&other.form()))?;
    Ok(())
}

/// The entries that differ, of such as stand in order of form. Takes a step an entry.
fn once_by_form(alloc: Global, sorted: Vec<Stored>) -> Result<Vec<Stored>, AllocError>
    requires { IsSortedByKey form_of (slice_cmp nat_cmp) sorted.items }
    ensures { IfOk result (λ once. once.items ≡ insert_all entry_eq [] sorted.items) }
{
    let mut once = Vec::with_capacity(alloc, sorted.len())?;
    let mut run = Vec::new(alloc);
    for entry in sorted {
        go_on(alloc, entry, &mut run, &mut once)?;
    }
    put_run(alloc, &mut run, &mut once)?;
    Ok(once)
}

/// Puts the entry last into the run of its form, before which another run is moved behind the others.
fn go_on(
    alloc: Global,
    entry: Stored,
    run: &mut Vec<Stored>,
    once: &mut Vec<Stored>,
) -> Result<(), AllocError>
    ensures { OnOk result
        (GoesOn entry run.old.items once.old.items run.new.items once.new.items) }
{
    if has_other_form(run, &entry) {
        put_run(alloc, run, once)?;
        run.push(entry)?;
        return Ok(());
    }
    run.push(entry)?;
    Ok(())
}

/// Whether the run has an entry, and this one has another form.
fn has_other_form(run: &[Stored], entry: &Stored) -> bool
    ensures { IsTrue result ↔ HasOtherForm run.now entry.now }
{
    match run.first() {
        Some(first) => first.form() != entry.form(),
        None => false,
    }
}

/// Moves the entries of a run that differ behind the others.
fn put_run(alloc: Global, run: &mut Vec<Stored>, once: &mut Vec<Stored>) -> Result<(), AllocError>
    ensures put { OnOk result
        (once.new.items ≡ once.old.items ++ insert_all entry_eq [] run.old.items) }
    ensures taken { OnOk result (run.new.items ≡ []) }
{
    if are_few_and_differ(run) {
        once.append(run)?;
        return Ok(());
    }
    let entries = std::mem::replace(run, Vec::new(alloc));
    let mut first = first_ones_of(alloc, entries)?;
    once.append(&mut first)?;
    Ok(())
}

/// Whether the entries are few and no two of them are equal.
fn are_few_and_differ(run: &[Stored]) -> bool
    ensures { IsTrue result → AllDiffer run.now }
{
    run.len() <= FEW && differ(run)
}

/// Whether no two of the entries are equal. Compares each two.
fn differ(run: &[Stored]) -> bool
    ensures { IsTrue result → AllDiffer run.now }
{
    for place in 1..run.len() {
        if run[..place].contains(&run[place]) {
            return false;
        }
    }
    true
}
