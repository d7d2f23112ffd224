//! Into which places contexts are closed.
//!
//! A pair of places is found where a body from the first is closed into the second: the first is
//! where a step begins that closes a context into the second; or a step leads from it to the first
//! of another pair; or a context opens at it, is closed into some place, and that is the first of
//! another pair. Pairs stand in a list in the order in which they were found, each once, and each
//! is looked at once: at the steps into its first place, and at the contexts that are closed into
//! that place. So the time is linear in the steps, counted once for each pair that they lead to.

ghost use Rattle.std.specs.Prelude.{◌≡◌, ℕ, ◌+◌, ◌<◌, ◌≤◌, ◌⊎◌, ◌↔◌, List, [], length, All, Contains, IfOk, OnOk, true};
ghost use Rattle.ux_digraph.specs.Paths.{row_of};
ghost use Rattle.ux_admission.specs.declared.closers.Pair.{Pair as ThePair};
ghost use Rattle.ux_admission.specs.Closers.{AreClosers};
ghost use Rattle.ux_admission.specs.Finding.{IsInserted, Finds, AreRowsOf, AreJumps, pair_of, IsFinding, AddsClosers};
ghost use Rattle.ux_boxes.specs.Fit.{HasTargetsInside};
ghost use Rattle.ux_admission.specs.Leading.{IsLeadingInside, Leads, Opens, AreClosersIn};
ghost use Rattle.ux_net.specs.Words.{ordinary, closes as closes_of};

use crate::edges::{empty_rows, put};
use crate::leading::{Leading, is_opening, leading_of};
use indexmap::IndexSet;
use std::alloc::{AllocError, Global};
use std::hash::Hash;
use ux_base::{Lst, Mem};
use ux_boxes::Place;

/// A place, and one into which a body from there is closed.
#[derive(Clone, Copy, PartialEq, Eq, Hash)]
pub struct Pair {
    /// The place.
    pub place: usize,
    /// The place into which the body is closed.
    pub closer: usize,
}

/// A row for each place of all graphs: the places of its graph into which bodies from there are
/// closed.
pub fn closers_of(alloc: Global, graphs: &[Lst<Place>]) -> Mem<Vec<Lst<usize>>>
    requires inside { All HasTargetsInside graphs.now }
    ensures { IfOk result (λ rows. AreClosers graphs.now rows.items) }
{
    let mut rows = Vec::new(alloc);
    for places in graphs {
        push_closers(alloc, &mut rows, places.as_slice())?;
    }
    Ok(rows)
}

/// Adds the rows of a graph.
fn push_closers(alloc: Global, rows: &mut Vec<Lst<usize>>, places: &[Place]) -> Mem<()>
    requires inside { HasTargetsInside places.now }
    ensures { OnOk result (AddsClosers places.now rows.old.items rows.new.items) }
{
    let leading = leading_of(alloc, places)?;
    let mut more = closers_in(alloc, &leading)?;
    rows.append(&mut more)?;
    Ok(())
}

/// A row for each place of a graph.
fn closers_in(alloc: Global, leading: &Leading) -> Mem<Vec<Lst<usize>>>
    requires inside { IsLeadingInside leading.now }
    ensures { IfOk result (λ rows. AreClosersIn leading.now rows.items) }
{
    let mut found = IndexSet::new(alloc);
    let mut rows = empty_rows(alloc, leading.sources.len())?;
    let mut jumps = empty_rows(alloc, leading.sources.len())?;
    find(alloc, leading, &mut found, &mut rows, &mut jumps)?;
    Ok(rows)
}

/// Finds all pairs.
fn find(
    alloc: Global,
    leading: &Leading,
    found: &mut IndexSet<Pair>,
    rows: &mut Vec<Lst<usize>>,
    jumps: &mut Vec<Lst<usize>>,
) -> Mem<()>
    requires inside { IsLeadingInside leading.now }
    requires rows_len { length rows.now.items ≡ length leading.now.sources.items }
    requires jumps_len { length jumps.now.items ≡ length leading.now.sources.items }
    requires none { (p : ThePair) → Contains found.now.keys p → ⊥ }
    requires rows { (a : ℕ) → row_of rows.now.items a ≡ [] }
    requires jumps { (a : ℕ) → row_of jumps.now.items a ≡ [] }
    ensures { OnOk result (AreClosersIn leading.now rows.new.items) }
{
    begin(alloc, leading, found, rows)?;
    let mut next = 0;
    while next < found.len() {
        is_bounded(found);
        look(alloc, leading, found, rows, jumps, next)?;
        next += 1;
    }
    Ok(())
}

/// Adds the pairs of the steps that close a context.
fn begin(
    alloc: Global,
    leading: &Leading,
    found: &mut IndexSet<Pair>,
    rows: &mut Vec<Lst<usize>>,
) -> Mem<()>
    requires inside { IsLeadingInside leading.now }
    requires rows_len { length rows.now.items ≡ length leading.now.sources.items }
    requires rows { AreRowsOf found.now.keys rows.now.items }
    ensures len { OnOk result (length rows.new.items ≡ length rows.old.items) }
    ensures rows { OnOk result (AreRowsOf found.new.keys rows.new.items) }
    ensures finds { OnOk result (Finds found.old.keys found.new.keys
        (λ p. Leads leading.now closes_of p.place p.closer)) }
{
    for place in 0..leading.sources.len() {
        begin_at(alloc, leading, found, rows, place)?;
    }
    Ok(())
}

/// Adds the pairs of the steps into the place that close a context.
fn begin_at(
    alloc: Global,
    leading: &Leading,
    found: &mut IndexSet<Pair>,
    rows: &mut Vec<Lst<usize>>,
    place: usize,
) -> Mem<()>
    requires inside { IsLeadingInside leading.now }
    requires place { place < length leading.now.sources.items }
    requires rows_len { length rows.now.items ≡ length leading.now.sources.items }
    requires rows { AreRowsOf found.now.keys rows.now.items }
    ensures len { OnOk result (length rows.new.items ≡ length rows.old.items) }
    ensures rows { OnOk result (AreRowsOf found.new.keys rows.new.items) }
    ensures finds { OnOk result (Finds found.old.keys found.new.keys
        (λ p. Leads leading.now closes_of p.place place × (p.closer ≡ place))) }
{
    if !leading.marks[place].closes {
        return Ok(());
    }
    add_each(alloc, found, rows, leading.sources[place].as_slice(), place)
}

/// Adds what follows from the pair of this number, and from those before it.
fn look(
    alloc: Global,
    leading: &Leading,
    found: &mut IndexSet<Pair>,
    rows: &mut Vec<Lst<usize>>,
    jumps: &mut Vec<Lst<usize>>,
    next: usize,
) -> Mem<()>
    requires inside { IsLeadingInside leading.now }
    requires next { next < length found.now.keys }
    requires finding { IsFinding leading.now found.now.keys rows.now.items jumps.now.items next }
    ensures { OnOk result
        (IsFinding leading.now found.new.keys rows.new.items jumps.new.items (next + 1)) }
{
    let pair = found.as_slice()[next];
    follow_steps(alloc, leading, found, rows, pair)?;
    open_contexts(alloc, leading, found, rows, jumps, pair)?;
    add_each(
        alloc,
        found,
        rows,
        jumps[pair.place].as_slice(),
        pair.closer,
    )
}

/// Adds the pairs of the steps into the place of the pair that neither open nor close a context.
fn follow_steps(
    alloc: Global,
    leading: &Leading,
    found: &mut IndexSet<Pair>,
    rows: &mut Vec<Lst<usize>>,
    pair: Pair,
) -> Mem<()>
    requires inside { IsLeadingInside leading.now }
    requires place { pair.place < length leading.now.sources.items }
    requires rows_len { length rows.now.items ≡ length leading.now.sources.items }
    requires rows { AreRowsOf found.now.keys rows.now.items }
    ensures len { OnOk result (length rows.new.items ≡ length rows.old.items) }
    ensures rows { OnOk result (AreRowsOf found.new.keys rows.new.items) }
    ensures finds { OnOk result (Finds found.old.keys found.new.keys
        (λ p. Leads leading.now ordinary p.place pair.place × (p.closer ≡ pair.closer))) }
{
    if !leading.marks[pair.place].ordinary {
        return Ok(());
    }
    add_each(
        alloc,
        found,
        rows,
        leading.sources[pair.place].as_slice(),
        pair.closer,
    )
}

/// Adds the jumps of the contexts that open into the place of the pair, and the pairs to which they
/// lead.
fn open_contexts(
    alloc: Global,
    leading: &Leading,
    found: &mut IndexSet<Pair>,
    rows: &mut Vec<Lst<usize>>,
    jumps: &mut Vec<Lst<usize>>,
    pair: Pair,
) -> Mem<()>
    requires inside { IsLeadingInside leading.now }
    requires place { pair.place < length leading.now.sources.items }
    requires closer { pair.closer < length leading.now.sources.items }
    requires rows_len { length rows.now.items ≡ length leading.now.sources.items }
    requires jumps_len { length jumps.now.items ≡ length leading.now.sources.items }
    requires rows { AreRowsOf found.now.keys rows.now.items }
    ensures len { OnOk result (length rows.new.items ≡ length rows.old.items) }
    ensures rows { OnOk result (AreRowsOf found.new.keys rows.new.items) }
    ensures finds { OnOk result (Finds found.old.keys found.new.keys
        (λ p. Opens leading.now p.place pair.place
        × Contains found.old.keys (pair_of pair.closer p.closer))) }
    ensures jumps_len { OnOk result (length jumps.new.items ≡ length jumps.old.items) }
    ensures jumps { OnOk result ((a d : ℕ) → Contains (row_of jumps.new.items d) a ↔
        (Contains (row_of jumps.old.items d) a
        ⊎ ((d ≡ pair.closer) × Opens leading.now a pair.place))) }
{
    if !is_opening(leading.marks[pair.place]) {
        return Ok(());
    }
    let sources = leading.sources[pair.place].as_slice();
    note_jumps(alloc, jumps, pair.closer, sources)?;
    jump(alloc, found, rows, sources, pair.closer)
}

/// Notes that contexts which open at the sources are closed into a place.
fn note_jumps(
    alloc: Global,
    jumps: &mut Vec<Lst<usize>>,
    to: usize,
    sources: &[usize],
) -> Result<(), AllocError>
    requires to { to < length jumps.now.items }
    ensures len { OnOk result (length jumps.new.items ≡ length jumps.old.items) }
    ensures jumps { OnOk result (AreJumps jumps.old.items jumps.new.items to sources.now) }
{
    for source in sources {
        put(alloc, jumps, to, *source)?;
    }
    Ok(())
}

/// Adds the pairs of the sources with those into which bodies from a place are closed.
fn jump(
    alloc: Global,
    found: &mut IndexSet<Pair>,
    rows: &mut Vec<Lst<usize>>,
    sources: &[usize],
    to: usize,
) -> Mem<()>
    requires to { to < length rows.now.items }
    requires inside { (a : ℕ) → Contains sources.now a → a < length rows.now.items }
    requires rows { AreRowsOf found.now.keys rows.now.items }
    ensures len { OnOk result (length rows.new.items ≡ length rows.old.items) }
    ensures rows { OnOk result (AreRowsOf found.new.keys rows.new.items) }
    ensures finds { OnOk result (Finds found.old.keys found.new.keys
        (λ p. Contains sources.now p.place
        × Contains found.old.keys (pair_of to p.closer))) }
{
    let closers = Vec::from_slice(alloc, rows[to].as_slice())?;
    add_all(alloc, found, rows, sources, &closers)
}

/// Adds the pairs of each source with each of the closers.
fn add_all(
    alloc: Global,
    found: &mut IndexSet<Pair>,
    rows: &mut Vec<Lst<usize>>,
    sources: &[usize],
    closers: &[usize],
) -> Mem<()>
    requires inside { (a : ℕ) → Contains sources.now a → a < length rows.now.items }
    requires rows { AreRowsOf found.now.keys rows.now.items }
    ensures len { OnOk result (length rows.new.items ≡ length rows.old.items) }
    ensures rows { OnOk result (AreRowsOf found.new.keys rows.new.items) }
    ensures finds { OnOk result (Finds found.old.keys found.new.keys
        (λ p. Contains sources.now p.place × Contains closers.now p.closer)) }
{
    for closer in closers {
        add_each(alloc, found, rows, sources, *closer)?;
    }
    Ok(())
}

/// Adds the pairs of each source with the closer.
fn add_each(
    alloc: Global,
    found: &mut IndexSet<Pair>,
    rows: &mut Vec<Lst<usize>>,
    sources: &[usize],
    closer: usize,
) -> Mem<()>
    requires inside { (a : ℕ) → Contains sources.now a → a < length rows.now.items }
    requires rows { AreRowsOf found.now.keys rows.now.items }
    ensures len { OnOk result (length rows.new.items ≡ length rows.old.items) }
    ensures rows { OnOk result (AreRowsOf found.new.keys rows.new.items) }
    ensures finds { OnOk result (Finds found.old.keys found.new.keys
        (λ p. Contains sources.now p.place × (p.closer ≡ closer))) }
{
    for source in sources {
        add(
            alloc,
            found,
            rows,
            Pair {
                place: *source,
                closer,
            },
        )?;
    }
    Ok(())
}

/// Adds the pair, if it is new.
fn add(alloc: Global, found: &mut IndexSet<Pair>, rows: &mut Vec<Lst<usize>>, pair: Pair) -> Mem<()>
    requires place { pair.place < length rows.now.items }
    requires rows { AreRowsOf found.now.keys rows.now.items }
    ensures len { OnOk result (length rows.new.items ≡ length rows.old.items) }
    ensures rows { OnOk result (AreRowsOf found.new.keys rows.new.items) }
    ensures finds { OnOk result (Finds found.old.keys found.new.keys (λ p. pair ≡ p)) }
{
    if insert(found, pair)? {
        put(alloc, rows, pair.place, pair.closer)?;
    }
    Ok(())
}

/// Puts the item behind the others, if it is new. Returns whether it is.
fn insert<T: Eq + Hash + Drop>(set: &mut IndexSet<T>, item: T) -> Mem<bool>
    requires { (a b : T) → (T.eq a b ≡ true) ↔ (a ≡ b) }
    ensures { IfOk result (λ is_new. IsInserted set.old.keys item is_new set.new.keys) }
{
    Ok(set.insert(item)?)
}

/// No item stands twice, so there are no more than in a list of all.
fn is_bounded<T: Eq + Hash>(set: &IndexSet<T>)
    requires { (a b : T) → (T.eq a b ≡ true) ↔ (a ≡ b) }
    ensures { (all : List T) → ((x : T) → Contains set.now.keys x → Contains all x) →
        length set.now.keys ≤ length all }
{
    set.len();
}
