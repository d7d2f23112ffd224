//! Which spans the masks of a net accept, from each place of a text.
//!
//! A place has the row of the first equal token, where both stand alone, and else a row of its own.

ghost use Rattle.std.specs.Prelude.{◌≡◌, ℕ, ◌+◌, ◌*◌, ◌<◌, ◌≤◌, ◌↔◌, [], List, Some, Contains, IfOk, IfSome, OnOk, true, length, slice_get};
ghost use Rattle.std.specs.List.Sorted.{IsStrictlyIncreasing};
ghost use Rattle.ux_alphabet.specs.Letters.{Letters};
ghost use Rattle.ux_lexical_tables.specs.Accepting.{Accepts, IsAlone};
ghost use Rattle.ux_lexical_tables.specs.Belonging.{Belongs};
ghost use Rattle.ux_lexical_tables.specs.Digits.{IsDigitRun};
ghost use Rattle.ux_lexical_tables.specs.Tables.{Tables};
ghost use Rattle.ux_mask_table.specs.MaskTables.{AddsRow, AreKnown, AreRows, AreTold, Grows, IsLike, IsMaskTable, IsNumbered, TellsEnds};
ghost use Rattle.ux_mask_table.specs.Spans.{ArePaired};
ghost use Rattle.ux_mask_table.specs.NetMasks.{AreNetMasks};
ghost use Rattle.ux_net.specs.Masks.{masks_in, masks_of};
ghost use Rattle.ux_net.specs.declared.net_graph.NetGraph.{NetGraph};

use crate::alone::is_alone;
use crate::net_masks::NetMasks;
use crate::rows::{Row, Rows};
use indexmap::IndexSet;
use std::alloc::Global;
use std::sync::ledger::Ledger;
use ux_alphabet::Alphabet;
use ux_base::{Mem, NoMemory, Steps};
use ux_lexical_tables::{DigitRun, LexicalTables};
use ux_masks::Mask;
use ux_net::Net;
use ux_tokens::{Kind, Text};

/// The spans that the masks of a net accept in a text.
#[derive(Drop)]
pub struct MaskTable<'n> {
    /// The masks of the net.
    pub masks: &'n NetMasks<'n>,
    /// What they accept.
    pub rows: Rows,
    /// For each place of the text the number of its row. Of a net without masks there are none.
    pub numbers: Vec<u32>,
}

/// The ends of a mask's spans, as they were found from another place.
#[derive(Clone, Copy)]
pub struct Told<'t> {
    /// That place.
    pub from: usize,
    /// The ends from there, ascending.
    pub ends: &'t [usize],
}

impl<'n> MaskTable<'n> {
    /// The table of a net's masks over a text. Each mask takes one step for each different token, and
    /// one for each place at which a span of several tokens begins; never more than one a place. A run of
    /// digits is gone along once. Where there are no masks, it takes no time in the text.
    pub fn fill<L: Ledger>(
        alloc: Global,
        masks: &'n NetMasks<'n>,
        text: &Text,
        alphabet: &Alphabet,
        applied: &LexicalTables,
        steps: &mut Steps<L>,
    ) -> Mem<MaskTable<'n>>
        requires belongs { Belongs alphabet.now text.now applied.now }
        ensures table { (net : List NetGraph) → AreNetMasks net masks.now →
            IfOk result (IsMaskTable alphabet.now text.now applied.now net) }
        ensures steps { steps.new ≤ steps.old
            + length (masks_in masks.now.set) * (length text.now + 1) }
    {
        let mut rows = Rows::new(alloc);
        let mut numbers = Vec::new(alloc);
        if masks.set.is_empty() {
            return Ok(MaskTable {
                masks,
                rows,
                numbers,
            });
        }
        fill_rows(
            alloc,
            &masks.set,
            text,
            alphabet,
            applied,
            &mut rows,
            &mut numbers,
            steps,
        )?;
        Ok(MaskTable {
            masks,
            rows,
            numbers,
        })
    }

    /// The ends of the spans that a mask of the net accepts from a place. Takes no memory.
    pub fn told(
        &self,
        net: &Net,
        text: &Text,
        alphabet: &Alphabet,
        applied: &LexicalTables,
        mask: &Mask,
        place: usize,
    ) -> Told<'_>
        requires belongs { Belongs alphabet.now text.now applied.now }
        requires table { IsMaskTable alphabet.now text.now applied.now net.now self.now }
        requires mask { Contains (masks_of net.now) mask.now }
        requires inside { place < length text.now }
        ensures { TellsEnds (Accepts alphabet.now text.now applied.now mask.now) place result.from
            result.ends.now }
    {
        match self.masks.set.get_index_of(&mask) {
            Some(number) => {
                let row = self.rows.list[self.numbers[place] as usize];
                Told {
                    from: row.place,
                    ends: self.rows.spans.ends_of(row.spans, number),
                }
            },
            None => unreachable!(),
        }
    }
}

/// Fills in the rows of all places.
fn fill_rows<L: Ledger>(
    alloc: Global,
    masks: &IndexSet<&Mask>,
    text: &Text,
    alphabet: &Alphabet,
    applied: &LexicalTables,
    rows: &mut Rows,
    numbers: &mut Vec<u32>,
    steps: &mut Steps<L>,
) -> Mem<()>
    requires belongs { Belongs alphabet.now text.now applied.now }
    requires none { rows.old.list.items ≡ [] }
    requires paired { ArePaired rows.old.spans }
    requires start { numbers.old.items ≡ [] }
    ensures steps { steps.new ≤ steps.old + length (masks_in masks.now) * (length text.now + 1) }
    ensures rows { OnOk result (AreRows alphabet.now text.now applied.now (masks_in masks.now)
        rows.new.spans rows.new.list.items) }
    ensures told { OnOk result (AreTold alphabet.now text.now applied.now rows.new.list.items
        numbers.new.items (length text.now)) }
{
    let mut known = unknown_rows(alloc, text.different())?;
    let mut run = DigitRun::none();
    for place in 0..text.len() {
        let number = row_for(
            alloc, masks, text, alphabet, applied, rows, &mut known, place, &mut run, steps,
        )?;
        numbers.push(number)?;
    }
    Ok(())
}

/// For each different token no row yet.
fn unknown_rows(alloc: Global, different: usize) -> Mem<Vec<Option<u32>>>
    ensures len { IfOk result (λ known. length known.items ≡ different) }
    ensures none { IfOk result (λ known. (n number : ℕ) →
        slice_get known.items n ≡ Some (Some number) → ⊥) }
{
    let known = vec![in alloc; None; different]?;
    Ok(known)
}

/// The number of the row that tells of a place. If there is none yet, it is added.
fn row_for<L: Ledger>(
    alloc: Global,
    masks: &IndexSet<&Mask>,
    text: &Text,
    alphabet: &Alphabet,
    applied: &LexicalTables,
    rows: &mut Rows,
    known: &mut Vec<Option<u32>>,
    place: usize,
    run: &mut DigitRun,
    steps: &mut Steps<L>,
) -> Mem<u32>
    requires belongs { Belongs alphabet.now text.now applied.now }
    requires inside { place < length text.now }
    requires run { IsDigitRun text.now run.old }
    requires paired { ArePaired rows.old.spans }
    requires rows { AreRows alphabet.now text.now applied.now (masks_in masks.now)
        rows.old.spans rows.old.list.items }
    requires known { AreKnown text.now applied.now rows.old.list.items known.old.items }
    ensures run { IsDigitRun text.now run.new }
    ensures steps { steps.new ≤ steps.old + length (masks_in masks.now) }
    ensures paired { OnOk result (ArePaired rows.new.spans) }
    ensures rows { OnOk result (AreRows alphabet.now text.now applied.now (masks_in masks.now)
        rows.new.spans rows.new.list.items) }
    ensures known { OnOk result (AreKnown text.now applied.now rows.new.list.items known.new.items) }
    ensures grows { OnOk result (Grows rows.old.list.items rows.new.list.items) }
    ensures told { IfOk result (λ number.
        IsLike alphabet.now text.now applied.now rows.new.list.items number place) }
{
    if !is_alone(text, applied, place) {
        let number = own_row(
            alloc, masks, text, alphabet, applied, rows, place, run, steps,
        )?;
        return Ok(number);
    }
    let token = text.number(place) as usize;
    if let Some(number) = known_row(text, rows.list.as_slice(), known.as_slice(), token, place) {
        return Ok(number);
    }
    let number = own_row(
        alloc, masks, text, alphabet, applied, rows, place, run, steps,
    )?;
    if let Some(first) = known.get_mut(token) {
        *first = Some(number);
    }
    Ok(number)
}

/// The number of a row of the place itself, which is added. Where 32 bits don't tell it, it is out of
/// memory.
fn own_row<L: Ledger>(
    alloc: Global,
    masks: &IndexSet<&Mask>,
    text: &Text,
    alphabet: &Alphabet,
    applied: &LexicalTables,
    rows: &mut Rows,
    place: usize,
    run: &mut DigitRun,
    steps: &mut Steps<L>,
) -> Mem<u32>
    requires belongs { Belongs alphabet.now text.now applied.now }
    requires inside { place < length text.now }
    requires run { IsDigitRun text.now run.old }
    requires paired { ArePaired rows.old.spans }
    requires rows { AreRows alphabet.now text.now applied.now (masks_in masks.now)
        rows.old.spans rows.old.list.items }
    ensures run { IsDigitRun text.now run.new }
    ensures steps { steps.new ≤ steps.old + length (masks_in masks.now) }
    ensures paired { OnOk result (ArePaired rows.new.spans) }
    ensures rows { OnOk result (AreRows alphabet.now text.now applied.now (masks_in masks.now)
        rows.new.spans rows.new.list.items) }
    ensures added { OnOk result (AddsRow rows.old.list.items rows.new.list.items place) }
    ensures number { IfOk result (λ number. number ≡ length rows.old.list.items) }
{
    let Ok(number) = u32::try_from(rows.list.len()) else {
        return Err(NoMemory);
    };
    rows.add(alloc, masks, text, alphabet, applied, place, run, steps)?;
    Ok(number)
}

/// The number of the row of the first token that equals the one at the place, if there is one. Both stand
/// alone.
fn known_row(
    text: &Text,
    rows: &[Row],
    known: &[Option<u32>],
    token: usize,
    place: usize,
) -> Option<u32>
    requires inside { place < length text.now }
    ensures { IfSome result (λ number. (alphabet : Letters) (tables : Tables) →
        Belongs alphabet text.now tables → AreKnown text.now tables rows.now known.now →
        IsNumbered text.now place token → IsAlone text.now tables place →
        IsLike alphabet text.now tables rows.now number place) }
{
    let Some(Some(number)) = first_at(known, token) else {
        return None;
    };
    let row = row_at(rows, number as usize)?;
    if row.place < text.len() && are_same(text.kind(row.place), text.kind(place)) {
        Some(number)
    } else {
        None
    }
}

/// What is known of a token of this number.
fn first_at(known: &[Option<u32>], token: usize) -> Option<Option<u32>>
    ensures { result ≡ slice_get known.now token }
{
    known.get(token).copied()
}

/// The row of this number.
fn row_at(rows: &[Row], number: usize) -> Option<Row>
    ensures { result ≡ slice_get rows.now number }
{
    rows.get(number).copied()
}

/// Whether both are one kind.
fn are_same(kind: Kind, other: Kind) -> bool
    ensures { result ≡ true → kind ≡ other }
{
    kind == other
}
