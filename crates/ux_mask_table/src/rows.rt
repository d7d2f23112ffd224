//! Rows: what all masks accept from a place, each tried once there.

ghost use Rattle.std.specs.Prelude.{◌≡◌, ◌+◌, ◌<◌, ◌≤◌, ◌++◌, ◌∷◌, [], IfOk, OnOk, length};
ghost use Rattle.ux_lexical_tables.specs.Belonging.{Belongs};
ghost use Rattle.ux_lexical_tables.specs.Digits.{IsDigitRun};
ghost use Rattle.ux_mask_table.specs.MaskTables.{AddsRow, AreRows, IsEndOf};
ghost use Rattle.ux_mask_table.specs.Spans.{AreKept, ArePaired, IsRow};
ghost use Rattle.ux_net.specs.Masks.{masks_in};

use crate::spans::{Spans, Stretch};
use indexmap::IndexSet;
use std::alloc::Global;
use std::sync::ledger::Ledger;
use ux_alphabet::Alphabet;
use ux_base::{Mem, Steps};
use ux_lexical_tables::{DigitRun, LexicalTables};
use ux_masks::Mask;
use ux_tokens::Text;

/// What masks accept from a place.
#[derive(Clone, Copy)]
pub struct Row {
    /// The place at which they were tried.
    pub place: usize,
    /// Where their spans stand.
    pub spans: Stretch,
}

/// Rows, and the spans that they tell.
#[derive(Drop)]
pub struct Rows {
    /// The rows.
    pub list: Vec<Row>,
    /// Their spans.
    pub spans: Spans,
}

impl Rows {
    /// No rows. Takes no memory.
    pub fn new(alloc: Global) -> Rows
        ensures list { result.list.items ≡ [] }
        ensures paired { ArePaired result.spans }
    {
        Rows {
            list: Vec::new(alloc),
            spans: Spans::new(alloc),
        }
    }

    /// Adds the row of a place, at which each mask is tried once.
    pub fn add<L: Ledger>(
        &mut self,
        alloc: Global,
        masks: &IndexSet<&Mask>,
        text: &Text,
        alphabet: &Alphabet,
        applied: &LexicalTables,
        place: usize,
        run: &mut DigitRun,
        steps: &mut Steps<L>,
    ) -> Mem<()>
        requires belongs { Belongs alphabet.now text.now applied.now }
        requires inside { place < length text.now }
        requires run { IsDigitRun text.now run.old }
        requires paired { ArePaired self.old.spans }
        requires rows { AreRows alphabet.now text.now applied.now (masks_in masks.now)
            self.old.spans self.old.list.items }
        ensures run { IsDigitRun text.now run.new }
        ensures steps { steps.new ≤ steps.old + length (masks_in masks.now) }
        ensures paired { OnOk result (ArePaired self.new.spans) }
        ensures rows { OnOk result (AreRows alphabet.now text.now applied.now
            (masks_in masks.now) self.new.spans self.new.list.items) }
        ensures added { OnOk result (AddsRow self.old.list.items self.new.list.items place) }
    {
        let spans = self
            .spans
            .try_masks(alloc, masks, text, alphabet, applied, place, run, steps)?;
        self.list.push(Row { place, spans })?;
        Ok(())
    }
}

impl Spans {
    /// The stretch of the spans that masks accept from a place, at which each is tried.
    fn try_masks<L: Ledger>(
        &mut self,
        alloc: Global,
        masks: &IndexSet<&Mask>,
        text: &Text,
        alphabet: &Alphabet,
        applied: &LexicalTables,
        place: usize,
        run: &mut DigitRun,
        steps: &mut Steps<L>,
    ) -> Mem<Stretch>
        requires belongs { Belongs alphabet.now text.now applied.now }
        requires inside { place < length text.now }
        requires run { IsDigitRun text.now run.old }
        requires paired { ArePaired self.old }
        ensures run { IsDigitRun text.now run.new }
        ensures steps { steps.new ≤ steps.old + length (masks_in masks.now) }
        ensures kept { OnOk result (AreKept self.old self.new) }
        ensures paired { OnOk result (ArePaired self.new) }
        ensures row { IfOk result (λ row. IsRow self.new
            (IsEndOf alphabet.now text.now applied.now (masks_in masks.now) place) row
            (length (masks_in masks.now))) }
    {
        let from = self.numbers.len();
        let mut number = 0;
        for mask in masks.as_slice() {
            let ends = applied.ends(alloc, text, alphabet, mask, place, run, steps)?;
            self.push_all(number, &ends)?;
            number += 1;
        }
        let to = self.numbers.len();
        Ok(Stretch { from, to })
    }
}
