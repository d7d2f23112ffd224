//! The ends of derivations, with what their events fold to.

ghost use Rattle.std.specs.Prelude.{◌≡◌, ◌↔◌, ◌⊎◌, ◌≤◌, ℕ, List, Contains, IfOk, IsTrue, OnOk, Option, Some, length};
ghost use Rattle.ux_folds.specs.Folding.{Folds, Grows};
ghost use Rattle.ux_mask_table.specs.MaskedTexts.{HasTable};
ghost use Rattle.ux_net.specs.Measured.{IsMeasured};
ghost use Rattle.ux_outputs.specs.declared.event.Event.{Event};
ghost use Rattle.ux_tokens.specs.Numbers.{different_texts};
ghost use Rattle.ux_walk.specs.Contexts.{ContextsTold};
ghost use Rattle.ux_walk.specs.Links.{AreOnce};
ghost use Rattle.ux_walk.specs.LookUps.{AreSound};
ghost use Rattle.ux_walk.specs.Settings.{Derives, masked_setting};
ghost use Rattle.ux_listing.specs.Runs.{IsComplete};
ghost use Rattle.ux_listing.specs.Walking.{IsKnown, found_at};

use crate::config::{End, Item, Visit};
use crate::marking::marks_to;
use crate::marks::{AllMarks, Marks, NoOrigins};
use crate::sets::{number, stand_once};
use crate::walking::walk;
use std::alloc::Global;
use ux_base::{Lst, Mem};
use ux_folds::Fold;
use ux_folds::numbered::Numbered;
use ux_mask_table::MaskedText;
use ux_walk::Contexts;
use ux_walk::look_ups::LookUps;

/// What the events of derivations from the start to these ends fold to, with the end, each once.
/// Nothing is gone through that leads to none of the ends. The look-ups are kept from start to start.
pub fn list_to<'t, C: Contexts, F: Fold>(
    alloc: Global,
    masked: &MaskedText<'t>,
    contexts: &C,
    look_ups: &mut LookUps<'t>,
    fold: &mut F,
    ends: Lst<usize>,
    start: usize,
    first: usize,
) -> Mem<Numbered<End>>
    requires measured { IsMeasured masked.now.net.now }
    requires table { HasTable masked.now }
    requires sound { AreSound masked.now.alphabet.now masked.now.net.now
        (different_texts masked.now.text.now) look_ups.old }
    requires told { ContextsTold (masked_setting masked.now)
        (C.asks contexts.now) (C.applies contexts.now) }
    requires inside { start ≤ length masked.now.text.now }
    requires known { IsKnown (F.means fold.old) first }
    ensures sound { AreSound masked.now.alphabet.now masked.now.net.now
        (different_texts masked.now.text.now) look_ups.new }
    ensures grows { OnOk result (Grows (F.next fold.old) (F.next fold.new)
        (F.means fold.old) (F.means fold.new)) }
    // What is found is what derivations to the ends fold to, and each of these is folded.
    ensures exact { IfOk result (λ found. (e u : ℕ) → Contains ends e →
        Contains found.keys (record { end = e; fold = u })
        ↔ ((events : List Event) × Derives (masked_setting masked.now) start e events
        × Folds (F.next fold.new) events (Some first) (Some u))) }
    ensures folded { OnOk result ((e : ℕ) (events : List Event) → Contains ends e →
        Derives (masked_setting masked.now) start e events →
        (r : Option ℕ) × Folds (F.next fold.new) events (Some first) r) }
    ensures once { IfOk result (λ found. AreOnce found.keys) }
{
    let set = marks_to(alloc, masked, contexts, look_ups, ends, start)?;
    list(alloc, masked, contexts, look_ups, &set, fold, start, first)
}

/// Each end of a derivation from the start with each state to which the events of such a one fold,
/// once. The look-ups are kept from start to start.
pub fn list_all<'t, C: Contexts, F: Fold>(
    alloc: Global,
    masked: &MaskedText<'t>,
    contexts: &C,
    look_ups: &mut LookUps<'t>,
    fold: &mut F,
    start: usize,
    first: usize,
) -> Mem<Numbered<End>>
    requires measured { IsMeasured masked.now.net.now }
    requires table { HasTable masked.now }
    requires sound { AreSound masked.now.alphabet.now masked.now.net.now
        (different_texts masked.now.text.now) look_ups.old }
    requires told { ContextsTold (masked_setting masked.now)
        (C.asks contexts.now) (C.applies contexts.now) }
    requires inside { start ≤ length masked.now.text.now }
    requires known { IsKnown (F.means fold.old) first }
    ensures sound { AreSound masked.now.alphabet.now masked.now.net.now
        (different_texts masked.now.text.now) look_ups.new }
    ensures grows { OnOk result (Grows (F.next fold.old) (F.next fold.new)
        (F.means fold.old) (F.means fold.new)) }
    // What is found is what derivations fold to, and each derivation is folded.
    ensures exact { IfOk result (λ found. (e u : ℕ) →
        Contains found.keys (record { end = e; fold = u })
        ↔ ((events : List Event) × Derives (masked_setting masked.now) start e events
        × Folds (F.next fold.new) events (Some first) (Some u))) }
    ensures folded { OnOk result ((e : ℕ) (events : List Event) →
        Derives (masked_setting masked.now) start e events →
        (r : Option ℕ) × Folds (F.next fold.new) events (Some first) r) }
    ensures once { IfOk result (λ found. AreOnce found.keys) }
{
    list(
        alloc, masked, contexts, look_ups, &AllMarks, fold, start, first,
    )
}

/// The same of the wanted ends, where each configuration that leads to one of them is marked.
pub fn list<'t, C: Contexts, F: Fold, M: Marks>(
    alloc: Global,
    masked: &MaskedText<'t>,
    contexts: &C,
    look_ups: &mut LookUps<'t>,
    marks: &M,
    fold: &mut F,
    start: usize,
    first: usize,
) -> Mem<Numbered<End>>
    requires measured { IsMeasured masked.now.net.now }
    requires table { HasTable masked.now }
    requires sound { AreSound masked.now.alphabet.now masked.now.net.now
        (different_texts masked.now.text.now) look_ups.old }
    requires told { ContextsTold (masked_setting masked.now)
        (C.asks contexts.now) (C.applies contexts.now) }
    requires inside { start ≤ length masked.now.text.now }
    requires known { IsKnown (F.means fold.old) first }
    requires complete { IsComplete (masked_setting masked.now) (C.applies contexts.now) start
        (M.wanted marks.now) (M.marked marks.now) }
    ensures sound { AreSound masked.now.alphabet.now masked.now.net.now
        (different_texts masked.now.text.now) look_ups.new }
    ensures grows { OnOk result (Grows (F.next fold.old) (F.next fold.new)
        (F.means fold.old) (F.means fold.new)) }
    ensures exact { IfOk result (λ found. (e u : ℕ) → M.wanted marks.now e →
        Contains found.keys (record { end = e; fold = u })
        ↔ ((events : List Event) × Derives (masked_setting masked.now) start e events
        × Folds (F.next fold.new) events (Some first) (Some u))) }
    ensures folded { OnOk result ((e : ℕ) (events : List Event) → M.wanted marks.now e →
        Derives (masked_setting masked.now) start e events →
        (r : Option ℕ) × Folds (F.next fold.new) events (Some first) r) }
    ensures once { IfOk result (λ found. AreOnce found.keys) }
{
    let seen = walk(
        alloc,
        masked,
        contexts,
        look_ups,
        marks,
        fold,
        &mut NoOrigins,
        start,
        first,
    )?;
    let visit = Visit {
        graph: 1,
        at: start,
        fold: first,
    };
    let ends = ends_of(alloc, seen.as_slice(), visit)?;
    stand_once(&ends);
    Ok(ends)
}

/// What was found of the visit.
fn ends_of(alloc: Global, seen: &[Item], visit: Visit) -> Mem<Numbered<End>>
    ensures { IfOk result (λ ends. (x : End) → Contains ends.keys x
        ↔ Contains seen.now (Item.Ends (found_at visit x))) }
{
    let mut ends = Numbered::new(alloc);
    for item in seen {
        add_end(&mut ends, visit, *item)?;
    }
    Ok(ends)
}

/// Adds what the item says was found of the visit.
fn add_end(ends: &mut Numbered<End>, visit: Visit, item: Item) -> Mem<()>
    ensures { OnOk result ((x : End) → Contains ends.new.keys x
        ↔ (Contains ends.old.keys x ⊎ (item ≡ Item.Ends (found_at visit x)))) }
{
    match item {
        Item::Ends(found) => {
            if !is_same(found.visit, visit) {
                return Ok(());
            }
            number(
                ends,
                End {
                    end: found.end,
                    fold: found.fold,
                },
            )?;
            Ok(())
        },
        Item::At(_) | Item::Waits(_) => Ok(()),
    }
}

/// Whether the visits are the same.
fn is_same(first: Visit, second: Visit) -> bool
    ensures { IsTrue result ↔ (first ≡ second) }
{
    first == second
}
