//! The walk: from item to item, each once, until nothing is left from which to go on.

ghost use Rattle.std.specs.Prelude.{◌≡◌, ◌↔◌, ◌≤◌, ◌+◌, Contains, IfOk, IsTrue, OnOk, Some, length, slice_get};
ghost use Rattle.ux_folds.specs.Folding.{Grows};
ghost use Rattle.ux_mask_table.specs.MaskedTexts.{HasTable};
ghost use Rattle.ux_tokens.specs.Numbers.{different_texts};
ghost use Rattle.ux_walk.specs.Contexts.{ContextsTold};
ghost use Rattle.ux_walk.specs.Links.{AreOnce};
ghost use Rattle.ux_walk.specs.LookUps.{AreSound};
ghost use Rattle.ux_walk.specs.Settings.{masked_setting};
ghost use Rattle.ux_listing.specs.Reaching.{AreJoined, IsReached, StaysTold};
ghost use Rattle.ux_listing.specs.Sets.{Adds};
ghost use Rattle.ux_listing.specs.Walking.{IsKnown, IsLed, IsPut, IsSeen, IsWalked, beginning, main_visit};
ghost use Rattle.ux_listing.specs.declared.config.Found.{Found};
ghost use Rattle.ux_listing.specs.declared.config.Return.{Return};

use crate::config::{Config, Found, Item, Return, Visit};
use crate::following::{follow_config, mark_of};
use crate::groups::Keyed;
use crate::marks::{Marks, Origins};
use crate::sets::{item_at, number, stand_once};
use std::alloc::Global;
use ux_base::Mem;
use ux_folds::Fold;
use ux_folds::numbered::Numbered;
use ux_mask_table::MaskedText;
use ux_walk::Contexts;
use ux_walk::look_ups::LookUps;

/// What a walk has seen; and by visit the numbers of those items from which it went on.
#[derive(Drop)]
pub struct Reached {
    /// The items, each once, in the order in which the walk goes on from them.
    seen: Numbered<Item>,
    /// Who waits for what a visit derives.
    waits: Keyed<Visit, usize>,
    /// What a visit derives.
    found: Keyed<Visit, usize>,
}

/// Goes through what is marked, from the start of the main graph, until nothing is left from which
/// to go on. Gives the items, in the order of their numbers, by which it told what comes from what.
pub fn walk<'t, C: Contexts, F: Fold, M: Marks, O: Origins>(
    alloc: Global,
    masked: &MaskedText<'t>,
    contexts: &C,
    look_ups: &mut LookUps<'t>,
    marks: &M,
    fold: &mut F,
    origins: &mut O,
    start: usize,
    first: usize,
) -> Mem<Numbered<Item>>
    requires table { HasTable masked.now }
    requires sound { AreSound masked.now.alphabet.now masked.now.net.now
        (different_texts masked.now.text.now) look_ups.old }
    requires told { ContextsTold (masked_setting masked.now)
        (C.asks contexts.now) (C.applies contexts.now) }
    requires inside { start ≤ length masked.now.text.now }
    requires known { IsKnown (F.means fold.old) first }
    requires origins { O.is_sound origins.old }
    ensures sound { AreSound masked.now.alphabet.now masked.now.net.now
        (different_texts masked.now.text.now) look_ups.new }
    ensures grows { OnOk result (Grows (F.next fold.old) (F.next fold.new)
        (F.means fold.old) (F.means fold.new)) }
    ensures origins { OnOk result (O.is_sound origins.new) }
    ensures walked { IfOk result (λ seen. IsWalked (F.next fold.new) (masked_setting masked.now)
        (C.applies contexts.now) (IsKnown (F.means fold.new)) start first (M.marked marks.now)
        seen.keys (O.told origins.new)) }
    ensures once { IfOk result (λ seen. AreOnce seen.keys) }
{
    let mut reached = Reached {
        seen: Numbered::new(alloc),
        waits: Keyed::new(alloc),
        found: Keyed::new(alloc),
    };
    begin(marks, &mut reached.seen, start, first)?;
    let mut next = 0;
    let mut items = Vec::new(alloc);
    while let Some(item) = item_at(&reached.seen, next) {
        step(
            alloc,
            masked,
            contexts,
            look_ups,
            marks,
            fold,
            origins,
            start,
            first,
            &mut reached,
            &mut items,
            next,
            item,
        )?;
        next += 1;
    }
    stand_once(&reached.seen);
    Ok(reached.seen)
}

/// Adds the configuration with which the main visit begins, if it is marked.
fn begin<M: Marks>(marks: &M, seen: &mut Numbered<Item>, start: usize, first: usize) -> Mem<()>
    ensures adds { OnOk result (Adds (λ w. w ≡ Item.At (beginning (main_visit start first)))
        seen.old.keys seen.new.keys) }
    ensures put { OnOk result (IsPut (M.marked marks.now) (Contains seen.new.keys)
        (Item.At (beginning (main_visit start first)))) }
{
    let config = Config {
        visit: Visit {
            graph: 1,
            at: start,
            fold: first,
        },
        state: 0,
        at: start,
        fold: first,
    };
    if !marks.has(mark_of(config)) {
        return Ok(());
    }
    number(seen, Item::At(config))?;
    Ok(())
}

/// Goes on from the next item.
fn step<'t, C: Contexts, F: Fold, M: Marks, O: Origins>(
    alloc: Global,
    masked: &MaskedText<'t>,
    contexts: &C,
    look_ups: &mut LookUps<'t>,
    marks: &M,
    fold: &mut F,
    origins: &mut O,
    start: usize,
    first: usize,
    reached: &mut Reached,
    items: &mut Vec<Item>,
    next: usize,
    item: Item,
) -> Mem<()>
    requires table { HasTable masked.now }
    requires sound { AreSound masked.now.alphabet.now masked.now.net.now
        (different_texts masked.now.text.now) look_ups.old }
    requires told { ContextsTold (masked_setting masked.now)
        (C.asks contexts.now) (C.applies contexts.now) }
    requires inside { start ≤ length masked.now.text.now }
    requires origins { O.is_sound origins.old }
    requires next { slice_get reached.old.seen.keys next ≡ Some item }
    requires reached { IsReached (F.next fold.old) (masked_setting masked.now)
        (C.applies contexts.now) (IsKnown (F.means fold.old)) start first (M.marked marks.now)
        (O.told origins.old) reached.old next }
    ensures sound { AreSound masked.now.alphabet.now masked.now.net.now
        (different_texts masked.now.text.now) look_ups.new }
    ensures grows { OnOk result (Grows (F.next fold.old) (F.next fold.new)
        (F.means fold.old) (F.means fold.new)) }
    ensures origins { OnOk result (O.is_sound origins.new) }
    ensures reached { OnOk result (IsReached (F.next fold.new) (masked_setting masked.now)
        (C.applies contexts.now) (IsKnown (F.means fold.new)) start first (M.marked marks.now)
        (O.told origins.new) reached.new (next + 1)) }
{
    match item {
        Item::At(config) => leave(
            alloc, masked, contexts, look_ups, marks, fold, origins, start, first, reached, items,
            next, config,
        ),
        Item::Waits(waiting) => wait(
            alloc, masked, contexts, marks, fold, origins, start, first, reached, next, waiting,
        ),
        Item::Ends(found) => end(
            alloc, masked, contexts, marks, fold, origins, start, first, reached, next, found,
        ),
    }
}

/// Goes on from a configuration.
fn leave<'t, C: Contexts, F: Fold, M: Marks, O: Origins>(
    alloc: Global,
    masked: &MaskedText<'t>,
    contexts: &C,
    look_ups: &mut LookUps<'t>,
    marks: &M,
    fold: &mut F,
    origins: &mut O,
    start: usize,
    first: usize,
    reached: &mut Reached,
    items: &mut Vec<Item>,
    next: usize,
    config: Config,
) -> Mem<()>
    requires table { HasTable masked.now }
    requires sound { AreSound masked.now.alphabet.now masked.now.net.now
        (different_texts masked.now.text.now) look_ups.old }
    requires told { ContextsTold (masked_setting masked.now)
        (C.asks contexts.now) (C.applies contexts.now) }
    requires inside { start ≤ length masked.now.text.now }
    requires origins { O.is_sound origins.old }
    requires next { slice_get reached.old.seen.keys next ≡ Some (Item.At config) }
    requires reached { IsReached (F.next fold.old) (masked_setting masked.now)
        (C.applies contexts.now) (IsKnown (F.means fold.old)) start first (M.marked marks.now)
        (O.told origins.old) reached.old next }
    ensures sound { AreSound masked.now.alphabet.now masked.now.net.now
        (different_texts masked.now.text.now) look_ups.new }
    ensures grows { OnOk result (Grows (F.next fold.old) (F.next fold.new)
        (F.means fold.old) (F.means fold.new)) }
    ensures origins { OnOk result (O.is_sound origins.new) }
    ensures reached { OnOk result (IsReached (F.next fold.new) (masked_setting masked.now)
        (C.applies contexts.now) (IsKnown (F.means fold.new)) start first (M.marked marks.now)
        (O.told origins.new) reached.new (next + 1)) }
{
    items.clear();
    follow_config(
        alloc, masked, contexts, look_ups, marks, fold, config, items,
    )?;
    put_all(
        origins,
        &mut reached.seen,
        next,
        Item::At(config),
        items.as_slice(),
    )
}

/// Goes on where a caller waits, behind each end of the visit that it called.
fn wait<C: Contexts, F: Fold, M: Marks, O: Origins>(
    alloc: Global,
    masked: &MaskedText,
    contexts: &C,
    marks: &M,
    fold: &F,
    origins: &mut O,
    start: usize,
    first: usize,
    reached: &mut Reached,
    next: usize,
    waiting: Return,
) -> Mem<()>
    requires origins { O.is_sound origins.old }
    requires next { slice_get reached.old.seen.keys next ≡ Some (Item.Waits waiting) }
    requires reached { IsReached (F.next fold.now) (masked_setting masked.now)
        (C.applies contexts.now) (IsKnown (F.means fold.now)) start first (M.marked marks.now)
        (O.told origins.old) reached.old next }
    ensures origins { OnOk result (O.is_sound origins.new) }
    ensures reached { OnOk result (IsReached (F.next fold.now) (masked_setting masked.now)
        (C.applies contexts.now) (IsKnown (F.means fold.now)) start first (M.marked marks.now)
        (O.told origins.new) reached.new (next + 1)) }
{
    reached.waits.add(waiting.callee, next)?;
    let ends = reached.found.of(alloc, waiting.callee)?;
    join_ends(marks, origins, &mut reached.seen, next, ends.as_slice())
}

/// Goes on behind an end of a visit, where each of its callers waits.
fn end<C: Contexts, F: Fold, M: Marks, O: Origins>(
    alloc: Global,
    masked: &MaskedText,
    contexts: &C,
    marks: &M,
    fold: &F,
    origins: &mut O,
    start: usize,
    first: usize,
    reached: &mut Reached,
    next: usize,
    found: Found,
) -> Mem<()>
    requires origins { O.is_sound origins.old }
    requires next { slice_get reached.old.seen.keys next ≡ Some (Item.Ends found) }
    requires reached { IsReached (F.next fold.now) (masked_setting masked.now)
        (C.applies contexts.now) (IsKnown (F.means fold.now)) start first (M.marked marks.now)
        (O.told origins.old) reached.old next }
    ensures origins { OnOk result (O.is_sound origins.new) }
    ensures reached { OnOk result (IsReached (F.next fold.now) (masked_setting masked.now)
        (C.applies contexts.now) (IsKnown (F.means fold.now)) start first (M.marked marks.now)
        (O.told origins.new) reached.new (next + 1)) }
{
    reached.found.add(found.visit, next)?;
    let waits = reached.waits.of(alloc, found.visit)?;
    join_waits(marks, origins, &mut reached.seen, waits.as_slice(), next)
}

/// Adds the items, and notes that they come from one.
fn put_all<O: Origins>(
    origins: &mut O,
    seen: &mut Numbered<Item>,
    origin: usize,
    from: Item,
    items: &[Item],
) -> Mem<()>
    requires origins { O.is_sound origins.old }
    requires from { slice_get seen.old.keys origin ≡ Some from }
    ensures origins { OnOk result (O.is_sound origins.new) }
    ensures told { OnOk result (StaysTold (O.told origins.old) (O.told origins.new)) }
    ensures adds { OnOk result (Adds (Contains items.now) seen.old.keys seen.new.keys) }
    ensures seen { OnOk result ((w : Item) → Contains items.now w →
        IsSeen seen.new.keys (O.told origins.new) from w) }
{
    for item in items {
        put_item(origins, seen, origin, from, *item)?;
    }
    Ok(())
}

/// Adds the item, and notes that it comes from another.
fn put_item<O: Origins>(
    origins: &mut O,
    seen: &mut Numbered<Item>,
    origin: usize,
    from: Item,
    item: Item,
) -> Mem<()>
    requires origins { O.is_sound origins.old }
    requires from { slice_get seen.old.keys origin ≡ Some from }
    ensures origins { OnOk result (O.is_sound origins.new) }
    ensures told { OnOk result (StaysTold (O.told origins.old) (O.told origins.new)) }
    ensures adds { OnOk result (Adds (λ w. w ≡ item) seen.old.keys seen.new.keys) }
    ensures seen { OnOk result (IsSeen seen.new.keys (O.told origins.new) from item) }
{
    let place = number(seen, item)?;
    if !is_led(from, item) {
        return Ok(());
    }
    origins.note(place, origin)
}

/// Whether the item is other than the beginning of another visit.
fn is_led(from: Item, item: Item) -> bool
    ensures { IsLed from item → IsTrue result }
{
    let Item::At(config) = from else {
        return true;
    };
    let Item::At(there) = item else {
        return true;
    };
    there.visit == config.visit
}

/// Goes on where the caller of a number waits, behind each of the ends of these numbers.
fn join_ends<M: Marks, O: Origins>(
    marks: &M,
    origins: &mut O,
    seen: &mut Numbered<Item>,
    waits: usize,
    ends: &[usize],
) -> Mem<()>
    requires { O.is_sound origins.old }
    ensures origins { OnOk result (O.is_sound origins.new) }
    ensures told { OnOk result (StaysTold (O.told origins.old) (O.told origins.new)) }
    ensures joined { OnOk result (AreJoined (M.marked marks.now)
        (λ i j. (i ≡ waits) × Contains ends.now j) seen.old.keys seen.new.keys
        (O.told origins.new)) }
{
    for end in ends {
        join(marks, origins, seen, waits, *end)?;
    }
    Ok(())
}

/// Goes on where each of the callers of these numbers waits, behind the end of a number.
fn join_waits<M: Marks, O: Origins>(
    marks: &M,
    origins: &mut O,
    seen: &mut Numbered<Item>,
    waits: &[usize],
    end: usize,
) -> Mem<()>
    requires { O.is_sound origins.old }
    ensures origins { OnOk result (O.is_sound origins.new) }
    ensures told { OnOk result (StaysTold (O.told origins.old) (O.told origins.new)) }
    ensures joined { OnOk result (AreJoined (M.marked marks.now)
        (λ i j. (j ≡ end) × Contains waits.now i) seen.old.keys seen.new.keys
        (O.told origins.new)) }
{
    for caller in waits {
        join(marks, origins, seen, *caller, end)?;
    }
    Ok(())
}

/// Goes on where the caller of a number waits, behind the end of another, and notes that this comes
/// from both.
fn join<M: Marks, O: Origins>(
    marks: &M,
    origins: &mut O,
    seen: &mut Numbered<Item>,
    waits: usize,
    end: usize,
) -> Mem<()>
    requires { O.is_sound origins.old }
    ensures origins { OnOk result (O.is_sound origins.new) }
    ensures told { OnOk result (StaysTold (O.told origins.old) (O.told origins.new)) }
    ensures joined { OnOk result (AreJoined (M.marked marks.now)
        (λ i j. (i ≡ waits) × (j ≡ end)) seen.old.keys seen.new.keys (O.told origins.new)) }
{
    let Some(waiting) = waiting_at(seen, waits) else {
        return Ok(());
    };
    let Some(found) = found_at(seen, end) else {
        return Ok(());
    };
    let config = Config {
        visit: waiting.caller,
        state: waiting.to,
        at: found.end,
        fold: found.fold,
    };
    if !marks.has(mark_of(config)) {
        return Ok(());
    }
    let place = number(seen, Item::At(config))?;
    origins.note(place, waits)?;
    origins.note(place, end)
}

/// The caller of this number.
fn waiting_at(seen: &Numbered<Item>, number: usize) -> Option<Return>
    ensures { (r : Return) → (result ≡ Some r)
        ↔ (slice_get seen.now.keys number ≡ Some (Item.Waits r)) }
{
    match item_at(seen, number) {
        Some(Item::Waits(waiting)) => Some(waiting),
        Some(Item::At(_) | Item::Ends(_)) | None => None,
    }
}

/// The end of this number.
fn found_at(seen: &Numbered<Item>, number: usize) -> Option<Found>
    ensures { (f : Found) → (result ≡ Some f)
        ↔ (slice_get seen.now.keys number ≡ Some (Item.Ends f)) }
{
    match item_at(seen, number) {
        Some(Item::Ends(found)) => Some(found),
        Some(Item::At(_) | Item::Waits(_)) | None => None,
    }
}
