//! The first phase: a walk without a fold tells which configurations lead to a wanted end.
//!
//! It notes for each item from which others it comes. Then the wanted ends are marked, and each item
//! from which a marked one comes, until none is left: so each is gone back from once. A caller and
//! an end come before the configuration in which the caller goes on behind that end; the beginning
//! of a visit leads back to none of its callers, since it is what the visit derives that leads on.

ghost use Rattle.std.specs.Prelude.{◌≡◌, ◌≤◌, ℕ, Contains, IfOk, IsTrue, OnOk, Some, length, slice_get};
ghost use Rattle.ux_mask_table.specs.MaskedTexts.{HasTable};
ghost use Rattle.ux_tokens.specs.Numbers.{different_texts};
ghost use Rattle.ux_walk.specs.Contexts.{ContextsTold};
ghost use Rattle.ux_walk.specs.Links.{AreOnce};
ghost use Rattle.ux_walk.specs.LookUps.{AreSound};
ghost use Rattle.ux_walk.specs.Settings.{masked_setting};
ghost use Rattle.ux_listing.specs.Groups.{AreGrouped, IsIn};
ghost use Rattle.ux_listing.specs.Marking.{AreClosed, AreEndsMarked, HasMark, at_mark, end_of};
ghost use Rattle.ux_listing.specs.Runs.{IsComplete};
ghost use Rattle.ux_listing.specs.Sets.{Adds};
ghost use Rattle.ux_listing.specs.declared.config.Mark.{Mark};

use crate::config::{Config, Found, Item, Mark, Visit};
use crate::groups::Groups;
use crate::marks::{AllMarks, Marks, Origins};
use crate::sets::{is_in, item_at, number, place_of, stand_once};
use crate::walking::walk;
use std::alloc::Global;
use ux_base::{Lst, Mem};
use ux_folds::NoFold;
use ux_folds::numbered::Numbered;
use ux_mask_table::MaskedText;
use ux_walk::Contexts;
use ux_walk::look_ups::LookUps;

/// By the number of an item those of the items from which it comes.
#[derive(Drop)]
pub struct KnownOrigins {
    groups: Groups<usize>,
}

impl Origins for KnownOrigins {
    ghost is_sound = { λ origins. AreGrouped origins.groups };

    ghost told = { λ origins item origin. IsIn origins.groups item origin };

    fn note(&mut self, item: usize, origin: usize) -> Mem<()> {
        self.groups.add(item, origin)
    }
}

/// The marks of configurations that lead to some ends.
#[derive(Drop)]
pub struct MarkSet {
    /// What was seen without a fold.
    seen: Numbered<Item>,
    /// The numbers of those items that are marked.
    marked: Numbered<usize>,
    /// The ends.
    ends: Lst<usize>,
}

impl Marks for MarkSet {
    ghost marked = { λ set mark. HasMark set.seen.keys set.marked.keys mark };

    ghost wanted = { λ set end. Contains set.ends end };

    fn has(&self, mark: Mark) -> bool {
        match place_of(&self.seen, bare_item(mark)) {
            Some(number) => is_in(&self.marked, number),
            None => false,
        }
    }
}

/// The configuration of a mark, without a fold.
fn bare_item(mark: Mark) -> Item
    ensures { result ≡ Item.At (at_mark mark) }
{
    Item::At(Config {
        visit: Visit {
            graph: mark.graph,
            at: mark.from,
            fold: 0,
        },
        state: mark.state,
        at: mark.at,
        fold: 0,
    })
}

/// The marks of the configurations from which one of the ends is reached, and perhaps of others.
pub fn marks_to<'t, C: Contexts>(
    alloc: Global,
    masked: &MaskedText<'t>,
    contexts: &C,
    look_ups: &mut LookUps<'t>,
    ends: Lst<usize>,
    start: usize,
) -> Mem<MarkSet>
    requires table { HasTable masked.now }
    requires sound { AreSound masked.now.alphabet.now masked.now.net.now
        (different_texts masked.now.text.now) look_ups.old }
    requires told { ContextsTold (masked_setting masked.now)
        (C.asks contexts.now) (C.applies contexts.now) }
    requires inside { start ≤ length masked.now.text.now }
    ensures sound { AreSound masked.now.alphabet.now masked.now.net.now
        (different_texts masked.now.text.now) look_ups.new }
    ensures complete { IfOk result (λ set. IsComplete (masked_setting masked.now)
        (C.applies contexts.now) start (Contains set.ends)
        (HasMark set.seen.keys set.marked.keys)) }
    ensures ends { IfOk result (λ set. set.ends ≡ ends) }
{
    let mut origins = KnownOrigins {
        groups: Groups::new(alloc),
    };
    let seen = walk(
        alloc,
        masked,
        contexts,
        look_ups,
        &AllMarks,
        &mut NoFold,
        &mut origins,
        start,
        0,
    )?;
    let marked = mark(alloc, &seen, &origins, ends.as_slice(), start)?;
    Ok(MarkSet { seen, marked, ends })
}

/// The numbers of the ends, and of all items from which one comes whose number is among them.
fn mark(
    alloc: Global,
    seen: &Numbered<Item>,
    origins: &KnownOrigins,
    ends: &[usize],
    start: usize,
) -> Mem<Numbered<usize>>
    requires { AreGrouped origins.now.groups }
    ensures ends { IfOk result (λ marked.
        AreEndsMarked seen.now.keys (Contains ends.now) start marked.keys) }
    ensures closed { IfOk result (λ marked.
        AreClosed (λ item origin. IsIn origins.now.groups item origin) marked.keys) }
{
    let mut marked = mark_ends(alloc, seen, ends, start)?;
    let mut next = 0;
    while let Some(item) = item_at(&marked, next) {
        let from = origins.groups.of(alloc, item)?;
        add_all(&mut marked, from.as_slice())?;
        next += 1;
    }
    Ok(marked)
}

/// The numbers of the ends of the main visit.
fn mark_ends(
    alloc: Global,
    seen: &Numbered<Item>,
    ends: &[usize],
    start: usize,
) -> Mem<Numbered<usize>>
    ensures { IfOk result (λ marked.
        AreEndsMarked seen.now.keys (Contains ends.now) start marked.keys) }
{
    let mut marked = Numbered::new(alloc);
    for end in ends {
        mark_end(&mut marked, seen, *end, start)?;
    }
    Ok(marked)
}

/// Adds the number of an end of the main visit, if it was found.
fn mark_end(
    marked: &mut Numbered<usize>,
    seen: &Numbered<Item>,
    end: usize,
    start: usize,
) -> Mem<()>
    ensures kept { OnOk result ((n : ℕ) → Contains marked.old.keys n → Contains marked.new.keys n) }
    ensures has { OnOk result ((n : ℕ) →
        slice_get seen.now.keys n ≡ Some (Item.Ends (end_of 1 start end)) →
        Contains marked.new.keys n) }
{
    let visit = Visit {
        graph: 1,
        at: start,
        fold: 0,
    };
    let item = Item::Ends(Found {
        visit,
        end,
        fold: 0,
    });
    let Some(place) = place_of(seen, item) else {
        return Ok(());
    };
    number(marked, place)?;
    Ok(())
}

/// Adds numbers.
fn add_all(marked: &mut Numbered<usize>, numbers: &[usize]) -> Mem<()>
    ensures adds { OnOk result (Adds (Contains numbers.now) marked.old.keys marked.new.keys) }
    ensures has { OnOk result ((n : ℕ) → Contains numbers.now n → Contains marked.new.keys n) }
{
    for item in numbers {
        number(marked, *item)?;
    }
    Ok(())
}
