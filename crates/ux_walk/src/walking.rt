//! The walk of the main graph over a text.

ghost use Rattle.std.specs.Prelude.{◌≡◌, ◌≤◌, ◌↔◌, ℕ, List, Contains, IfOk, OnOk, length};
ghost use Rattle.ux_net.specs.Measured.{IsMeasured};
ghost use Rattle.ux_outputs.specs.declared.event.Event.{Event};
ghost use Rattle.ux_outputs.specs.Following.{Follows};
ghost use Rattle.ux_mask_table.specs.MaskedTexts.{HasTable};
ghost use Rattle.ux_walk.specs.Contexts.{ContextsTold};
ghost use Rattle.ux_walk.specs.Settings.{Derives, masked_setting};
ghost use Rattle.ux_walk.specs.Configurations.{IsFoundAs, IsNothing, IsSound, IsVisit, main_visit};
ghost use Rattle.ux_tokens.specs.Numbers.{different_texts};
ghost use Rattle.ux_walk.specs.Links.{AreOnce};
ghost use Rattle.ux_walk.specs.LookUps.{AreSound};

use crate::config::{Config, Frame, Visit};
use crate::contexts::Contexts;
use crate::look_ups::LookUps;
use crate::reached::Reached;
use std::alloc::Global;
use ux_base::{Lst, Mem};
use ux_mask_table::MaskedText;
use ux_outputs::Event;

/// Each end and event list that the main graph derives from `start`, once.
///
/// A graph is entered from a position once, and what it derives from there is shared by its
/// callers. No mask is tried: each is looked up in the table.
pub fn walk<C: Contexts>(
    alloc: Global,
    masked: &MaskedText,
    contexts: &C,
    start: usize,
) -> Mem<Vec<(usize, Lst<Event>)>>
    requires measured { IsMeasured masked.now.net.now }
    requires table { HasTable masked.now }
    requires told { ContextsTold (masked_setting masked.now)
        (C.asks contexts.now) (C.applies contexts.now) }
    requires inside { start ≤ length masked.now.text.now }
    ensures exactly { IfOk result (λ found. (end : ℕ) (events : List Event) →
        Contains found.items (end, events)
        ↔ Derives (masked_setting masked.now) start end events) }
    ensures follows { IfOk result (λ found. (end : ℕ) (events : List Event) →
        Contains found.items (end, events) →
        Follows start end events × (end ≤ length masked.now.text.now)) }
    ensures once { IfOk result (λ found. AreOnce found.items) }
{
    walk_through(alloc, masked, contexts, &mut LookUps::new(alloc), start)
}

/// Each end and event list that the main graph derives from `start`, once. The look-ups
/// are kept from start to start, and with them the texts of which events speak. No mask is tried:
/// each is looked up in the table.
pub fn walk_through<'t, C: Contexts>(
    alloc: Global,
    masked: &MaskedText<'t>,
    contexts: &C,
    look_ups: &mut LookUps<'t>,
    start: usize,
) -> Mem<Vec<(usize, Lst<Event>)>>
    requires measured { IsMeasured masked.now.net.now }
    requires table { HasTable masked.now }
    requires sound { AreSound masked.now.alphabet.now masked.now.net.now
        (different_texts masked.now.text.now) look_ups.now }
    requires told { ContextsTold (masked_setting masked.now)
        (C.asks contexts.now) (C.applies contexts.now) }
    requires inside { start ≤ length masked.now.text.now }
    ensures sound { AreSound masked.now.alphabet.now masked.now.net.now
        (different_texts masked.now.text.now) look_ups.new }
    ensures exactly { IfOk result (λ found. (end : ℕ) (events : List Event) →
        Contains found.items (end, events)
        ↔ Derives (masked_setting masked.now) start end events) }
    ensures follows { IfOk result (λ found. (end : ℕ) (events : List Event) →
        Contains found.items (end, events) →
        Follows start end events × (end ≤ length masked.now.text.now)) }
    ensures once { IfOk result (λ found. AreOnce found.items) }
{
    let mut reached = Reached::new(alloc, look_ups.take_texts(alloc));
    let main = reach(alloc, masked, contexts, look_ups, start, &mut reached)?;
    let derivations = reached.derivations(alloc, main)?;
    look_ups.keep_texts(reached.into_texts());
    Ok(derivations)
}

/// Goes on from `start` until nothing is left to go on from. Gives the number of the visit of the
/// main graph.
fn reach<'t, C: Contexts>(
    alloc: Global,
    masked: &MaskedText<'t>,
    contexts: &C,
    look_ups: &mut LookUps<'t>,
    start: usize,
    reached: &mut Reached<'t>,
) -> Mem<usize>
    requires measured { IsMeasured masked.now.net.now }
    requires table { HasTable masked.now }
    requires sound { AreSound masked.now.alphabet.now masked.now.net.now
        (different_texts masked.now.text.now) look_ups.now }
    requires told { ContextsTold (masked_setting masked.now)
        (C.asks contexts.now) (C.applies contexts.now) }
    requires inside { start ≤ length masked.now.text.now }
    requires nothing { IsNothing reached.now }
    ensures sound { AreSound masked.now.alphabet.now masked.now.net.now
        (different_texts masked.now.text.now) look_ups.new }
    ensures named { OnOk result (IsSound reached.new) }
    ensures main { IfOk result (λ main. IsVisit reached.new main (main_visit start)) }
    ensures exactly { OnOk result ((end : ℕ) (events : List Event) →
        IsFoundAs reached.new (main_visit start) end events
        ↔ Derives (masked_setting masked.now) start end events) }
{
    let main = reached.visit(Visit {
        graph: 1,
        at: start,
    })?;
    let first = Config {
        visit: main,
        here: Frame { graph: 1, state: 0 },
        at: start,
        events: 0,
    };
    reached.step(alloc, masked, contexts, look_ups, first)?;
    let mut next = 0;
    while let Some(config) = reached.config(next) {
        reached.step(alloc, masked, contexts, look_ups, config)?;
        next += 1;
    }
    reached.visits_stand_once();
    Ok(main)
}
