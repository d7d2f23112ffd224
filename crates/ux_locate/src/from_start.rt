//! The hits from one start that a policy keeps of them.
//!
//! The derivations from the start are listed with their events, and each is rendered. Of the hits the
//! worse ones go as better ones come.

ghost use Rattle.std.specs.Prelude.{ℕ, List, Contains, IfOk, OnOk};
ghost use Rattle.ux_outputs.specs.declared.event.Event.{Event};
ghost use Rattle.ux_outputs.specs.declared.hit.Hit.{Hit};
ghost use Rattle.ux_outputs.specs.Following.{FollowWithin};
ghost use Rattle.ux_walk.specs.Contexts.{ContextsTold};
ghost use Rattle.ux_walk.specs.Noting.{Includes};
ghost use Rattle.ux_locate.specs.Finding.{AreKeptFor, HasMasks, IsHitFrom, IsRendered, setting_in, tokens_in};
ghost use Rattle.ux_locate.specs.Hits.{IsStart};
ghost use Rattle.ux_locate.specs.Keeping.{AreBest, last_of};

use crate::best::add_best;
use crate::search::Search;
use std::alloc::Global;
use ux_base::{Lst, Mem, Policy};
use ux_outputs::{Event, Hit, render};
use ux_walk::look_ups::LookUps;
use ux_walk::{Contexts, walk_through};

/// Of the hits from a start those that the policy keeps. Equal ones may stand there twice.
pub fn best_hits<'t, C: Contexts>(
    alloc: Global,
    search: &Search<'t>,
    policy: Policy,
    contexts: &C,
    look_ups: &mut LookUps<'t>,
    start: usize,
) -> Mem<Vec<Hit>>
    requires masks { HasMasks search.now }
    requires kept { AreKeptFor search.now look_ups.now }
    requires told { ContextsTold (setting_in search.now) (C.asks contexts.now)
        (C.applies contexts.now) }
    requires starts { IsStart (tokens_in search.now) start }
    ensures kept { AreKeptFor search.now look_ups.new }
    ensures best { IfOk result (λ best. AreBest policy last_of
        (IsHitFrom search.now start) best.items) }
{
    search.masked.net.is_measured();
    let found = walk_through(alloc, search.masked, contexts, look_ups, start)?;
    best_rendered(alloc, search, policy, start, found.as_slice())
}

/// The same of the hits that these derivations from the start render.
fn best_rendered(
    alloc: Global,
    search: &Search,
    policy: Policy,
    start: usize,
    found: &[(usize, Lst<Event>)],
) -> Mem<Vec<Hit>>
    requires { (end : ℕ) (events : List Event) → Contains found.now (end, events) →
        FollowWithin (tokens_in search.now) start events }
    ensures { IfOk result (λ best. AreBest policy last_of
        (λ hit. (derivation : ℕ × List Event) × Contains found.now derivation
        × IsRendered search.now start derivation hit) best.items) }
{
    let mut best = Vec::new(alloc);
    for derivation in found {
        add_rendered(alloc, search, policy, start, derivation, &mut best)?;
    }
    Ok(best)
}

/// Adds the hit that a derivation from a start renders, where it renders one, to the best of those seen
/// before.
fn add_rendered(
    alloc: Global,
    search: &Search,
    policy: Policy,
    start: usize,
    derivation: &(usize, Lst<Event>),
    best: &mut Vec<Hit>,
) -> Mem<()>
    requires { FollowWithin (tokens_in search.now) start derivation.now.1 }
    ensures { OnOk result ((seen : List Hit) →
        AreBest policy last_of (Contains seen) best.old.items →
        (more : List Hit) × Includes (IsRendered search.now start derivation.now) seen more
        × AreBest policy last_of (Contains more) best.new.items) }
{
    let events = derivation.1.as_slice();
    let hit = render(
        alloc,
        start,
        events,
        search.mode,
        search.novar,
        search.masked.text,
    )?;
    if let Some(hit) = hit {
        add_best(policy, best, hit)?;
    }
    Ok(())
}
