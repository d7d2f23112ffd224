//! What callers go on with behind a derivation of the visit that they called.

ghost use Rattle.std.specs.Prelude.{◌≡◌, ◌∷◌, [], Contains, OnOk};
ghost use Rattle.ux_walk.specs.Joins.{AreListed, Joins, OfBoth};

use crate::config::{Config, Found, Return};
use crate::lists::Lists;
use crate::noted::Noted;
use crate::sets::add;
use indexmap::IndexSet;
use std::alloc::Global;
use ux_base::Mem;

/// Goes on in each of the callers behind each of the derivations.
pub fn join_all(
    alloc: Global,
    events: &mut Lists<Noted>,
    configs: &mut IndexSet<Config>,
    returns: &[Return],
    derived: &[Found],
) -> Mem<()>
    ensures { OnOk result (AreListed events.old.links.keys returns.now derived.now →
        Joins (OfBoth returns.now derived.now) events.old.links.keys events.new.links.keys
        configs.old.keys configs.new.keys) }
{
    for waiting in returns {
        join_each(alloc, events, configs, *waiting, derived)?;
    }
    Ok(())
}

/// Goes on in a caller behind each of the derivations.
fn join_each(
    alloc: Global,
    events: &mut Lists<Noted>,
    configs: &mut IndexSet<Config>,
    waiting: Return,
    derived: &[Found],
) -> Mem<()>
    ensures { OnOk result (AreListed events.old.links.keys (waiting ∷ []) derived.now →
        Joins (λ w f. (w ≡ waiting) × Contains derived.now f) events.old.links.keys
        events.new.links.keys configs.old.keys configs.new.keys) }
{
    for found in derived {
        join(alloc, events, configs, waiting, *found)?;
    }
    Ok(())
}

/// Goes on in a caller behind a derivation.
fn join(
    alloc: Global,
    events: &mut Lists<Noted>,
    configs: &mut IndexSet<Config>,
    waiting: Return,
    found: Found,
) -> Mem<()>
    ensures { OnOk result (AreListed events.old.links.keys (waiting ∷ []) (found ∷ []) →
        Joins (λ w f. (w ≡ waiting) × (f ≡ found)) events.old.links.keys events.new.links.keys
        configs.old.keys configs.new.keys) }
{
    let number = events.append(alloc, waiting.events, found.events)?;
    let behind = Config {
        visit: waiting.visit,
        here: waiting.here,
        at: found.end,
        events: number,
    };
    add(configs, behind)?;
    Ok(())
}
