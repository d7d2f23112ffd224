//! The hits of a grammar without cuts that a policy keeps, with their texts.
//!
//! Where derivations end tells from which starts there is a hit; from these alone the derivations are
//! listed. No label of such a net cuts a hit off, so each hit begins at its start. The starts come in
//! order: those that a kept hit reaches are passed over without a look, where the policy lets no hits
//! overlap.

ghost use Rattle.std.specs.Prelude.{◌≡◌, IfOk};
ghost use Rattle.ux_net.specs.Nets.{ArePlain, CutNothing};
ghost use Rattle.ux_text_chart.specs.TextCharts.{IsTextChart, chart_setting};
ghost use Rattle.ux_walk.specs.Contexts.{ContextsTold};
ghost use Rattle.ux_locate.specs.Finding.{AreKeptFor, HasMasks, IsFound, IsHitFrom, setting_in, tokens_in};
ghost use Rattle.ux_locate.specs.Keeping.{AreKept, first_of, last_of};

use crate::ends::{ChartEnds, Ends};
use crate::expanding::{has_calls, suits_walks};
use crate::from_start::best_hits;
use crate::keeping::{hits_reach, is_reached};
use crate::search::Search;
use crate::walks::{find_first_end, may_find};
use std::alloc::Global;
use ux_base::Mem;
use ux_chart_contexts::ChartContexts;
use ux_outputs::Hit;
use ux_text_chart::{NetTables, TextChart};
use ux_walk::look_ups::LookUps;
use ux_walk::{Contexts, NoContexts};
use ux_walker::Walker;

/// The hits that are kept, in the order in which they are found. Walks tell the ends of a net without
/// calls, where they suit it. Otherwise a chart does; so the derivations are listed by walks that enter no
/// call without an end.
pub fn kept_hits(alloc: Global, search: &Search) -> Mem<Vec<Hit>>
    requires masks { HasMasks search.now }
    requires uncut { CutNothing search.now.masked.now.net.now }
    ensures { IfOk result (λ hits. AreKept search.now.policy first_of last_of
        (IsFound (tokens_in search.now) (IsHitFrom search.now)) hits.items) }
{
    if has_calls(search.masked.net) {
        return hits_by_chart(alloc, search);
    }
    if suits_walks(alloc, search.masked.net)? {
        return hits_by_walker(alloc, search);
    }
    hits_by_chart(alloc, search)
}

/// The same, by a walker.
fn hits_by_walker(alloc: Global, search: &Search) -> Mem<Vec<Hit>>
    requires masks { HasMasks search.now }
    requires uncut { CutNothing search.now.masked.now.net.now }
    requires plain { ArePlain search.now.masked.now.net.now }
    ensures { IfOk result (λ hits. AreKept search.now.policy first_of last_of
        (IsFound (tokens_in search.now) (IsHitFrom search.now)) hits.items) }
{
    // The walker is let go at one place alone: each costs the prover a look at all of its parts.
    let mut walker = Walker::of(alloc, search.masked)?;
    hits_by_ends(alloc, search, &mut walker, &NoContexts)
}

/// The same, by a chart.
fn hits_by_chart(alloc: Global, search: &Search) -> Mem<Vec<Hit>>
    requires masks { HasMasks search.now }
    requires uncut { CutNothing search.now.masked.now.net.now }
    ensures { IfOk result (λ hits. AreKept search.now.policy first_of last_of
        (IsFound (tokens_in search.now) (IsHitFrom search.now)) hits.items) }
{
    // So is the chart.
    let masked = search.masked;
    let tables = NetTables::of(alloc, masked.net, masked.text, masked.alphabet)?;
    let chart = TextChart::fill(alloc, masked, &tables)?;
    hits_in_chart(alloc, search, &chart)
}

/// The same, by this chart.
fn hits_in_chart(alloc: Global, search: &Search, chart: &TextChart) -> Mem<Vec<Hit>>
    requires masks { HasMasks search.now }
    requires uncut { CutNothing search.now.masked.now.net.now }
    requires chart { IsTextChart chart.now }
    requires made { chart_setting chart.now ≡ setting_in search.now }
    ensures { IfOk result (λ hits. AreKept search.now.policy first_of last_of
        (IsFound (tokens_in search.now) (IsHitFrom search.now)) hits.items) }
{
    hits_by_ends(
        alloc,
        search,
        &mut ChartEnds::of(chart),
        &ChartContexts::of(chart),
    )
}

/// The same, by what tells the ends and the contexts.
fn hits_by_ends<E: Ends, C: Contexts>(
    alloc: Global,
    search: &Search,
    finder: &mut E,
    contexts: &C,
) -> Mem<Vec<Hit>>
    requires masks { HasMasks search.now }
    requires uncut { CutNothing search.now.masked.now.net.now }
    requires told { ContextsTold (setting_in search.now) (C.asks contexts.now)
        (C.applies contexts.now) }
    requires made { E.setting finder.old ≡ setting_in search.now }
    ensures { IfOk result (λ hits. AreKept search.now.policy first_of last_of
        (IsFound (tokens_in search.now) (IsHitFrom search.now)) hits.items) }
{
    let mut look_ups = LookUps::new(alloc);
    hits_from_starts(alloc, search, finder, contexts, &mut look_ups)
}

/// The same, with these look-ups.
fn hits_from_starts<'t, E: Ends, C: Contexts>(
    alloc: Global,
    search: &Search<'t>,
    finder: &mut E,
    contexts: &C,
    look_ups: &mut LookUps<'t>,
) -> Mem<Vec<Hit>>
    requires masks { HasMasks search.now }
    requires uncut { CutNothing search.now.masked.now.net.now }
    requires told { ContextsTold (setting_in search.now) (C.asks contexts.now)
        (C.applies contexts.now) }
    requires made { E.setting finder.old ≡ setting_in search.now }
    requires kept { AreKeptFor search.now look_ups.old }
    ensures { IfOk result (λ hits. AreKept search.now.policy first_of last_of
        (IsFound (tokens_in search.now) (IsHitFrom search.now)) hits.items) }
{
    let text = search.masked.text;
    let mut ends = Vec::new(alloc);
    let mut hits = Vec::new(alloc);
    for start in 0..text.len() {
        if is_reached(search.policy, hits_reach(hits.as_slice()), start) {
            continue;
        }
        if !may_find(finder, text, start) {
            continue;
        }
        find_first_end(alloc, finder, start, &mut ends)?;
        if ends.is_empty() {
            continue;
        }
        let mut best = best_hits(alloc, search, search.policy, contexts, look_ups, start)?;
        hits.append(&mut best)?;
    }
    Ok(hits)
}
