//! The hits of any grammar, with contexts and cuts too.
//!
//! A chart of the text tells which contexts apply, and from which starts a derivation ends. Behind a cut
//! a hit begins after its start, so hits from several starts may begin together: all are listed here,
//! and what a policy keeps of them is chosen afterwards.

ghost use Rattle.std.specs.Prelude.{◌≡◌, ◌<◌, ◌≤◌, ℕ, List, false, IfOk, OnOk, length};
ghost use Rattle.ux_outputs.specs.declared.event.Event.{Event};
ghost use Rattle.ux_text_chart.specs.TextCharts.{IsTextChart, chart_setting};
ghost use Rattle.ux_walk.specs.Noting.{Includes};
ghost use Rattle.ux_walk.specs.Settings.{Derives};
ghost use Rattle.ux_locate.specs.Finding.{AreAllHits, AreKeptFor, HasMasks, IsHitAt, setting_in, tokens_in};

use crate::from_start::best_hits;
use crate::search::Search;
use crate::walks::is_start;
use std::alloc::Global;
use ux_base::{Mem, Policy};
use ux_chart_contexts::{ChartContexts, derives_some};
use ux_outputs::Hit;
use ux_text_chart::{NetTables, TextChart};
use ux_walk::look_ups::LookUps;

/// The hits from all starts, in no order. Equal ones may stand there twice.
pub fn all_hits(alloc: Global, search: &Search) -> Mem<Vec<Hit>>
    requires masks { HasMasks search.now }
    ensures { IfOk result (λ hits. AreAllHits search.now hits.items) }
{
    // The chart is let go at one place alone: each costs the prover a look at all of its parts.
    let masked = search.masked;
    let tables = NetTables::of(alloc, masked.net, masked.text, masked.alphabet)?;
    let chart = TextChart::fill(alloc, masked, &tables)?;
    hits_by_chart(alloc, search, &chart)
}

/// The same, by this chart.
fn hits_by_chart(alloc: Global, search: &Search, chart: &TextChart) -> Mem<Vec<Hit>>
    requires masks { HasMasks search.now }
    requires chart { IsTextChart chart.now }
    requires made { chart_setting chart.now ≡ setting_in search.now }
    ensures { IfOk result (λ hits. AreAllHits search.now hits.items) }
{
    let mut look_ups = LookUps::new(alloc);
    hits_from_all(alloc, search, chart, &mut look_ups)
}

/// The same, by this chart and these look-ups.
fn hits_from_all<'t>(
    alloc: Global,
    search: &Search<'t>,
    chart: &TextChart,
    look_ups: &mut LookUps<'t>,
) -> Mem<Vec<Hit>>
    requires masks { HasMasks search.now }
    requires chart { IsTextChart chart.now }
    requires made { chart_setting chart.now ≡ setting_in search.now }
    requires kept { AreKeptFor search.now look_ups.old }
    ensures { IfOk result (λ hits. AreAllHits search.now hits.items) }
{
    let mut hits = Vec::new(alloc);
    for start in 0..search.masked.text.len() {
        add_hits(alloc, search, chart, look_ups, start, &mut hits)?;
    }
    Ok(hits)
}

/// Adds the hits from a position, if it is a start.
fn add_hits<'t>(
    alloc: Global,
    search: &Search<'t>,
    chart: &TextChart,
    look_ups: &mut LookUps<'t>,
    start: usize,
    hits: &mut Vec<Hit>,
) -> Mem<()>
    requires masks { HasMasks search.now }
    requires chart { IsTextChart chart.now }
    requires made { chart_setting chart.now ≡ setting_in search.now }
    requires kept { AreKeptFor search.now look_ups.old }
    requires within { start < length (tokens_in search.now) }
    ensures kept { AreKeptFor search.now look_ups.new }
    ensures hits { OnOk result
        (Includes (IsHitAt search.now start) hits.old.items hits.new.items) }
{
    if !is_start(search.masked.text, start) {
        return Ok(());
    }
    if !may_derive(chart, start) {
        return Ok(());
    }
    let contexts = ChartContexts::of(chart);
    let mut found = best_hits(alloc, search, Policy::All, &contexts, look_ups, start)?;
    hits.append(&mut found)?;
    Ok(())
}

/// Whether a derivation from the position ends somewhere.
fn may_derive(chart: &TextChart, start: usize) -> bool
    requires chart { IsTextChart chart.now }
    requires within { start ≤ length (chart_setting chart.now).tokens }
    ensures { result ≡ false → (end : ℕ) (events : List Event) →
        Derives (chart_setting chart.now) start end events → ⊥ }
{
    // A net has a main graph.
    let _graphs = chart.basis.text.net.graphs();
    derives_some(chart, 1, start)
}
