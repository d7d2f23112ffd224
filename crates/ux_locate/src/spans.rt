//! The hits by their first and last token, as long as outputs are ignored.
//!
//! The net has no cuts, so every derivation renders exactly the tokens up to its end, and each end is a
//! hit. Ends come in order, so the policy keeps the last or the first of them, and starts inside a kept
//! hit are passed over. Where the first is kept, no walk goes on behind it. No text is copied, and none is
//! kept.

ghost use Rattle.std.specs.Prelude.{◌≡◌, ◌<◌, ◌≤◌, ◌+◌, ◌*◌, ◌++◌, ℕ, All, Contains, IfOk, OnOk, length, map};
ghost use Rattle.ux_base.specs.declared.settings.Mode.TheVariants.{Ignore};
ghost use Rattle.ux_base.specs.declared.settings.NoVar.{NoVar};
ghost use Rattle.ux_lexical_tables.specs.Belonging.{Belongs};
ghost use Rattle.ux_mask_table.specs.MaskedTexts.{HasTable};
ghost use Rattle.ux_mask_table.specs.NetMasks.{AreNetMasks};
ghost use Rattle.ux_net.specs.Masks.{IsMaskCount};
ghost use Rattle.ux_net.specs.Nets.{ArePlain, CutNothing, net_grammar};
ghost use Rattle.ux_text_chart.specs.TextCharts.{IsTextChart, chart_setting};
ghost use Rattle.ux_walk.specs.Settings.{masked_setting};
ghost use Rattle.ux_locate.specs.Finding.{IsFound, IsSpanFrom, span_to};
ghost use Rattle.ux_locate.specs.Hits.{IsHit};
ghost use Rattle.ux_locate.specs.Index.{IsKeptListing};
ghost use Rattle.ux_locate.specs.Keeping.{AreKept, first_in, last_in};
ghost use Rattle.ux_locate.specs.Spans.{LiesIn, hit_at};

use crate::best::best_ends;
use crate::ends::{ChartEnds, Ends};
use crate::expanding::suits_walks;
use crate::keeping::{is_reached, spans_reach};
use crate::sorting::sort_spans;
use crate::walks::{find_ends_for, may_find};
use std::alloc::Global;
use std::sync::ledger::Ledger;
use ux_alphabet::Alphabet;
use ux_base::{Mem, Policy, Steps};
use ux_lexical_tables::LexicalTables;
use ux_mask_table::{MaskedText, NetMasks};
use ux_net::Net;
use ux_outputs::Span;
use ux_text_chart::{NetTables, TextChart};
use ux_tokens::Text;
use ux_walker::Walker;

/// The spans of the hits of a net without cuts that the policy keeps where outputs are ignored, each once
/// and in order. The text of such a hit is that of its tokens. Takes no memory for texts, and nothing for
/// a start inside a kept hit, but with `Policy::All`, which keeps all hits. Each different mask of the net is
/// tried at most once at a place of the text, which is a step.
pub fn locate_spans<L: Ledger>(
    alloc: Global,
    net: &Net,
    text: &Text,
    alphabet: &Alphabet,
    applied: &LexicalTables,
    policy: Policy,
    steps: &mut Steps<L>,
) -> Mem<Vec<Span>>
    requires belongs { Belongs alphabet.now text.now applied.now }
    requires uncut { CutNothing net.now }
    ensures listing { IfOk result (λ spans. (novar : NoVar) → IsKeptListing policy
        (IsHit alphabet.now text.now applied.now (net_grammar net.now) Ignore novar)
        (map (hit_at text.now) spans.items)) }
    ensures within { IfOk result (λ spans. All (LiesIn text.now) spans.items) }
    ensures steps { (count : ℕ) → IsMaskCount net.now count →
        steps.new ≤ steps.old + count * (length text.now + 1) }
{
    let masks = NetMasks::of(alloc, net)?;
    spans_by(alloc, net, &masks, text, alphabet, applied, policy, steps)
}

/// The same, by the masks of the net.
fn spans_by<L: Ledger>(
    alloc: Global,
    net: &Net,
    masks: &NetMasks,
    text: &Text,
    alphabet: &Alphabet,
    applied: &LexicalTables,
    policy: Policy,
    steps: &mut Steps<L>,
) -> Mem<Vec<Span>>
    requires masks { AreNetMasks net.now masks.now }
    requires belongs { Belongs alphabet.now text.now applied.now }
    requires uncut { CutNothing net.now }
    ensures listing { IfOk result (λ spans. (novar : NoVar) → IsKeptListing policy
        (IsHit alphabet.now text.now applied.now (net_grammar net.now) Ignore novar)
        (map (hit_at text.now) spans.items)) }
    ensures within { IfOk result (λ spans. All (LiesIn text.now) spans.items) }
    ensures steps { (count : ℕ) → IsMaskCount net.now count →
        steps.new ≤ steps.old + count * (length text.now + 1) }
{
    let masked = MaskedText::of(alloc, net, masks, text, alphabet, applied, steps)?;
    spans_in(alloc, &masked, policy)
}

/// The same, in a text with what the masks accept in it.
fn spans_in(alloc: Global, masked: &MaskedText, policy: Policy) -> Mem<Vec<Span>>
    requires table { HasTable masked.now }
    requires uncut { CutNothing masked.now.net.now }
    ensures listing { IfOk result (λ spans. (novar : NoVar) → IsKeptListing policy
        (IsHit masked.now.alphabet.now masked.now.text.now masked.now.applied.now
        (net_grammar masked.now.net.now) Ignore novar)
        (map (hit_at masked.now.text.now) spans.items)) }
    ensures within { IfOk result (λ spans. All (LiesIn masked.now.text.now) spans.items) }
{
    let mut spans = kept_spans(alloc, masked, policy)?;
    sort_spans(&mut spans);
    Ok(spans)
}

/// The spans that are kept, in the order in which they are found. Walks tell the ends,
/// where they suit the net, otherwise a chart does.
fn kept_spans(alloc: Global, masked: &MaskedText, policy: Policy) -> Mem<Vec<Span>>
    requires table { HasTable masked.now }
    ensures { IfOk result (λ spans. AreKept policy first_in last_in
        (IsFound masked.now.text.now (IsSpanFrom (masked_setting masked.now))) spans.items) }
{
    if suits_walks(alloc, masked.net)? {
        return spans_by_walker(alloc, masked, policy);
    }
    spans_by_chart(alloc, masked, policy)
}

/// The same, by a walker.
fn spans_by_walker(alloc: Global, masked: &MaskedText, policy: Policy) -> Mem<Vec<Span>>
    requires table { HasTable masked.now }
    requires plain { ArePlain masked.now.net.now }
    ensures { IfOk result (λ spans. AreKept policy first_in last_in
        (IsFound masked.now.text.now (IsSpanFrom (masked_setting masked.now))) spans.items) }
{
    // The walker is let go at one place alone: each costs the prover a look at all of its parts.
    let mut walker = Walker::of(alloc, masked)?;
    spans_from_starts(alloc, policy, masked.text, &mut walker)
}

/// The same, by a chart.
fn spans_by_chart(alloc: Global, masked: &MaskedText, policy: Policy) -> Mem<Vec<Span>>
    requires table { HasTable masked.now }
    ensures { IfOk result (λ spans. AreKept policy first_in last_in
        (IsFound masked.now.text.now (IsSpanFrom (masked_setting masked.now))) spans.items) }
{
    // So is the chart.
    let tables = NetTables::of(alloc, masked.net, masked.text, masked.alphabet)?;
    let chart = TextChart::fill(alloc, masked, &tables)?;
    spans_in_chart(alloc, policy, masked.text, &chart)
}

/// The same, by this chart.
fn spans_in_chart(alloc: Global, policy: Policy, text: &Text, chart: &TextChart) -> Mem<Vec<Span>>
    requires chart { IsTextChart chart.now }
    requires made { (chart_setting chart.now).tokens ≡ text.now }
    ensures { IfOk result (λ spans. AreKept policy first_in last_in
        (IsFound text.now (IsSpanFrom (chart_setting chart.now))) spans.items) }
{
    spans_from_starts(alloc, policy, text, &mut ChartEnds::of(chart))
}

/// The same, by what tells the ends.
fn spans_from_starts<E: Ends>(
    alloc: Global,
    policy: Policy,
    text: &Text,
    finder: &mut E,
) -> Mem<Vec<Span>>
    requires { (E.setting finder.now).tokens ≡ text.now }
    ensures { IfOk result (λ spans. AreKept policy first_in last_in
        (IsFound text.now (IsSpanFrom (E.setting finder.old))) spans.items) }
{
    let mut ends = Vec::new(alloc);
    let mut spans = Vec::new(alloc);
    for start in 0..text.len() {
        if is_reached(policy, spans_reach(spans.as_slice()), start) {
            continue;
        }
        if !may_find(finder, text, start) {
            continue;
        }
        find_ends_for(alloc, finder, policy, start, &mut ends)?;
        push_spans(start, best_ends(policy, ends.as_slice()), &mut spans)?;
    }
    Ok(spans)
}

/// Adds the spans from a start up to these later positions.
fn push_spans(start: usize, ends: &[usize], spans: &mut Vec<Span>) -> Mem<()>
    requires { (e : ℕ) → Contains ends.now e → start < e }
    ensures { OnOk result (spans.new.items ≡ spans.old.items ++ map (span_to start) ends.now) }
{
    for end in ends {
        spans.push(Span {
            first: start,
            last: *end - 1,
        })?;
    }
    Ok(())
}
