//! What the main graph puts out in the place of all letters of a token.

ghost use Rattle.std.specs.Prelude.{◌≡◌, ◌<◌, ◌≤◌, ◌↔◌, ℕ, List, Contains, IfOk, IsTrue, OnOk, Some, length};
ghost use Rattle.ux_lexical_tables.specs.Belonging.{Belongs};
ghost use Rattle.ux_mask_table.specs.MaskedTexts.{HasTable};
ghost use Rattle.ux_mask_table.specs.NetMasks.{AreNetMasks};
ghost use Rattle.ux_outputs.specs.Following.{FollowWithin};
ghost use Rattle.ux_outputs.specs.declared.event.Event.{Event};
ghost use Rattle.ux_text_chart.specs.TextCharts.{IsTextChart, chart_setting};
ghost use Rattle.ux_walk.specs.Settings.{Derives, masked_setting, setting_of};
ghost use Rattle.ux_text_chart.specs.NetTables.{AreTablesFor};
ghost use Rattle.ux_morpho.specs.Analysers.{IsAnalyser};
ghost use Rattle.ux_morpho.specs.Analyses.{RendersAs};
ghost use Rattle.ux_walk.specs.Noting.{Includes};
ghost use Rattle.ux_morpho.specs.Putting.{PutsIn, RendersWhole};

use crate::analyser::Analyser;
use std::alloc::Global;
use std::marker::Brand;
use std::sync::ledger::{Blank, Ledger};
use ux_alphabet::Alphabet;
use ux_base::{Lst, Mem, Mode, NoVar, Steps, Txt};
use ux_chart_contexts::ChartContexts;
use ux_lexical_tables::LexicalTables;
use ux_mask_table::{MaskedText, NetMasks};
use ux_net::Net;
use ux_outputs::{Event, render};
use ux_text_chart::{NetTables, TextChart};
use ux_tokens::Text;
use ux_walk::walk;

/// What the main graph puts out for all letters, with the entries that apply to them. Equal outputs may
/// stand there twice.
pub(crate) fn outputs_of(
    alloc: Global,
    analyser: &Analyser,
    letters: &Text,
    applied: &LexicalTables,
) -> Mem<Vec<Txt>>
    requires ready { IsAnalyser analyser.now }
    requires belongs { Belongs analyser.now.alphabet.now letters.now applied.now }
    ensures { IfOk result (λ outputs. (output : List ℕ) → Contains outputs.items output
        ↔ PutsIn (setting_of analyser.now.net.now letters.now analyser.now.alphabet.now applied.now)
        output) }
{
    let blank = Blank::new(1);
    counted_outputs::<Brand>(
        alloc,
        analyser.net,
        &analyser.masks,
        &analyser.tables,
        letters,
        analyser.alphabet,
        applied,
        blank,
    )
}

/// The same, with no step taken before.
fn counted_outputs<L: Ledger>(
    alloc: Global,
    net: &Net,
    masks: &NetMasks,
    tables: &NetTables,
    letters: &Text,
    alphabet: &Alphabet,
    applied: &LexicalTables,
    blank: Blank,
) -> Mem<Vec<Txt>>
    requires name { blank.name ≡ L.name }
    requires parts { blank.parts ≡ L.parts }
    requires some { 0 < blank.parts }
    requires masks { AreNetMasks net.now masks.now }
    requires tables { AreTablesFor alphabet.now letters.now net.now tables.now }
    requires belongs { Belongs alphabet.now letters.now applied.now }
    ensures { IfOk result (λ outputs. (output : List ℕ) → Contains outputs.items output
        ↔ PutsIn (setting_of net.now letters.now alphabet.now applied.now) output) }
{
    let mut steps = Steps::<L>::new(blank);
    let masked = MaskedText::of(alloc, net, masks, letters, alphabet, applied, &mut steps)?;
    masked_outputs(alloc, &masked, tables)
}

/// The same, with what the masks accept.
fn masked_outputs(alloc: Global, masked: &MaskedText, tables: &NetTables) -> Mem<Vec<Txt>>
    requires masks { HasTable masked.now }
    requires tables { AreTablesFor masked.now.alphabet.now masked.now.text.now masked.now.net.now
        tables.now }
    ensures { IfOk result (λ outputs. (output : List ℕ) → Contains outputs.items output
        ↔ PutsIn (masked_setting masked.now) output) }
{
    // The chart is let go at one place alone: each costs the prover a look at all of its parts.
    let chart = TextChart::fill(alloc, masked, tables)?;
    outputs_by(alloc, masked, &chart)
}

/// The same, by this chart.
fn outputs_by(alloc: Global, masked: &MaskedText, chart: &TextChart) -> Mem<Vec<Txt>>
    requires masks { HasTable masked.now }
    requires chart { IsTextChart chart.now }
    requires made { chart_setting chart.now ≡ masked_setting masked.now }
    ensures { IfOk result (λ outputs. (output : List ℕ) → Contains outputs.items output
        ↔ PutsIn (masked_setting masked.now) output) }
{
    let end = masked.text.len();
    if !may_end(chart, end) {
        return Ok(Vec::new(alloc));
    }
    let contexts = ChartContexts::of(chart);
    masked.net.is_measured();
    let found = walk(alloc, masked, &contexts, 0)?;
    rendered(alloc, masked.text, &found)
}

/// Whether the main graph derives something from the first letter up to the position.
fn may_end(chart: &TextChart, end: usize) -> bool
    requires chart { IsTextChart chart.now }
    ensures { IsTrue result ↔ ((events : List Event) × Derives (chart_setting chart.now) 0 end events) }
{
    // A net has a main graph.
    let _graphs = chart.basis.text.net.graphs();
    is_in(chart.ends(1, 0), end)
}

/// Whether the number is one of these.
fn is_in(numbers: &[usize], number: usize) -> bool
    ensures { IsTrue result ↔ Contains numbers.now number }
{
    numbers.contains(&number)
}

/// What those of the derivations render that take all letters.
fn rendered(alloc: Global, letters: &Text, found: &[(usize, Lst<Event>)]) -> Mem<Vec<Txt>>
    requires { (end : ℕ) (events : List Event) → Contains found.now (end, events) →
        FollowWithin letters.now 0 events }
    ensures { IfOk result (λ outputs. (output : List ℕ) → Contains outputs.items output
        ↔ ((derivation : ℕ × List Event) × Contains found.now derivation
        × RendersWhole letters.now derivation output)) }
{
    let mut outputs = Vec::new(alloc);
    for derivation in found {
        add_rendered(alloc, letters, derivation, &mut outputs)?;
    }
    Ok(outputs)
}

/// Adds what a derivation renders, if it takes all letters and renders something.
fn add_rendered(
    alloc: Global,
    letters: &Text,
    derivation: &(usize, Lst<Event>),
    outputs: &mut Vec<Txt>,
) -> Mem<()>
    requires { FollowWithin letters.now 0 derivation.now.1 }
    ensures { OnOk result
        (Includes (RendersWhole letters.now derivation.now) outputs.old.items outputs.new.items) }
{
    if derivation.0 != letters.len() {
        return Ok(());
    }
    let output = output_of(alloc, letters, derivation.1.as_slice())?;
    push_some(outputs, output)
}

/// Adds the output, if there is one.
fn push_some(outputs: &mut Vec<Txt>, output: Option<Txt>) -> Mem<()>
    ensures { OnOk result (Includes (λ text. output ≡ Some text)
        outputs.old.items outputs.new.items) }
{
    if let Some(output) = output {
        outputs.push(output)?;
    }
    Ok(())
}

/// What the events put out in the place of letters, where they render something.
fn output_of(alloc: Global, letters: &Text, events: &[Event]) -> Mem<Option<Txt>>
    requires { FollowWithin letters.now 0 events.now }
    ensures { IfOk result (λ found. (output : List ℕ) →
        (found ≡ Some output) ↔ RendersAs letters.now events.now output) }
{
    let hit = render(alloc, 0, events, Mode::Replace, NoVar::Nothing, letters)?;
    match hit {
        Some(hit) => Ok(Some(hit.text)),
        None => Ok(None),
    }
}
