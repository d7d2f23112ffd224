//! Which places lead freely to an end of their graph.

ghost use Rattle.std.specs.Prelude.{◌≡◌, ℕ, ◌+◌, ◌-◌, ◌<◌, ◌↔◌, List, [], length, get_or, All, Contains, IfOk, OnOk, IsTrue};
ghost use Rattle.ux_boxes.specs.Places.{place_targets, IsEndPlace};
ghost use Rattle.ux_boxes.specs.Fit.{IsFit};
ghost use Rattle.ux_boxes.specs.Numbers.{AreOffsets, all_places};
ghost use Rattle.ux_admission.specs.Ways.{AreWays, AreEnds, IsEndNumber, AreFreeMarks, rule_of, IsRuleOf, LeadsOn};
ghost use Rattle.ux_admission.specs.Gains.{Gains, SoOfOne};

use crate::way::{Passage, Way};
use crate::ways::targets_of;
use std::alloc::{AllocError, Global};
use ux_base::{Lst, Mem};
use ux_boxes::{Place, count_of};
use ux_digraph::{Rule, closure};

/// Whether each place leads to an end of its graph by a run that may take nothing.
pub fn free_places(
    alloc: Global,
    graphs: &[Lst<Place>],
    offsets: &[usize],
    ways: &[Way],
) -> Mem<Vec<bool>>
    requires fit { All (IsFit (length graphs.now)) graphs.now }
    requires offsets { AreOffsets graphs.now offsets.now }
    requires ways { AreWays graphs.now ways.now }
    ensures { IfOk result (λ marks. AreFreeMarks graphs.now marks.items) }
{
    let ends = ends_of(alloc, graphs, offsets)?;
    let rules = rules_of(alloc, ways)?;
    let marks = closure(alloc, count_of(graphs, offsets), &rules, &ends)?;
    Ok(marks)
}

/// The numbers of the places at which a run may end.
fn ends_of(alloc: Global, graphs: &[Lst<Place>], offsets: &[usize]) -> Mem<Vec<usize>>
    requires fit { All (IsFit (length graphs.now)) graphs.now }
    requires offsets { AreOffsets graphs.now offsets.now }
    ensures { IfOk result (λ ends. AreEnds graphs.now ends.items) }
{
    let mut ends = Vec::new(alloc);
    push_ends(&mut ends, graphs, offsets)?;
    Ok(ends)
}

/// Adds the numbers of the ends of all graphs.
fn push_ends(
    ends: &mut Vec<usize>,
    graphs: &[Lst<Place>],
    offsets: &[usize],
) -> Result<(), AllocError>
    requires offsets { AreOffsets graphs.now offsets.now }
    ensures { OnOk result (Gains ends.old.items ends.new.items (IsEndNumber graphs.now)) }
{
    for (k, places) in graphs.iter().enumerate() {
        push_graph_ends(ends, offsets[k], places.as_slice())?;
    }
    Ok(())
}

/// Adds the numbers of the ends of a graph, whose places are numbered from the base.
fn push_graph_ends(ends: &mut Vec<usize>, base: usize, places: &[Place]) -> Result<(), AllocError>
    requires room { base + length places.now < 18446744073709551616 }
    ensures { OnOk result (Gains ends.old.items ends.new.items
        (λ x. (n : ℕ) × IsEndPlace places.now n × (base + n ≡ x))) }
{
    for n in 0..places.len() {
        push_end(ends, base, places, n)?;
    }
    Ok(())
}

/// Adds the number of the place, if a run may end there.
fn push_end(
    ends: &mut Vec<usize>,
    base: usize,
    places: &[Place],
    n: usize,
) -> Result<(), AllocError>
    requires inside { n < length places.now }
    requires room { base + length places.now < 18446744073709551616 }
    ensures { OnOk result
        (Gains ends.old.items ends.new.items (λ x. IsEndPlace places.now n × (base + n ≡ x))) }
{
    if !is_end(places, n) {
        return Ok(());
    }
    ends.push(base + n)?;
    Ok(())
}

/// Whether a run may end at the place.
fn is_end(places: &[Place], n: usize) -> bool
    ensures { IsTrue result ↔ IsEndPlace places.now n }
{
    n != 1 && targets_of(places, n).contains(&1)
}

/// The rules of the ways: a source is nullable where the target and the start that is called are.
fn rules_of(alloc: Global, ways: &[Way]) -> Mem<Vec<Rule>>
    ensures { IfOk result (λ rules.
        Gains [] rules.items (SoOfOne ways.now IsRuleOf)) }
{
    let mut rules = Vec::new(alloc);
    push_rules(&mut rules, ways)?;
    Ok(rules)
}

/// Adds the rules of the ways.
fn push_rules(rules: &mut Vec<Rule>, ways: &[Way]) -> Result<(), AllocError>
    ensures { OnOk result
        (Gains rules.old.items rules.new.items (SoOfOne ways.now IsRuleOf)) }
{
    for way in ways {
        push_rule(rules, *way)?;
    }
    Ok(())
}

/// Adds the rule of the way, unless it leads into a context.
fn push_rule(rules: &mut Vec<Rule>, way: Way) -> Result<(), AllocError>
    ensures { OnOk result (Gains rules.old.items rules.new.items (IsRuleOf way)) }
{
    if !leads_on(way.passage) {
        return Ok(());
    }
    rules.push(rule(way))?;
    Ok(())
}

/// Whether the way leads on in its graph, and not into a context.
fn leads_on(passage: Passage) -> bool
    ensures { IsTrue result ↔ LeadsOn passage }
{
    match passage {
        Passage::Silent | Passage::Calls(_) | Passage::Jumps(_) => true,
        Passage::Opens => false,
    }
}

/// The rule of the way.
fn rule(way: Way) -> Rule
    ensures { result ≡ rule_of way }
{
    let second = match way.passage {
        Passage::Calls(start) => start,
        Passage::Silent | Passage::Opens | Passage::Jumps(_) => way.to,
    };
    Rule {
        place: way.from,
        first: way.to,
        second,
    }
}
