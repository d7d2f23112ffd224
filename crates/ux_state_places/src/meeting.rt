//! To which places runs from units lead.
//!
//! A unit is a graph or the body of a context. From a place a link leads along each step that neither
//! opens nor closes a context, into each context that opens, to what is called, and over each context.
//! So a run from a unit leads to the places that follow from the first places of units by links.

ghost use Rattle.std.specs.Prelude.{◌≡◌, ◌↔◌, ◌⊎◌, ℕ, ◌+◌, ◌<◌, All, Contains, length, IfOk, OnOk, IsTrue};
ghost use Rattle.ux_boxes.specs.Fit.{IsFit};
ghost use Rattle.ux_boxes.specs.Numbers.{AreOffsets, all_places};
ghost use Rattle.ux_boxes.specs.Places.{label_lines};
ghost use Rattle.ux_admission.specs.Gains.{Gains, SoBelow, SoOfOne};
ghost use Rattle.ux_state_places.specs.Meeting.{AreLinkRules, AreMetMarks, AreOpenedInto, HasOpening, IsRuleOf, IsUnitIn, IsUnitNumber, IsUnitPlace};

use std::alloc::{AllocError, Global};
use ux_admission::{Link, closers_of, is_opening, links_of};
use ux_base::{Lst, Mem};
use ux_boxes::{Place, count_of, offsets_of};
use ux_digraph::{Rule, closure};
use ux_net::Label;

/// Marks the places of all graphs to which a run from a unit leads.
pub fn met_marks(alloc: Global, graphs: &[Lst<Place>]) -> Mem<Vec<bool>>
    requires fit { All (IsFit (length graphs.now)) graphs.now }
    requires opened { AreOpenedInto graphs.now }
    ensures len { IfOk result (λ marks. length marks.items ≡ all_places graphs.now) }
    ensures marks { IfOk result (λ marks. AreMetMarks graphs.now marks.items) }
{
    let offsets = offsets_of(alloc, graphs)?;
    let closers = closers_of(alloc, graphs)?;
    let links = links_of(alloc, graphs, &offsets, &closers)?;
    let rules = rules_of(alloc, &links)?;
    let units = units_of(alloc, graphs, &offsets)?;
    closure(alloc, count_of(graphs, &offsets), &rules, &units)
}

/// A place is met where one is from which a link leads to it.
fn rules_of(alloc: Global, links: &[Link]) -> Result<Vec<Rule>, AllocError>
    ensures { IfOk result (λ rules. AreLinkRules links.now rules.items) }
{
    let mut rules = Vec::with_capacity(alloc, links.len())?;
    push_rules(&mut rules, links)?;
    Ok(rules)
}

/// Adds the rules of the links.
fn push_rules(rules: &mut Vec<Rule>, links: &[Link]) -> Result<(), AllocError>
    ensures { OnOk result (Gains rules.old.items rules.new.items (SoOfOne links.now IsRuleOf)) }
{
    for link in links {
        push_rule(rules, *link)?;
    }
    Ok(())
}

/// Adds the rule of the link.
fn push_rule(rules: &mut Vec<Rule>, link: Link) -> Result<(), AllocError>
    ensures { OnOk result (Gains rules.old.items rules.new.items (IsRuleOf link)) }
{
    rules.push(Rule {
        place: link.to,
        first: link.from,
        second: link.from,
    })?;
    Ok(())
}

/// The numbers of the first places of units: the starts, and where contexts open.
fn units_of(
    alloc: Global,
    graphs: &[Lst<Place>],
    offsets: &[usize],
) -> Result<Vec<usize>, AllocError>
    requires offsets { AreOffsets graphs.now offsets.now }
    ensures { IfOk result (λ units. (x : ℕ) →
        Contains units.items x ↔ SoBelow (length graphs.now) (IsUnitIn graphs.now) x) }
{
    let mut units = Vec::new(alloc);
    push_graphs(&mut units, graphs, offsets)?;
    Ok(units)
}

/// Adds those of all graphs.
fn push_graphs(
    units: &mut Vec<usize>,
    graphs: &[Lst<Place>],
    offsets: &[usize],
) -> Result<(), AllocError>
    requires offsets { AreOffsets graphs.now offsets.now }
    ensures { OnOk result (Gains units.old.items units.new.items
        (SoBelow (length graphs.now) (IsUnitIn graphs.now))) }
{
    for k in 0..graphs.len() {
        push_units(units, graphs[k].as_slice(), offsets[k])?;
    }
    Ok(())
}

/// Adds those of a graph, before whose places so many stand.
fn push_units(units: &mut Vec<usize>, places: &[Place], before: usize) -> Result<(), AllocError>
    requires room { before + length places.now < 18446744073709551616 }
    ensures { OnOk result (Gains units.old.items units.new.items
        (SoBelow (length places.now) (IsUnitNumber places.now before))) }
{
    for n in 0..places.len() {
        push_unit(units, places, before, n)?;
    }
    Ok(())
}

/// Adds the number of the place, if it is the first of a unit.
fn push_unit(
    units: &mut Vec<usize>,
    places: &[Place],
    before: usize,
    n: usize,
) -> Result<(), AllocError>
    requires inside { n < length places.now }
    requires room { before + length places.now < 18446744073709551616 }
    ensures { OnOk result
        (Gains units.old.items units.new.items (IsUnitNumber places.now before n)) }
{
    if !is_unit(places, n) {
        return Ok(());
    }
    units.push(before + n)?;
    Ok(())
}

/// Whether the place is the first of a unit.
fn is_unit(places: &[Place], n: usize) -> bool
    ensures { IsTrue result ↔ IsUnitPlace places.now n }
{
    if n == 0 {
        return true;
    }
    has_opening(lines_at(places, n))
}

/// The lines of the place of this number.
pub fn lines_at(places: &[Place], n: usize) -> &[Lst<Label>]
    ensures { result.now ≡ label_lines places.now n }
{
    match places.get(n) {
        Some(place) => place.lines.as_slice(),
        None => &[],
    }
}

/// Whether one of the lines opens a context.
pub fn has_opening(lines: &[Lst<Label>]) -> bool
    ensures { IsTrue result ↔ HasOpening lines.now }
{
    for line in lines {
        if is_opening(line.as_slice()) {
            return true;
        }
    }
    false
}
