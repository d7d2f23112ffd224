//! Contexts that are refused: those that aren't closed, or not in one place where nothing may
//! follow, and those that weren't opened.

ghost use Rattle.std.specs.Prelude.{◌≡◌, ℕ, ◌<◌, ◌≤◌, ◌↔◌, List, length, All, Contains, IfErr, IfOk, OnOk, IsTrue, true, map, string_bytes};
ghost use Rattle.ux_digraph.specs.Paths.{row_of};
ghost use Rattle.ux_admission.specs.declared.leading.Leading.{Leading as TheLeading};
ghost use Rattle.ux_boxes.specs.declared.place.Place.{Place as ThePlace};
ghost use Rattle.ux_admission.specs.BadContexts.{Ends, AreNextRules, IsNextRule, IsStepRule, IsJumpRule, IsRuleFrom, AreEndMarks, IsOpenLong, IsForked, IsUnclosed, IsBad, HasTwo, IsLeastOf, IsLesser};
ghost use Rattle.ux_admission.specs.Closers.{AreClosers};
ghost use Rattle.ux_admission.specs.Refusals.{RefusesContexts};
ghost use Rattle.ux_admission.specs.ContextClose.{IsBadContext, AreClosed};
ghost use Rattle.ux_boxes.specs.Fit.{HasTargetsInside};
ghost use Rattle.ux_admission.specs.Gains.{Gains};
ghost use Rattle.ux_admission.specs.Leading.{IsLeading, IsLeadingInside, Closes, AreClosersIn};
ghost use Rattle.ux_boxes.specs.Places.{place_grammar};
ghost use Rattle.ux_admission.specs.Spots.{FindsFirst};

use crate::leading::{Leading, is_opening, leading_of};
use crate::spot::Spot;
use std::alloc::{AllocError, Global};
use ux_base::{Lst, Mem};
use ux_boxes::{NetError, Place, name_of};
use ux_digraph::{Rule, closure};

/// Refuses the first context that isn't closed, or not in one place where nothing may follow, or
/// that wasn't opened.
pub fn refuse_bad_contexts(
    alloc: Global,
    names: &[String],
    places: &[Lst<Place>],
    closers: &[Lst<usize>],
) -> Result<(), NetError>
    requires count { length places.now ≡ length names.now }
    requires few { All (λ (ps : List ThePlace). length ps ≤ 65535) places.now }
    requires inside { All HasTargetsInside places.now }
    requires closers { AreClosers places.now closers.now }
    ensures ok { OnOk result (AreClosed (place_grammar places.now)) }
    ensures err { IfErr result (RefusesContexts (map string_bytes names.now) places.now) }
{
    match first_bad_context(alloc, places, closers)? {
        Some(spot) => Err(NetError::ContextClose {
            graph: name_of(alloc, names, spot.graph)?,
            node: spot.node as u32,
        }),
        None => Ok(()),
    }
}

/// The first graph with a context that is refused, and the least place of it at which one is. Takes
/// a step for each step of the graphs, and for each closer of a place to which one leads.
pub fn first_bad_context(
    alloc: Global,
    graphs: &[Lst<Place>],
    closers: &[Lst<usize>],
) -> Mem<Option<Spot>>
    requires inside { All HasTargetsInside graphs.now }
    requires closers { AreClosers graphs.now closers.now }
    ensures { IfOk result (FindsFirst (IsBadContext (place_grammar graphs.now))) }
{
    let mut rest = closers;
    for (number, places) in graphs.iter().enumerate() {
        let (rows, behind) = rest.split_at(places.as_slice().len());
        if let Some(node) = first_bad(alloc, places.as_slice(), rows)? {
            return Ok(Some(Spot {
                graph: number + 1,
                node,
            }));
        }
        rest = behind;
    }
    Ok(None)
}

/// The least of these places at which a context is refused.
fn first_bad(alloc: Global, places: &[Place], rows: &[Lst<usize>]) -> Mem<Option<usize>>
    requires inside { HasTargetsInside places.now }
    requires rows { (leading : TheLeading) → IsLeading places.now leading →
        AreClosersIn leading rows.now }
    ensures { IfOk result (λ node. (leading : TheLeading) × IsLeading places.now leading
        × IsLeastOf (IsBad leading) node) }
{
    let leading = leading_of(alloc, places)?;
    let ends = end_marks(alloc, &leading, rows)?;
    Ok(lesser(first_unclosed(&leading, rows, &ends), first_unopened(rows)))
}

/// Marks the places from which a run reaches an end.
fn end_marks(alloc: Global, leading: &Leading, rows: &[Lst<usize>]) -> Mem<Vec<bool>>
    requires inside { IsLeadingInside leading.now }
    requires rows { AreClosersIn leading.now rows.now }
    ensures len { IfOk result (λ marks. length marks.items ≡ length leading.now.sources.items) }
    ensures marks { IfOk result (λ marks. AreEndMarks leading.now marks.items) }
{
    let rules = rules_of(alloc, leading, rows)?;
    let marks = closure(alloc, leading.sources.len(), &rules, sources_of(leading, 1))?;
    Ok(marks)
}

/// The places from which steps lead into the place.
fn sources_of(leading: &Leading, n: usize) -> &[usize]
    ensures { result.now ≡ row_of leading.now.sources.items n }
{
    match leading.sources.get(n) {
        Some(row) => row.as_slice(),
        None => &[],
    }
}

/// A place reaches an end where one does at which a run from it goes on.
fn rules_of(alloc: Global, leading: &Leading, rows: &[Lst<usize>]) -> Mem<Vec<Rule>>
    requires rows { AreClosersIn leading.now rows.now }
    requires marks { length leading.now.marks.items ≡ length leading.now.sources.items }
    ensures { IfOk result (λ rules. AreNextRules leading.now rules.items) }
{
    let mut rules = Vec::new(alloc);
    push_rules(&mut rules, leading, rows)?;
    Ok(rules)
}

/// Adds the rules of the steps into all places.
fn push_rules(
    rules: &mut Vec<Rule>,
    leading: &Leading,
    rows: &[Lst<usize>],
) -> Result<(), AllocError>
    requires rows { AreClosersIn leading.now rows.now }
    requires marks { length leading.now.marks.items ≡ length leading.now.sources.items }
    ensures { OnOk result (Gains rules.old.items rules.new.items (IsNextRule leading.now)) }
{
    for n in 0..leading.sources.len() {
        push_steps(rules, leading, n)?;
        push_jumps(rules, leading, rows[n].as_slice(), n)?;
    }
    Ok(())
}

/// Adds the rules of the steps into the place that neither open nor close a context.
fn push_steps(rules: &mut Vec<Rule>, leading: &Leading, n: usize) -> Result<(), AllocError>
    requires place { n < length leading.now.sources.items }
    requires mark { n < length leading.now.marks.items }
    ensures { OnOk result (Gains rules.old.items rules.new.items (IsStepRule leading.now n)) }
{
    if !leading.marks[n].ordinary {
        return Ok(());
    }
    push_each(rules, leading.sources[n].as_slice(), n)
}

/// Adds the rules of the contexts that open into the place, which are closed into these.
fn push_jumps(
    rules: &mut Vec<Rule>,
    leading: &Leading,
    closers: &[usize],
    n: usize,
) -> Result<(), AllocError>
    requires place { n < length leading.now.sources.items }
    requires mark { n < length leading.now.marks.items }
    ensures { OnOk result
        (Gains rules.old.items rules.new.items (IsJumpRule leading.now closers.now n)) }
{
    if !is_opening(leading.marks[n]) {
        return Ok(());
    }
    for closer in closers {
        push_each(rules, leading.sources[n].as_slice(), *closer)?;
    }
    Ok(())
}

/// Adds a rule for each source: it holds where the premise does.
fn push_each(rules: &mut Vec<Rule>, sources: &[usize], premise: usize) -> Result<(), AllocError>
    ensures { OnOk result
        (Gains rules.old.items rules.new.items (IsRuleFrom sources.now premise)) }
{
    for source in sources {
        rules.push(Rule {
            place: *source,
            first: premise,
            second: premise,
        })?;
    }
    Ok(())
}

/// The least place into which a context opens that isn't closed, or not in one place.
fn first_unclosed(leading: &Leading, rows: &[Lst<usize>], ends: &[bool]) -> Option<usize>
    requires rows { AreClosersIn leading.now rows.now }
    requires marks { length leading.now.marks.items ≡ length leading.now.sources.items }
    requires ends { AreEndMarks leading.now ends.now }
    requires len { length ends.now ≡ length leading.now.sources.items }
    ensures { IsLeastOf (IsUnclosed leading.now) result }
{
    for n in 0..leading.sources.len() {
        if is_unclosed(leading, rows[n].as_slice(), ends[n], n) {
            return Some(n);
        }
    }
    None
}

/// Whether a context opens into the place that isn't closed, or not in one place.
fn is_unclosed(leading: &Leading, closers: &[usize], is_end: bool, n: usize) -> bool
    requires place { n < length leading.now.sources.items }
    requires mark { n < length leading.now.marks.items }
    requires closers { (c : ℕ) → Contains closers.now c ↔ Closes leading.now n c }
    requires end { (is_end ≡ true) ↔ Ends leading.now n }
    ensures { IsTrue result ↔ IsUnclosed leading.now n }
{
    if is_open_long(leading, closers, is_end, n) {
        return true;
    }
    is_forked(leading, closers, n)
}

/// Whether a context opens into the place that isn't closed before an end.
fn is_open_long(leading: &Leading, closers: &[usize], is_end: bool, n: usize) -> bool
    requires place { n < length leading.now.sources.items }
    requires mark { n < length leading.now.marks.items }
    requires closers { (c : ℕ) → Contains closers.now c ↔ Closes leading.now n c }
    requires end { (is_end ≡ true) ↔ Ends leading.now n }
    ensures { IsTrue result ↔ IsOpenLong leading.now n }
{
    if leading.sources[n].as_slice().is_empty() {
        return false;
    }
    if !is_opening(leading.marks[n]) {
        return false;
    }
    if closers.is_empty() {
        return true;
    }
    is_end
}

/// Whether a context that may not follow opens into the place, and is closed into two.
fn is_forked(leading: &Leading, closers: &[usize], n: usize) -> bool
    requires place { n < length leading.now.sources.items }
    requires mark { n < length leading.now.marks.items }
    requires closers { (c : ℕ) → Contains closers.now c ↔ Closes leading.now n c }
    ensures { IsTrue result ↔ IsForked leading.now n }
{
    if leading.sources[n].as_slice().is_empty() {
        return false;
    }
    if !leading.marks[n].negative {
        return false;
    }
    has_two(closers)
}

/// Whether two of the places differ.
fn has_two(closers: &[usize]) -> bool
    ensures { IsTrue result ↔ HasTwo closers.now }
{
    for closer in closers {
        if *closer != closers[0] {
            return true;
        }
    }
    false
}

/// The least place into which a run from the start closes what it didn't open.
fn first_unopened(rows: &[Lst<usize>]) -> Option<usize>
    ensures { IsLeastOf (λ n. Contains (row_of rows.now 0) n) result }
{
    match rows.first() {
        Some(row) => row.as_slice().iter().copied().min(),
        None => None,
    }
}

/// The lesser of both.
fn lesser(first: Option<usize>, second: Option<usize>) -> Option<usize>
    ensures { IsLesser first second result }
{
    match (first, second) {
        (Some(first), Some(second)) => Some(first.min(second)),
        (Some(first), None) => Some(first),
        (None, second) => second,
    }
}
