//! The least set of places that is closed under rules with two premises.
//!
//! A list holds the places that were marked and not looked at yet. When a place is looked at, each
//! rule that it is a premise of is applied if its other premise is marked too; else the rule comes
//! again with that premise. So each rule is tried at most twice, and the time is linear in the
//! size, the rules and the facts.

ghost use Rattle.std.specs.Prelude.{◌≡◌, ℕ, ◌<◌, ◌≤◌, ◌↔◌, List, [], ◌∷◌, ◌++◌, length, map, IfOk, OnOk, Contains, get_or, slice_set, false, true};
ghost use Rattle.ux_digraph.specs.Rules.{Derived, AreRulesInside, is_marked_at};
ghost use Rattle.ux_digraph.specs.Marking.{HaveUses, Added, Applied, IsRowDone, work_left};
ghost use Rattle.ux_digraph.specs.declared.closing.Rule.{Rule};

use std::alloc::{AllocError, Global};
use ux_base::Mem;

/// A place that holds where two others do, its premises. They may be one and the same.
#[derive(Clone, Copy)]
pub struct Rule {
    /// The place that then holds.
    pub place: usize,
    /// One premise.
    pub first: usize,
    /// The other premise.
    pub second: usize,
}

/// Whether each place below the size follows from the facts by the rules.
pub fn closure(alloc: Global, size: usize, rules: &[Rule], facts: &[usize]) -> Mem<Vec<bool>>
    requires inside { AreRulesInside size rules.now facts.now }
    ensures len { IfOk result (λ marks. length marks.items ≡ size) }
    ensures marks { IfOk result (λ marks.
        (x : ℕ) → (is_marked_at marks.items x ≡ true) ↔ Derived rules.now facts.now x) }
{
    let uses = uses_of(alloc, size, rules)?;
    let mut marks = vec![in alloc; false; size]?;
    let mut work = Vec::new(alloc);
    for fact in facts {
        add(&mut marks, &mut work, *fact)?;
    }
    while let Some(place) = work.pop() {
        apply_all(row_of(&uses, place), &mut marks, &mut work)?;
    }
    Ok(marks)
}

/// The rules that each place is a premise of.
fn uses_of(alloc: Global, size: usize, rules: &[Rule]) -> Result<Vec<Vec<Rule>>, AllocError>
    requires inside { AreRulesInside size rules.now [] }
    ensures len { IfOk result (λ uses. length uses.items ≡ size) }
    ensures uses { IfOk result (λ uses. HaveUses rules.now (map (λ row. row.items) uses.items)) }
{
    let mut uses = empty_rows(alloc, size)?;
    for rule in rules {
        put(&mut uses, rule.first, *rule)?;
        put(&mut uses, rule.second, *rule)?;
    }
    Ok(uses)
}

/// An empty row for each place.
fn empty_rows(alloc: Global, size: usize) -> Result<Vec<Vec<Rule>>, AllocError>
    ensures len { IfOk result (λ rows. length rows.items ≡ size) }
    ensures empty { IfOk result (λ rows.
        (x : ℕ) → get_or (map (λ row. row.items) rows.items) x [] ≡ []) }
{
    let mut rows = Vec::new(alloc);
    for place in 0..size {
        rows.push(Vec::new(alloc))?;
    }
    Ok(rows)
}

/// Puts the rule at the end of the row of the place.
fn put(uses: &mut Vec<Vec<Rule>>, place: usize, rule: Rule) -> Result<(), AllocError>
    requires inside { place < length uses.now.items }
    ensures len { OnOk result (length uses.new.items ≡ length uses.old.items) }
    ensures put { OnOk result (map (λ row. row.items) uses.new.items ≡
        slice_set (map (λ row. row.items) uses.old.items) place
        (get_or (map (λ row. row.items) uses.old.items) place [] ++ rule ∷ [])) }
{
    uses[place].push(rule)?;
    Ok(())
}

/// The rules that the place is a premise of.
fn row_of(uses: &Vec<Vec<Rule>>, place: usize) -> &[Rule]
    ensures { result.now ≡ get_or (map (λ row. row.items) uses.now.items) place [] }
{
    match uses.get(place) {
        Some(row) => row.as_slice(),
        None => &[],
    }
}

/// Applies the rules of a row.
fn apply_all(row: &[Rule], marks: &mut Vec<bool>, work: &mut Vec<usize>) -> Result<(), AllocError>
    requires inside { AreRulesInside (length marks.now.items) row.now [] }
    ensures len { OnOk result (length marks.new.items ≡ length marks.old.items) }
    ensures done { OnOk result (IsRowDone row.now marks.old.items work.old.items
        marks.new.items work.new.items) }
    ensures left { OnOk result (work_left marks.new.items work.new.items
        ≤ work_left marks.old.items work.old.items) }
{
    for rule in row {
        apply(marks, work, *rule)?;
    }
    Ok(())
}

/// Applies a rule, if both premises are marked.
fn apply(marks: &mut Vec<bool>, work: &mut Vec<usize>, rule: Rule) -> Result<(), AllocError>
    requires place { rule.place < length marks.now.items }
    requires first { rule.first < length marks.now.items }
    requires second { rule.second < length marks.now.items }
    ensures len { OnOk result (length marks.new.items ≡ length marks.old.items) }
    ensures applied { OnOk result (Applied marks.old.items work.old.items rule
        marks.new.items work.new.items) }
    ensures left { OnOk result (work_left marks.new.items work.new.items
        ≤ work_left marks.old.items work.old.items) }
{
    if !marks[rule.first] {
        return Ok(());
    }
    if !marks[rule.second] {
        return Ok(());
    }
    add(marks, work, rule.place)?;
    Ok(())
}

/// Marks a place that is not marked, and notes it.
fn add(marks: &mut Vec<bool>, work: &mut Vec<usize>, place: usize) -> Result<(), AllocError>
    requires inside { place < length marks.now.items }
    ensures len { OnOk result (length marks.new.items ≡ length marks.old.items) }
    ensures added { OnOk result (Added marks.old.items work.old.items place
        marks.new.items work.new.items) }
    ensures left { OnOk result (work_left marks.new.items work.new.items
        ≤ work_left marks.old.items work.old.items) }
{
    if marks[place] {
        return Ok(());
    }
    marks[place] = true;
    work.push(place)?;
    Ok(())
}
