//! A rule, as places and steps.

ghost use Rattle.std.specs.Prelude.{◌≡◌, ◌+◌, ◌*◌, ◌↔◌, [], get_or, map, IfErr, IfOk, IsTrue, OnOk};
ghost use Rattle.ux_digraph.specs.Rules.{is_marked_at};
ghost use Rattle.ux_grf.specs.WellFormed.{IsWellFormed};
ghost use Rattle.ux_rules.specs.Rules.{AreInside, IsLeaving, IsRuleOf};
ghost use Rattle.ux_rules.specs.Refusing.{IsRuleGraph, Refuses};

use crate::calls::first_call;
use crate::draft::{Draft, draft_of};
use crate::error::RuleError;
use crate::leaving::leaving_of;
use crate::marks::{first_bad, is_marked};
use crate::phases::{PHASE_COUNT, phases_of};
use crate::step::Step;
use std::alloc::Global;
use std::marker::Model;
use ux_grf::Graph;

/// A rule. Contracts see it as the number of its places, and its steps.
#[derive(Drop)]
pub struct Rule {
    places: usize,
    steps: Vec<Step>,
    /// By place, the numbers of the steps that leave it.
    leaving: Vec<Vec<usize>>,
}

impl Model for Rule {
    ghost use Rattle.std.specs.Prelude.{map};
    ghost use Rattle.ux_rules.specs.Rules.{RuleSteps, AreInside, AreLeaving};

    ghost Value = { RuleSteps };

    ghost view = { λ rule. record { places = rule.places; steps = rule.steps.items } };

    ghost invariant = { λ rule. AreInside rule.places rule.steps.items
        × AreLeaving rule.steps.items (map (λ row. row.items) rule.leaving.items) };
}

impl Rule {
    /// The rule that the graph draws. It has a step for each item and target, at most two for each
    /// line, and one for the start; the work grows as they do.
    pub fn of(alloc: Global, graph: &Graph) -> Result<Rule, RuleError>
        requires formed { IsWellFormed graph.now }
        ensures ok { IfOk result (IsRuleOf graph.now) }
        ensures good { OnOk result (IsRuleGraph graph.now) }
        ensures err { IfErr result (Refuses graph.now) }
    {
        if let Some(node) = first_call(graph) {
            return Err(RuleError::Call { node: node as u32 });
        }
        let Draft { places, steps } = draft_of(alloc, graph)?;
        let found = phases_of(alloc, places, &steps)?;
        if let Some(node) = first_bad(graph, &found) {
            return Err(RuleError::BadMarks { node: node as u32 });
        }
        if !has_if(&found) {
            return Err(RuleError::NoIf);
        }
        let leaving = leaving_of(alloc, places, &steps)?;
        Ok(Rule {
            places,
            steps,
            leaving,
        })
    }

    /// How many places the rule has. They are numbered from 0.
    pub fn places(&self) -> usize
        ensures count { result ≡ self.now.places }
        ensures inside { AreInside self.now.places self.now.steps }
    {
        self.places
    }

    /// The steps of the rule.
    pub fn steps(&self) -> &[Step]
        ensures { result.now ≡ self.now.steps }
    {
        self.steps.as_slice()
    }

    /// The numbers of the steps that leave the place, which count from 0 in the list of all steps.
    pub fn leaving(&self, place: usize) -> &[usize]
        ensures { IsLeaving self.now.steps place result.now }
    {
        row_of(&self.leaving, place)
    }

    /// Whether the place is the end of the rule, which is place 1.
    pub fn is_end(&self, place: usize) -> bool
        ensures { IsTrue result ↔ (place ≡ 1) }
    {
        place == 1
    }
}

/// Whether the end is reached behind the third mark of an if-part.
fn has_if(found: &[bool]) -> bool
    ensures { result ≡ is_marked_at found.now (1 * 9 + 3) }
{
    is_marked(found, PHASE_COUNT + 3)
}

/// The row of the place; past the last, an empty one.
fn row_of(rows: &Vec<Vec<usize>>, place: usize) -> &[usize]
    ensures { result.now ≡ get_or (map (λ row. row.items) rows.now.items) place [] }
{
    match rows.get(place) {
        Some(row) => row.as_slice(),
        None => &[],
    }
}
