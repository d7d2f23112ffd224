//! How chains of edges go on, as rules for a search through pairs of a state and a stage.

ghost use Rattle.std.specs.Prelude.{◌≡◌, ℕ, ◌<◌, ◌≤◌, IfOk, OnOk, Contains, length};
ghost use Rattle.ux_net.specs.Nets.{states_of};
ghost use Rattle.ux_net.specs.declared.state.Edge.{Edge};
ghost use Rattle.ux_marks.specs.Meeting.{Adds, AreRulesOf, IsRuleAlong, IsRuleIn, IsRuleTo, number_of, rule_along, stage_number as number_of_stage};

use crate::stage::{Stage, after};
use std::alloc::Global;
use ux_base::Mem;
use ux_digraph::closing::Rule;
use ux_net::{Edge, Net};

/// How many stages there are.
pub(crate) const STAGES: usize = 3;

/// For each edge of the main graph and each stage the rule that leads along the edge.
pub(crate) fn rules_of(alloc: Global, net: &Net) -> Mem<Vec<Rule>>
    ensures { IfOk result (λ rules. AreRulesOf (states_of net.now 1) rules.items) }
{
    let mut rules = Vec::new(alloc);
    // A net has a main graph.
    let _graphs = net.graphs();
    let count = net.states(1);
    for state in 0..count {
        push_from(&mut rules, state, net.edges(1, state), count)?;
    }
    Ok(rules)
}

/// Adds the rules along the edges of a state, as far as they lead to one of so many states.
fn push_from(rules: &mut Vec<Rule>, state: u32, edges: &[Edge], count: u32) -> Mem<()>
    ensures { OnOk result
        (Adds (IsRuleIn count state edges.now) rules.old.items rules.new.items) }
{
    for edge in edges {
        push_inside(rules, state, edge, count)?;
    }
    Ok(())
}

/// Adds the rules along an edge, if it leads to one of so many states.
fn push_inside(rules: &mut Vec<Rule>, state: u32, edge: &Edge, count: u32) -> Mem<()>
    ensures { OnOk result
        (Adds (IsRuleTo count state edge.now) rules.old.items rules.new.items) }
{
    if count <= edge.target {
        return Ok(());
    }
    push_along(rules, state, edge)
}

/// Adds the rules along an edge.
fn push_along(rules: &mut Vec<Rule>, state: u32, edge: &Edge) -> Mem<()>
    ensures { OnOk result (Adds (IsRuleAlong state edge.now) rules.old.items rules.new.items) }
{
    rules.push(along(state, edge, Stage::Before))?;
    rules.push(along(state, edge, Stage::Inside))?;
    rules.push(along(state, edge, Stage::Behind))?;
    Ok(())
}

/// The rule along an edge in a stage.
fn along(state: u32, edge: &Edge, stage: Stage) -> Rule
    ensures { result ≡ rule_along state edge.now stage }
{
    let first = number(state, stage);
    Rule {
        place: number(edge.target, after(stage, &edge.label)),
        first,
        second: first,
    }
}

/// The number of the pair of a state and a stage.
pub(crate) fn number(state: u32, stage: Stage) -> usize
    ensures { result ≡ number_of state stage }
{
    state as usize * STAGES + stage_number(stage)
}

/// The number of a stage.
fn stage_number(stage: Stage) -> usize
    ensures below { result < 3 }
    ensures is { result ≡ number_of_stage stage }
{
    match stage {
        Stage::Before => 0,
        Stage::Inside => 1,
        Stage::Behind => 2,
    }
}
