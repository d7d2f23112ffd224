//! The nodes to which a path leads from one node.

ghost use Rattle.std.specs.Prelude.{◌≡◌, ℕ, ◌<◌, ◌≤◌, ◌↔◌, List, length, take, IfOk, OnOk, Contains, get_or, false, true};
ghost use Rattle.ux_digraph.specs.Paths.{IsInside, Reaches};
ghost use Rattle.ux_digraph.specs.Rules.{is_marked_at};
ghost use Rattle.ux_digraph.specs.EdgeRules.{AreRulesBelow, AreRulesAdded};

use crate::closing::{Rule, closure};
use std::alloc::{AllocError, Global};
use ux_base::{Lst, Mem};

/// Whether a path leads from the start to each node. The start is reached too.
pub fn reached(alloc: Global, edges: &[Lst<usize>], start: usize) -> Mem<Vec<bool>>
    requires inside { IsInside edges.now }
    requires start { start < length edges.now }
    ensures len { IfOk result (λ marks. length marks.items ≡ length edges.now) }
    ensures marks { IfOk result (λ marks.
        (v : ℕ) → (is_marked_at marks.items v ≡ true) ↔ Reaches edges.now start v) }
{
    let rules = rules_of(alloc, edges)?;
    let marks = closure(alloc, edges.len(), &rules, &[start])?;
    Ok(marks)
}

/// For each edge the rule that its end is reached where its beginning is.
fn rules_of(alloc: Global, edges: &[Lst<usize>]) -> Result<Vec<Rule>, AllocError>
    ensures { IfOk result (λ rules. AreRulesBelow edges.now (length edges.now) rules.items) }
{
    let mut rules = Vec::new(alloc);
    for (node, row) in edges.iter().enumerate() {
        push_rules(&mut rules, node, row.as_slice())?;
    }
    Ok(rules)
}

/// Adds the rules of the edges of one node.
fn push_rules(rules: &mut Vec<Rule>, node: usize, row: &[usize]) -> Result<(), AllocError>
    ensures { OnOk result (AreRulesAdded rules.old.items node row.now rules.new.items) }
{
    for end in row {
        rules.push(Rule {
            place: *end,
            first: node,
            second: node,
        })?;
    }
    Ok(())
}
