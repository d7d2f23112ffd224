//! Tests of what the searches ask of their callers.

ghost use Rattle.std.specs.Prelude.{◌≡◌, ℕ, ◌<◌, ◌≤◌, ◌↔◌, List, length, IsTrue, Contains, get_or};
ghost use Rattle.ux_digraph.specs.Paths.{IsInside};
ghost use Rattle.ux_digraph.specs.Rules.{AreRulesInside};
ghost use Rattle.ux_digraph.specs.Checking.{AreBelow, IsRuleBelow, AreRulesBelowSize};

use crate::closing::Rule;
use ux_base::Lst;

/// Whether each edge leads to a node of the graph.
pub fn are_edges_inside(edges: &[Lst<usize>]) -> bool
    ensures { IsTrue result ↔ IsInside edges.now }
{
    for row in edges {
        if !are_below(row.as_slice(), edges.len()) {
            return false;
        }
    }
    true
}

/// Whether the rules and the facts speak of the places below the size.
pub fn are_rules_inside(size: usize, rules: &[Rule], facts: &[usize]) -> bool
    ensures { IsTrue result ↔ AreRulesInside size rules.now facts.now }
{
    are_rules_below(rules, size) && are_below(facts, size)
}

/// Whether each number is below the bound.
fn are_below(numbers: &[usize], bound: usize) -> bool
    ensures { IsTrue result ↔ AreBelow numbers.now bound }
{
    for number in numbers {
        if *number >= bound {
            return false;
        }
    }
    true
}

/// Whether each rule speaks of the places below the size.
fn are_rules_below(rules: &[Rule], size: usize) -> bool
    ensures { IsTrue result ↔ AreRulesBelowSize rules.now size }
{
    for rule in rules {
        if !is_rule_below(*rule, size) {
            return false;
        }
    }
    true
}

/// Whether the rule speaks of the places below the size.
fn is_rule_below(rule: Rule, size: usize) -> bool
    ensures { IsTrue result ↔ IsRuleBelow size rule }
{
    rule.place < size && rule.first < size && rule.second < size
}
