//! What is kept of links between places.
//!
//! All rules are applied at once, by two passes over the links, and the automaton that comes out is
//! determinised from its end. Where that takes too many steps, they are applied in turn: the first
//! one so, and a later one goes over what is left, and makes another automaton only where it takes
//! something away.

ghost use Rattle.std.specs.Prelude.{◌≡◌, ◌<◌, [], None, Option, IfOk, IfSome, MatchOption};
ghost use Rattle.ux_subsets.specs.Paths.{IsAscending, IsNormal};
ghost use Rattle.ux_elag.specs.Numbers.{IsKept};
ghost use Rattle.ux_monitor.specs.Parts.{IsProductOf};
ghost use Rattle.ux_elag.specs.Prepared.{SatisfiesAll, SatisfiesOne, parts_in};

use crate::prepared_rule::PreparedRule;
use std::alloc::Global;
use ux_base::Mem;
use ux_monitor::{
    Monitor, Part, Product, keep_satisfying, keep_satisfying_again, keep_satisfying_each,
};
use ux_subsets::Automaton;

/// What the rules keep of the source: all at once, or one after the other where that takes too many
/// steps.
pub(crate) fn keep(
    alloc: Global,
    product: &mut Product,
    rules: &mut [PreparedRule],
    source: Automaton,
) -> Mem<Option<Automaton>>
    requires some { 0 < source.last }
    requires ascending { IsAscending source.last source.links.items }
    requires product { IsProductOf (parts_in rules.old) product.old }
    ensures same { rules.new ≡ rules.old }
    ensures product { IsProductOf (parts_in rules.old) product.new }
    ensures kept { IfOk result (IsKept (SatisfiesAll rules.old) source.last source.links.items) }
{
    match keep_at_once(alloc, product, rules, &source)? {
        Some(kept) => Ok(kept),
        None => keep_each(alloc, rules, source),
    }
}

/// What the rules keep of the source, all at once. Nothing where that takes too many steps.
fn keep_at_once(
    alloc: Global,
    product: &mut Product,
    rules: &[PreparedRule],
    source: &Automaton,
) -> Mem<Option<Option<Automaton>>>
    requires some { 0 < source.now.last }
    requires ascending { IsAscending source.now.last source.now.links.items }
    requires product { IsProductOf (parts_in rules.now) product.old }
    ensures product { IsProductOf (parts_in rules.now) product.new }
    ensures kept { IfOk result (λ answer. IfSome answer
        (IsKept (SatisfiesAll rules.now) source.now.last source.now.links.items)) }
{
    let parts = parts_of(alloc, rules)?;
    Ok(keep_satisfying_each(
        alloc,
        product,
        parts.as_slice(),
        source.links.as_slice(),
        source.last,
    ))
}

/// The rules as parts of their product.
pub(crate) fn parts_of<'a>(alloc: Global, rules: &'a [PreparedRule]) -> Mem<Vec<Part<'a>>>
    ensures { IfOk result (λ parts. parts.items ≡ parts_in rules.now) }
{
    let mut parts = Vec::with_capacity(alloc, rules.len())?;
    for rule in rules {
        parts.push(Part::new(&rule.monitor, rule.kinds.as_slice()))?;
    }
    Ok(parts)
}

/// What the rules keep of the source, one after the other. Without a rule all lists are kept.
pub(crate) fn keep_each(
    alloc: Global,
    rules: &mut [PreparedRule],
    source: Automaton,
) -> Mem<Option<Automaton>>
    requires some { 0 < source.last }
    requires ascending { IsAscending source.last source.links.items }
    ensures same { rules.new ≡ rules.old }
    ensures kept { IfOk result (IsKept (SatisfiesAll rules.old) source.last source.links.items) }
{
    if rules.is_empty() {
        return keep_all(alloc, source);
    }
    let mut kept = keep_one(alloc, &mut rules[0], source)?;
    for index in 1..rules.len() {
        kept = keep_more(alloc, &mut rules[index], kept)?;
    }
    Ok(kept)
}

/// All lists of the source.
fn keep_all(alloc: Global, source: Automaton) -> Mem<Option<Automaton>>
    requires some { 0 < source.last }
    requires ascending { IsAscending source.last source.links.items }
    ensures { IfOk result (IsKept (SatisfiesAll []) source.last source.links.items) }
{
    let mut monitor = Monitor::new(alloc, &[], &[1])?;
    keep_satisfying(
        alloc,
        &mut monitor,
        &[],
        source.links.as_slice(),
        source.last,
    )
}

/// What the rule keeps of the source.
fn keep_one(alloc: Global, rule: &mut PreparedRule, source: Automaton) -> Mem<Option<Automaton>>
    requires some { 0 < source.last }
    requires ascending { IsAscending source.last source.links.items }
    ensures same { rule.new ≡ rule.old }
    ensures kept { IfOk result (IsKept (SatisfiesOne rule.old) source.last source.links.items) }
{
    keep_satisfying(
        alloc,
        &mut rule.monitor,
        rule.kinds.as_slice(),
        source.links.as_slice(),
        source.last,
    )
}

/// What the rule keeps of the source, which is what a rule kept. Where that is all of it, this is
/// the source itself.
fn keep_again(alloc: Global, rule: &mut PreparedRule, source: Automaton) -> Mem<Option<Automaton>>
    requires { IsNormal source.last source.links.items }
    ensures same { rule.new ≡ rule.old }
    ensures kept { IfOk result (IsKept (SatisfiesOne rule.old) source.last source.links.items) }
{
    keep_satisfying_again(alloc, &mut rule.monitor, rule.kinds.as_slice(), source)
}

/// What the rule keeps of what was kept.
fn keep_more(
    alloc: Global,
    rule: &mut PreparedRule,
    kept: Option<Automaton>,
) -> Mem<Option<Automaton>>
    requires { IfSome kept (λ source. IsNormal source.last source.links.items) }
    ensures same { rule.new ≡ rule.old }
    ensures kept { IfOk result (λ left. MatchOption kept (left ≡ None)
        (λ source. IsKept (SatisfiesOne rule.old) source.last source.links.items left)) }
{
    match kept {
        Some(source) => keep_again(alloc, rule, source),
        None => Ok(None),
    }
}
