//! Of hits that begin together, those that a policy keeps.

ghost use Rattle.std.specs.Prelude.{◌≡◌, ◌++◌, ◌∷◌, [], List, Contains, OnOk, Some, slice_get};
ghost use Rattle.std.specs.List.Sorted.{IsStrictlyIncreasing};
ghost use Rattle.std.specs.Ordering.{MatchOrdering};
ghost use Rattle.ux_outputs.specs.declared.hit.Hit.{Hit};
ghost use Rattle.ux_locate.specs.Keeping.{AreBest, IsAsGood, Prefers, last_of};

use std::cmp::Ordering;
use ux_base::{Mem, Policy};
use ux_outputs::Hit;

/// Adds a hit to the best of those seen before that begin with it: the worse ones go.
pub fn add_best(policy: Policy, best: &mut Vec<Hit>, hit: Hit) -> Mem<()>
    ensures { OnOk result ((seen : List Hit) →
        AreBest policy last_of (Contains seen) best.old.items →
        AreBest policy last_of (Contains (seen ++ hit ∷ [])) best.new.items) }
{
    match compare_with(policy, best.as_slice(), &hit) {
        Ordering::Less => {},
        Ordering::Equal => best.push(hit)?,
        Ordering::Greater => {
            best.clear();
            best.push(hit)?;
        },
    }
    Ok(())
}

/// How the policy ranks the hit among the best ones, which rank the same.
fn compare_with(policy: Policy, best: &[Hit], hit: &Hit) -> Ordering
    ensures { MatchOrdering result
        ((other : Hit) × (slice_get best.now 0 ≡ Some other) × Prefers policy other.last hit.now.last)
        ((other : Hit) → slice_get best.now 0 ≡ Some other →
        IsAsGood policy hit.now.last other.last × IsAsGood policy other.last hit.now.last)
        ((other : Hit) × (slice_get best.now 0 ≡ Some other) × Prefers policy hit.now.last other.last) }
{
    match best.first() {
        Some(other) => compare(policy, hit.last, other.last),
        None => Ordering::Equal,
    }
}

/// How the policy ranks hits that begin together, by their last tokens: the greater one is preferred.
fn compare(policy: Policy, last: u32, other: u32) -> Ordering
    ensures { MatchOrdering result (Prefers policy other last)
        (IsAsGood policy last other × IsAsGood policy other last) (Prefers policy last other) }
{
    match policy {
        Policy::All => Ordering::Equal,
        Policy::Longest => last.cmp(&other),
        Policy::Shortest => other.cmp(&last),
    }
}

/// The ends of hits from one start up to which the policy keeps one.
pub fn best_ends(policy: Policy, ends: &[usize]) -> &[usize]
    requires { IsStrictlyIncreasing ends.now }
    ensures { AreBest policy (λ end. end) (Contains ends.now) result.now }
{
    match policy {
        Policy::All => ends,
        Policy::Longest => &ends[ends.len().saturating_sub(1)..],
        Policy::Shortest => &ends[..ends.len().min(1)],
    }
}
