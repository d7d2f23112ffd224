//! The hits that a policy keeps of given ones.

ghost use Rattle.std.specs.Prelude.{◌≡◌, ◌↔◌, ◌++◌, ◌∷◌, [], List, Contains, IfOk, IsTrue, OnOk};
ghost use Rattle.ux_outputs.specs.declared.hit.Hit.{Hit};
ghost use Rattle.ux_locate.specs.Index.{IsKeptListing, StandsBefore};
ghost use Rattle.ux_locate.specs.Keeping.{AreBest, AreKept, IsReached, first_of, last_in, last_of, reach_of};
ghost use Rattle.ux_locate.specs.Order.{AreInOrder};

use crate::best::add_best;
use crate::sorting::sort_hits;
use std::alloc::Global;
use ux_base::{Mem, Policy};
use ux_outputs::{Hit, Span};

/// The hits that the policy keeps of these, each once, by first token, last token and the bytes of the
/// text. Takes the time of sorting them, and no copy of a text.
pub fn keep(alloc: Global, policy: Policy, hits: Vec<Hit>) -> Mem<Vec<Hit>>
    ensures { IfOk result (λ kept. IsKeptListing policy (Contains hits.items) kept.items) }
{
    let mut hits = hits;
    sort_hits(&mut hits);
    let mut kept = kept_of(alloc, policy, hits)?;
    sort_hits(&mut kept);
    Ok(kept)
}

/// The hits that the policy keeps of these, which are in order.
fn kept_of(alloc: Global, policy: Policy, hits: Vec<Hit>) -> Mem<Vec<Hit>>
    requires { AreInOrder StandsBefore hits.items }
    ensures { IfOk result (λ kept. AreKept policy first_of last_of (Contains hits.items) kept.items) }
{
    let mut first = 0;
    let mut best = Vec::new(alloc);
    let mut kept = Vec::new(alloc);
    for hit in hits {
        if hit.first != first {
            kept.append(&mut best)?;
            first = hit.first;
        }
        add_apart(policy, kept.as_slice(), &mut best, hit)?;
    }
    kept.append(&mut best)?;
    Ok(kept)
}

/// Adds the hit to the best of those that begin with it, unless the kept ones leave it out.
fn add_apart(policy: Policy, kept: &[Hit], best: &mut Vec<Hit>, hit: Hit) -> Mem<()>
    ensures out { OnOk result (IsReached policy (reach_of last_of kept.now) hit.first →
        best.new.items ≡ best.old.items) }
    ensures added { OnOk result ((IsReached policy (reach_of last_of kept.now) hit.first → ⊥) →
        (seen : List Hit) → AreBest policy last_of (Contains seen) best.old.items →
        AreBest policy last_of (Contains (seen ++ hit ∷ [])) best.new.items) }
{
    if is_reached(policy, hits_reach(kept), hit.first as usize) {
        return Ok(());
    }
    add_best(policy, best, hit)
}

/// Whether hits that begin with this token are left out, since the last kept one ends with `reach`.
pub fn is_reached(policy: Policy, reach: Option<usize>, start: usize) -> bool
    ensures { IsTrue result ↔ IsReached policy reach start }
{
    match (policy, reach) {
        (Policy::Longest | Policy::Shortest, Some(last)) => start <= last,
        (Policy::All, _) | (_, None) => false,
    }
}

/// The last token of the last hit.
pub fn hits_reach(hits: &[Hit]) -> Option<usize>
    ensures { result ≡ reach_of last_of hits.now }
{
    hits.last().map(|hit| hit.last as usize)
}

/// The last token of the last span.
pub fn spans_reach(spans: &[Span]) -> Option<usize>
    ensures { result ≡ reach_of last_in spans.now }
{
    spans.last().map(|span| span.last)
}
