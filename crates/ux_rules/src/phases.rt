//! Which marks the paths of a rule have met at its places.
//!
//! A path is in one of nine phases: it has met no mark (0), or one to four of which the first was
//! `<!>` (1 to 4) or `<=>` (5 to 8). Four stands for more than three. A search through the pairs of
//! a place and a phase finds the phases in which each place is reached. It is linear in the steps.

ghost use Rattle.std.specs.Prelude.{◌≡◌, ℕ, ◌+◌, ◌*◌, ◌<◌, ◌≤◌, ◌^◌, IfOk, OnOk, IsTrue, ◌↔◌, true, length};
ghost use Rattle.ux_rules.specs.Phases.{next_phase, bad_at, is_bad_item_at, is_short_at, AreRulesOf, AreRulesAdded, FindsPhases};
ghost use Rattle.ux_rules.specs.Rules.{AreInside};

use crate::step::{Sign, Step};
use std::alloc::{AllocError, Global};
use ux_base::{Mem, NoMemory};
use ux_digraph::closing::{Rule as Derivation, closure};

/// How many phases there are.
pub(crate) const PHASE_COUNT: usize = 9;

/// The phases of the places: place p is reached in phase k where the mark 9 p + k is set.
pub(crate) fn phases_of(alloc: Global, places: usize, steps: &[Step]) -> Mem<Vec<bool>>
    requires inside { AreInside places steps.now }
    ensures { IfOk result (λ marks. FindsPhases steps.now marks.items) }
{
    let size = places.checked_mul(PHASE_COUNT).ok_or(NoMemory)?;
    let rules = rules_of(alloc, places, steps)?;
    closure(alloc, size, &rules, &[0])
}

/// For each step and phase the rule that leads from the one pair to the other.
fn rules_of(alloc: Global, places: usize, steps: &[Step]) -> Result<Vec<Derivation>, AllocError>
    requires inside { AreInside places steps.now }
    requires room { places * 9 < 2 ^ 64 }
    ensures { IfOk result (λ rules. AreRulesOf steps.now rules.items) }
{
    let mut rules = Vec::new(alloc);
    for step in steps {
        push_rules(&mut rules, step)?;
    }
    Ok(rules)
}

/// Adds the rules of a step.
fn push_rules(rules: &mut Vec<Derivation>, step: &Step) -> Result<(), AllocError>
    requires from { step.now.from * 9 + 9 < 2 ^ 64 }
    requires to { step.now.to * 9 + 9 < 2 ^ 64 }
    ensures { OnOk result (AreRulesAdded rules.old.items step.now 9 rules.new.items) }
{
    for phase in 0..PHASE_COUNT {
        let first = step.from * PHASE_COUNT + phase;
        rules.push(Derivation {
            place: step.to * PHASE_COUNT + next(phase, &step.sign),
            first,
            second: first,
        })?;
    }
    Ok(())
}

/// The phase after a sign.
fn next(phase: usize, sign: &Sign) -> usize
    requires { phase < 9 }
    ensures next { result ≡ next_phase phase sign.now }
    ensures below { result < 9 }
{
    match sign {
        Sign::Free | Sign::Read(_) => phase,
        Sign::If | Sign::Then => match phase {
            0 => first_phase(sign),
            4 | 8 => phase,
            _ => phase + 1,
        },
    }
}

/// The phase after a first mark.
fn first_phase(mark: &Sign) -> usize
    ensures next { result ≡ next_phase 0 mark.now }
    ensures below { result < 9 }
{
    match mark {
        Sign::Free | Sign::Read(_) => 0,
        Sign::If => 1,
        Sign::Then => 5,
    }
}

/// Whether fewer than three marks were met.
pub(crate) fn is_short(phase: usize) -> bool
    ensures { result ≡ is_short_at phase }
{
    match phase {
        0 | 1 | 2 | 5 | 6 => true,
        _ => false,
    }
}

/// Whether the sign is bad in the phase.
pub(crate) fn is_bad(phase: usize, sign: &Sign) -> bool
    ensures { result ≡ bad_at phase sign.now }
{
    match sign {
        Sign::Free => false,
        Sign::If => matches!(phase, 3 | 5..=8),
        Sign::Then => matches!(phase, 7 | 1..=4),
        Sign::Read(_) => is_bad_item(phase),
    }
}

/// Whether an item is bad in the phase: before the first mark, or after the third.
pub(crate) fn is_bad_item(phase: usize) -> bool
    ensures { result ≡ is_bad_item_at phase }
{
    matches!(phase, 0 | 3 | 4 | 7 | 8)
}
