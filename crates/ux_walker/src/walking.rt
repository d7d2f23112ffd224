//! A walk from a start to all its ends, or to the first of them.
//!
//! The least position of the agenda is taken, and the automaton tells where a walk goes on from the
//! front there: each of these lies further on, so every position is taken once. An end is noted when
//! its position is taken, which puts them in order.

ghost use Rattle.std.specs.Prelude.{◌≡◌, ◌⊎◌, ◌↔◌, ◌+◌, ◌<◌, ◌≤◌, ◌++◌, ◌∷◌, [], ℕ, List, Contains, IsTrue, OnOk, length};
ghost use Rattle.ux_outputs.specs.Rendering.{skip as skip_of};
ghost use Rattle.ux_automaton.specs.Fronts.{Keeps};
ghost use Rattle.ux_walker.specs.Walking.{AreReady, FrontLeads, IsFirstWalk, IsUnderWay, LandingsLead, MayGoOn, Notes, VisitsLead};

use crate::agenda::{Agenda, Visit};
use std::alloc::Global;
use ux_automaton::{Automaton, Landing, Step};
use ux_base::Mem;
use ux_tokens::Text;
use ux_walk::matching::skip;

/// Lets `ends` be the positions after the start to which walks from it lead, in order.
pub fn walk(
    alloc: Global,
    text: &Text,
    automaton: &mut Automaton,
    agenda: &mut Agenda,
    start: usize,
    ends: &mut Vec<usize>,
) -> Mem<()>
    requires text { automaton.now.setting.tokens ≡ text.now }
    requires inside { start ≤ length text.now }
    ensures same { OnOk result (automaton.new.setting ≡ automaton.old.setting) }
    ensures ends { OnOk result (IsUnderWay automaton.new start [] ends.new.items) }
{
    begin(alloc, automaton, agenda, start, ends)?;
    while let Some(visit) = agenda.take_least() {
        go_on(alloc, text, automaton, agenda, start, visit, ends)?;
    }
    Ok(())
}

/// Lets `ends` be the first position after the start to which walks from it lead, if there is any.
pub fn walk_to_first(
    alloc: Global,
    text: &Text,
    automaton: &mut Automaton,
    agenda: &mut Agenda,
    start: usize,
    ends: &mut Vec<usize>,
) -> Mem<()>
    requires text { automaton.now.setting.tokens ≡ text.now }
    requires inside { start ≤ length text.now }
    ensures same { OnOk result (automaton.new.setting ≡ automaton.old.setting) }
    ensures walked { OnOk result (IsFirstWalk automaton.new start ends.new.items) }
{
    begin(alloc, automaton, agenda, start, ends)?;
    while let Some(visit) = agenda.take_least() {
        go_on(alloc, text, automaton, agenda, start, visit, ends)?;
        if !ends.is_empty() {
            return Ok(());
        }
    }
    Ok(())
}

/// Lets the front in which walks begin wait at the start alone, with no end noted.
fn begin(
    alloc: Global,
    automaton: &mut Automaton,
    agenda: &mut Agenda,
    start: usize,
    ends: &mut Vec<usize>,
) -> Mem<()>
    requires { start ≤ length automaton.now.setting.tokens }
    ensures same { OnOk result (automaton.new.setting ≡ automaton.old.setting) }
    ensures begun { OnOk result (IsUnderWay automaton.new start agenda.new ends.new.items) }
    ensures none { OnOk result (ends.new.items ≡ []) }
{
    ends.clear();
    agenda.clear();
    let front = automaton.begin(alloc)?;
    agenda.set(start, front)?;
    Ok(())
}

/// Goes on from a visit that was taken: notes its end, and puts where it leads on the agenda.
fn go_on(
    alloc: Global,
    text: &Text,
    automaton: &mut Automaton,
    agenda: &mut Agenda,
    start: usize,
    visit: Visit,
    ends: &mut Vec<usize>,
) -> Mem<()>
    requires text { automaton.now.setting.tokens ≡ text.now }
    requires under_way { IsUnderWay automaton.now start (agenda.now ++ visit ∷ []) ends.now.items }
    requires least { AreReady automaton.now (visit.at + 1) agenda.now }
    ensures same { OnOk result (automaton.new.setting ≡ automaton.old.setting) }
    ensures under_way { OnOk result (IsUnderWay automaton.new start agenda.new ends.new.items) }
    ensures further { OnOk result (AreReady automaton.new (visit.at + 1) agenda.new) }
    ensures noted { OnOk result ((ends.new.items ≡ ends.old.items)
        ⊎ (ends.new.items ≡ ends.old.items ++ visit.at ∷ [])) }
{
    let step = automaton.step(alloc, visit.front, visit.at)?;
    note_end(start, visit.at, &step, ends)?;
    put_step(alloc, text, automaton, agenda, visit.at, &step)?;
    Ok(())
}

/// Notes the position, if a walk ends there after the start.
fn note_end(start: usize, at: usize, step: &Step, ends: &mut Vec<usize>) -> Mem<()>
    ensures { OnOk result (Notes step.now start at ends.old.items ends.new.items) }
{
    if step.ends && start < at {
        ends.push(at)?;
    }
    Ok(())
}

/// Puts where a step from a position leads on the agenda.
fn put_step(
    alloc: Global,
    text: &Text,
    automaton: &mut Automaton,
    agenda: &mut Agenda,
    at: usize,
    step: &Step,
) -> Mem<()>
    requires text { automaton.now.setting.tokens ≡ text.now }
    requires inside { at ≤ length text.now }
    requires space { MayGoOn automaton.now step.now.over_space (at + 1) }
    requires token { MayGoOn automaton.now step.now.over_token (skip_of text.now at + 1) }
    requires landings { (landing : Landing) → Contains step.now.landings.items landing →
        MayGoOn automaton.now landing.front landing.at × (at + 1 ≤ landing.at) }
    requires ready { AreReady automaton.now (at + 1) agenda.now }
    ensures keeps { OnOk result (Keeps automaton.old automaton.new) }
    ensures ready { OnOk result (AreReady automaton.new (at + 1) agenda.new) }
    ensures leads { OnOk result ((e : ℕ) → VisitsLead automaton.new agenda.new e
        ↔ (VisitsLead automaton.old agenda.old e
        ⊎ (FrontLeads automaton.old step.now.over_space (at + 1) e
        ⊎ (FrontLeads automaton.old step.now.over_token (skip_of text.now at + 1) e
        ⊎ LandingsLead automaton.old step.now.landings.items e)))) }
{
    // A text has few tokens, so positions behind its end are numbers too.
    text.len();
    let next = at + 1;
    let behind = skip(text, at) + 1;
    put(alloc, automaton, agenda, next, step.over_space)?;
    put(alloc, automaton, agenda, behind, step.over_token)?;
    put_landings(alloc, automaton, agenda, next, step.landings.as_slice())
}

/// Puts these landings on the agenda.
fn put_landings(
    alloc: Global,
    automaton: &mut Automaton,
    agenda: &mut Agenda,
    low: usize,
    landings: &[Landing],
) -> Mem<()>
    requires landings { (landing : Landing) → Contains landings.now landing →
        MayGoOn automaton.now landing.front landing.at × (low ≤ landing.at) }
    requires ready { AreReady automaton.now low agenda.now }
    ensures keeps { OnOk result (Keeps automaton.old automaton.new) }
    ensures ready { OnOk result (AreReady automaton.new low agenda.new) }
    ensures leads { OnOk result ((e : ℕ) → VisitsLead automaton.new agenda.new e
        ↔ (VisitsLead automaton.old agenda.old e ⊎ LandingsLead automaton.old landings.now e)) }
{
    for landing in landings {
        put(alloc, automaton, agenda, landing.at, landing.front)?;
    }
    Ok(())
}

/// Lets the front wait at the position, joined with one that waits there. The empty front needn't.
fn put(
    alloc: Global,
    automaton: &mut Automaton,
    agenda: &mut Agenda,
    at: usize,
    front: usize,
) -> Mem<()>
    requires may { MayGoOn automaton.now front at }
    requires ready { AreReady automaton.now 0 agenda.now }
    ensures keeps { OnOk result (Keeps automaton.old automaton.new) }
    ensures ready { (low : ℕ) → low ≤ at → AreReady automaton.old low agenda.old →
        OnOk result (AreReady automaton.new low agenda.new) }
    ensures leads { OnOk result ((e : ℕ) → VisitsLead automaton.new agenda.new e
        ↔ (VisitsLead automaton.old agenda.old e ⊎ FrontLeads automaton.old front at e)) }
{
    if front == 0 {
        return Ok(());
    }
    match agenda.front_at(at) {
        Some(waiting) => {
            let joined = automaton.join(alloc, waiting, front)?;
            agenda.set(at, joined)?;
        },
        None => agenda.set(at, front)?,
    }
    Ok(())
}
