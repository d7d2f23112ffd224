//! The sets that are reached, by their least states.
//!
//! A link leads to a set whose states are all greater than the least one of the set that it leaves.
//! So where the sets with smaller least states have their links, the sets with the next one are
//! known. They get their numbers then, and are forgotten once they have their links: beside the
//! links only the sets are in memory to which links lead so far.

ghost use Rattle.std.specs.Prelude.{ℕ, ◌≡◌, ◌+◌, ◌<◌, ◌++◌, List, [], length, IfOk, OnOk};
ghost use Rattle.ux_subsets.specs.declared.automaton.Link.{Link};
ghost use Rattle.ux_subsets.specs.declared.sets.Set.{Set};
ghost use Rattle.ux_subsets.specs.Agenda.{filed_in};
ghost use Rattle.ux_subsets.specs.Paths.{IsAscending};
ghost use Rattle.ux_subsets.specs.Machines.{Grows};
ghost use Rattle.ux_subsets.specs.Departures.{AreByStart};
ghost use Rattle.ux_subsets.specs.Building.{states_of, states_at, seen_at, IsStage, IsReached, IsClosed};

use crate::agenda::Agenda;
use crate::automaton::{Automaton, Link, narrowed, number_behind};
use crate::departures::{Departures, by_start};
use crate::expanding::{are_both, expand};
use crate::machine::Machine;
use crate::numbering::numbered;
use crate::sets::{Over, Set, Waiting, add_link, first_set};
use std::alloc::Global;
use ux_base::Mem;

/// The links between the sets that are reached, the readings after which a path is over that
/// satisfies, how many sets there are, and whether each path that is over satisfies.
#[derive(Drop)]
pub struct Reached {
    pub links: Vec<Link>,
    pub overs: Vec<Over>,
    pub so_far: Progress,
}

/// How many sets have their numbers, and whether each path that is over satisfies.
#[derive(Clone, Copy, Drop)]
pub struct Progress {
    pub count: u32,
    pub all: bool,
}

/// The sets of states that are reached by the same lists, each with the machine's state.
pub(crate) fn reach<M: Machine>(
    alloc: Global,
    machine: &mut M,
    source: Vec<Link>,
    last: usize,
) -> Mem<Reached>
    requires { 0 < last }
    ensures grows { OnOk result (Grows (M.stands machine.old) (M.stands machine.new) (M.satisfies
        machine.old) (M.satisfies machine.new)) }
    ensures reached { IfOk result (λ reached. IsAscending last source.items → (sets : List Set) ×
        IsReached (M.stands machine.new) (M.satisfies machine.new) last source.items sets
        reached.links.items reached.overs.items reached.so_far.count reached.so_far.all) }
{
    let end = narrowed(last)?;
    let size = source.len();
    let table = by_start(alloc, source, end)?;
    let seen = machine.begin(alloc)?;
    let first = first_set(alloc, seen);
    let mut agenda = Agenda::new(alloc);
    let mut waiting = Vec::new(alloc);
    let mut links = Vec::with_capacity(alloc, size)?;
    let mut overs = Vec::new(alloc);
    let all = one_set(
        alloc,
        machine,
        &table,
        &first,
        0,
        end,
        &mut agenda,
        &mut waiting,
        &mut overs,
        true,
    )?;
    let so_far = all_states(
        alloc,
        machine,
        &table,
        end,
        &mut agenda,
        &mut waiting,
        &mut links,
        &mut overs,
        Progress { count: 1, all },
    )?;
    Ok(Reached {
        links,
        overs,
        so_far,
    })
}

/// Gives the sets that are reached their numbers and their links, but for the first one, which has
/// them.
fn all_states<M: Machine>(
    alloc: Global,
    machine: &mut M,
    table: &Departures,
    last: u32,
    agenda: &mut Agenda,
    waiting: &mut Vec<Waiting>,
    links: &mut Vec<Link>,
    overs: &mut Vec<Over>,
    begun: Progress,
) -> Mem<Progress>
    requires some { 0 < last }
    requires due { agenda.now.due ≡ 1 }
    ensures grows { OnOk result (Grows (M.stands machine.old) (M.stands machine.new) (M.satisfies
        machine.old) (M.satisfies machine.new)) }
    ensures reached { IfOk result (λ now. (source : List Link) (sets : List Set) (border : ℕ) →
        AreByStart source table.now.steps.items table.now.starts.items → IsAscending last source →
        begun.count ≡ length sets → waiting.old.items ≡ [] →
        IsStage (M.stands machine.old) (M.satisfies machine.old) last source sets links.old.items
        overs.old.items [] (filed_in agenda.old) (length sets) border 0 begun.all →
        (found : List Set) × IsReached (M.stands machine.new) (M.satisfies machine.new) last source
        found links.new.items overs.new.items now.count now.all) }
{
    let mut so_far = begun;
    for state in 1..last {
        so_far = one_state(
            alloc, machine, table, state, last, agenda, waiting, links, overs, so_far,
        )?;
    }
    Ok(so_far)
}

/// Gives the sets with this least state their numbers and their links.
fn one_state<M: Machine>(
    alloc: Global,
    machine: &mut M,
    table: &Departures,
    state: u32,
    last: u32,
    agenda: &mut Agenda,
    waiting: &mut Vec<Waiting>,
    links: &mut Vec<Link>,
    overs: &mut Vec<Over>,
    so_far: Progress,
) -> Mem<Progress>
    requires { agenda.now.due ≡ state }
    ensures due { OnOk result (agenda.new.due ≡ state + 1) }
    ensures grows { OnOk result (Grows (M.stands machine.old) (M.stands machine.new) (M.satisfies
        machine.old) (M.satisfies machine.new)) }
    ensures staged { IfOk result (λ now. (source : List Link) (sets : List Set) (border done : ℕ) →
        AreByStart source table.now.steps.items table.now.starts.items → IsAscending last source →
        state ≡ done + 1 → so_far.count ≡ length sets → waiting.old.items ≡ [] →
        IsStage (M.stands machine.old) (M.satisfies machine.old) last source sets links.old.items
        overs.old.items [] (filed_in agenda.old) (length sets) border done so_far.all →
        (waiting.new.items ≡ []) × ((found : List Set) × (now.count ≡ length found) ×
        IsStage (M.stands machine.new) (M.satisfies machine.new) last source found links.new.items
        overs.new.items [] (filed_in agenda.new) (length found) (length sets) state now.all)) }
{
    let due = agenda.take(alloc, state);
    let sets = numbered(alloc, so_far.count, links, due)?;
    let all = all_sets(
        alloc,
        machine,
        table,
        sets.as_slice(),
        so_far.count,
        last,
        agenda,
        waiting,
        overs,
        so_far.all,
    )?;
    let count = number_behind(so_far.count, sets.as_slice().len())?;
    Ok(Progress { count, all })
}

/// Gives the sets, whose numbers count on from `base`, their links. `all` tells whether each path so
/// far that is over was wanted, the answer of these sets' paths too.
fn all_sets<M: Machine>(
    alloc: Global,
    machine: &mut M,
    table: &Departures,
    sets: &[Set],
    base: u32,
    last: u32,
    agenda: &mut Agenda,
    waiting: &mut Vec<Waiting>,
    overs: &mut Vec<Over>,
    all: bool,
) -> Mem<bool>
    ensures due { OnOk result (agenda.new.due ≡ agenda.old.due) }
    ensures grows { OnOk result (Grows (M.stands machine.old) (M.stands machine.new) (M.satisfies
        machine.old) (M.satisfies machine.new)) }
    ensures staged { IfOk result (λ now. (source : List Link) (before : List Set)
        (links : List Link) (state : ℕ) →
        AreByStart source table.now.steps.items table.now.starts.items → IsAscending last source →
        base ≡ length before → waiting.old.items ≡ [] → agenda.old.due ≡ state + 1 →
        IsStage (M.stands machine.old) (M.satisfies machine.old) last source (before ++ sets.now)
        links overs.old.items [] (filed_in agenda.old) base base state all →
        (waiting.new.items ≡ []) × IsStage (M.stands machine.new) (M.satisfies machine.new) last
        source (before ++ sets.now) links overs.new.items [] (filed_in agenda.new)
        (base + length sets.now) base state now) }
{
    let mut now = all;
    for place in 0..sets.len() {
        let number = number_behind(base, place)?;
        now = one_set(
            alloc,
            machine,
            table,
            &sets[place],
            number,
            last,
            agenda,
            waiting,
            overs,
            now,
        )?;
    }
    Ok(now)
}

/// Gives the set with the number its links, which then wait for the sets to which they lead.
fn one_set<M: Machine>(
    alloc: Global,
    machine: &mut M,
    table: &Departures,
    set: &Set,
    number: u32,
    last: u32,
    agenda: &mut Agenda,
    waiting: &mut Vec<Waiting>,
    overs: &mut Vec<Over>,
    all: bool,
) -> Mem<bool>
    ensures due { OnOk result (agenda.new.due ≡ agenda.old.due) }
    ensures grows { OnOk result (Grows (M.stands machine.old) (M.stands machine.new) (M.satisfies
        machine.old) (M.satisfies machine.new)) }
    ensures staged { IfOk result (λ now. (source : List Link) (sets : List Set)
        (links : List Link) (border state : ℕ) →
        AreByStart source table.now.steps.items table.now.starts.items → IsAscending last source →
        states_at sets number ≡ states_of set.now → seen_at sets number ≡ set.now.seen →
        number < length sets → waiting.old.items ≡ [] → agenda.old.due ≡ state + 1 →
        IsStage (M.stands machine.old) (M.satisfies machine.old) last source sets links
        overs.old.items [] (filed_in agenda.old) number border state all →
        (waiting.new.items ≡ []) × IsStage (M.stands machine.new) (M.satisfies machine.new) last
        source sets links overs.new.items [] (filed_in agenda.new) (number + 1) border state now) }
{
    let is_kept = expand(alloc, machine, table, set, number, last, waiting, overs)?;
    let now = are_both(all, is_kept);
    while let Some(one) = waiting.pop() {
        agenda.file(alloc, one)?;
    }
    Ok(now)
}

/// The automaton of the sets that were reached: their links, and those to the last state.
pub(crate) fn closed(reached: Reached) -> Mem<Automaton>
    ensures { IfOk result (λ found. IsClosed reached.links.items reached.overs.items
        reached.so_far.count found.last found.links.items) }
{
    let Reached {
        mut links,
        overs,
        so_far,
    } = reached;
    close(&mut links, overs.as_slice(), so_far.count)?;
    Ok(Automaton {
        last: so_far.count as usize,
        links,
    })
}

/// Adds the links to the last state.
fn close(links: &mut Vec<Link>, overs: &[Over], last: u32) -> Mem<()>
    ensures { OnOk result (IsClosed links.old.items overs.now last last links.new.items) }
{
    for over in overs {
        add_link(links, over.from, last, over.reading)?;
    }
    Ok(())
}
