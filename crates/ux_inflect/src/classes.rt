//! Whether the words of a net end, and why.
//!
//! A word without end leads around a cycle of states, or through calls from a graph to itself. So
//! the calls of the net are searched, and the states of each graph that calls reach. Where there is
//! no cycle, the numbers of the components are ranks that fall along each edge and call.

ghost use Rattle.std.specs.Prelude.{◌≡◌, ◌≤◌, ℕ, IfOk, MatchOption, length, true};
ghost use Rattle.std.specs.List.{list_any};
ghost use Rattle.ux_inflect.specs.Cyclic.{IsCyclic, call_rows};
ghost use Rattle.ux_inflect.specs.Endings.{AreRanksOf, IsEnding};
ghost use Rattle.ux_inflect.specs.Rows.{inner_rows};
ghost use Rattle.ux_inflect.specs.Surveys.{IsSurvey};

use crate::rows::{rows_of_calls, rows_of_states};
use crate::survey::{Survey, is_marked, search_from};
use std::alloc::Global;
use ux_base::{Lst, Mem};
use ux_net::Net;

/// Ranks by which each word of a net ends: they fall along each call, and along each edge of a graph.
#[derive(Drop)]
pub(crate) struct Ranks {
    /// The rank of each graph, by its number.
    pub calls: Vec<usize>,
    /// The ranks of the states of each graph, by its number.
    pub states: Vec<Lst<usize>>,
}

/// Whether the words of a net end.
#[derive(Drop)]
pub(crate) enum Ending {
    /// This graph, counted from 1, is the first with words without end.
    Endless(u32),
    /// They end, by these ranks.
    Ends(Ranks),
}

/// Whether the words of the net end. Takes time linear in the net.
pub(crate) fn how_words_end(alloc: Global, net: &Net) -> Mem<Ending>
    ensures { IfOk result (IsEnding net.now) }
{
    let rows = rows_of_calls(alloc, net)?;
    let calls = search_from(alloc, &rows, 1)?;
    let mut states = Vec::new(alloc);
    states.push(Lst::new(Vec::new(alloc)))?;
    for before in 0..net.graphs() {
        match ranks_of(alloc, net, &calls, before + 1)? {
            Some(ranks) => states.push(ranks)?,
            None => return Ok(Ending::Endless(before + 1)),
        }
    }
    Ok(Ending::Ends(Ranks {
        calls: calls.ranks,
        states,
    }))
}

/// The ranks of the states of a graph; none, where the graph has words without end; any, where no
/// call reaches it.
fn ranks_of(alloc: Global, net: &Net, calls: &Survey, graph: u32) -> Mem<Option<Lst<usize>>>
    requires from { 1 ≤ graph }
    requires to { graph ≤ length net.now }
    requires calls { IsSurvey (inner_rows (call_rows net.now)) 1 calls.now }
    ensures { IfOk result (λ ranks. MatchOption ranks (IsCyclic net.now graph)
        (λ ranks. AreRanksOf net.now graph ranks × ¬ IsCyclic net.now graph)) }
{
    if !is_marked(&calls.reached, graph as usize) {
        return Ok(Some(Lst::new(Vec::new(alloc))));
    }
    if is_marked(&calls.cyclic, graph as usize) {
        return Ok(None);
    }
    let rows = rows_of_states(alloc, net, graph)?;
    let states = search_from(alloc, &rows, 0)?;
    if is_any(&states.cyclic) {
        return Ok(None);
    }
    Ok(Some(Lst::new(states.ranks)))
}

/// Whether any of them is marked.
pub(crate) fn is_any(marks: &[bool]) -> bool
    ensures { result ≡ list_any (λ mark. mark) marks.now }
{
    marks.iter().any(|mark| *mark)
}
