//! The states of an automaton, with the edges of all of them in one list.
//!
//! So a step to another state is a step in memory, and no more, and a state has no list of its own:
//! it takes 8 bytes, and 8 for each edge.

ghost use Rattle.std.specs.Prelude.{◌≡◌, ◌↔◌, ◌<◌, ◌≤◌, ◌+◌, ◌∷◌, ◌++◌, ℕ, [], Contains, IfOk, OnErr, OnOk, Some, get_or, length};
ghost use Rattle.ux_dawg.specs.Building.{bare};
ghost use Rattle.ux_dawg.specs.Flat.{between, code_in, start_at, state_of, KeepsRows, PutsRow};
ghost use Rattle.ux_dawg.specs.Paths.{edge, AreAscending, AreStates, IsStep};

use crate::state::Edge;
use std::alloc::Global;
use std::marker::Model;
use ux_base::{Mem, NoMemory};

/// A state among others.
#[derive(Clone, Copy, Debug)]
struct Row {
    /// One more than its number of a list, and 0 where it has none.
    mark: u32,
    /// Where its edges end.
    end: u32,
}

/// The states of an automaton by number, with their edges in one list. Contracts see the list of
/// the states.
#[derive(Debug, Drop)]
pub struct States {
    /// A row for each state.
    rows: Vec<Row>,
    /// The edges of the first state, then those of the second, and so on.
    edges: Vec<Edge>,
}

impl Model for States {
    ghost use Rattle.std.specs.Prelude.{List, length};
    ghost use Rattle.ux_dawg.specs.declared.state.State.{State};
    ghost use Rattle.ux_dawg.specs.Flat.{states_from, AreRows};

    ghost Value = { List State };

    ghost view = { λ s. states_from 0 s.rows.items s.edges.items };

    ghost invariant = { λ s. AreRows 0 (length s.edges.items) s.rows.items };
}

impl States {
    /// No state. Takes no memory.
    pub fn new(alloc: Global) -> States
        ensures { result ≡ [] }
    {
        States {
            rows: Vec::new(alloc),
            edges: Vec::new(alloc),
        }
    }

    /// How many states there are.
    pub fn len(&self) -> usize
        ensures { result ≡ length self.now }
    {
        self.rows.len()
    }

    /// Adds a state with this number of a list and copies of these edges. Where 32 bits don't hold the
    /// number or count the edges of all states, it answers that memory ran out.
    pub fn push(&mut self, code: Option<u32>, edges: &[Edge]) -> Mem<()>
        ensures ok { OnOk result (self.new ≡ self.old ++ state_of code edges.now ∷ []) }
        ensures err { OnErr result (self.new ≡ self.old) }
    {
        push_row(&mut self.rows, &mut self.edges, code, edges)
    }

    /// The number of the list of the state of this number, if it has one; none, where there is no
    /// such state. Takes no memory.
    pub fn code(&self, number: usize) -> Option<u32>
        ensures { result ≡ (get_or self.now number bare).code }
    {
        match self.rows.get(number) {
            Some(row) => code_in(row.mark),
            None => None,
        }
    }

    /// The edges of the state of this number, in the order in which they were given; none, where
    /// there is no such state. Takes no memory.
    pub fn edges(&self, number: usize) -> &[Edge]
        ensures { result.now ≡ (get_or self.now number bare).edges }
    {
        let rows = self.rows.as_slice();
        match rows.get(number) {
            Some(row) => part(
                self.edges.as_slice(),
                start_of(rows, number),
                row.end as usize,
            ),
            None => &[],
        }
    }

    /// The number of the state to which the character leads. Halves the edges of the state, and takes
    /// no memory.
    pub fn step(&self, number: usize, letter: char) -> Option<u32>
        requires { AreStates self.now }
        ensures { (t : ℕ) → (result ≡ Some t) ↔ IsStep self.now number letter t }
    {
        target_of(self.edges(number), letter)
    }
}

/// Where the character leads by one of the edges, which ascend.
fn target_of(edges: &[Edge], letter: char) -> Option<u32>
    requires { AreAscending edges.now }
    ensures { (t : ℕ) → (result ≡ Some t) ↔ Contains edges.now (edge letter t) }
{
    match edges.binary_search_by_key(&letter, |edge| edge.letter) {
        Ok(place) => Some(edges[place].target),
        Err(_) => None,
    }
}

/// Puts a row for these edges last, and them; nothing, where memory runs out.
fn push_row(rows: &mut Vec<Row>, all: &mut Vec<Edge>, code: Option<u32>, edges: &[Edge]) -> Mem<()>
    ensures ok { OnOk result (PutsRow code edges.now rows.old.items rows.new.items all.old.items
        all.new.items) }
    ensures err { OnErr result (KeepsRows rows.old.items rows.new.items all.old.items
        all.new.items) }
{
    let many = all.len();
    let row = Row {
        mark: mark_of(code)?,
        end: end_behind(many, edges)?,
    };
    all.extend_from_slice(edges)?;
    if rows.push(row).is_err() {
        all.truncate(many);
        return Err(NoMemory);
    }
    Ok(())
}

/// One more than the number, and 0 for none.
fn mark_of(code: Option<u32>) -> Mem<u32>
    ensures { IfOk result (λ mark. code_in mark ≡ code) }
{
    match code {
        Some(code) => code.checked_add(1).ok_or(NoMemory),
        None => Ok(0),
    }
}

/// The number that is one less, if there is one.
fn code_in(mark: u32) -> Option<u32>
    ensures { result ≡ code_in mark }
{
    mark.checked_sub(1)
}

/// Where these edges end behind so many others.
fn end_behind(many: usize, edges: &[Edge]) -> Mem<u32>
    ensures { IfOk result (λ end. end ≡ many + length edges.now) }
{
    let end = many.checked_add(edges.len()).ok_or(NoMemory)?;
    u32::try_from(end).map_err(|_| NoMemory)
}

/// The edges from one place to another.
fn part(edges: &[Edge], start: usize, end: usize) -> &[Edge]
    requires order { start ≤ end }
    requires within { end ≤ length edges.now }
    ensures { result.now ≡ between start end edges.now }
{
    &edges[start..end]
}

/// Where the edges of the state of this number begin.
fn start_of(rows: &[Row], number: usize) -> usize
    requires { number < length rows.now }
    ensures { result ≡ start_at 0 rows.now number }
{
    match number.checked_sub(1) {
        Some(before) => rows[before].end as usize,
        None => 0,
    }
}
