//! Answers in flat lists.

ghost use Rattle.std.specs.Prelude.{◌≡◌, ℕ, ◌<◌, ◌≤◌, [], Some, false, length, Contains, slice_get, slice_index_or, IfNone, IfOk, IfSome, OnOk};
ghost use Rattle.ux_chart.specs.Tables.{cut, stretch_of, AscendByPart, IsStretchOf, IsTable, IsSorted, IsPushed, NoneEndsFrom, NoneFrom, Tells};
ghost use Rattle.ux_chart.specs.declared.table.Answer.{Answer};

use std::alloc::Global;
use ux_base::{Mem, NoMemory};

/// A stretch of a list: from one place up to another.
#[derive(Clone, Copy)]
pub struct Stretch {
    /// The place of the first item.
    pub from: u32,
    /// The place after the last item.
    pub to: u32,
}

/// The stretch between two places. Where a list is too long for 32 bits to tell its places, it is
/// out of memory.
pub fn between(from: usize, to: usize) -> Mem<Stretch>
    ensures { IfOk result (λ stretch. stretch ≡ stretch_of from to) }
{
    match (u32::try_from(from), u32::try_from(to)) {
        (Ok(from), Ok(to)) => Ok(Stretch { from, to }),
        _ => Err(NoMemory),
    }
}

/// What a part reaches, as stretches of the lists of a table.
#[derive(Clone, Copy)]
pub struct Answer {
    /// The number of the part.
    pub part: u32,
    /// The positions of ends, ascending.
    pub ends: Stretch,
    /// The states into which edges close, ascending.
    pub closers: Stretch,
}

/// Answers, and the lists of which they are stretches.
#[derive(Drop)]
pub struct Table {
    /// The answers of a row stand together, by part.
    pub answers: Vec<Answer>,
    /// Positions.
    pub ends: Vec<usize>,
    /// States.
    pub closers: Vec<u32>,
}

/// What a table tells of a part.
#[derive(Clone, Copy)]
pub struct Reached<'a> {
    /// The positions of ends, ascending.
    pub ends: &'a [usize],
    /// The states into which edges close, ascending.
    pub closers: &'a [u32],
}

impl Table {
    /// A table without answers. Takes no memory.
    pub fn new(alloc: Global) -> Table
        ensures answers { result.answers.items ≡ [] }
        ensures ends { result.ends.items ≡ [] }
        ensures closers { result.closers.items ≡ [] }
    {
        Table {
            answers: Vec::new(alloc),
            ends: Vec::new(alloc),
            closers: Vec::new(alloc),
        }
    }

    /// Adds an answer.
    pub fn push(&mut self, part: u32, ends: &[usize], closers: &[u32]) -> Mem<()>
        ensures { OnOk result (IsPushed self.old part ends.now closers.now self.new) }
    {
        let first_end = self.ends.len();
        let first_closer = self.closers.len();
        self.ends.extend_from_slice(ends)?;
        self.closers.extend_from_slice(closers)?;
        self.answers.push(Answer {
            part,
            ends: between(first_end, self.ends.len())?,
            closers: between(first_closer, self.closers.len())?,
        })?;
        Ok(())
    }

    /// What a row tells of a part. The answer is looked up by halving.
    pub fn told(&self, row: Stretch, part: u32) -> Reached<'_>
        requires table { IsTable self.now }
        requires row { IsSorted self.now row }
        ensures { Tells self.now row part result.ends.now result.closers.now }
    {
        match find(&self.answers[row.from as usize..row.to as usize], part) {
            Some(answer) => Reached {
                ends: positions_in(&self.ends, answer.ends),
                closers: states_in(&self.closers, answer.closers),
            },
            None => Reached {
                ends: &[],
                closers: &[],
            },
        }
    }

    /// Whether the ends of some answer of a row begin by the position.
    pub fn some_ends_from(&self, row: Stretch, at: usize) -> bool
        requires table { IsTable self.now }
        requires row { IsSorted self.now row }
        ensures { result ≡ false → NoneEndsFrom self.now row at }
    {
        some_end_from(
            &self.answers[row.from as usize..row.to as usize],
            &self.ends,
            at,
        )
    }
}

/// Whether the ends of one of the answers begin by the position.
fn some_end_from(answers: &[Answer], positions: &[usize], at: usize) -> bool
    requires { (answer : Answer) → Contains answers.now answer →
        IsStretchOf (length positions.now) answer.ends }
    ensures { result ≡ false → NoneFrom answers.now positions.now at }
{
    for answer in answers {
        if begin_by(positions_in(positions, answer.ends), at) {
            return true;
        }
    }
    false
}

/// Whether the position is the first one.
fn begin_by(positions: &[usize], at: usize) -> bool
    ensures { result ≡ false → slice_get positions.now 0 ≡ Some at → ⊥ }
{
    match positions.first() {
        Some(first) => *first == at,
        None => false,
    }
}

/// The positions in a stretch.
fn positions_in(positions: &[usize], stretch: Stretch) -> &[usize]
    requires { IsStretchOf (length positions.now) stretch }
    ensures { result.now ≡ cut positions.now stretch }
{
    &positions[stretch.from as usize..stretch.to as usize]
}

/// The states in a stretch.
fn states_in(states: &[u32], stretch: Stretch) -> &[u32]
    requires { IsStretchOf (length states.now) stretch }
    ensures { result.now ≡ cut states.now stretch }
{
    &states[stretch.from as usize..stretch.to as usize]
}

/// The answer of the part, if there is one.
fn find(answers: &[Answer], part: u32) -> Option<Answer>
    requires { AscendByPart answers.now }
    ensures some { IfSome result (λ answer. Contains answers.now answer × (answer.part ≡ part)) }
    ensures none { IfNone result ((answer : Answer) → Contains answers.now answer → answer.part ≡ part → ⊥) }
{
    let place = place_of(answers, part);
    match answers.get(place) {
        Some(answer) if answer.part == part => Some(*answer),
        _ => None,
    }
}

/// How many answers there are of parts before this one.
fn place_of(answers: &[Answer], part: u32) -> usize
    requires { AscendByPart answers.now }
    ensures within { result ≤ length answers.now }
    ensures before { (k : ℕ) (d : Answer) → k < result → (slice_index_or answers.now k d).part < part }
    ensures after { (k : ℕ) (d : Answer) → result ≤ k → k < length answers.now →
        part ≤ (slice_index_or answers.now k d).part }
{
    answers.partition_point(|answer| answer.part < part)
}
