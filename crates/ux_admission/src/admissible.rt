//! Whether a grammar has a finite meaning.
//!
//! A grammar is refused where a loop takes nothing, or where a unit, a graph or the body of a context,
//! begins with itself. The places of all graphs are nodes. Where a step may take nothing, an edge
//! leads along it, and one over each context, from the step that opens it to where it is closed. Where
//! a step enters a unit, an edge leads from it to the first place of that unit. A loop that takes
//! nothing is then an edge of the first kind inside a strongly connected component of these edges; a
//! unit begins with itself at an edge of the second kind inside a component of all. In a grammar that
//! is neither, the numbers of the components fall along each edge: they are the ranks by which every
//! walk ends.
//!
//! Where a loop leads over a context, the place into which that opens is on the loop too. The edge
//! over the context tells it, and doesn't pass it: a body that leads back to its opening step begins
//! with itself, and is no loop.

ghost use Rattle.std.specs.Prelude.{◌≡◌, ℕ, length, All, IfOk, IfErr, OnOk};
ghost use Rattle.ux_boxes.specs.Fit.{IsFit};
ghost use Rattle.ux_boxes.specs.Places.{place_grammar};
ghost use Rattle.ux_admission.specs.Admissible.{IsAdmissible, IsLeftRecursive, IsOnEmptyLoop};
ghost use Rattle.ux_admission.specs.Admission.{ArePlaceRanks};
ghost use Rattle.ux_admission.specs.Closers.{AreClosers};
ghost use Rattle.ux_admission.specs.Cycles.{AreNumbered, AreLoopsMet};
ghost use Rattle.ux_boxes.specs.Numbers.{AreOffsets, all_places};
ghost use Rattle.ux_admission.specs.Refusals.{IsRefusal};
ghost use Rattle.ux_boxes.specs.Rows.{cut};
ghost use Rattle.ux_admission.specs.Ways.{AreFreeMarks, AreWays};

use crate::cycles::{first_loop, first_recursion, numbers_of};
use crate::freeness::free_places;
use crate::way::Way;
use crate::ways::ways_of;
use std::alloc::{AllocError, Global};
use ux_base::{Lst, Mem, NoMemory};
use ux_boxes::{Place, offsets_of, rows_by_graph};

/// What an admissible grammar has: in a row for each graph, with an entry for each place.
#[derive(Drop)]
pub struct Admission {
    /// A rank, which falls along each step that may take nothing, over each context, and into each
    /// unit that is entered.
    pub ranks: Vec<Lst<usize>>,
    /// Whether a run that may take nothing leads to an end.
    pub free: Vec<Lst<bool>>,
}

/// Why a grammar is refused. Graphs are counted from 1.
#[derive(Clone, Copy)]
pub enum AdmissionError {
    /// A loop through this node takes nothing.
    EmptyLoop { graph: usize, node: usize },
    /// At this node a unit of the graph begins with itself.
    LeftRecursion { graph: usize, node: usize },
    /// Memory ran out.
    NoMemory,
}

impl From<NoMemory> for AdmissionError {
    ghost use Rattle.std.specs.Prelude.{◌≡◌};
    ghost use Rattle.ux_admission.specs.declared.admissible.AdmissionError.TheVariants.{NoMemory};

    ghost from_gives = { λ _ e. e ≡ NoMemory };

    fn from(_error: NoMemory) -> AdmissionError {
        AdmissionError::NoMemory
    }
}

/// The ranks of an admissible grammar; of another, the first graph with an empty loop and the least
/// node on one, and else the first of which a unit begins with itself, and the least node at which one
/// does. It wants for each place those into which the bodies from there are closed.
pub fn admit(
    alloc: Global,
    graphs: &[Lst<Place>],
    closers: &[Lst<usize>],
) -> Result<Admission, AdmissionError>
    requires fit { All (IsFit (length graphs.now)) graphs.now }
    requires closers { AreClosers graphs.now closers.now }
    requires met { AreLoopsMet graphs.now }
    ensures ranks { IfOk result (λ admission.
        ArePlaceRanks graphs.now admission.ranks.items admission.free.items) }
    ensures admissible { OnOk result (IsAdmissible (place_grammar graphs.now)) }
    ensures cause { IfErr result (IsRefusal graphs.now) }
{
    let offsets = offsets_of(alloc, graphs)?;
    let ways = ways_of(alloc, graphs, &offsets, closers)?;
    let marks = free_places(alloc, graphs, &offsets, &ways)?;
    refuse_loops(alloc, graphs, &offsets, &ways, &marks)?;
    let numbers = numbers_of(alloc, graphs, &offsets, &ways, &marks)?;
    refuse_recursion(alloc, graphs, &ways, &numbers)?;
    Ok(admission_of(alloc, graphs, &numbers, &marks)?)
}

/// Refuses a grammar with an empty loop, at the least node on one in the first graph that has one.
fn refuse_loops(
    alloc: Global,
    graphs: &[Lst<Place>],
    offsets: &[usize],
    ways: &[Way],
    marks: &[bool],
) -> Result<(), AdmissionError>
    requires fit { All (IsFit (length graphs.now)) graphs.now }
    requires met { AreLoopsMet graphs.now }
    requires offsets { AreOffsets graphs.now offsets.now }
    requires ways { AreWays graphs.now ways.now }
    requires marks { AreFreeMarks graphs.now marks.now }
    ensures ok { OnOk result ((g n : ℕ) → IsOnEmptyLoop (place_grammar graphs.now) g n → ⊥) }
    ensures cause { IfErr result (IsRefusal graphs.now) }
{
    match first_loop(alloc, graphs, offsets, ways, marks)? {
        Some(spot) => Err(AdmissionError::EmptyLoop {
            graph: spot.graph,
            node: spot.node,
        }),
        None => Ok(()),
    }
}

/// Refuses a grammar without empty loops in which a unit begins with itself, at the least node at
/// which one of the first such graph does.
fn refuse_recursion(
    alloc: Global,
    graphs: &[Lst<Place>],
    ways: &[Way],
    numbers: &[usize],
) -> Result<(), AdmissionError>
    requires no_loop { (g n : ℕ) → IsOnEmptyLoop (place_grammar graphs.now) g n → ⊥ }
    requires fit { All (IsFit (length graphs.now)) graphs.now }
    requires ways { AreWays graphs.now ways.now }
    requires numbers { AreNumbered graphs.now numbers.now }
    ensures ok { OnOk result ((g n : ℕ) → IsLeftRecursive (place_grammar graphs.now) g n → ⊥) }
    ensures cause { IfErr result (IsRefusal graphs.now) }
{
    match first_recursion(alloc, graphs, ways, numbers)? {
        Some(spot) => Err(AdmissionError::LeftRecursion {
            graph: spot.graph,
            node: spot.node,
        }),
        None => Ok(()),
    }
}

/// The ranks and the marks of all places, in a row for each graph.
fn admission_of(
    alloc: Global,
    graphs: &[Lst<Place>],
    numbers: &[usize],
    marks: &[bool],
) -> Mem<Admission>
    requires numbers { length numbers.now ≡ all_places graphs.now }
    requires marks { length marks.now ≡ all_places graphs.now }
    ensures ranks { IfOk result (λ admission.
        admission.ranks.items ≡ cut graphs.now numbers.now) }
    ensures free { IfOk result (λ admission. admission.free.items ≡ cut graphs.now marks.now) }
{
    let ranks = rows_by_graph(alloc, graphs, numbers)?;
    let free = rows_by_graph(alloc, graphs, marks)?;
    Ok(Admission { ranks, free })
}
