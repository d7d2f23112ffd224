//! The steps of a graph, by the places into which they lead.

ghost use Rattle.std.specs.Prelude.{◌≡◌, ◌≢◌, ℕ, ◌<◌, ◌↔◌, [], length, get_or, Contains, IfOk, OnOk, IsTrue, true};
ghost use Rattle.ux_boxes.specs.Fit.{HasTargetsInside};
ghost use Rattle.ux_admission.specs.Gains.{Gains};
ghost use Rattle.ux_admission.specs.Lines.{mark_told};
ghost use Rattle.ux_admission.specs.Leading.{is_noted, no_marks, HasLine, AreMarks, IsSource, IsLeading};
ghost use Rattle.ux_boxes.specs.Places.{label_lines};
ghost use Rattle.ux_net.specs.Words.{Sign, opens as opens_of};

use crate::edges::rows_of;
use crate::line::{ContextMark, context_mark};
use crate::ways::targets_of;
use std::alloc::{AllocError, Global};
use ux_base::{Lst, Mem};
use ux_boxes::Place;
use ux_net::Label;

/// Which lines a place has.
#[derive(Clone, Copy)]
pub struct Marks {
    /// One that neither opens nor closes a context.
    pub ordinary: bool,
    /// One that opens a context that has to follow.
    pub positive: bool,
    /// One that opens a context that may not follow.
    pub negative: bool,
    /// One that closes a context.
    pub closes: bool,
}

/// The steps of a graph, by the places into which they lead. From a place among the sources of
/// another one, a step leads along each of its lines.
#[derive(Drop)]
pub struct Leading {
    /// The places from which steps lead into each place.
    pub sources: Vec<Lst<usize>>,
    /// Which lines each place has.
    pub marks: Vec<Marks>,
}

/// The steps of the graph of these places. Takes a step for each target and each line.
pub fn leading_of(alloc: Global, places: &[Place]) -> Mem<Leading>
    requires inside { HasTargetsInside places.now }
    ensures { IfOk result (IsLeading places.now) }
{
    let pairs = pairs_of(alloc, places)?;
    let sources = rows_of(alloc, places.len(), &pairs)?;
    let marks = marks_of(alloc, places)?;
    Ok(Leading { sources, marks })
}

/// Each target of each place but the end, with the place.
fn pairs_of(alloc: Global, places: &[Place]) -> Mem<Vec<(usize, usize)>>
    ensures { IfOk result (λ pairs.
        (a b : ℕ) → Contains pairs.items (b, a) ↔ IsSource places.now a b) }
{
    let mut pairs = Vec::new(alloc);
    push_pairs(&mut pairs, places)?;
    Ok(pairs)
}

/// Adds the targets of all places.
fn push_pairs(pairs: &mut Vec<(usize, usize)>, places: &[Place]) -> Result<(), AllocError>
    ensures { OnOk result
        (Gains pairs.old.items pairs.new.items (λ p. IsSource places.now p.1 p.0)) }
{
    for n in 0..places.len() {
        push_targets(pairs, places, n)?;
    }
    Ok(())
}

/// Adds the targets of the place, unless it is the end.
fn push_targets(
    pairs: &mut Vec<(usize, usize)>,
    places: &[Place],
    n: usize,
) -> Result<(), AllocError>
    ensures { OnOk result (Gains pairs.old.items pairs.new.items
        (λ p. IsSource places.now n p.0 × (n ≡ p.1))) }
{
    if n == 1 {
        return Ok(());
    }
    for target in targets_of(places, n) {
        pairs.push((*target as usize, n))?;
    }
    Ok(())
}

/// Which lines each place has.
fn marks_of(alloc: Global, places: &[Place]) -> Mem<Vec<Marks>>
    ensures len { IfOk result (λ marks. length marks.items ≡ length places.now) }
    ensures marks { IfOk result (λ marks.
        (b : ℕ) → AreMarks (label_lines places.now b) (get_or marks.items b no_marks)) }
{
    let mut marks = Vec::with_capacity(alloc, places.len())?;
    for place in places {
        marks.push(marks_of_lines(place.lines.as_slice()))?;
    }
    Ok(marks)
}

/// Which of these lines there are.
fn marks_of_lines(lines: &[Lst<Label>]) -> Marks
    ensures { AreMarks lines.now result }
{
    Marks {
        ordinary: has_line(lines, ContextMark::Ordinary),
        positive: has_line(lines, ContextMark::Positive),
        negative: has_line(lines, ContextMark::Negative),
        closes: has_line(lines, ContextMark::Closes),
    }
}

/// Whether one of the lines does this to contexts.
fn has_line(lines: &[Lst<Label>], mark: ContextMark) -> bool
    ensures { IsTrue result ↔ HasLine (mark_told mark) lines.now }
{
    for line in lines {
        if context_mark(line.as_slice()) == mark {
            return true;
        }
    }
    false
}

/// Whether the place has a line that opens a context.
pub fn is_opening(marks: Marks) -> bool
    ensures { IsTrue result ↔ ((sign : Sign) × (is_noted (opens_of sign) marks ≡ true)) }
{
    marks.positive || marks.negative
}
