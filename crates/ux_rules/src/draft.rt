//! The steps of a rule as they are made, box by box.
//!
//! Of n boxes, place b stands before box b and place n + b behind it. A line that is no mark has a
//! place before each of its items and one behind the last. So no step is made for a line and a target
//! at once, and the steps are linear in the graph. Box 0 counts as an empty line, box 1 is the end.
//!
//! ```text
//! b --free--> . --item--> . --item--> . --free--> n + b --free--> each target
//! ```

ghost use Rattle.std.specs.Prelude.{◌≡◌, ◌≢◌, ℕ, ◌+◌, ◌<◌, ◌≤◌, List, [], ◌∷◌, ◌++◌, None, Contains, IfErr, IfOk, OnOk, length};
ghost use Rattle.ux_grf.specs.WellFormed.{IsWellFormed, box_of_graph};
ghost use Rattle.ux_rules.specs.Words.{targets_of, mark_of as mark_of_line};
ghost use Rattle.ux_rules.specs.Drafts.{step_at, IsDraft, IsLineOf, StopsBox, StopsBoxes, IsLineDone, AreLinesDone, AreTargetsDone, AreBoxesDone};

use crate::error::RuleError;
use crate::items::{mark_of, sign_of};
use crate::step::{Sign, Step};
use std::alloc::{AllocError, Global};
use ux_base::{Lst, Mem, NoMemory};
use ux_grf::{Graph, Item};

/// The steps so far, and how many places they have.
#[derive(Drop)]
pub struct Draft {
    /// How many places there are.
    pub places: usize,
    /// The steps.
    pub steps: Vec<Step>,
}

/// The steps of the whole graph, or the first box with a bad item.
pub(crate) fn draft_of(alloc: Global, graph: &Graph) -> Result<Draft, RuleError>
    requires formed { IsWellFormed graph.now }
    ensures draft { IfOk result (IsDraft graph.now) }
    ensures done { IfOk result (AreBoxesDone graph.now (length graph.now.boxes)) }
    ensures err { IfErr result (StopsBoxes graph.now) }
{
    let count = graph.boxes.as_slice().len();
    let mut draft = Draft {
        places: count + count,
        steps: Vec::new(alloc),
    };
    for node in 0..count {
        push_box(alloc, &mut draft, graph, node)?;
    }
    Ok(draft)
}

/// Adds the steps of a box.
fn push_box(alloc: Global, draft: &mut Draft, graph: &Graph, node: usize) -> Result<(), RuleError>
    requires formed { IsWellFormed graph.now }
    requires inside { node < length graph.now.boxes }
    requires draft { IsDraft graph.now draft.old }
    requires before { AreBoxesDone graph.now node draft.old }
    ensures draft { OnOk result (IsDraft graph.now draft.new) }
    ensures done { OnOk result (AreBoxesDone graph.now (node + 1) draft.new) }
    ensures err { IfErr result (StopsBoxes graph.now) }
{
    if node == 1 {
        return Ok(());
    }
    push_lines(alloc, draft, graph, node)?;
    push_targets(draft, graph, node)?;
    Ok(())
}

/// Adds the steps through a box, which isn't the end.
fn push_lines(alloc: Global, draft: &mut Draft, graph: &Graph, node: usize) -> Result<(), RuleError>
    requires formed { IsWellFormed graph.now }
    requires inside { node < length graph.now.boxes }
    requires inner { node ≢ 1 }
    requires draft { IsDraft graph.now draft.old }
    ensures draft { OnOk result (IsDraft graph.now draft.new) }
    ensures done { OnOk result (AreLinesDone graph.now node draft.old draft.new) }
    ensures err { IfErr result (StopsBox graph.now node) }
{
    if node == 0 {
        link(draft, 0, graph.boxes.as_slice().len(), Sign::Free)?;
        return Ok(());
    }
    for line in lines_at(graph, node) {
        push_line(alloc, draft, graph, node, line.as_slice())?;
    }
    Ok(())
}

/// The lines of the box, as they are drawn.
pub(crate) fn lines_at(graph: &Graph, node: usize) -> &[Lst<Item>]
    ensures { result.now ≡ (box_of_graph graph.now node).lines }
{
    match graph.boxes.as_slice().get(node) {
        Some(grf_box) => grf_box.lines.as_slice(),
        None => &[],
    }
}

/// Adds the steps along a line of the box.
fn push_line(
    alloc: Global,
    draft: &mut Draft,
    graph: &Graph,
    node: usize,
    line: &[Item],
) -> Result<(), RuleError>
    requires formed { IsWellFormed graph.now }
    requires inside { node < length graph.now.boxes }
    requires line { IsLineOf graph.now node line.now }
    requires draft { IsDraft graph.now draft.old }
    ensures draft { OnOk result (IsDraft graph.now draft.new) }
    ensures done { OnOk result (IsLineDone graph.now node line.now draft.old draft.new) }
    ensures err { IfErr result (StopsBox graph.now node) }
{
    if let Some(mark) = mark_of(line) {
        let count = graph.boxes.as_slice().len();
        link(draft, node, count + node, mark)?;
        return Ok(());
    }
    push_items(alloc, draft, graph, node, line)
}

/// Adds the steps along a line of the box that is no mark.
fn push_items(
    alloc: Global,
    draft: &mut Draft,
    graph: &Graph,
    node: usize,
    line: &[Item],
) -> Result<(), RuleError>
    requires formed { IsWellFormed graph.now }
    requires inside { node < length graph.now.boxes }
    requires line { IsLineOf graph.now node line.now }
    requires no_mark { mark_of_line line.now ≡ None }
    requires draft { IsDraft graph.now draft.old }
    ensures draft { OnOk result (IsDraft graph.now draft.new) }
    ensures done { OnOk result (IsLineDone graph.now node line.now draft.old draft.new) }
    ensures err { IfErr result (StopsBox graph.now node) }
{
    let mut place = lead(draft, node, Sign::Free)?;
    for item in line {
        match sign_of(alloc, item)? {
            Some(sign) => place = lead(draft, place, sign)?,
            None => return Err(RuleError::BadItem { node: node as u32 }),
        }
    }
    let count = graph.boxes.as_slice().len();
    link(draft, place, count + node, Sign::Free)?;
    Ok(())
}

/// Adds the steps from behind a box to its targets.
fn push_targets(draft: &mut Draft, graph: &Graph, node: usize) -> Result<(), AllocError>
    requires formed { IsWellFormed graph.now }
    requires inside { node < length graph.now.boxes }
    requires draft { IsDraft graph.now draft.old }
    ensures draft { OnOk result (IsDraft graph.now draft.new) }
    ensures done { OnOk result (AreTargetsDone graph.now node draft.old draft.new) }
{
    let count = graph.boxes.as_slice().len();
    for target in targets_at(graph, node) {
        link(draft, count + node, *target as usize, Sign::Free)?;
    }
    Ok(())
}

/// The targets of the box.
fn targets_at(graph: &Graph, node: usize) -> &[u32]
    ensures { result.now ≡ targets_of graph.now node }
{
    match graph.boxes.as_slice().get(node) {
        Some(grf_box) => grf_box.targets.as_slice(),
        None => &[],
    }
}

/// Adds a place, and a step that leads to it.
fn lead(draft: &mut Draft, from: usize, sign: Sign) -> Mem<usize>
    ensures place { IfOk result (λ place. place ≡ draft.old.places) }
    ensures places { OnOk result (draft.new.places ≡ draft.old.places + 1) }
    ensures steps { OnOk result (draft.new.steps.items ≡
        draft.old.steps.items ++ step_at from draft.old.places sign ∷ []) }
{
    let place = draft.places;
    draft.places = place.checked_add(1).ok_or(NoMemory)?;
    link(draft, from, place, sign)?;
    Ok(place)
}

/// Adds a step.
fn link(draft: &mut Draft, from: usize, to: usize, sign: Sign) -> Result<(), AllocError>
    ensures places { OnOk result (draft.new.places ≡ draft.old.places) }
    ensures steps { OnOk result (draft.new.steps.items ≡
        draft.old.steps.items ++ step_at from to sign ∷ []) }
{
    draft.steps.push(Step { from, to, sign })?;
    Ok(())
}
