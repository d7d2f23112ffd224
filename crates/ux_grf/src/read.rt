//! The reader of graph files.

ghost use Rattle.std.specs.Prelude.{◌≡◌, ◌∷◌, ◌⊎◌, List, None, ℕ, ◌+◌, ◌*◌, ◌<◌, ◌≤◌, length, drop, slice_get, map, slice_index, option_copied, true, false, IfOk, IfErr, OnOk, Some, Contains};
ghost use Rattle.ux_grf.specs.BoxLine.{said_by};
ghost use Rattle.ux_grf.specs.File.{IsGraphOf, Refuses, Draws, RefusesTexts, IsNextCount, count_at};
ghost use Rattle.ux_grf.specs.declared.graph.GraphKind.TheVariants.{Plain, Morphological};
ghost use Rattle.ux_grf.specs.Size.{size_of};
ghost use Rattle.ux_grf.specs.WellFormed.{IsWellFormed};
ghost use Rattle.ux_digraph.specs.Paths.{IsInside};
ghost use Rattle.ux_grf.specs.declared.error.GrfError.TheVariants.{BadCount, NoMemory};
ghost use Rattle.ux_grf.specs.Boxes.{box_in_line, box_at, is_good, IsTextOf, AreTexts, is_inside, RefusesBox, RefusesBoxes, AreGood};

use crate::box_line::{BoxLine, read_box_line};
use crate::boxes::make_boxes;
use crate::error::GrfError;
use crate::graph::{Graph, GraphKind};
use crate::header::{read_count, skip_header};
use crate::targets::{each_once, ways};
use std::alloc::Global;
use ux_base::{Lines, Lst, lines};
use ux_digraph::reached;

/// The graph that the text of a graph file draws. The time is linear in the text.
pub fn read_grf(alloc: Global, text: &str) -> Result<Graph, GrfError>
    ensures ok { IfOk result (IsGraphOf Plain text.now) }
    ensures well_formed { IfOk result IsWellFormed }
    ensures size { IfOk result (λ graph. size_of graph ≤ 4 * length text.now) }
    ensures err { IfErr result (Refuses Plain text.now) }
{
    read_graph(alloc, GraphKind::Plain, text)
}

/// The graph of the morphological mode that the text of a graph file draws. It may have two lines
/// more: `$<` begins the part that lies inside a word, a variable of the name `<`, and `$>` ends it.
/// The time is linear in the text.
pub fn read_marked(alloc: Global, text: &str) -> Result<Graph, GrfError>
    ensures ok { IfOk result (IsGraphOf Morphological text.now) }
    ensures well_formed { IfOk result IsWellFormed }
    ensures size { IfOk result (λ graph. size_of graph ≤ 4 * length text.now) }
    ensures err { IfErr result (Refuses Morphological text.now) }
{
    read_graph(alloc, GraphKind::Morphological, text)
}

/// The graph of this kind that the text draws.
fn read_graph(alloc: Global, kind: GraphKind, text: &str) -> Result<Graph, GrfError>
    ensures ok { IfOk result (IsGraphOf kind text.now) }
    ensures err { IfErr result (Refuses kind text.now) }
{
    let mut lines = lines(text);
    if !skip_header(&mut lines) {
        return Err(GrfError::NoHeader);
    }
    let count = next_count(alloc, &mut lines)?;
    let boxes = read_boxes(alloc, &mut lines, count)?;
    make_graph(alloc, kind, &boxes)
}

/// The number of boxes, which the next line tells.
fn next_count(alloc: Global, lines: &mut Lines<'_>) -> Result<u32, GrfError>
    ensures count { IfOk result (IsNextCount lines.old lines.new) }
    ensures range { IfOk result (λ count. (2 ≤ count) × (count ≤ 65535)) }
    ensures err { IfErr result (λ e. (e ≡ BadCount × count_at lines.old ≡ None) ⊎ (e ≡ NoMemory)) }
{
    let Some(line) = lines.next() else {
        return Err(GrfError::BadCount);
    };
    match read_count(alloc, line)? {
        Some(count) => Ok(count),
        None => Err(GrfError::BadCount),
    }
}

/// The boxes that the next lines tell, with each target once.
fn read_boxes<'a>(
    alloc: Global,
    lines: &mut Lines<'a>,
    count: u32,
) -> Result<Vec<BoxLine<'a>>, GrfError>
    ensures texts { IfOk result (λ boxes. AreTexts count lines.old (map said_by boxes.items)) }
    ensures good { OnOk result (AreGood count lines.old count) }
    ensures refused { IfErr result (RefusesBoxes count lines.old) }
{
    let mut stamps: Vec<u32> = vec![in alloc; 0; count as usize]?;
    stamped_boxes(alloc, lines, count, &mut stamps)
}

/// The same, where no target was met yet.
fn stamped_boxes<'a>(
    alloc: Global,
    lines: &mut Lines<'a>,
    count: u32,
    stamps: &mut Vec<u32>,
) -> Result<Vec<BoxLine<'a>>, GrfError>
    requires len { length stamps.now.items ≡ count }
    requires fresh { (u : ℕ) → slice_index stamps.now.items u ≤ 0 }
    ensures texts { IfOk result (λ boxes. AreTexts count lines.old (map said_by boxes.items)) }
    ensures good { OnOk result (AreGood count lines.old count) }
    ensures refused { IfErr result (RefusesBoxes count lines.old) }
{
    let mut boxes = Vec::new(alloc);
    for node in 0..count {
        let line = next_line(lines);
        boxes.push(good_box(alloc, line, node, count, stamps)?)?;
    }
    Ok(boxes)
}

/// The next line, if there is one.
fn next_line<'a>(lines: &mut Lines<'a>) -> Option<&'a str>
    ensures line { option_copied result ≡ slice_get lines.old 0 }
    ensures rest { lines.new ≡ drop 1 lines.old }
{
    lines.next()
}

/// The box that the line tells, if there is one, with each target once.
fn good_box<'a>(
    alloc: Global,
    line: Option<&'a str>,
    node: u32,
    count: u32,
    stamps: &mut Vec<u32>,
) -> Result<BoxLine<'a>, GrfError>
    requires node { node < count }
    requires len { length stamps.now.items ≡ count }
    requires fresh { (u : ℕ) → slice_index stamps.now.items u ≤ node }
    ensures text { IfOk result (λ said. IsTextOf (box_in_line (option_copied line.entry)) (said_by said)) }
    ensures good { OnOk result (is_good count (box_in_line (option_copied line.entry)) ≡ true) }
    ensures refused { IfErr result (RefusesBox count node (box_in_line (option_copied line.entry))) }
    ensures len { OnOk result (length stamps.new.items ≡ count) }
    ensures below { OnOk result ((u : ℕ) → slice_index stamps.new.items u ≤ node + 1) }
{
    let said = told_box(alloc, line, node, count)?;
    let targets = each_once(alloc, said.targets.as_slice(), stamps, node + 1)?;
    Ok(BoxLine {
        content: said.content,
        targets,
    })
}

/// The box that the line tells, if there is one, with the targets as they are told.
fn told_box<'a>(
    alloc: Global,
    line: Option<&'a str>,
    node: u32,
    count: u32,
) -> Result<BoxLine<'a>, GrfError>
    ensures told { IfOk result (λ said. box_in_line (option_copied line.entry) ≡ Some (said_by said)) }
    ensures inside { IfOk result (λ said. is_inside count said.targets.items ≡ true) }
    ensures good { OnOk result (is_good count (box_in_line (option_copied line.entry)) ≡ true) }
    ensures refused { IfErr result (RefusesBox count node (box_in_line (option_copied line.entry))) }
{
    let Some(line) = line else {
        return Err(GrfError::BadBoxLine { node });
    };
    let Some(said) = read_box_line(alloc, line)? else {
        return Err(GrfError::BadBoxLine { node });
    };
    if !are_inside(said.targets.as_slice(), count) {
        return Err(GrfError::BadTarget { node });
    }
    Ok(said)
}

/// Whether each target is a box.
fn are_inside(targets: &[u32], count: u32) -> bool
    ensures { result ≡ is_inside count targets.now }
{
    targets.iter().all(|target| *target < count)
}

/// The graph of these boxes.
fn make_graph(alloc: Global, kind: GraphKind, boxes: &[BoxLine<'_>]) -> Result<Graph, GrfError>
    requires two { 1 < length boxes.now }
    requires most { length boxes.now ≤ 65535 }
    requires inside { IsInside (map (λ b. b.targets.items) boxes.now) }
    ensures draws { IfOk result (Draws kind (map said_by boxes.now)) }
    ensures refused { IfErr result (RefusesTexts kind (map said_by boxes.now)) }
{
    let ways = ways(alloc, boxes)?;
    let reached = reached(alloc, &ways, 0)?;
    Ok(Graph {
        boxes: Lst::new(make_boxes(alloc, kind, boxes, &reached)?),
    })
}
