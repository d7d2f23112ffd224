//! The first box that a path meets with a bad mark, or as an item in a bad phase.

ghost use Rattle.std.specs.Prelude.{◌≡◌, ℕ, ◌+◌, ◌*◌, ◌<◌, ◌≤◌, ◌^◌, ◌↔◌, Any, IsTrue, true, length};
ghost use Rattle.std.specs.List.{list_any};
ghost use Rattle.ux_digraph.specs.Rules.{is_marked_at};
ghost use Rattle.ux_rules.specs.Finding.{FindsFirst, IsBadByPhases, IsBadIn, is_bad_line_at, is_some_item};

use crate::draft::lines_at;
use crate::items::mark_of;
use crate::phases::{PHASE_COUNT, is_bad, is_bad_item, is_short};
use ux_base::Lst;
use ux_grf::{Graph, Item};

/// The first bad box, by the phases in which the places are reached.
pub(crate) fn first_bad(graph: &Graph, found: &[bool]) -> Option<usize>
    requires few { length graph.now.boxes ≤ 65535 }
    ensures { FindsFirst graph.now (IsBadByPhases graph.now found.now) result }
{
    for node in 0..graph.boxes.as_slice().len() {
        if is_bad_box(graph, node, found) {
            return Some(node);
        }
    }
    None
}

/// Whether the box is reached in a phase in which it is bad.
fn is_bad_box(graph: &Graph, node: usize, found: &[bool]) -> bool
    requires { node < 65535 }
    ensures { IsTrue result ↔ IsBadByPhases graph.now found.now node }
{
    for phase in 0..PHASE_COUNT {
        if is_marked(found, node * PHASE_COUNT + phase) && is_bad_in(graph, node, phase) {
            return true;
        }
    }
    false
}

/// Whether the mark of this number is set.
pub(crate) fn is_marked(found: &[bool], number: usize) -> bool
    ensures { result ≡ is_marked_at found.now number }
{
    match found.get(number) {
        Some(mark) => *mark,
        None => false,
    }
}

/// Whether the box is bad in the phase.
fn is_bad_in(graph: &Graph, node: usize, phase: usize) -> bool
    ensures { IsTrue result ↔ IsBadIn graph.now node phase }
{
    if node == 1 {
        return is_short(phase);
    }
    has_bad_line(lines_at(graph, node), phase)
}

/// Whether one of the lines is bad in the phase.
fn has_bad_line(lines: &[Lst<Item>], phase: usize) -> bool
    ensures { IsTrue result ↔ Any (λ line. is_bad_line_at phase line ≡ true) lines.now }
{
    lines.iter().any(|line| is_bad_line(line.as_slice(), phase))
}

/// Whether the line is bad in the phase.
fn is_bad_line(line: &[Item], phase: usize) -> bool
    ensures { result ≡ is_bad_line_at phase line.now }
{
    match mark_of(line) {
        Some(mark) => is_bad(phase, &mark),
        None => has_item(line) && is_bad_item(phase),
    }
}

/// Whether the line has an item that isn't empty.
fn has_item(line: &[Item]) -> bool
    ensures { result ≡ list_any is_some_item line.now }
{
    line.iter().any(|item| is_item(item))
}

/// Whether the item isn't empty.
fn is_item(item: &Item) -> bool
    ensures { result ≡ is_some_item item.now }
{
    !matches!(item, Item::Empty)
}
