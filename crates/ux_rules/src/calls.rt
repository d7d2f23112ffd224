//! The test that no box of a rule calls a graph.

ghost use Rattle.std.specs.Prelude.{◌↔◌, Any, IsTrue, MatchOption};
ghost use Rattle.ux_grf.specs.WellFormed.{IsWellFormed};
ghost use Rattle.ux_rules.specs.Refusing.{HasCall, IsCall};
ghost use Rattle.ux_rules.specs.Finding.{FindsFirst};

use crate::draft::lines_at;
use ux_base::Lst;
use ux_grf::{Graph, Item};

/// The first box that calls a graph.
pub(crate) fn first_call(graph: &Graph) -> Option<usize>
    requires formed { IsWellFormed graph.now }
    ensures { FindsFirst graph.now (HasCall graph.now) result }
{
    for node in 0..graph.boxes.as_slice().len() {
        if has_call(graph, node) {
            return Some(node);
        }
    }
    None
}

/// Whether the box calls a graph.
fn has_call(graph: &Graph, node: usize) -> bool
    requires formed { IsWellFormed graph.now }
    ensures { IsTrue result ↔ HasCall graph.now node }
{
    node != 0 && any_calls(lines_at(graph, node))
}

/// Whether one of the lines calls a graph.
fn any_calls(lines: &[Lst<Item>]) -> bool
    ensures { IsTrue result ↔ Any (Any IsCall) lines.now }
{
    lines.iter().any(|line| calls(line.as_slice()))
}

/// Whether the line calls a graph.
fn calls(line: &[Item]) -> bool
    ensures { IsTrue result ↔ Any IsCall line.now }
{
    line.iter().any(|item| is_call(item))
}

/// Whether the item calls a graph.
fn is_call(item: &Item) -> bool
    ensures { IsTrue result ↔ IsCall item.now }
{
    matches!(item, Item::Call(_))
}
