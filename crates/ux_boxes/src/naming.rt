//! The names of graphs, for what is told of them.

ghost use Rattle.std.specs.Prelude.{◌≤◌, IfOk, length, map, string_bytes};
ghost use Rattle.ux_boxes.specs.Refusing.{is_name_at};

use std::alloc::Global;
use ux_base::{Mem, Txt};

/// The name of the graph of this number, counted from 1.
pub fn name_of(alloc: Global, names: &[String], graph: usize) -> Mem<Txt>
    requires from { 1 ≤ graph }
    requires to { graph ≤ length names.now }
    ensures { IfOk result (is_name_at (map string_bytes names.now) graph) }
{
    let name = &names[graph - 1];
    Ok(Txt::from_str(alloc, name.as_str())?)
}
