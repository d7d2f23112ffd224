//! In which stages chains of edges meet the states of the main graph.

ghost use Rattle.std.specs.Prelude.{IfOk};
ghost use Rattle.ux_net.specs.Nets.{states_of};
ghost use Rattle.ux_marks.specs.Meeting.{TellsStages};

use crate::rules::{STAGES, rules_of};
use std::alloc::Global;
use ux_base::Mem;
use ux_digraph::closing::closure;
use ux_net::Net;

/// For each state of the main graph and each stage whether a chain in it meets the state. Linear in
/// the edges.
pub(crate) fn stages_of(alloc: Global, net: &Net) -> Mem<Vec<bool>>
    ensures { IfOk result (λ found. TellsStages (states_of net.now 1) found.items) }
{
    // A net has a main graph.
    let _graphs = net.graphs();
    let size = net.states(1) as usize * STAGES;
    let rules = rules_of(alloc, net)?;
    closure(alloc, size, &rules, &[0])
}
