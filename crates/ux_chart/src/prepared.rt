//! What charts ask of a net, whatever they are made over.

ghost use Rattle.std.specs.Prelude.{IfOk};
ghost use Rattle.ux_chart.specs.Prepared.{IsPrepared};

use crate::closing_states::ClosingStates;
use crate::sharing::Sharing;
use std::alloc::Global;
use ux_base::Mem;
use ux_net::Net;
use ux_parts::Parts;

/// A net's parts, and what else charts ask of it. It is made once, and serves any number of charts.
#[derive(Drop)]
pub struct PreparedNet {
    /// The parts.
    pub parts: Parts,
    /// The states from which edges close contexts.
    pub closing: ClosingStates,
    /// Which positions share a row.
    pub sharing: Sharing,
}

impl PreparedNet {
    /// That of a net. Takes a step an edge, and some more to put the parts in order.
    pub fn of(alloc: Global, net: &Net) -> Mem<PreparedNet>
        ensures { IfOk result (λ prepared. IsPrepared net.now prepared) }
    {
        Ok(PreparedNet {
            parts: Parts::of(alloc, net)?,
            closing: ClosingStates::of(alloc, net)?,
            sharing: Sharing::of(net),
        })
    }
}
