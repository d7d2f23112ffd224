//! All that a part reaches from a position.

ghost use Rattle.std.specs.Prelude.{◌≡◌, ℕ, ◌≤◌, ◌<◌, ◌↔◌, List, Some, slice_get, Contains, OnOk};
ghost use Rattle.ux_parts.specs.Ordered.{GoesAhead};
ghost use Rattle.ux_parts.specs.Parts.{ArePartsOf};
ghost use Rattle.ux_chart.specs.Likely.{AreKnown};
ghost use Rattle.ux_chart.specs.Rows.{IsFilled};
ghost use Rattle.ux_chart.specs.Search.{IsReached};
ghost use Rattle.ux_chart.specs.declared.config.Config.{Config};

use crate::basis::Basis;
use crate::chart::{Begun, Chart};
use crate::config::Config;
use crate::following::expand;
use crate::seen::Seen;
use std::alloc::Global;
use ux_base::Mem;
use ux_net::Net;
use ux_parts::{Part, Parts};

/// The configurations that the part whose turn it is reaches, in place of what the list has.
///
/// The list is its own agenda: what is new stands at its end, and each configuration is expanded
/// once.
pub fn reach<B: Basis>(
    alloc: Global,
    basis: &B,
    net: &Net,
    parts: &Parts,
    chart: &Chart,
    begun: Begun,
    part: &Part,
    seen: &mut Seen,
    found: &mut Vec<Config>,
    positions: &mut Vec<usize>,
) -> Mem<()>
    requires parts { ArePartsOf net.now parts.now }
    requires ahead { GoesAhead (B.input basis.now) chart.now.last }
    requires serves { B.serves basis.now net.now parts.now }
    requires known { AreKnown (B.knows basis.now) net.now }
    requires last { B.last basis.now ≡ chart.now.last }
    requires filled { IsFilled (B.input basis.now) net.now parts.now chart.now begun }
    requires part { slice_get parts.now.list begun.number ≡ Some part.now }
    ensures { OnOk result ((config : Config) → Contains seen.new config
        ↔ IsReached (B.input basis.now) net.now parts.now.levels part.now.graph part.now.first
        begun.at config) }
{
    seen.clear(alloc);
    let first = [Config {
        state: part.first,
        at: begun.at,
    }];
    seen.add_all(&first)?;
    let mut next = 0;
    while next < seen.len() {
        seen.is_bounded();
        let from = seen.as_slice()[next];
        expand(
            alloc, basis, net, parts, chart, begun, part.graph, from, found, positions,
        )?;
        seen.add_all(found.as_slice())?;
        next += 1;
    }
    Ok(())
}
