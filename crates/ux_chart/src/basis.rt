//! What grammars are matched against, as the chart asks for it.

ghost use Rattle.std.specs.Prelude.{◌≡◌, ℕ, ◌≤◌, ◌<◌, ◌↔◌, ◌⊎◌, List, Contains, IfOk, IfSome, OnOk};
ghost use Rattle.ux_net.specs.declared.net_graph.NetGraph.{NetGraph};
ghost use Rattle.ux_net.specs.declared.label.Label.{Label as Told};
ghost use Rattle.ux_meaning.specs.Inputs.{Input};
ghost use Rattle.ux_parts.specs.Runs.{Plain};
ghost use Rattle.ux_parts.specs.declared.parts.Parts.{Parts as TheParts};
ghost use Rattle.ux_chart.specs.Alike.{AreAlike};
ghost use Rattle.ux_chart.specs.Likely.{AreLikely};
ghost use Rattle.ux_chart.specs.Places.{AreEdgesOf, AreEnough};

use std::alloc::Global;
use ux_base::Mem;
use ux_net::{Edge, Label, Net};
use ux_parts::Parts;

/// An input with positions up to a last one.
pub trait Basis {
    ghost input: { Self → Input };

    ghost last: { Self → ℕ };

    ghost serves: { Self → List NetGraph → TheParts → Type 0 };

    ghost knows: { Self → Told → Type 0 };

    /// The last position.
    fn last(&self) -> usize
        ensures { result ≡ last self.now };

    /// Adds the positions to which a label leads that is no call and opens or closes no context. It
    /// has to be one that the input knows.
    fn plain(&self, label: &Label, at: usize, positions: &mut Vec<usize>) -> Mem<()>
        requires known { knows self.now label.now }
        requires inside { at ≤ last self.now }
        ensures { OnOk result ((k : ℕ) → Contains positions.new.items k
            ↔ (Contains positions.old.items k ⊎ Plain (input self.now) label.now at k)) };

    /// A later position that is alike, if one is known.
    fn alike(&self, at: usize) -> Option<usize>
        requires inside { at ≤ last self.now }
        ensures later { IfSome result (λ later. at < later) }
        ensures inside { IfSome result (λ later. later ≤ last self.now) }
        ensures alike { IfSome result (λ later. AreAlike (input self.now) at later) };

    /// Puts the numbers of the parts that are worth a search at the position into the list, in
    /// place of what it has, ascending. The input has to be made for this net and these parts.
    fn likely(&self, net: &Net, parts: &Parts, at: usize, row: &mut Vec<u32>) -> Mem<()>
        requires serves { serves self.now net.now parts.now }
        requires inside { at ≤ last self.now }
        ensures { OnOk result (AreLikely (input self.now) net.now parts.now at row.new.items) };

    /// The places of those of a state's edges that may apply at the position, in no order, where
    /// an index of the state tells them. A literal that takes nothing there may be missing, and no
    /// other edge.
    fn places(
        &self,
        alloc: Global,
        graph: u32,
        state: u32,
        edges: &[Edge],
        at: usize,
    ) -> Mem<Option<Vec<u32>>>
        requires inside { at ≤ last self.now }
        ensures { (net : List NetGraph) (parts : TheParts) → serves self.now net parts →
            AreEdgesOf net graph state edges.now →
            IfOk result (λ places. IfSome places (λ places.
            AreEnough (input self.now) edges.now places.items at)) };
}
