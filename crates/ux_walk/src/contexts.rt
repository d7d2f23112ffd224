//! Which contexts apply, and which calls lead to an end, as a walk asks for it.

ghost use Rattle.std.specs.Prelude.{◌↔◌, ℕ, Contains, IsTrue};
ghost use Rattle.ux_walk.specs.Contexts.{Applying, Asking, all_asked, none_apply};

use ux_net::Edge;

/// Which contexts apply at a position, and where a walk goes on behind them; and which called graphs
/// a walk enters.
pub trait Contexts {
    ghost asks: { Self → Asking };

    ghost applies: { Self → Applying };

    /// The states into which the context that an edge opens is closed, where it applies at a
    /// position.
    fn closers(&self, graph: u32, edge: &Edge, at: usize) -> &[u32]
        requires { asks self.now graph edge.now at }
        ensures { (c : ℕ) → Contains result.now c
            ↔ (applies self.now).contexts graph edge.now.label edge.now.target at c };

    /// Whether a walk enters the graph from a position. Where that derives nothing, no walk that
    /// enters it comes to an end.
    fn enters(&self, graph: u32, at: usize) -> bool
        ensures { IsTrue result ↔ (applies self.now).enters graph at };
}

/// The contexts of a net that has none: none applies. Each graph is entered.
pub struct NoContexts;

impl Contexts for NoContexts {
    ghost asks = { λ contexts. all_asked };

    ghost applies = { λ contexts. none_apply };

    fn closers(&self, graph: u32, edge: &Edge, at: usize) -> &[u32] {
        &[]
    }

    fn enters(&self, graph: u32, at: usize) -> bool {
        true
    }
}
