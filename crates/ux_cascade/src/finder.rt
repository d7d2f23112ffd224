//! What tells the hits of each step.

ghost use Rattle.std.specs.Prelude.{◌≡◌, ◌<◌, ℕ, List, IfOk};
ghost use Rattle.ux_tokens.specs.Tokens.{Token};
ghost use Rattle.ux_outputs.specs.declared.hit.Hit.{Hit};
ghost use Rattle.ux_cascade.specs.Rewriting.{CanRewrite};

use std::alloc::Global;
use ux_base::Mem;
use ux_outputs::Hit;
use ux_tokens::Text;

/// Finds the hits of the steps of a cascade, which are counted from 0. In one text a step has one list
/// of hits.
pub trait Finder {
    /// How many steps there are.
    ghost steps: { Self → ℕ };

    /// These are the hits of a step in a text.
    ghost finds: { Self → (step : ℕ) → List Token → List Hit → Type 0 };

    /// The hits of a step in a text, which can be rewritten.
    fn find(&self, alloc: Global, step: usize, text: &Text) -> Mem<Vec<Hit>>
        requires { step < steps self.now }
        ensures finds { IfOk result (λ hits. finds self.now step text.now hits.items) }
        ensures fits { IfOk result (λ hits. CanRewrite text.now hits.items) };

    /// They are the only ones.
    ghost one_list: { (finder : Self) (step : ℕ) (tokens : List Token) (one other : List Hit) →
        finds finder step tokens one → finds finder step tokens other → one ≡ other };
}
