//! A node of a graph, as a refusal names it.

ghost use Rattle.std.specs.Prelude.{◌≡◌, ◌⊎◌, Some, IfSome};
ghost use Rattle.ux_admission.specs.Spots.{IsLeast, IsNotAfter};

/// A place of a graph.
#[derive(Clone, Copy)]
pub struct Spot {
    /// The graph, counted from 1.
    pub graph: usize,
    /// The place of the graph.
    pub node: usize,
}

/// The first of the spots, by graph and then by node.
pub fn least(spots: &[Spot]) -> Option<Spot>
    ensures { IsLeast spots.now result }
{
    let mut best = None;
    for spot in spots {
        best = Some(lesser(best, *spot));
    }
    best
}

/// The one of both that is not after the other.
fn lesser(best: Option<Spot>, spot: Spot) -> Spot
    ensures one { (result ≡ spot) ⊎ (best ≡ Some result) }
    ensures spot { IsNotAfter result spot }
    ensures best { IfSome best (λ best. IsNotAfter result best) }
{
    match best {
        Some(best) => {
            if best.graph < spot.graph || (best.graph == spot.graph && best.node <= spot.node) {
                return best;
            }
            spot
        }
        None => spot,
    }
}
