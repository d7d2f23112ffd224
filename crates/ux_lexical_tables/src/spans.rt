//! Which tokens stand in spans.

ghost use Rattle.std.specs.Prelude.{◌↔◌, IsTrue};
ghost use Rattle.ux_lexical_tables.specs.Spans.{MayBound, MayStand};

use ux_tokens::kind::Kind;

/// Whether a token of this kind may stand in a span.
pub fn may_stand(kind: Kind) -> bool
    ensures { IsTrue result ↔ MayStand kind }
{
    match kind {
        Kind::Word | Kind::Space | Kind::Other => true,
        Kind::Sentence | Kind::Stop | Kind::Tag => false,
    }
}

/// Whether a token of this kind may be the first or the last one of a span.
pub fn may_bound(kind: Kind) -> bool
    ensures { IsTrue result ↔ MayBound kind }
{
    match kind {
        Kind::Word | Kind::Other => true,
        Kind::Space | Kind::Sentence | Kind::Stop | Kind::Tag => false,
    }
}
