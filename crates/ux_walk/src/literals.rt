//! Which labels are literals.

ghost use Rattle.std.specs.Prelude.{◌↔◌, IsTrue};
ghost use Rattle.ux_walk.specs.Literals.{IsLiteral};

use ux_net::Label;

/// Whether the label is a literal.
pub fn is_literal(label: &Label) -> bool
    ensures { IsTrue result ↔ IsLiteral label.now }
{
    matches!(label, Label::CaseFolded(_) | Label::CaseExact(_))
}
