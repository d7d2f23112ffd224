//! A rule's steps.

ghost use Rattle.std.specs.Prelude.{◌≡◌, ◌↔◌, IsTrue};
ghost use Rattle.ux_monitor.specs.declared.rule.Sign.{Sign};
ghost use Rattle.ux_monitor.specs.declared.rule.Sign.TheVariants.{Free, If, Then, Read};
ghost use Rattle.ux_monitor.specs.declared.rule.Step.{Step};

/// What a step of a rule is marked by, or the number of its test.
#[derive(Clone, Copy, PartialEq, Eq, Debug)]
pub enum Sign {
    Free,
    If,
    Then,
    Read(u32),
}

/// A step of a rule from a place to a place.
#[derive(Clone, Copy, PartialEq, Eq, Debug)]
pub struct Step {
    pub from: usize,
    pub to: usize,
    pub sign: Sign,
}

/// Whether the two signs are the same.
pub(crate) fn is_sign(sign: Sign, mark: Sign) -> bool
    ensures { IsTrue result ↔ (sign ≡ mark) }
{
    sign == mark
}
