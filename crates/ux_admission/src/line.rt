//! What a line of labels takes, and what it does to contexts.

ghost use Rattle.std.specs.Prelude.{◌≡◌, ℕ, ◌↔◌, [], ◌∷◌, IfSome, IfNone, IsTrue};
ghost use Rattle.ux_net.specs.declared.label.Label.TheVariants.{Call};
ghost use Rattle.ux_net.specs.Silent.{is_silent as is_silent_of, are_silent as are_silent_of};
ghost use Rattle.ux_net.specs.Words.{mark_of};
ghost use Rattle.ux_admission.specs.Lines.{mark_told};
ghost use Rattle.ux_admission.specs.Ways.{IsOpening};

use ux_net::Label;

/// What a line does to contexts.
#[derive(Clone, Copy, PartialEq, Eq)]
pub enum ContextMark {
    /// It neither opens nor closes one.
    Ordinary,
    /// It opens one that has to follow.
    Positive,
    /// It opens one that may not follow.
    Negative,
    /// It closes one.
    Closes,
}

/// Whether the line takes nothing: each of its labels is silent.
pub fn are_silent(line: &[Label]) -> bool
    ensures { result ≡ are_silent_of line.now }
{
    line.iter().all(|label| is_silent(label))
}

/// Whether the label takes nothing.
pub fn is_silent(label: &Label) -> bool
    ensures { result ≡ is_silent_of label.now }
{
    match label {
        Label::Empty | Label::NoSpace | Label::Begin(_) | Label::End(_) | Label::Cut => true,
        Label::CaseFolded(_)
        | Label::CaseExact(_)
        | Label::Mask(_)
        | Label::Brace(_)
        | Label::Space
        | Label::Positive
        | Label::Negative
        | Label::ContextEnd
        | Label::Call(_) => false,
    }
}

/// The graph of a line that is one call.
pub fn one_call(line: &[Label]) -> Option<u32>
    ensures some { IfSome result (λ h. line.now ≡ Call h ∷ []) }
    ensures none { IfNone result ((h : ℕ) → line.now ≡ Call h ∷ [] → ⊥) }
{
    match line {
        [Label::Call(graph)] => Some(*graph),
        _ => None,
    }
}

/// Whether the line opens a context.
pub fn is_opening(line: &[Label]) -> bool
    ensures { IsTrue result ↔ IsOpening line.now }
{
    match line {
        [Label::Positive] | [Label::Negative] => true,
        _ => false,
    }
}

/// What the line does to contexts.
pub fn context_mark(line: &[Label]) -> ContextMark
    ensures { mark_of line.now ≡ mark_told result }
{
    match line {
        [Label::Positive] => ContextMark::Positive,
        [Label::Negative] => ContextMark::Negative,
        [Label::ContextEnd] => ContextMark::Closes,
        _ => ContextMark::Ordinary,
    }
}
