//! What stands on an edge.

ghost use Rattle.std.specs.Prelude.{◌≡◌, IfOk};

use std::alloc::AllocError;
use ux_base::Txt;
use ux_masks::Mask;

/// What an edge finds in the text.
#[derive(Clone, Drop)]
pub enum Label {
    /// Nothing.
    Empty,
    /// A token whose characters these fit, after an optional space.
    CaseFolded(Txt),
    /// A token of exactly this text, after an optional space.
    CaseExact(Txt),
    /// A span that this mask accepts, after an optional space.
    Mask(Mask),
    /// A sentence mark or a tag of exactly this text, after an optional space.
    Brace(Txt),
    /// One space, required.
    Space,
    /// Nothing, where no space stands.
    NoSpace,
    /// Nothing: the variable of this name begins.
    Begin(Txt),
    /// Nothing: the variable of this name ends.
    End(Txt),
    /// A context that has to follow opens.
    Positive,
    /// A context that may not follow opens.
    Negative,
    /// The context closes.
    ContextEnd,
    /// Nothing: what stands on the left is context.
    Cut,
    /// A word of the graph of this number, counted from 1.
    Call(u32),
}

impl Label {
    /// A copy.
    pub fn copy(&self) -> Result<Label, AllocError>
        ensures { IfOk result (λ label. label ≡ self.now) }
    {
        self.clone()
    }
}
