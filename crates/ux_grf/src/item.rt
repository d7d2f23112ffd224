//! What stands in a box: the items of its lines and the pieces of its output.

ghost use Rattle.std.specs.Prelude.{◌≡◌, IfOk};

use std::alloc::AllocError;
use ux_base::Txt;

/// One item of a line. The manual, on graphs.
#[derive(Drop)]
pub enum Item {
    /// A run of characters that is no other item.
    Literal(Txt),
    /// A text between quotation marks, which matches exactly.
    Quoted(Txt),
    /// The text between `<` and `>`: a lexical mask.
    Mask(Txt),
    /// A text in braces, with the braces.
    Brace(Txt),
    /// `#`: no space may stand here.
    NoSpace,
    /// The empty word: `<E>`, or a line without items.
    Empty,
    /// `:name`: a word of the graph of this name.
    Call(Txt),
    /// `$name(`: a variable begins; `$|name(`, where its text has the bar: an output's variable.
    Begin(Txt),
    /// `$name)`: a variable ends; `$|name)`, with the bar: an output's variable.
    End(Txt),
    /// `$[`: a context that has to follow.
    Positive,
    /// `$![`: a context that may not follow.
    Negative,
    /// `$]`: the context ends.
    ContextEnd,
    /// `$*`: what stands on the left is context.
    Cut,
}

/// A piece of a box's output.
#[derive(Clone, Drop)]
pub enum Piece {
    /// Characters that are put as they stand.
    Chars(Txt),
    /// The value of a variable: its name, or a test of it, `name.SET` or `name.UNSET`.
    Value(Txt),
}

impl Piece {
    /// A copy.
    pub fn copy(&self) -> Result<Piece, AllocError>
        ensures { IfOk result (λ piece. piece ≡ self.now) }
    {
        self.clone()
    }
}
