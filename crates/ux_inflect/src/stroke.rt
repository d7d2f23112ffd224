//! What the characters of a graph do to a form.

ghost use Rattle.std.specs.Prelude.{◌≡◌};
ghost use Rattle.ux_inflect.specs.Strokes.{stroke_of};
ghost use Rattle.ux_inflect.specs.Places.{kept_by, outlined_stroke, stroke_by};

/// What one character of a graph does.
#[derive(Clone, Copy)]
pub enum Stroke {
    /// The cursor goes one left.
    Back,
    /// The cursor goes one right.
    Forth,
    /// What is on the right is copied to the left.
    Copy,
    /// What is on the left goes.
    Delete,
    /// The character is written over what is on the right, or at the end.
    Write(char),
}

/// How the text of a label is taken.
#[derive(Clone, Copy)]
pub(crate) enum Taking {
    /// `L`, `R`, `C` and `D` are operators.
    Literal,
    /// Each character is written.
    Quoted,
}

/// What is kept of forms and outputs.
#[derive(Clone, Copy)]
pub(crate) enum Detail {
    /// Which characters they have.
    Whole,
    /// How many characters forms have, and no output.
    Outline,
}

/// What the character does.
pub(crate) fn stroke_from(taking: Taking, detail: Detail, c: char) -> Stroke
    ensures { result ≡ stroke_by taking detail c }
{
    match taking {
        Taking::Literal => operator(detail, c),
        Taking::Quoted => Stroke::Write(kept(detail, c)),
    }
}

/// What a character of a literal does.
fn operator(detail: Detail, c: char) -> Stroke
    ensures { result ≡ outlined_stroke detail (stroke_of c) }
{
    match c {
        'L' => Stroke::Back,
        'R' => Stroke::Forth,
        'C' => Stroke::Copy,
        'D' => Stroke::Delete,
        _ => Stroke::Write(kept(detail, c)),
    }
}

/// The character, or one that stands for any.
pub(crate) fn kept(detail: Detail, c: char) -> char
    ensures { result ≡ kept_by detail c }
{
    match detail {
        Detail::Whole => c,
        Detail::Outline => '-',
    }
}
