//! The lines that are left of a text, and how many were read.

ghost use Rattle.std.specs.Prelude.{◌≡◌, ◌+◌, ◌<◌, ◌^◌, ◌∷◌, [], length, MatchOption};
ghost use Rattle.ux_base.specs.Lines.{lines_of};

use ux_base::Lines;

/// The lines that are left of a text. A text has fewer than 2^63 lines.
#[derive(Drop)]
pub(crate) struct Cursor<'a> {
    /// The lines.
    pub lines: Lines<'a>,
    /// How many lines were read.
    pub number: usize,
    ghost counted: { number + length lines < 2 ^ 63 },
}

impl<'a> Cursor<'a> {
    /// All lines of a text.
    pub(crate) fn of(text: &'a str) -> Cursor<'a>
        ensures lines { result.lines ≡ lines_of text.now }
        ensures number { result.number ≡ 0 }
    {
        // The bytes of a slice are fewer than 2^63, and so its lines.
        let _bytes = text.as_bytes();
        Cursor {
            lines: ux_base::lines(text),
            number: 0,
        }
    }

    /// The next line.
    pub(crate) fn next_line(&mut self) -> Option<&'a str>
        ensures { MatchOption result
            ((self.old.lines ≡ []) × (self.new.number ≡ self.old.number))
            (λ line. (self.old.lines ≡ line.now ∷ self.new.lines)
            × (self.new.number ≡ self.old.number + 1)) }
    {
        let line = self.lines.next()?;
        self.number += 1;
        Some(line)
    }
}
