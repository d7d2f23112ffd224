//! How many columns a character takes.

ghost use Rattle.std.specs.Prelude.{◌≡◌, IsTrue};
ghost use Rattle.ux_concordance.specs.Widths.{columns_of};

use unicode_width::UnicodeWidthChar;

/// The columns that a character takes. One without a display width takes none. Characters that ASCII
/// prints take one, and are most of most texts: for them no table is asked.
pub(crate) fn columns_of(c: char) -> usize
    ensures { result ≡ columns_of c }
{
    if is_printed(c) {
        return 1;
    }
    c.width().unwrap_or(0)
}

/// Whether ASCII prints the character, the space among them.
#[tactic(auto, using(crate::proofs::WidthLemmas::printed_width))]
fn is_printed(c: char) -> bool
    ensures { IsTrue result → columns_of c ≡ 1 }
{
    let code = c as u32;
    32 <= code && code < 127
}
