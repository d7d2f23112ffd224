//! What stands around a hit, as far as the columns go.
//!
//! A context is a part of the text, and nothing is copied. It is walked a character at a time from the
//! hit on, and stops at the first that doesn't fit: no longer part does, since no width is below 0.
//! Characters without a width fit always, so a run of them is walked to its end.

ghost use Rattle.std.specs.Prelude.{◌≡◌, [], ◌+◌, ◌<◌, ◌++◌, encode_utf8, length, IfSome, IsUtf8, MatchOption};
ghost use Rattle.ux_concordance.specs.Contexts.{IsLeftContext, IsRightContext};
ghost use Rattle.ux_concordance.specs.Widths.{width};

use crate::width::columns_of;

/// The longest part at the begin of the text that is within the columns. Takes a step a character of it.
pub(crate) fn right_context(behind: &str, columns: usize) -> &str
    ensures { IsRightContext columns behind.now result.now }
{
    let mut rest = behind;
    let mut room = columns;
    while let Some((first, later)) = split_first(rest) {
        let taken = columns_of(first);
        if taken > room {
            break;
        }
        room -= taken;
        rest = later;
    }
    &behind[..behind.len() - rest.len()]
}

/// The longest part at the end of the text that is within the columns, and how many columns it leaves.
/// Takes a step a character of it.
pub(crate) fn left_context(before: &str, columns: usize) -> (&str, usize)
    ensures context { IsLeftContext columns before.now result.0.now }
    ensures room { width result.0.now + result.1 ≡ columns }
{
    let mut rest = before;
    let mut room = columns;
    while let Some((earlier, last)) = split_last(rest) {
        let taken = columns_of(last);
        if taken > room {
            break;
        }
        room -= taken;
        rest = earlier;
    }
    (&before[rest.len()..], room)
}

/// The first character, and what follows it.
fn split_first(text: &str) -> Option<(char, &str)>
    ensures parts { MatchOption result (text.now ≡ [])
        (λ parts. text.now ≡ encode_utf8 parts.0 ++ parts.1.now) }
    ensures whole { IfSome result (λ parts. IsUtf8 parts.1.now) }
    ensures shorter { IfSome result (λ parts. length parts.1.now < length text.now) }
{
    let mut rest = text.chars();
    let first = rest.next()?;
    Some((first, rest.as_str()))
}

/// What stands before the last character, and it.
pub(crate) fn split_last(text: &str) -> Option<(&str, char)>
    ensures parts { MatchOption result (text.now ≡ [])
        (λ parts. text.now ≡ parts.0.now ++ encode_utf8 parts.1) }
    ensures whole { IfSome result (λ parts. IsUtf8 parts.0.now) }
    ensures shorter { IfSome result (λ parts. length parts.0.now < length text.now) }
{
    let mut rest = text.chars();
    let last = rest.next_back()?;
    Some((rest.as_str(), last))
}
