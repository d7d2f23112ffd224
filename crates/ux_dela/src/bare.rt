//! Lines of forms that mean what is written: they are cut, and nothing is copied.
//!
//! Each byte before the comment is looked at once. A mark in form or lemma, or a backslash before
//! the comment, makes a line another one.

ghost use Rattle.std.specs.Prelude.{◌≡◌, ◌≤◌, ◌<◌, ◌++◌, IfSome, length, drop};
ghost use Rattle.ux_dela.specs.Bare.{IsBareLine};
ghost use Rattle.ux_dela.specs.Delaf.{IsComment};
ghost use Rattle.ux_dela.specs.Reading.{IsBareCut, IsBareEnd, IsBarePart};

use crate::delaf::{Cut, is_skipped, written_lemma};
use crate::part::{before, behind};

/// A line of forms in which no backslash stands before the comment, and no mark in form or lemma.
#[derive(Clone, Copy)]
pub struct BareLine<'a> {
    /// The form.
    pub form: &'a str,
    /// The lemma, which is the form where none is written.
    pub lemma: &'a str,
    /// The codes, with their signs.
    pub codes: &'a str,
}

/// The parts of the line, where they mean what is written. So a reader that knows the codes need not
/// read them once more; any other line is for `read_delaf_line`. Takes a step a byte, and no memory.
pub fn bare_line(line: &str) -> Option<BareLine<'_>>
    ensures { IfSome result (IsBareLine line.now) }
{
    let cut = bare_cut(line)?;
    Some(BareLine {
        form: cut.form,
        lemma: written_lemma(&cut),
        codes: cut.codes,
    })
}

/// The parts of the line, where form and lemma mean what is written and the codes have no backslash.
fn bare_cut(line: &str) -> Option<Cut<'_>>
    ensures { IfSome result (IsBareCut line.now) }
{
    if is_skipped(line) {
        return None;
    }
    let (form, behind_form) = bare_part(b',', line)?;
    if form.is_empty() {
        return None;
    }
    let (lemma, behind_lemma) = bare_part(b'.', behind_form)?;
    let (codes, comment) = bare_codes(behind_lemma)?;
    Some(Cut {
        form,
        lemma,
        codes,
        comment,
    })
}

/// What stands before the first such sign, and what stands behind it.
fn bare_part(sign: u8, text: &str) -> Option<(&str, &str)>
    requires { sign < 128 }
    ensures { IfSome result (λ parts. IsBarePart sign text.now parts.0.now parts.1.now) }
{
    let place = bare_end(sign, text.as_bytes())?;
    Some((before(text, place), behind(text, place)))
}

/// The place of the first such sign, where neither a mark nor a backslash stands before it.
fn bare_end(sign: u8, text: &[u8]) -> Option<usize>
    ensures { IfSome result (IsBareEnd sign text.now) }
{
    for (place, byte) in text.iter().enumerate() {
        if *byte == sign {
            return Some(place);
        }
        if *byte == b'=' || *byte == b'\\' {
            return None;
        }
    }
    None
}

/// The codes, and the comment behind them.
fn bare_codes(text: &str) -> Option<(&str, &str)>
    ensures { IfSome result (λ parts.
        (text.now ≡ parts.0.now ++ parts.1.now) × IsComment parts.1.now) }
{
    let place = comment_place(text.as_bytes())?;
    Some((&text[..place], &text[place..]))
}

/// Where the comment begins, or would begin, where no backslash stands before it.
fn comment_place(text: &[u8]) -> Option<usize>
    ensures { IfSome result (λ place.
        (place ≤ length text.now) × IsComment (drop place text.now)) }
{
    for (place, byte) in text.iter().enumerate() {
        if *byte == b'/' {
            return Some(place);
        }
        if *byte == b'\\' {
            return None;
        }
    }
    Some(text.len())
}
