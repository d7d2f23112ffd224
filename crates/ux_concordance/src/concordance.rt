//! The concordance of hits, as text.
//!
//! The lines are made, put in order and written; a context is copied once, where it is written.

ghost use Rattle.std.specs.Prelude.{◌≡◌, ◌+◌, ◌++◌, ℕ, All, IfOk, OnOk, map, replicate, string_bytes};
ghost use Rattle.std.specs.List.{flat_map};
ghost use Rattle.ux_tokens.specs.Tokens.{SPACE};
ghost use Rattle.ux_concordance.specs.Concordance.{IsConcordance, LiesIn, written};
ghost use Rattle.ux_concordance.specs.Lent.{AreFilled, AreLinesOf, IsFilled, line_of as lent};

use crate::line::{LentLine, line_of};
use crate::order::sort_lines;
use std::alloc::{AllocError, Global};
use ux_base::{Mem, Sort};
use ux_outputs::Hit;
use ux_tokens::Text;

/// The concordance of the hits: a line for each, with what stands before and behind it as far as so many
/// columns go, in the order of the sort.
///
/// For each hit it takes a step for each character of its contexts, where characters without a width
/// take no column and come on top, and then what it takes to sort and to write the lines.
pub fn concord(
    alloc: Global,
    text: &Text,
    hits: &[Hit],
    left: u32,
    right: u32,
    sort: Sort,
) -> Mem<String>
    requires { All (LiesIn text.now) hits.now }
    ensures { IfOk result (λ concordance.
        IsConcordance text.now left right sort hits.now (string_bytes concordance)) }
{
    let mut lines = lines_of(alloc, text, hits, left, right)?;
    sort_lines(sort, &mut lines);
    Ok(write_lines(alloc, lines.as_slice())?)
}

/// The lines of the hits, in the order of the hits.
fn lines_of<'a>(
    alloc: Global,
    text: &'a Text,
    hits: &'a [Hit],
    left: u32,
    right: u32,
) -> Result<Vec<LentLine<'a>>, AllocError>
    requires { All (LiesIn text.now) hits.now }
    ensures { IfOk result (λ lines. AreLinesOf text.now left right hits.now lines.items) }
{
    let mut lines = Vec::new(alloc);
    for hit in hits {
        lines.push(line_of(text, hit, left, right))?;
    }
    Ok(lines)
}

/// The lines as text.
fn write_lines(alloc: Global, lines: &[LentLine]) -> Result<String, AllocError>
    ensures { (columns : ℕ) → AreFilled columns lines.now → IfOk result (λ text.
        string_bytes text ≡ flat_map (written columns) (map lent lines.now)) }
{
    let mut text = String::new(alloc);
    for line in lines {
        push_line(&mut text, line)?;
    }
    Ok(text)
}

/// Adds a line.
fn push_line(text: &mut String, line: &LentLine) -> Result<(), AllocError>
    ensures { (columns : ℕ) → IsFilled columns line.now → OnOk result
        (string_bytes text.new ≡ string_bytes text.old ++ written columns (lent line.now)) }
{
    push_spaces(text, line.spaces)?;
    text.push_str(line.left)?;
    text.push('\t')?;
    text.push_str(line.hit.text.as_str())?;
    text.push('\t')?;
    text.push_str(line.right)?;
    text.push('\n')
}

/// Adds so many spaces.
fn push_spaces(text: &mut String, count: usize) -> Result<(), AllocError>
    ensures { OnOk result (string_bytes text.new ≡ string_bytes text.old ++ replicate count SPACE) }
{
    for _ in 0..count {
        text.push(' ')?;
    }
    Ok(())
}
