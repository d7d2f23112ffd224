//! The index of hits, as text: a header line, then a line for each hit.

ghost use Rattle.std.specs.Prelude.{◌≡◌, ◌++◌, All, IfOk, OnOk, length, map, codes, string_bytes};
ghost use Rattle.std.specs.Fmt.{decimal};
ghost use Rattle.ux_base.specs.declared.settings.Mode.TheVariants.{Ignore};
ghost use Rattle.ux_locate.specs.Index.{header, index_line, index_of};
ghost use Rattle.ux_locate.specs.Spans.{LiesIn, hit_at};

use itoa::Buffer;
use std::alloc::{AllocError, Global};
use ux_base::{Mem, Mode};
use ux_outputs::{Hit, Span};
use ux_tokens::Text;

/// The index of the hits. Takes time in the bytes that it writes.
pub fn index_text(alloc: Global, mode: Mode, hits: &[Hit]) -> Mem<String>
    ensures { IfOk result (λ index. string_bytes index ≡ index_of mode hits.now) }
{
    let mut index = String::from_str(alloc, header(mode))?;
    for hit in hits {
        let (first, last) = (hit.first as usize, hit.last as usize);
        push_line(&mut index, first, last, hit.text.as_str())?;
    }
    Ok(index)
}

/// The index of the hits of these spans, where outputs are ignored. Each hit's text is lent by the
/// text.
pub fn span_index(alloc: Global, text: &Text, spans: &[Span]) -> Mem<String>
    requires { All (LiesIn text.now) spans.now }
    ensures { IfOk result (λ index.
        string_bytes index ≡ index_of Ignore (map (hit_at text.now) spans.now)) }
{
    let mut index = String::from_str(alloc, header(Mode::Ignore))?;
    for span in spans {
        let found = text.slice(span.first, span.last);
        push_line(&mut index, span.first, span.last, found)?;
    }
    Ok(index)
}

/// The first line.
fn header(mode: Mode) -> &'static str
    ensures { result.now ≡ header mode }
{
    match mode {
        Mode::Ignore => "#I\n",
        Mode::Merge => "#M\n",
        Mode::Replace => "#R\n",
    }
}

/// Adds the line of a hit: first token, last token, text.
fn push_line(index: &mut String, first: usize, last: usize, text: &str) -> Result<(), AllocError>
    ensures { OnOk result (string_bytes index.new ≡ string_bytes index.old
        ++ index_line (record { first = first; last = last; text = text.now })) }
{
    push_number(index, first)?;
    push_number(index, last)?;
    index.push_str(text)?;
    index.push('\n')
}

/// Adds a number and a space.
fn push_number(index: &mut String, number: usize) -> Result<(), AllocError>
    ensures { OnOk result
        (string_bytes index.new ≡ string_bytes index.old ++ decimal number ++ codes " ") }
{
    let mut buffer = Buffer::new();
    index.push_str(buffer.format(number))?;
    index.push(' ')
}
