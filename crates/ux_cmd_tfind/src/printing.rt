//! The places where a grammar is found, as text.

ghost use Rattle.std.specs.Prelude.{◌≡◌, ◌++◌, OnOk, string_bytes};
ghost use Rattle.std.specs.Fmt.{decimal};
ghost use Rattle.ux_cmd_tfind.specs.Lines.{span_lines, span_line};
ghost use Rattle.ux_sentence.specs.Written.{ended};

use itoa::Buffer;
use std::alloc::AllocError;
use ux_tfst_locate::Span;

/// Adds a line for each span: the number of the sentence, and the two states.
pub(crate) fn print_spans(answer: &mut String, spans: &[Span]) -> Result<(), AllocError>
    ensures { OnOk result
        (string_bytes answer.new ≡ string_bytes answer.old ++ span_lines spans.now) }
{
    for span in spans {
        print_span(answer, span)?;
    }
    Ok(())
}

/// Adds the line of the span.
fn print_span(answer: &mut String, span: &Span) -> Result<(), AllocError>
    ensures { OnOk result
        (string_bytes answer.new ≡ string_bytes answer.old ++ ended (span_line span.now)) }
{
    push_number(answer, u64::from(span.sentence))?;
    answer.push(' ')?;
    push_number(answer, span.from)?;
    answer.push(' ')?;
    push_number(answer, span.to)?;
    answer.push('\n')
}

/// Adds a number.
fn push_number(answer: &mut String, number: u64) -> Result<(), AllocError>
    ensures { OnOk result (string_bytes answer.new ≡ string_bytes answer.old ++ decimal number) }
{
    let mut buffer = Buffer::new();
    answer.push_str(buffer.format(number))
}
