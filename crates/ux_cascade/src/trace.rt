//! The rounds of a cascade, as text.

ghost use Rattle.std.specs.Prelude.{◌≡◌, ◌++◌, IfOk, OnOk, string_bytes};
ghost use Rattle.std.specs.Fmt.{decimal};
ghost use Rattle.ux_cascade.specs.Trace.{trace_line, trace_of};

use crate::outcome::Round;
use itoa::Buffer;
use std::alloc::{AllocError, Global};
use ux_base::Mem;

/// A line for each round: its step and which of the step's rounds it is, both counted from 1, and how
/// many hits were rewritten.
pub fn trace_text(alloc: Global, rounds: &[Round]) -> Mem<String>
    ensures { IfOk result (λ trace. string_bytes trace ≡ trace_of rounds.now) }
{
    let mut trace = String::new(alloc);
    for round in rounds {
        push_line(&mut trace, round)?;
    }
    Ok(trace)
}

/// Adds the line of a round.
fn push_line(trace: &mut String, round: &Round) -> Result<(), AllocError>
    ensures { OnOk result
        (string_bytes trace.new ≡ string_bytes trace.old ++ trace_line round.now) }
{
    // A step's number is never the last that 128 bits hold.
    push_number(trace, round.step as u128 + 1)?;
    trace.push(' ')?;
    push_number(trace, round.round as u128)?;
    trace.push(' ')?;
    push_number(trace, round.spans as u128)?;
    trace.push('\n')
}

/// Adds a number.
fn push_number(trace: &mut String, number: u128) -> Result<(), AllocError>
    ensures { OnOk result
        (string_bytes trace.new ≡ string_bytes trace.old ++ decimal number) }
{
    let mut buffer = Buffer::new();
    trace.push_str(buffer.format(number))
}
