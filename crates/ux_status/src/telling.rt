//! The line on standard error that tells how a run ended. It is written in pieces, without memory.

ghost use Rattle.std.specs.Prelude.{◌≢◌, ◌≤◌, OnOk, OnErr};
ghost use Rattle.ux_base.specs.Outside.{Rose, Appended, AppendedFront};
ghost use Rattle.ux_status.specs.declared.status.Status.TheVariants.{Done};
ghost use Rattle.ux_status.specs.Statuses.{line_of};

use crate::status::Status;
use ux_base::{Sink, SinkError};
use ux_reasons::{say, say_refusal};

/// Writes the line of a status. A run that is done has none.
pub fn tell<E: Sink>(err: &mut E, status: &Status) -> Result<(), SinkError>
    requires { status.now ≢ Done }
    ensures later { E.faults err.old ≤ E.faults err.new }
    ensures cause { OnErr result (Rose (E.faults err.old) (E.faults err.new)) }
    ensures line { OnOk result (Appended (E.written err.old) (E.written err.new)
        (line_of status.now)) }
    ensures front { OnErr result (AppendedFront (E.written err.old) (E.written err.new)
        (line_of status.now)) }
{
    match status {
        Status::Done => Ok(()),
        Status::Usage => say(err, &["usage: unitex COMMAND ARGUMENTS\n"]),
        Status::Absent { name } => say(err, &["absent: ", name.as_str(), "\n"]),
        Status::Refused { file, reason } => say_refusal(err, file.as_str(), reason),
        Status::ReadFault { name } => say(err, &["read fault: ", name.as_str(), "\n"]),
        Status::WriteFault => say(err, &["write fault\n"]),
        Status::TooLarge { file } => say(err, &["too large: ", file.as_str(), "\n"]),
        Status::NoMemory => say(err, &["no memory\n"]),
    }
}
