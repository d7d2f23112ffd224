//! What a command answers, as what a run does.

ghost use Rattle.std.specs.Prelude.{◌≡◌};
ghost use Rattle.ux_run.specs.Running.{status_of, told_of};

use ux_plan::Stop;
use ux_reasons::Reason;
use ux_status::Status;

/// The answer of a command, or the status of what stops it.
pub fn by_command(answer: Result<Vec<u8>, Stop<Reason>>) -> Result<Vec<u8>, Status>
    ensures { result ≡ told_of answer }
{
    match answer {
        Ok(answer) => Ok(answer),
        Err(stop) => Err(status_of(stop)),
    }
}

/// The status of a run that is stopped so.
fn status_of(stop: Stop<Reason>) -> Status
    ensures { result ≡ status_of stop }
{
    match stop {
        Stop::Absent { name } => Status::Absent { name },
        Stop::ReadFault { name } => Status::ReadFault { name },
        Stop::TooLarge { name } => Status::TooLarge { file: name },
        Stop::Refused { name, reason } => Status::Refused { file: name, reason },
        Stop::NoMemory => Status::NoMemory,
    }
}
