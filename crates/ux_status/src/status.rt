//! How the program ends.

use ux_base::Txt;
use ux_reasons::Reason;

/// How a run ended.
#[derive(Drop)]
pub enum Status {
    /// The result was written whole.
    Done,
    /// The words are no request.
    Usage,
    /// No file has the name.
    Absent { name: Txt },
    /// The file isn't of its format.
    Refused { file: Txt, reason: Reason },
    /// The file could not be read.
    ReadFault { name: Txt },
    /// The result, or the line on standard error, could not be written.
    WriteFault,
    /// The file, or the list of its tokens, is longer than the program takes.
    TooLarge { file: Txt },
    /// Memory ran out.
    NoMemory,
}

impl Status {
    ghost use Rattle.std.specs.Prelude.{◌≡◌};
    ghost use Rattle.ux_status.specs.Statuses.{number_of};

    /// The program's exit status.
    pub fn number(&self) -> u8
        ensures { result ≡ number_of self.now }
    {
        match self {
            Status::Done => 0,
            Status::Usage => 1,
            Status::Absent { .. } => 2,
            Status::Refused { .. } => 3,
            Status::ReadFault { .. } => 4,
            Status::WriteFault => 5,
            Status::TooLarge { .. } => 6,
            Status::NoMemory => 7,
        }
    }
}
