//! Why nothing is answered.

use std::alloc::{AllocError, AllocFailed};
use ux_base::{NoMemory, Txt};

/// Why a plan was not carried out. The reasons are those of the readers of one command.
#[derive(Drop)]
pub enum Stop<R> {
    /// No file has the name.
    Absent { name: Txt },
    /// The file could not be read.
    ReadFault { name: Txt },
    /// The file is longer than the program takes.
    TooLarge { name: Txt },
    /// The file isn't of its format.
    Refused { name: Txt, reason: R },
    /// Memory ran out.
    NoMemory,
}

impl<R> From<NoMemory> for Stop<R> {
    ghost use Rattle.std.specs.Prelude.{◌≡◌};
    ghost use Rattle.ux_plan.specs.declared.stop.Stop.TheVariants as stop;

    ghost from_gives = { λ _ s. s ≡ stop.NoMemory };

    fn from(_error: NoMemory) -> Stop<R> {
        Stop::NoMemory
    }
}

impl<R> From<AllocError> for Stop<R> {
    ghost use Rattle.std.specs.Prelude.{◌≡◌};
    ghost use Rattle.ux_plan.specs.declared.stop.Stop.TheVariants as stop;

    ghost from_gives = { λ _ s. s ≡ stop.NoMemory };

    fn from(_error: AllocError) -> Stop<R> {
        Stop::NoMemory
    }
}

impl<R, T: Drop> From<AllocFailed<T>> for Stop<R> {
    ghost use Rattle.std.specs.Prelude.{◌≡◌};
    ghost use Rattle.ux_plan.specs.declared.stop.Stop.TheVariants as stop;

    ghost from_gives = { λ _ s. s ≡ stop.NoMemory };

    fn from(_error: AllocFailed<T>) -> Stop<R> {
        Stop::NoMemory
    }
}
