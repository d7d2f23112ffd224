//! Which configurations a walk goes through, and where it tells what comes from what.

ghost use Rattle.std.specs.Prelude.{◌↔◌, ℕ, IsTrue, OnOk};
ghost use Rattle.ux_listing.specs.declared.config.Mark.{Mark};

use crate::config::Mark;
use ux_base::Mem;

/// Which configurations a walk goes through.
pub trait Marks {
    /// Which marks are set.
    ghost marked: { Self → Mark → Type 0 };

    /// To which ends they lead.
    ghost wanted: { Self → ℕ → Type 0 };

    /// Whether the walk goes through configurations of this mark.
    fn has(&self, mark: Mark) -> bool
        ensures { IsTrue result ↔ marked self.now mark };
}

/// A walk goes through each configuration.
pub struct AllMarks;

impl Marks for AllMarks {
    ghost marked = { λ marks mark. Unit {0} };

    ghost wanted = { λ marks end. Unit {0} };

    fn has(&self, mark: Mark) -> bool {
        true
    }
}

/// Where a walk tells which item comes from which, by their numbers.
pub trait Origins {
    /// That all is in order.
    ghost is_sound: { Self → Type 0 };

    /// Which numbers were noted.
    ghost told: { Self → (item origin : ℕ) → Type 0 };

    /// Notes that an item comes from another.
    fn note(&mut self, item: usize, origin: usize) -> Mem<()>
        requires { is_sound self.old }
        ensures sound { OnOk result (is_sound self.new) }
        ensures kept { OnOk result ((i o : ℕ) → told self.old i o → told self.new i o) }
        ensures noted { OnOk result (told self.new item origin) };
}

/// Nothing is noted.
#[derive(Drop)]
pub struct NoOrigins;

impl Origins for NoOrigins {
    ghost is_sound = { λ origins. Unit {0} };

    ghost told = { λ origins item origin. Unit {0} };

    fn note(&mut self, item: usize, origin: usize) -> Mem<()> {
        Ok(())
    }
}
