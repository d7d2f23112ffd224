//! What reads a list and tells whether it satisfies.

ghost use Rattle.std.specs.Prelude.{◌≡◌, ℕ, ◌+◌, ◌<◌, ◌↔◌, List, [], ◌∷◌, ◌++◌, IfOk, OnOk, IsTrue};
ghost use Rattle.ux_subsets.specs.Machines.{Grows};

use std::alloc::Global;
use ux_base::Mem;

/// Reads a list, reading by reading, and tells of the list whether it satisfies. Its states are
/// numbers, to which it gives a meaning as it goes.
pub trait Machine {
    // the machine can be in the state after the list
    ghost stands: { Self → ℕ → List ℕ → Type 0 };

    ghost satisfies: { Self → List ℕ → Type 0 };

    /// The state before any reading.
    fn begin(&mut self, alloc: Global) -> Mem<usize>
        ensures grows { OnOk result (Grows (stands self.old) (stands self.new)
            (satisfies self.old) (satisfies self.new)) }
        ensures begun { IfOk result (λ state. stands self.new state []) };

    /// The state after one more reading.
    fn step(&mut self, alloc: Global, state: usize, reading: u32) -> Mem<usize>
        ensures grows { OnOk result (Grows (stands self.old) (stands self.new)
            (satisfies self.old) (satisfies self.new)) }
        ensures stepped { IfOk result (λ next. (before : List ℕ) → stands self.old state before →
            stands self.new next (before ++ reading ∷ [])) };

    /// Whether the lists after which the machine is in the state satisfy.
    fn accepts(&self, state: usize) -> bool
        ensures { (before : List ℕ) → stands self.now state before →
            (IsTrue result ↔ satisfies self.now before) };
}

/// Each list satisfies.
#[derive(Drop)]
pub struct AnyList;

impl Machine for AnyList {
    ghost stands = { λ machine state before. state ≡ 0 };

    ghost satisfies = { λ machine before. Unit {0} };

    fn begin(&mut self, alloc: Global) -> Mem<usize> {
        Ok(0)
    }

    fn step(&mut self, alloc: Global, state: usize, reading: u32) -> Mem<usize> {
        Ok(0)
    }

    fn accepts(&self, state: usize) -> bool {
        true
    }
}
