//! Which tests a reading passes, and so of which kind it is.

ghost use Rattle.std.specs.Prelude.{◌≡◌, ◌↔◌, ◌⊎◌, ◌<◌, ◌^◌, ℕ, Contains, IfOk, IsTrue, OnOk, length};
ghost use Rattle.ux_monitor.specs.Monitors.{AreMore, tests_of};
ghost use Rattle.ux_elag.specs.Ready.{ArePassed, IsKindFor, IsPassedBy, IsTable};

use std::alloc::Global;
use ux_base::Mem;
use ux_monitor::Monitor;
use ux_rules::{Sign, Step};
use ux_sentence::Reading;

/// The kinds of the readings, by their numbers: which tests of the steps each passes.
pub(crate) fn kinds_of(
    alloc: Global,
    steps: &[Step],
    monitor: &mut Monitor,
    readings: &[Reading],
) -> Mem<Vec<usize>>
    requires { length steps.now < 2 ^ 32 }
    ensures rule { monitor.new.rule ≡ monitor.old.rule }
    ensures kinds { IfOk result (λ kinds. IsTable steps.now readings.now
        (tests_of monitor.new.kinds kinds.items)) }
{
    let mut kinds = Vec::new(alloc);
    for reading in readings {
        kinds.push(kind_of_reading(alloc, steps, monitor, reading)?)?;
    }
    Ok(kinds)
}

/// The kind of the reading: which tests of the steps it passes.
pub(crate) fn kind_of_reading(
    alloc: Global,
    steps: &[Step],
    monitor: &mut Monitor,
    reading: &Reading,
) -> Mem<usize>
    requires { length steps.now < 2 ^ 32 }
    ensures rule { monitor.new.rule ≡ monitor.old.rule }
    ensures more { OnOk result (AreMore monitor.old.kinds monitor.new.kinds) }
    ensures kind { IfOk result (IsKindFor steps.now reading.now monitor.new.kinds) }
{
    let tests = passed_tests(alloc, steps, reading)?;
    monitor.kind_of(alloc, tests.as_slice())
}

/// The tests of the steps that the reading passes, by the numbers of their steps.
fn passed_tests(alloc: Global, steps: &[Step], reading: &Reading) -> Mem<Vec<u32>>
    requires { length steps.now < 2 ^ 32 }
    ensures { IfOk result (λ tests. ArePassed steps.now reading.now tests.items) }
{
    let mut tests = Vec::new(alloc);
    for (index, step) in steps.iter().enumerate() {
        note_passed(&mut tests, index as u32, &step.sign, reading)?;
    }
    Ok(tests)
}

/// Adds the number, if the sign is a test that the reading passes.
fn note_passed(tests: &mut Vec<u32>, number: u32, sign: &Sign, reading: &Reading) -> Mem<()>
    ensures { OnOk result ((other : ℕ) → Contains tests.new.items other
        ↔ (Contains tests.old.items other ⊎ ((other ≡ number) × IsPassedBy reading.now sign.now))) }
{
    if is_passed(sign, reading) {
        tests.push(number)?;
        return Ok(());
    }
    Ok(())
}

/// Whether the sign is a test that the reading passes.
fn is_passed(sign: &Sign, reading: &Reading) -> bool
    ensures { IsTrue result ↔ IsPassedBy reading.now sign.now }
{
    match sign {
        Sign::Read(test) => test.passes(reading),
        Sign::Free | Sign::If | Sign::Then => false,
    }
}
