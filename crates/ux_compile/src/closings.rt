//! Where contexts that may not follow are closed, by the numbers of the states of places.

ghost use Rattle.std.specs.Prelude.{◌≡◌, ℕ, ◌+◌, ◌<◌, [], length, get_or, Contains, IfOk};
ghost use Rattle.ux_admission.specs.ToldClosings.{closings_of};
ghost use Rattle.ux_compile.specs.Construct.{AreFit, number};

use crate::numbering::numbers;
use std::alloc::Global;
use ux_base::{Lst, Mem};
use ux_boxes::Place;
use ux_net::Closing;

/// Where the contexts of a graph that may not follow are closed, from the rows of its places, of
/// which the first has the number `before`.
pub fn closings(
    alloc: Global,
    places: &[Place],
    closers: &[Lst<usize>],
    before: usize,
) -> Mem<Vec<Closing>>
    requires fit { AreFit places.now }
    requires room { before + length places.now < 18446744073709551616 }
    requires inside { (b c : ℕ) → b < length places.now →
        Contains (get_or closers.now (before + b) []) c → c < length places.now }
    ensures { IfOk result (λ list. list.items ≡
        closings_of (number places.now) places.now (λ b. get_or closers.now (before + b) [])) }
{
    let numbers = numbers(alloc, places)?;
    ux_admission::closings(alloc, places, &numbers, closers, before)
}
