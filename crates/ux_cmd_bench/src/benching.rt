//! The command: a number of words in, four lines out.

ghost use Rattle.std.specs.Prelude.{IfOk};
ghost use Rattle.ux_cmd_bench.specs.Bench.{IsSummaryOf};

use crate::phrases::{dictionaries, letters, net};
use crate::summary::summary;
use std::alloc::Global;
use ux_base::Mem;

/// What is told of all noun phrases in a text of so many words that is made up. Memory alone may run
/// out: nothing that is made up is refused.
pub fn bench(alloc: Global, n: u32) -> Mem<Vec<u8>>
    ensures { IfOk result (λ answer. IsSummaryOf n answer.items) }
{
    let alphabet = letters(alloc)?;
    let net = net(alloc, &alphabet)?;
    let dics = dictionaries(alloc)?;
    summary(alloc, n, &alphabet, &dics, &net)
}
