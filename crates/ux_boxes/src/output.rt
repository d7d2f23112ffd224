//! Copies of what boxes put out.

ghost use Rattle.std.specs.Prelude.{◌≡◌, IfOk};

use std::alloc::Global;
use ux_base::{Lst, Mem};
use ux_grf::Piece;

/// A copy of the pieces.
pub fn copied_output(alloc: Global, pieces: &[Piece]) -> Mem<Lst<Piece>>
    ensures { IfOk result (λ copy. copy ≡ pieces.now) }
{
    let mut copy = Vec::with_capacity(alloc, pieces.len())?;
    for piece in pieces {
        copy.push(piece.copy()?)?;
    }
    Ok(Lst::new(copy))
}
