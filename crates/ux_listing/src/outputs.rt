//! The events of an output, folded.

ghost use Rattle.std.specs.Prelude.{◌≡◌, ℕ, IfOk, OnOk, Some};
ghost use Rattle.ux_folds.specs.Folding.{Folds, Grows};
ghost use Rattle.ux_walk.specs.Courses.{put_event, put_events};
ghost use Rattle.ux_listing.specs.Walking.{IsKnown};

use ux_base::Mem;
use ux_folds::{Fold, LentEvent};
use ux_grf::Piece;

/// The state after the events of an output. None where the derivation is dropped.
pub fn put_out<F: Fold>(fold: &mut F, state: usize, output: &[Piece]) -> Mem<Option<usize>>
    requires { IsKnown (F.means fold.old) state }
    ensures grows { OnOk result (Grows (F.next fold.old) (F.next fold.new)
        (F.means fold.old) (F.means fold.new)) }
    ensures folds { IfOk result (Folds (F.next fold.new) (put_events output.now) (Some state)) }
    ensures known { IfOk result (λ after. (u : ℕ) → after ≡ Some u →
        IsKnown (F.means fold.new) u) }
{
    let mut after = state;
    for piece in output {
        match put_piece(fold, after, piece)? {
            Some(next) => after = next,
            None => return Ok(None),
        }
    }
    Ok(Some(after))
}

/// The state after the event of a piece of an output.
fn put_piece<F: Fold>(fold: &mut F, state: usize, piece: &Piece) -> Mem<Option<usize>>
    requires { IsKnown (F.means fold.old) state }
    ensures grows { OnOk result (Grows (F.next fold.old) (F.next fold.new)
        (F.means fold.old) (F.means fold.new)) }
    ensures next { IfOk result (F.next fold.new state (put_event piece.now)) }
{
    match piece {
        Piece::Chars(text) => fold.add(state, LentEvent::Put(text.as_str())),
        Piece::Value(name) => fold.add(state, LentEvent::Value(name.as_str())),
    }
}
