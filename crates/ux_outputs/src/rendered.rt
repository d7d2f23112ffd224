//! The hit of a derivation.

ghost use Rattle.std.specs.Prelude.{◌≡◌, IfOk};
ghost use Rattle.ux_outputs.specs.Following.{FollowWithin};
ghost use Rattle.ux_outputs.specs.Rendering.{render};

use crate::event::Event;
use crate::hit::Hit;
use crate::rendering::Rendering;
use std::alloc::Global;
use ux_base::{Mem, Mode, NoVar};
use ux_tokens::Text;

/// The hit that the events of a derivation from the start render. None where the derivation is dropped,
/// by an output without a value or by a test, and where no token but spaces was taken after the last cut.
///
/// Takes a step for each event, and for each byte that is put out. Where all events take tokens, the
/// hit's text is the only memory taken, once.
pub fn render(
    alloc: Global,
    start: usize,
    events: &[Event],
    mode: Mode,
    novar: NoVar,
    text: &Text,
) -> Mem<Option<Hit>>
    requires follow { FollowWithin text.now start events.now }
    ensures { IfOk result (λ hit. hit ≡ render text.now mode novar start events.now) }
{
    let mut rendering = Rendering::new(alloc, start);
    for event in events {
        if !rendering.follow(event, mode, novar, text)? {
            return Ok(None);
        }
    }
    rendering.finish(mode, text)
}
