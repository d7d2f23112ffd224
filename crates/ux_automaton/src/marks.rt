//! Marks of the places at which a mask may accept a span of several tokens.

ghost use Rattle.std.specs.Prelude.{IfOk};
ghost use Rattle.ux_mask_table.specs.MaskedTexts.{HasTable};
ghost use Rattle.ux_automaton.specs.Kept.{AreMarked};
ghost use Rattle.ux_walk.specs.Settings.{masked_setting};

use std::alloc::Global;
use ux_base::Mem;
use ux_mask_table::MaskedText;
use ux_mask_table::alone::is_alone;

/// A mark for each token, set where a compound entry or a digit begins. Takes a look at each token.
pub fn marks_of(alloc: Global, masked: &MaskedText) -> Mem<Vec<bool>>
    requires table { HasTable masked.now }
    ensures { IfOk result (λ marks. AreMarked (masked_setting masked.now) marks.items) }
{
    let mut marks = Vec::new(alloc);
    for place in 0..masked.text.len() {
        marks.push(!is_alone(masked.text, masked.applied, place))?;
    }
    Ok(marks)
}
