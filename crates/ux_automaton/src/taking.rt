//! Which tokens a label takes from a position on.

ghost use Rattle.std.specs.Prelude.{◌≡◌, ◌↔◌, ℕ, Contains, IfOk, Some};
ghost use Rattle.ux_mask_table.specs.MaskedTexts.{IsKnown};
ghost use Rattle.ux_walk.specs.Settings.{masked_setting};
ghost use Rattle.ux_automaton.specs.Targets.{Takes};

use std::alloc::Global;
use ux_base::Mem;
use ux_mask_table::MaskedText;
use ux_net::Label;
use ux_walk::matching::{after_brace, after_exact, after_fold, after_space, skip};

/// The positions after the tokens that a label takes from a position on. If it is a mask, it has to
/// stand in the net, and its spans are read from the table.
pub fn ends_of(alloc: Global, masked: &MaskedText, label: &Label, at: usize) -> Mem<Vec<usize>>
    requires known { IsKnown masked.now label.now }
    ensures { IfOk result (λ ends. (k : ℕ) →
        Contains ends.items k ↔ Takes (masked_setting masked.now) label.now at k) }
{
    match label {
        Label::CaseFolded(entry) => {
            listed(
                alloc,
                after_fold(masked.text, masked.alphabet, entry.as_str(), at),
            )
        },
        Label::CaseExact(exact) => listed(alloc, after_exact(masked.text, exact.as_str(), at)),
        Label::Brace(brace) => listed(alloc, after_brace(masked.text, brace.as_str(), at)),
        Label::Space => listed(alloc, after_space(masked.text, at)),
        Label::Mask(mask) => masked.mask_ends(alloc, mask, skip(masked.text, at)),
        Label::Empty
        | Label::NoSpace
        | Label::Begin(_)
        | Label::End(_)
        | Label::Positive
        | Label::Negative
        | Label::ContextEnd
        | Label::Cut
        | Label::Call(_) => Ok(Vec::new(alloc)),
    }
}

/// The end alone, if there is one.
fn listed(alloc: Global, end: Option<usize>) -> Mem<Vec<usize>>
    ensures { IfOk result (λ ends. (k : ℕ) → Contains ends.items k ↔ (end ≡ Some k)) }
{
    let mut ends = Vec::new(alloc);
    if let Some(end) = end {
        ends.push(end)?;
    }
    Ok(ends)
}
