//! Where labels lead in a text.
//!
//! What masks take is told by the table of masks; any other label is tried.

ghost use Rattle.std.specs.Prelude.{◌≡◌, ℕ, ◌<◌, ◌≤◌, ◌↔◌, ◌⊎◌, Some, Contains, IfSome, IsTrue, OnOk, length};
ghost use Rattle.ux_mask_table.specs.MaskedTexts.{IsKnown};
ghost use Rattle.ux_meaning.specs.Texts.{IsSpaceAt};
ghost use Rattle.ux_outputs.specs.Rendering.{skip as skip_of};
ghost use Rattle.ux_parts.specs.Runs.{Plain};
ghost use Rattle.ux_text_chart.specs.Leading.{MayLead, input_of, without_masks};
ghost use Rattle.ux_walk.specs.Settings.{masked_setting};

use ux_alphabet::Alphabet;
use ux_base::Mem;
use ux_mask_table::MaskedText;
use ux_net::Label;
use ux_tokens::Text;
use ux_walk::matching::{after_brace, after_exact, after_fold, after_space, is_space, skip};

/// Adds the positions to which a label leads that is no call and opens or closes no context. If it is
/// a mask, it has to stand in the net, and its ends are looked up.
pub fn add_ends(
    masked: &MaskedText<'_>,
    label: &Label,
    at: usize,
    positions: &mut Vec<usize>,
) -> Mem<()>
    requires { IsKnown masked.now label.now }
    ensures { OnOk result ((k : ℕ) → Contains positions.new.items k
        ↔ (Contains positions.old.items k
        ⊎ Plain (input_of (masked_setting masked.now)) label.now at k)) }
{
    if let Label::Mask(mask) = label {
        masked.add_mask_ends(mask, skip(masked.text, at), positions)?;
        return Ok(());
    }
    if let Some(end) = end_by(masked.text, masked.alphabet, label, at) {
        positions.push(end)?;
    }
    Ok(())
}

/// Whether a label may lead on from a position. What takes something by itself is tried; any other
/// label may. If it is a mask, it has to stand in the net. Takes no memory.
pub fn may_lead(masked: &MaskedText<'_>, label: &Label, at: usize) -> bool
    requires { IsKnown masked.now label.now }
    ensures { IsTrue result ↔ MayLead (input_of (masked_setting masked.now)) label.now at }
{
    match label {
        Label::Mask(mask) => masked.accepts_some(mask, skip(masked.text, at)),
        Label::CaseFolded(_) | Label::CaseExact(_) | Label::Brace(_) | Label::Space => {
            end_by(masked.text, masked.alphabet, label, at).is_some()
        },
        Label::Empty
        | Label::NoSpace
        | Label::Begin(_)
        | Label::End(_)
        | Label::Positive
        | Label::Negative
        | Label::ContextEnd
        | Label::Cut
        | Label::Call(_) => true,
    }
}

/// The position after a space that stands at this one, where no further one stands there. Only a
/// label that asks for spaces tells the two apart.
pub fn alike_after(text: &Text, at: usize) -> Option<usize>
    ensures later { IfSome result (λ later. at < later) }
    ensures inside { IfSome result (λ later. later ≤ length text.now) }
    ensures same { IfSome result (λ later. skip_of text.now later ≡ skip_of text.now at) }
{
    if !is_space(text, at) || is_space(text, at + 1) {
        return None;
    }
    Some(at + 1)
}

/// The position to which a label leads that is no mask and no call, and opens or closes no context.
fn end_by(text: &Text, alphabet: &Alphabet, label: &Label, at: usize) -> Option<usize>
    ensures { (k : ℕ) → (result ≡ Some k)
        ↔ Plain (without_masks alphabet.now text.now) label.now at k }
{
    match label {
        Label::CaseFolded(entry) => after_fold(text, alphabet, entry.as_str(), at),
        Label::CaseExact(exact) => after_exact(text, exact.as_str(), at),
        Label::Brace(brace) => after_brace(text, brace.as_str(), at),
        Label::Space => after_space(text, at),
        Label::NoSpace => at_glue(text, at),
        Label::Begin(_) | Label::End(_) | Label::Cut => Some(at),
        Label::Empty
        | Label::Mask(_)
        | Label::Positive
        | Label::Negative
        | Label::ContextEnd
        | Label::Call(_) => None,
    }
}

/// The position, where no space stands.
fn at_glue(text: &Text, at: usize) -> Option<usize>
    ensures { (k : ℕ) → (result ≡ Some k) ↔ ((IsSpaceAt text.now at → ⊥) × (k ≡ at)) }
{
    if is_space(text, at) {
        return None;
    }
    Some(at)
}
