//! A place of each different word of a text.

ghost use Rattle.std.specs.Prelude.{◌≡◌, ◌↔◌, ◌<◌, IfOk, IsSomeAnd, IsTrue, length, slice_get};
ghost use Rattle.ux_tokens.specs.declared.kind.Kind.TheVariants.{Word};
ghost use Rattle.ux_report.specs.Words.{AreWordPlaces};

use std::alloc::Global;
use ux_base::Mem;
use ux_tokens::{Kind, Text};

/// The last place of the word of each number, and nothing where that is no word's number.
pub(crate) fn word_places(alloc: Global, text: &Text) -> Mem<Vec<Option<usize>>>
    ensures { IfOk result (λ places. AreWordPlaces text.now places.items) }
{
    let mut places = vec![in alloc; None; text.different()]?;
    for place in 0..text.len() {
        if is_word(text, place) {
            places[text.number(place) as usize] = Some(place);
        }
    }
    Ok(places)
}

/// Whether a word stands at the place.
fn is_word(text: &Text, place: usize) -> bool
    requires { place < length text.now }
    ensures { IsSomeAnd (slice_get text.now place) (λ token. IsTrue result ↔ (token.kind ≡ Word)) }
{
    text.kind(place) == Kind::Word
}
