//! The tokens between two positions of a text.

ghost use Rattle.std.specs.Prelude.{◌≡◌, ◌<◌, ◌≤◌, IsSomeAnd, length, slice_get};
ghost use Rattle.ux_outputs.specs.Rendering.{is_space, past_spaces, skip, text_between};

use ux_tokens::{Kind, Text};

/// The position after the space that stands at a position, or the position.
pub fn after_space(text: &Text, position: usize) -> usize
    ensures { result ≡ skip text.now position }
{
    if position < text.len() && is_space_at(text, position) {
        position + 1
    } else {
        position
    }
}

/// The position after the spaces that begin the tokens from one position to another.
pub fn after_spaces(text: &Text, from: usize, to: usize) -> usize
    requires in_order { from ≤ to }
    requires within { to ≤ length text.now }
    ensures { result ≡ past_spaces text.now from to }
{
    for position in from..to {
        if !is_space_at(text, position) {
            return position;
        }
    }
    to
}

/// The text of the tokens from one position to another, lent. It is empty where there are none.
pub fn between(text: &Text, from: usize, to: usize) -> &str
    requires { to ≤ length text.now }
    ensures { result.now ≡ text_between text.now from to }
{
    if from < to {
        text.slice(from, to - 1)
    } else {
        ""
    }
}

/// Whether the token at the position is a space.
fn is_space_at(text: &Text, position: usize) -> bool
    requires { position < length text.now }
    ensures { IsSomeAnd (slice_get text.now position) (λ token. result ≡ is_space token.kind) }
{
    match text.kind(position) {
        Kind::Space => true,
        Kind::Word | Kind::Other | Kind::Sentence | Kind::Stop | Kind::Tag => false,
    }
}
