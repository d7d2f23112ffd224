//! Parts of a text, lent, by the places of tokens.

ghost use Rattle.std.specs.Prelude.{◌≡◌, ◌≤◌, length};
ghost use Rattle.ux_outputs.specs.Rendering.{text_between};
ghost use Rattle.ux_tokens.specs.Tokens.{joined};
ghost use Rattle.ux_cascade.specs.Cascades.{reads_alike};

use ux_tokens::Text;

/// The text of the tokens from one place to another. It is empty where there are none.
pub fn between(text: &Text, from: usize, to: usize) -> &str
    requires { to ≤ length text.now }
    ensures { result.now ≡ text_between text.now from to }
{
    if from < to {
        text.slice(from, to - 1)
    } else {
        ""
    }
}

/// The text of all tokens.
pub fn whole(text: &Text) -> &str
    ensures { result.now ≡ joined text.now }
{
    between(text, 0, text.len())
}

/// Whether the tokens of both texts are the same when joined.
pub fn read_alike(text: &Text, other: &Text) -> bool
    ensures { result ≡ reads_alike text.now other.now }
{
    whole(text) == whole(other)
}
