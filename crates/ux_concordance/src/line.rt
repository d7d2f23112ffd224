//! The lines of a concordance, each a hit and what stands around it.
//!
//! A line copies nothing: the hit and its contexts are lent.

ghost use Rattle.std.specs.Prelude.{◌≡◌, ◌+◌, ◌<◌, ◌≤◌, take, drop, length};
ghost use Rattle.ux_tokens.specs.Tokens.{joined};
ghost use Rattle.ux_concordance.specs.Concordance.{LiesIn};
ghost use Rattle.ux_concordance.specs.Lent.{IsLentLine};

use crate::context::{left_context, right_context};
use ux_outputs::Hit;
use ux_tokens::Text;

/// A hit and what stands around it.
#[derive(Drop)]
pub struct LentLine<'a> {
    /// The hit.
    pub hit: &'a Hit,
    /// What stands before it, as far as the columns go.
    pub left: &'a str,
    /// How many columns that leaves.
    pub spaces: usize,
    /// What stands behind it, as far as the columns go.
    pub right: &'a str,
}

/// The line of a hit. Takes a step for each character of its contexts.
pub(crate) fn line_of<'a>(text: &'a Text, hit: &'a Hit, left: u32, right: u32) -> LentLine<'a>
    requires { LiesIn text.now hit.now }
    ensures hit { result.hit.now ≡ hit.now }
    ensures is { IsLentLine text.now left right result }
{
    let (before, spaces) = left_context(text_before(text, hit.first as usize), left as usize);
    let behind = right_context(text_behind(text, hit.last as usize), right as usize);
    LentLine {
        hit,
        left: before,
        spaces,
        right: behind,
    }
}

/// The text before a token. Takes one step.
fn text_before(text: &Text, token: usize) -> &str
    requires { token < length text.now }
    ensures { result.now ≡ joined (take token text.now) }
{
    if token == 0 {
        return "";
    }
    text.slice(0, token - 1)
}

/// The text behind a token. Takes one step.
fn text_behind(text: &Text, token: usize) -> &str
    requires { token < length text.now }
    ensures { result.now ≡ joined (drop (token + 1) text.now) }
{
    let len = text.len();
    if token + 1 == len {
        return "";
    }
    text.slice(token + 1, len - 1)
}
