//! Places at which no mask accepts a span of several tokens.

ghost use Rattle.std.specs.Prelude.{◌≡◌, ◌<◌, ◌≤◌, ◌∷◌, [], ℕ, IsTrue, true, length};
ghost use Rattle.ux_lexical_tables.specs.Accepting.{IsAlone};
ghost use Rattle.ux_lexical_tables.specs.Belonging.{Belongs};
ghost use Rattle.ux_alphabet.specs.Letters.{Letters};

use ux_lexical_tables::LexicalTables;
use ux_tokens::{Kind, Text};

/// Whether no span of several tokens begins at the place that a mask may accept: no compound entry and
/// no digit stands there. A tag stands alone.
pub fn is_alone(text: &Text, applied: &LexicalTables, place: usize) -> bool
    requires within { place < length text.now }
    requires rows { length applied.now.compounds ≡ length text.now }
    ensures { result ≡ true → (alphabet : Letters) →
        Belongs alphabet text.now applied.now → IsAlone text.now applied.now place }
{
    match text.kind(place) {
        Kind::Tag => true,
        Kind::Word | Kind::Space | Kind::Other | Kind::Sentence | Kind::Stop => {
            applied.compounds(place).is_empty() && !is_digit(text.token(place))
        },
    }
}

/// Whether the text is a digit.
fn is_digit(text: &str) -> bool
    ensures { (digit : ℕ) → 48 ≤ digit → digit ≤ 57 → text.now ≡ digit ∷ [] → IsTrue result }
{
    match text.as_bytes() {
        [byte] => b'0' <= *byte && *byte <= b'9',
        _ => false,
    }
}
