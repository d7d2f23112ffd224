//! Decimal numbers without needless zeros, and the fields of a line.

ghost use Rattle.std.specs.Prelude.{◌≡◌, ℕ, ◌<◌, ◌^◌, ◌++◌, ◌∷◌, List, IfSome, MatchOption};
ghost use Rattle.std.specs.Fmt.{decimal};
ghost use Rattle.ux_sentence.specs.Written.{SPACE};

use itoa::Buffer;

/// The number that the text writes, below 18,446,744,073,709,551,616.
pub fn number(text: &str) -> Option<u64>
    ensures value { MatchOption result ((n : ℕ) → n < 2 ^ 64 → text.now ≡ decimal n → ⊥)
        (λ n. text.now ≡ decimal n) }
    ensures fits { IfSome result (λ n. n < 2 ^ 64) }
{
    let Ok(value) = text.parse::<u64>() else {
        return None;
    };
    let mut buffer = Buffer::new();
    // Signs and needless zeros are parsed too, and aren't printed.
    if buffer.format(value) == text {
        Some(value)
    } else {
        None
    }
}

/// The number in front of the first space, and what stands behind the space.
pub fn number_field(text: &str) -> Option<(u64, &str)>
    ensures value { MatchOption result
        ((n : ℕ) (rest : List ℕ) → n < 2 ^ 64 → text.now ≡ decimal n ++ SPACE ∷ rest → ⊥)
        (λ field. text.now ≡ decimal field.0 ++ SPACE ∷ field.1.now) }
    ensures fits { IfSome result (λ field. field.0 < 2 ^ 64) }
{
    let (front, behind) = text.split_once(' ')?;
    Some((number(front)?, behind))
}
