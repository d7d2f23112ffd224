//! Numbers in decimal digits.

ghost use Rattle.std.specs.Prelude.{◌≡◌, ◌+◌, ◌<◌, ◌^◌, length, min, IfNone, IfSome, true, false, Some, None};
ghost use Rattle.ux_grf.specs.Numbers.{is_decimal, is_number, is_coordinate, is_digit, value_of};

/// The value of decimal digits, or this bound where it is greater: digits of any number are read.
const MAX_VALUE: u64 = 1_000_000_000;

/// The value of one or more decimal digits, at most `MAX_VALUE`.
pub fn decimal(word: &[u8]) -> Option<u64>
    ensures none { IfNone result (is_decimal word.now ≡ false) }
    ensures decimal { IfSome result (λ value. is_decimal word.now ≡ true) }
    ensures value { IfSome result (λ value. value ≡ min (value_of word.now) MAX_VALUE) }
{
    if word.is_empty() {
        return None;
    }
    let mut value: u64 = 0;
    for byte in word {
        if !is_digit_byte(*byte) {
            return None;
        }
        value = (value * 10 + u64::from(*byte - b'0')).min(MAX_VALUE);
    }
    Some(value)
}

fn is_digit_byte(byte: u8) -> bool
    ensures { result ≡ is_digit byte }
{
    b'0' <= byte && byte <= b'9'
}

/// The value of one to nine decimal digits.
pub fn number(word: &[u8]) -> Option<u32>
    ensures none { IfNone result (is_number word.now ≡ false) }
    ensures some { IfSome result (λ value. is_number word.now ≡ true) }
    ensures value { IfSome result (λ value. value ≡ value_of word.now) }
{
    if word.len() > 9 {
        return None;
    }
    Some(decimal(word)? as u32)
}

/// Whether the word is a number, with or without a minus sign.
pub fn is_coordinate_word(word: &[u8]) -> bool
    ensures { result ≡ is_coordinate word.now }
{
    match word {
        [b'-', digits @ ..] => number(digits).is_some(),
        _ => number(word).is_some(),
    }
}
