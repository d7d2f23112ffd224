//! Numbers among the words.

ghost use Rattle.std.specs.Prelude.{◌≡◌, ◌≤◌, ◌<◌, ◌^◌};
ghost use Rattle.std.specs.List.{list_all};
ghost use Rattle.ux_command_line.specs.Tables.{is_digit, number_of};

/// The number that the text writes in at least one and at most `most_digits` decimal digits, if it
/// is in the range.
pub fn number(text: &str, most_digits: usize, least: u32, most: u32) -> Option<u32>
    ensures { result ≡ number_of most_digits least most text.now }
{
    if text.is_empty() || text.len() > most_digits || !has_only_digits(text) {
        return None;
    }
    let Ok(value) = text.parse::<u32>() else {
        return None;
    };
    if least <= value && value <= most {
        Some(value)
    } else {
        None
    }
}

fn has_only_digits(text: &str) -> bool
    ensures { result ≡ list_all is_digit text.now }
{
    text.as_bytes().iter().all(|byte| is_digit_byte(*byte))
}

fn is_digit_byte(byte: u8) -> bool
    ensures { result ≡ is_digit byte }
{
    b'0' <= byte && byte <= b'9'
}
