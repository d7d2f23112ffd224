//! The text: words that a generator draws.

ghost use Rattle.std.specs.Prelude.{◌≡◌, ◌<◌, ◌^◌, IfOk, OnOk, string_bytes};
ghost use Rattle.ux_cmd_bench.specs.MadeText.{made_text, number_after, with_word, word_by};

use std::alloc::Global;
use ux_base::Mem;

/// A text of so many words, with one space between. Takes a step a word.
pub(crate) fn made_text(alloc: Global, n: u32) -> Mem<String>
    ensures { IfOk result (λ text. string_bytes text ≡ made_text n) }
{
    let mut text = String::new(alloc);
    let mut number = n as u64;
    for _ in 0..n {
        number = number_after(number);
        push_word(&mut text, word_by(number))?;
    }
    Ok(text)
}

/// The number that the generator gives after this one.
fn number_after(number: u64) -> u64
    requires { number < 2 ^ 32 }
    ensures value { result ≡ number_after number }
    ensures below { result < 2 ^ 32 }
{
    (number * 1_103_515_245 + 12_345) % 2_147_483_648
}

/// The word that a number draws.
fn word_by(number: u64) -> &'static str
    ensures { result.now ≡ word_by number }
{
    match number / 65_536 % 8 {
        0 => "the",
        1 => "a",
        2 => "old",
        3 => "small",
        4 => "cat",
        5 => "dog",
        6 => "sees",
        _ => "sleeps",
    }
}

/// Adds a word behind the text.
fn push_word(text: &mut String, word: &str) -> Mem<()>
    ensures { OnOk result (string_bytes text.new ≡ with_word (string_bytes text.old) word.now) }
{
    if !text.is_empty() {
        text.push(' ')?;
    }
    text.push_str(word)?;
    Ok(())
}
