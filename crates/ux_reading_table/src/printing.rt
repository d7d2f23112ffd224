//! Sentences in numbers as text.

ghost use Rattle.std.specs.Prelude.{◌≡◌, ◌++◌, ◌<◌, ℕ, List, All, OnOk, codes, length, string_bytes};
ghost use Rattle.std.specs.Fmt.{decimal};
ghost use Rattle.ux_sentence.specs.Written.{HasPath, IsPrinted, empty_line, ended, link_line, sentence_line};
ghost use Rattle.ux_sentence.specs.declared.sentence.Sentence.{Sentence as SentenceRecord};
ghost use Rattle.ux_reading_table.specs.Numbered.{IsNumberedBy};

use crate::numbered::NumberedSentence;
use itoa::Buffer;
use std::alloc::AllocError;
use ux_base::{Mem, Txt};

/// Adds the lines of the sentence behind what stands in the file, its readings by their texts. It
/// must have a path wherever it has states. Takes time in the bytes that it writes, and no memory
/// but the file's.
pub fn print_numbered(sentence: &NumberedSentence, texts: &[Txt], file: &mut String) -> Mem<()>
    requires { All (λ link. link.reading < length texts.now) sentence.now.links.items }
    ensures { OnOk result ((old : SentenceRecord) → IsNumberedBy texts.now old sentence.now →
        (0 < sentence.now.states → HasPath old) → (text : List ℕ) × IsPrinted old text
        × (string_bytes file.new ≡ string_bytes file.old ++ text)) }
{
    if sentence.states == 0 {
        push_empty(file, sentence)?;
        return Ok(());
    }
    push_sentence(file, sentence)?;
    for link in &sentence.links {
        push_link(
            file,
            link.from,
            link.to,
            texts[link.reading as usize].as_str(),
        )?;
    }
    Ok(())
}

/// Adds the one line of a sentence without a path.
fn push_empty(file: &mut String, sentence: &NumberedSentence) -> Result<(), AllocError>
    ensures { OnOk result (string_bytes file.new
        ≡ string_bytes file.old ++ ended (empty_line sentence.now.number)) }
{
    file.push_str("S ")?;
    push_number(file, u64::from(sentence.number))?;
    file.push_str(" EMPTY\n")
}

/// Adds the line with which a sentence begins.
fn push_sentence(file: &mut String, sentence: &NumberedSentence) -> Result<(), AllocError>
    ensures { OnOk result (string_bytes file.new ≡ string_bytes file.old
        ++ ended (sentence_line sentence.now.number sentence.now.states
        (length sentence.now.links.items))) }
{
    file.push_str("S ")?;
    push_field(file, u64::from(sentence.number))?;
    push_field(file, sentence.states)?;
    push_number(file, sentence.links.len() as u64)?;
    file.push('\n')
}

/// Adds the line of a link with the text of its reading.
fn push_link(file: &mut String, from: u64, to: u64, reading: &str) -> Result<(), AllocError>
    ensures { OnOk result (string_bytes file.new
        ≡ string_bytes file.old ++ ended (link_line from to reading.now)) }
{
    push_field(file, from)?;
    push_field(file, to)?;
    file.push_str(reading)?;
    file.push('\n')
}

/// Adds a number.
fn push_number(text: &mut String, number: u64) -> Result<(), AllocError>
    ensures { OnOk result (string_bytes text.new ≡ string_bytes text.old ++ decimal number) }
{
    let mut buffer = Buffer::new();
    text.push_str(buffer.format(number))
}

/// Adds a number and a space.
fn push_field(text: &mut String, number: u64) -> Result<(), AllocError>
    ensures { OnOk result (string_bytes text.new
        ≡ string_bytes text.old ++ (decimal number ++ codes " ")) }
{
    push_number(text, number)?;
    text.push(' ')
}
