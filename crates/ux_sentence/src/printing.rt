//! Sentences as text.
//!
//! A file is its head line and then the sentences, each printed by itself. `specs/Written.antt` has
//! the format.

ghost use Rattle.std.specs.Prelude.{◌≡◌, ◌++◌, ◌∷◌, ℕ, List, IfOk, OnOk, length, codes, string_bytes};
ghost use Rattle.std.specs.Fmt.{decimal};
ghost use Rattle.ux_dela.specs.Printed.{printed};
ghost use Rattle.ux_sentence.specs.Written.{SPACE, reading_text, head_line, sentence_line, empty_line, line_of_link, ended, link_lines, IsPrinted, IsPrintedFile, ArePrinted};

use crate::passage::has_path;
use crate::sentence::{Link, Reading, Sentence};
use itoa::Buffer;
use std::alloc::{AllocError, Global};
use ux_base::{Mem, NoMemory};
use ux_dela::print_delaf;

/// The file of the sentences. Each gets one line where it has no path, and else a line and one more
/// for each link. Takes time in the bytes that it writes, and in the links, times a logarithm of
/// their number.
pub fn print(alloc: Global, sentences: &[Sentence]) -> Mem<String>
    ensures { IfOk result (λ file. IsPrintedFile sentences.now (string_bytes file)) }
{
    let mut file = print_head(alloc, sentences.len())?;
    for sentence in sentences {
        print_sentence(alloc, sentence, &mut file)?;
    }
    Ok(file)
}

/// The head line of a file of so many sentences, with its line feed.
pub fn print_head(alloc: Global, count: usize) -> Mem<String>
    ensures { IfOk result (λ file. string_bytes file ≡ ended (head_line count)) }
{
    let mut file = String::from_str(alloc, "#TFST ")?;
    push_number(&mut file, count as u64)?;
    file.push('\n')?;
    Ok(file)
}

/// Adds the lines of the sentence behind what stands in the file.
pub fn print_sentence(alloc: Global, sentence: &Sentence, file: &mut String) -> Mem<()>
    ensures { OnOk result ((text : List ℕ) × IsPrinted sentence.now text
        × (string_bytes file.new ≡ string_bytes file.old ++ text)) }
{
    if !has_path(alloc, sentence)? {
        push_empty(file, sentence)?;
        return Ok(());
    }
    push_sentence(file, sentence)?;
    for link in sentence.links.as_slice() {
        push_link(alloc, file, link)?;
    }
    Ok(())
}

/// The text of a reading. Different readings that can be spelled have different texts.
pub fn print_reading(alloc: Global, reading: &Reading) -> Mem<String>
    ensures { IfOk result (λ text. string_bytes text ≡ reading_text reading.now) }
{
    let mut text = String::new(alloc);
    push_reading(alloc, &mut text, reading)?;
    Ok(text)
}

/// Adds the one line of a sentence without a path.
fn push_empty(file: &mut String, sentence: &Sentence) -> Result<(), AllocError>
    ensures { OnOk result (string_bytes file.new
        ≡ string_bytes file.old ++ ended (empty_line sentence.now.number)) }
{
    file.push_str("S ")?;
    push_number(file, u64::from(sentence.number))?;
    file.push_str(" EMPTY\n")
}

/// Adds the line with which a sentence begins.
fn push_sentence(file: &mut String, sentence: &Sentence) -> Result<(), AllocError>
    ensures { OnOk result (string_bytes file.new ≡ string_bytes file.old
        ++ ended (sentence_line sentence.now.number sentence.now.states
        (length sentence.now.links))) }
{
    file.push_str("S ")?;
    push_field(file, u64::from(sentence.number))?;
    push_field(file, sentence.states)?;
    push_number(file, sentence.links.as_slice().len() as u64)?;
    file.push('\n')
}

/// Adds the line of a link.
fn push_link(alloc: Global, file: &mut String, link: &Link) -> Mem<()>
    ensures { OnOk result (string_bytes file.new
        ≡ string_bytes file.old ++ ended (line_of_link link.now)) }
{
    push_field(file, link.from)?;
    push_field(file, link.to)?;
    push_reading(alloc, file, &link.reading)?;
    file.push('\n')?;
    Ok(())
}

/// Adds the text of a reading.
fn push_reading(alloc: Global, text: &mut String, reading: &Reading) -> Mem<()>
    ensures { OnOk result (string_bytes text.new
        ≡ string_bytes text.old ++ reading_text reading.now) }
{
    match reading {
        Reading::Word(entry) => {
            let line = print_delaf(alloc, entry)?;
            push_braced(text, line.as_str())?;
        }
        Reading::Raw(raw) => text.push_str(raw.as_str())?,
    }
    Ok(())
}

/// Adds the line between braces.
fn push_braced(text: &mut String, line: &str) -> Result<(), AllocError>
    ensures { OnOk result (string_bytes text.new
        ≡ string_bytes text.old ++ (codes "{" ++ (line.now ++ codes "}"))) }
{
    text.push('{')?;
    text.push_str(line)?;
    text.push('}')
}

/// Adds a number.
fn push_number(text: &mut String, number: u64) -> Result<(), AllocError>
    ensures { OnOk result (string_bytes text.new ≡ string_bytes text.old ++ decimal number) }
{
    let mut buffer = Buffer::new();
    text.push_str(buffer.format(number))
}

/// Adds a number and a space.
fn push_field(text: &mut String, number: u64) -> Result<(), AllocError>
    ensures { OnOk result (string_bytes text.new
        ≡ string_bytes text.old ++ (decimal number ++ codes " ")) }
{
    push_number(text, number)?;
    text.push(' ')
}
