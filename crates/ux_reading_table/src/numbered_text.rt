//! A file of sentence automata, read once: its readings by number, and its sentences in these numbers.

ghost use Rattle.std.specs.Prelude.{◌≡◌, ◌⊎◌, IfErr, IfOk};
ghost use Rattle.ux_sentence.specs.Files.{Refuses};
ghost use Rattle.ux_sentence.specs.declared.error.SentenceError.{SentenceError as ErrorRecord};
ghost use Rattle.ux_sentence.specs.declared.error.SentenceError.TheVariants.{NoMemory as OutOfMemory};
ghost use Rattle.ux_reading_table.specs.Noted.{AreNoted};
ghost use Rattle.ux_reading_table.specs.Noting.{AreNotedOf};
ghost use Rattle.ux_reading_table.specs.Numbered.{IsNumberedText};

use crate::noting::{Noted, nothing_noted};
use crate::numbered::NumberedSentence;
use crate::sentences::NumberedSentences;
use crate::table::ReadingTable;
use std::alloc::Global;
use ux_sentence::SentenceError;

/// A file in numbers.
#[derive(Drop)]
pub struct NumberedText<'a> {
    /// Its different readings.
    pub table: ReadingTable<'a>,
    /// Its sentences, in order.
    pub sentences: Vec<NumberedSentence>,
}

impl<'a> NumberedText<'a> {
    /// The file of sentences in numbers, or why its first bad line is refused. Takes time in the
    /// text, and memory for the table and 24 bytes a link.
    pub fn of(alloc: Global, text: &'a str) -> Result<NumberedText<'a>, SentenceError>
        ensures ok { IfOk result (λ read.
            IsNumberedText text.now read.table read.sentences.items) }
        ensures refused { IfErr result (λ error. (error ≡ OutOfMemory) ⊎ Refuses text.now error) }
        ensures exact { IfOk result (λ _. (error : ErrorRecord) → Refuses text.now error → ⊥) }
    {
        let noted = noted_of(alloc, text)?;
        let NotedText { noted, sentences } = noted;
        Ok(NumberedText {
            table: ReadingTable::of_noted(noted),
            sentences,
        })
    }
}

/// What is noted of a file, and its sentences.
#[derive(Drop)]
struct NotedText<'a> {
    noted: Noted<'a>,
    sentences: Vec<NumberedSentence>,
}

/// The texts of the links of a file of sentences, and these in numbers, or why its first bad line is
/// refused.
fn noted_of<'a>(alloc: Global, text: &'a str) -> Result<NotedText<'a>, SentenceError>
    ensures noted { IfOk result (λ read. AreNoted read.noted) }
    ensures ok { IfOk result (λ read.
        AreNotedOf text.now read.noted.printed.keys read.sentences.items) }
    ensures refused { IfErr result (λ error. (error ≡ OutOfMemory) ⊎ Refuses text.now error) }
    ensures exact { IfOk result (λ _. (error : ErrorRecord) → Refuses text.now error → ⊥) }
{
    let mut file = NumberedSentences::opened(text)?;
    let mut noted = nothing_noted(alloc);
    let mut sentences = Vec::new(alloc);
    while let Some(sentence) = file.note_next(alloc, &mut noted)? {
        sentences.push(sentence)?;
    }
    Ok(NotedText { noted, sentences })
}
