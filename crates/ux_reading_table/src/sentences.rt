//! The sentences of a file, their readings told by the numbers of a table.
//!
//! The file is read as `ux_sentence` reads it, but for the texts of readings: these are looked up.

ghost use Rattle.std.specs.Prelude.{◌≡◌, ◌⊎◌, ◌∷◌, [], ◌+◌, ◌<◌, ℕ, List, IfOk, IfErr, OnOk, MatchOption, None, map};
ghost use Rattle.std.specs.List.{AllZip};
ghost use Rattle.ux_sentence.specs.Files.{AreSentences, HasNoHead, IsOver, LinkSays, Opens, RefusesLinks, Stops};
ghost use Rattle.ux_sentence.specs.Places.{HasNoHeadLine, IsPast, RefusesNext};
ghost use Rattle.ux_sentence.specs.Written.{head_line};
ghost use Rattle.ux_sentence.specs.declared.error.SentenceError.TheVariants.{NoMemory as OutOfMemory, BadLine};
ghost use Rattle.ux_sentence.specs.declared.sentence.Link.{Link as LinkRecord};
ghost use Rattle.ux_sentence.specs.declared.sentence.Sentence.{Sentence as SentenceRecord};
ghost use Rattle.ux_reading_table.specs.Noted.{AreNoted};
ghost use Rattle.ux_reading_table.specs.Noting.{AddsText, AddsTexts, Begins, IsToldIfKnown, KeepsPlaces, NotesSentence, ReadsLinks};
ghost use Rattle.ux_reading_table.specs.Numbered.{IsPlaceOf, IsTableOf, IsTold, ReadsNext, text_of};
ghost use Rattle.ux_reading_table.specs.Sentences.{TellsNext};

use crate::noting::{Noted, note_link};
use crate::numbered::{NumberedLink, NumberedSentence};
use crate::table::ReadingTable;
use std::alloc::Global;
use std::marker::Model;
use ux_base::{Lines, Mem, NoMemory, lines};
use ux_sentence::SentenceError;
use ux_sentence::sentence_line::{Opening, head_count, read_opening};

/// A file of sentence automata, of which some sentences were read. Contracts see it as a place in
/// the file.
#[derive(Drop)]
pub struct NumberedSentences<'a> {
    left: Lines<'a>,
    passed: usize,
    told: u32,
    count: u32,
    /// How many links were read by a table.
    links: usize,
}

impl<'a> Model for NumberedSentences<'a> {
    ghost use Rattle.std.specs.Prelude.{◌+◌, ◌<◌, ◌≤◌, ◌^◌, length};
    ghost use Rattle.ux_sentence.specs.Files.{Place};

    ghost Value = { Place };

    ghost view = { λ s. record {
      lines = s.left;
      passed = s.passed;
      told = s.told;
      count = s.count;
    } };

    ghost invariant = { λ s.
        (s.passed + length s.left < 2 ^ 63) × (s.told ≤ s.count) × (s.count < 2 ^ 32) };
}

impl<'a> NumberedSentences<'a> {
    /// The sentences of a file that isn't refused, of which none is read yet.
    pub fn open(text: &'a str) -> NumberedSentences<'a>
        requires { (sentences : List SentenceRecord) × AreSentences text.now sentences }
        ensures { Opens text.now result }
    {
        match NumberedSentences::opened(text) {
            Ok(sentences) => sentences,
            Err(_) => unreachable!(),
        }
    }

    /// The sentences of a file, of which none is read yet, or why its first line is refused.
    pub(crate) fn opened(text: &'a str) -> Result<NumberedSentences<'a>, SentenceError>
        ensures ok { IfOk result (Opens text.now) }
        ensures err { IfErr result (λ error. (error ≡ BadLine 1) × HasNoHead text.now) }
    {
        // A text has at most as many lines as bytes, so that a line's number fits.
        let _bytes = text.len();
        let mut left = lines(text);
        match first_count(&mut left) {
            Some(count) => Ok(NumberedSentences {
                left,
                passed: 1,
                told: 0,
                count,
                links: 0,
            }),
            None => Err(SentenceError::BadLine { line: 1 }),
        }
    }

    /// How many sentences the head line counts.
    pub fn count(&self) -> u32
        ensures { result ≡ self.now.count }
    {
        self.count
    }

    /// The next sentence, or nothing at the end of the file, whose table this is. Takes time in the
    /// sentence's lines, and memory for its links alone. After an error nothing is promised of what
    /// further calls answer.
    pub fn next(&mut self, alloc: Global, table: &ReadingTable<'_>) -> Mem<Option<NumberedSentence>>
        requires { (text : List ℕ) × IsTableOf text table.now × IsPlaceOf text self.old }
        ensures { IfOk result (λ found. MatchOption found (IsOver self.old)
            (λ numbered. ReadsNext table.now self.old numbered self.new)) }
    {
        match self.numbered(alloc, table) {
            Ok(found) => Ok(found),
            Err(error) => match error {
                SentenceError::NoMemory => Err(NoMemory),
                _ => unreachable!(),
            },
        }
    }

    /// The next sentence, or nothing at the end of the file.
    fn numbered(
        &mut self,
        alloc: Global,
        table: &ReadingTable<'_>,
    ) -> Result<Option<NumberedSentence>, SentenceError>
        ensures ok { IfOk result (λ found. MatchOption found (IsOver self.old)
            (λ numbered. TellsNext table.now self.old numbered self.new)) }
        ensures err { IfErr result (λ error. (error ≡ OutOfMemory) ⊎ Stops self.old error) }
    {
        let Some(opening) = self.opening()? else {
            return Ok(None);
        };
        let number = self.told;
        match opening {
            Opening::Empty => Ok(Some(NumberedSentence {
                number,
                states: 0,
                links: Vec::new(alloc),
            })),
            Opening::Automaton { states, links } => Ok(Some(NumberedSentence {
                number,
                states,
                links: self.numbered_links(alloc, table, states, links)?,
            })),
        }
    }

    /// So many links, a line each.
    fn numbered_links(
        &mut self,
        alloc: Global,
        table: &ReadingTable<'_>,
        states: u64,
        count: u64,
    ) -> Result<Vec<NumberedLink>, SentenceError>
        ensures ok { IfOk result (λ numbered. (links : List LinkRecord)
            × ReadsLinks states count self.old links self.new
            × AllZip (IsToldIfKnown table.now) numbered.items links) }
        ensures err { IfErr result (λ error. (error ≡ OutOfMemory)
            ⊎ RefusesLinks states count self.old.lines (self.old.passed + 1) error) }
    {
        let mut numbered = Vec::new(alloc);
        for done in 0..count {
            numbered.push(self.numbered_link(alloc, table, states)?)?;
        }
        Ok(numbered)
    }

    /// The link of the next line.
    fn numbered_link(
        &mut self,
        alloc: Global,
        table: &ReadingTable<'_>,
        states: u64,
    ) -> Result<NumberedLink, SentenceError>
        ensures ok { IfOk result (λ numbered. (line : List ℕ) × (link : LinkRecord)
            × IsPast line self.old self.new × LinkSays states line link
            × IsToldIfKnown table.now numbered link) }
        ensures err { IfErr result (λ error. (error ≡ OutOfMemory)
            ⊎ RefusesNext states self.old.lines (self.old.passed + 1) error) }
    {
        let line = self.next_line()?;
        let before = self.links;
        self.links = before.saturating_add(1);
        table.link(alloc, line, self.passed, states, before)
    }

    /// The next sentence in numbers, its texts noted, or nothing at the end of the file.
    pub(crate) fn note_next(
        &mut self,
        alloc: Global,
        noted: &mut Noted<'a>,
    ) -> Result<Option<NumberedSentence>, SentenceError>
        requires { AreNoted noted.old }
        ensures noted { OnOk result (AreNoted noted.new) }
        ensures kept { OnOk result (KeepsPlaces noted.old.printed.keys noted.new.printed.keys) }
        ensures ok { IfOk result (λ found. NotesSentence found self.old self.new
            noted.old.printed.keys noted.new.printed.keys) }
        ensures err { IfErr result (λ error. (error ≡ OutOfMemory) ⊎ Stops self.old error) }
    {
        let Some(opening) = self.opening()? else {
            return Ok(None);
        };
        let number = self.told;
        match opening {
            Opening::Empty => Ok(Some(NumberedSentence {
                number,
                states: 0,
                links: Vec::new(alloc),
            })),
            Opening::Automaton { states, links } => Ok(Some(NumberedSentence {
                number,
                states,
                links: self.note_links(alloc, noted, states, links)?,
            })),
        }
    }

    /// So many links, a line each, their texts noted.
    fn note_links(
        &mut self,
        alloc: Global,
        noted: &mut Noted<'a>,
        states: u64,
        count: u64,
    ) -> Result<Vec<NumberedLink>, SentenceError>
        requires { AreNoted noted.old }
        ensures noted { OnOk result (AreNoted noted.new) }
        ensures kept { OnOk result (KeepsPlaces noted.old.printed.keys noted.new.printed.keys) }
        ensures ok { IfOk result (λ numbered. (links : List LinkRecord)
            × ReadsLinks states count self.old links self.new
            × AddsTexts noted.old.printed.keys (map text_of links) noted.new.printed.keys
            × AllZip (IsTold noted.new.printed.keys) numbered.items links) }
        ensures err { IfErr result (λ error. (error ≡ OutOfMemory)
            ⊎ RefusesLinks states count self.old.lines (self.old.passed + 1) error) }
    {
        let mut numbered = Vec::new(alloc);
        for done in 0..count {
            numbered.push(self.note_link(alloc, noted, states)?)?;
        }
        // Many sentences are in memory at once.
        numbered.shrink_to_fit();
        Ok(numbered)
    }

    /// The link of the next line, its text noted.
    fn note_link(
        &mut self,
        alloc: Global,
        noted: &mut Noted<'a>,
        states: u64,
    ) -> Result<NumberedLink, SentenceError>
        requires { AreNoted noted.old }
        ensures noted { OnOk result (AreNoted noted.new) }
        ensures kept { OnOk result (KeepsPlaces noted.old.printed.keys noted.new.printed.keys) }
        ensures ok { IfOk result (λ numbered. (line : List ℕ) × (link : LinkRecord)
            × IsPast line self.old self.new × LinkSays states line link
            × AddsText noted.old.printed.keys (text_of link) noted.new.printed.keys
            × IsTold noted.new.printed.keys numbered link) }
        ensures err { IfErr result (λ error. (error ≡ OutOfMemory)
            ⊎ RefusesNext states self.old.lines (self.old.passed + 1) error) }
    {
        let line = self.next_line()?;
        note_link(alloc, noted, line, self.passed, states)
    }

    /// What the line of the next sentence says, or nothing at the end of the file.
    fn opening(&mut self) -> Result<Option<Opening>, SentenceError>
        ensures ok { IfOk result (λ found. MatchOption found
            (IsOver self.old) (λ opening. Begins self.old opening self.new)) }
        ensures err { IfErr result (Stops self.old) }
    {
        if self.told == self.count {
            return self.end();
        }
        let number = self.told + 1;
        let line = self.next_line()?;
        let Some(opening) = read_opening(line, number) else {
            return Err(SentenceError::BadLine { line: self.passed });
        };
        self.told = number;
        Ok(Some(opening))
    }

    /// Nothing, if no line is left.
    fn end(&mut self) -> Result<Option<Opening>, SentenceError>
        requires told { self.old.told ≡ self.old.count }
        ensures ok { IfOk result (λ found. (found ≡ None) × IsOver self.old) }
        ensures err { IfErr result (Stops self.old) }
    {
        match self.next_line() {
            Ok(_) => Err(SentenceError::BadLine { line: self.passed }),
            Err(_) => Ok(None),
        }
    }

    /// The next line.
    fn next_line(&mut self) -> Result<&'a str, SentenceError>
        ensures ok { IfOk result (λ line. IsPast line.now self.old self.new) }
        ensures err { IfErr result (λ error. (error ≡ BadLine (self.old.passed + 1))
            × (self.old.lines ≡ [])) }
    {
        match self.left.next() {
            Some(line) => {
                self.passed += 1;
                Ok(line)
            }
            None => Err(SentenceError::BadLine {
                line: self.passed + 1,
            }),
        }
    }
}

/// How many sentences the first line counts, where it is a head line.
fn first_count(left: &mut Lines<'_>) -> Option<u32>
    ensures { MatchOption result (HasNoHeadLine left.old)
        (λ count. (head : List ℕ) × (left.old ≡ head ∷ left.new) × (head ≡ head_line count)) }
{
    head_count(left.next()?)
}
