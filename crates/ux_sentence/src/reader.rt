//! The reader of files of sentence automata.
//!
//! `Sentences` reads a file sentence by sentence, so that no caller needs all of them at once. A
//! contract sees it as a place in the file. What a sentence's line claims reserves no memory: links
//! are kept as their lines are read.

ghost use Rattle.std.specs.Prelude.{◌≡◌, ◌⊎◌, ◌∷◌, [], ◌+◌, ◌<◌, ℕ, List, All, IfOk, IfErr, OnOk, MatchOption, IfSome, Some, None, length};
ghost use Rattle.ux_sentence.specs.Files.{Place, Opens, HasNoHead, Tells, behind_sentence, IsOver, Stops, LinkSays, LinksSay, RefusesLinks, RefusesSentence, AreSentences, Refuses};
ghost use Rattle.ux_sentence.specs.Paths.{IsWellFormed};
ghost use Rattle.ux_sentence.specs.Places.{IsPast, RefusesNext, HasNoHeadLine};
ghost use Rattle.ux_sentence.specs.Written.{head_line};
ghost use Rattle.ux_sentence.specs.declared.error.SentenceError.{SentenceError};
ghost use Rattle.ux_sentence.specs.declared.error.SentenceError.TheVariants.{NoMemory, BadLine};
ghost use Rattle.ux_sentence.specs.declared.sentence.Sentence.{Sentence as SentenceRecord};

use crate::error::SentenceError;
use crate::link::read_link;
use crate::sentence::{Link, Sentence};
use crate::sentence_line::{Opening, head_count, read_opening};
use std::alloc::Global;
use std::marker::Model;
use ux_base::{Lines, Lst, lines};

/// A file of sentence automata, of which some sentences were read.
#[derive(Drop)]
pub struct Sentences<'a> {
    left: Lines<'a>,
    passed: usize,
    told: u32,
    count: u32,
}

impl<'a> Model for Sentences<'a> {
    ghost use Rattle.std.specs.Prelude.{◌+◌, ◌<◌, ◌≤◌, ◌^◌, length};
    ghost use Rattle.ux_sentence.specs.Files.{Place};

    ghost Value = { Place };

    ghost view = { λ s. record {
      lines = s.left;
      passed = s.passed;
      told = s.told;
      count = s.count;
    } };

    ghost invariant = { λ s.
        (s.passed + length s.left < 2 ^ 63) × (s.told ≤ s.count) × (s.count < 2 ^ 32) };
}

impl<'a> Sentences<'a> {
    /// The sentences of a file, of which none is read yet, or why its first line is refused.
    pub fn open(text: &'a str) -> Result<Sentences<'a>, SentenceError>
        ensures ok { IfOk result (Opens text.now) }
        ensures err { IfErr result (λ error. (error ≡ BadLine 1) × HasNoHead text.now) }
    {
        // A text has at most as many lines as bytes, so that a line's number fits.
        let _bytes = text.len();
        let mut left = lines(text);
        match first_count(&mut left) {
            Some(count) => Ok(Sentences {
                left,
                passed: 1,
                told: 0,
                count,
            }),
            None => Err(SentenceError::BadLine { line: 1 }),
        }
    }

    /// How many sentences the head line counts.
    pub fn count(&self) -> u32
        ensures { result ≡ self.now.count }
    {
        self.count
    }

    /// The next sentence, or nothing at the end of the file. A sentence that is read is well
    /// formed. After an error nothing is promised of what further calls answer.
    pub fn next(&mut self, alloc: Global) -> Result<Option<Sentence>, SentenceError>
        ensures ok { IfOk result (λ found. MatchOption found (IsOver self.old)
            (λ sentence. (behind : List (List ℕ)) × Tells self.old sentence behind
            × (self.new ≡ behind_sentence self.old sentence behind))) }
        ensures well_formed { IfOk result (λ found. IfSome found IsWellFormed) }
        ensures err { IfErr result (λ error. (error ≡ NoMemory) ⊎ Stops self.old error) }
    {
        if self.told == self.count {
            return self.end();
        }
        Ok(Some(self.due(alloc)?))
    }

    /// Nothing, if no line is left.
    fn end(&mut self) -> Result<Option<Sentence>, SentenceError>
        requires told { self.old.told ≡ self.old.count }
        ensures ok { IfOk result (λ found. (found ≡ None) × IsOver self.old) }
        ensures err { IfErr result (Stops self.old) }
    {
        match self.next_line() {
            Ok(_) => Err(SentenceError::BadLine { line: self.passed }),
            Err(_) => Ok(None),
        }
    }

    /// The next sentence, which there has to be.
    fn due(&mut self, alloc: Global) -> Result<Sentence, SentenceError>
        requires due { self.old.told < self.old.count }
        ensures ok { IfOk result (λ sentence. (behind : List (List ℕ))
            × Tells self.old sentence behind × (self.new ≡ behind_sentence self.old sentence behind)) }
        ensures err { IfErr result (λ error. (error ≡ NoMemory)
            ⊎ RefusesSentence (self.old.told + 1) self.old.lines (self.old.passed + 1) error) }
    {
        let number = self.told + 1;
        let line = self.next_line()?;
        let Some(opening) = read_opening(line, number) else {
            return Err(SentenceError::BadLine { line: self.passed });
        };
        self.told = number;
        match opening {
            Opening::Empty => Ok(Sentence {
                number,
                states: 0,
                links: Lst::new(Vec::new(alloc)),
            }),
            Opening::Automaton { states, links } => Ok(Sentence {
                number,
                states,
                links: Lst::new(self.links(alloc, states, links)?),
            }),
        }
    }

    /// So many links, a line each.
    fn links(&mut self, alloc: Global, states: u64, count: u64) -> Result<Vec<Link>, SentenceError>
        ensures many { IfOk result (λ links. length links.items ≡ count) }
        ensures say { IfOk result (λ links.
            LinksSay states self.old.lines links.items self.new.lines) }
        ensures past { OnOk result (self.new.passed ≡ self.old.passed + count) }
        ensures told { OnOk result (self.new.told ≡ self.old.told) }
        ensures count { OnOk result (self.new.count ≡ self.old.count) }
        ensures err { IfErr result (λ error. (error ≡ NoMemory)
            ⊎ RefusesLinks states count self.old.lines (self.old.passed + 1) error) }
    {
        let mut links = Vec::new(alloc);
        for done in 0..count {
            links.push(self.next_link(alloc, states)?)?;
        }
        Ok(links)
    }

    /// The link of the next line.
    fn next_link(&mut self, alloc: Global, states: u64) -> Result<Link, SentenceError>
        ensures ok { IfOk result (λ link. (line : List ℕ) × IsPast line self.old self.new
            × LinkSays states line link) }
        ensures err { IfErr result (λ error. (error ≡ NoMemory)
            ⊎ RefusesNext states self.old.lines (self.old.passed + 1) error) }
    {
        let line = self.next_line()?;
        read_link(alloc, line, self.passed, states)
    }

    /// The next line.
    fn next_line(&mut self) -> Result<&'a str, SentenceError>
        ensures ok { IfOk result (λ line. IsPast line.now self.old self.new) }
        ensures err { IfErr result (λ error. (error ≡ BadLine (self.old.passed + 1))
            × (self.old.lines ≡ [])) }
    {
        match self.left.next() {
            Some(line) => {
                self.passed += 1;
                Ok(line)
            }
            None => Err(SentenceError::BadLine {
                line: self.passed + 1,
            }),
        }
    }
}

/// How many sentences the first line counts, where it is a head line.
fn first_count(left: &mut Lines<'_>) -> Option<u32>
    ensures { MatchOption result (HasNoHeadLine left.old)
        (λ count. (head : List ℕ) × (left.old ≡ head ∷ left.new) × (head ≡ head_line count)) }
{
    head_count(left.next()?)
}

/// The sentences of a file, or why its first bad line is refused. The time is linear in the text.
pub fn read(alloc: Global, text: &str) -> Result<Vec<Sentence>, SentenceError>
    ensures ok { IfOk result (λ sentences. AreSentences text.now sentences.items) }
    ensures well_formed { IfOk result (λ sentences. All IsWellFormed sentences.items) }
    ensures refused { IfErr result (λ error. (error ≡ NoMemory) ⊎ Refuses text.now error) }
    ensures exact { IfOk result (λ _. (error : SentenceError) → Refuses text.now error → ⊥) }
{
    let mut file = Sentences::open(text)?;
    let mut sentences = Vec::new(alloc);
    while let Some(sentence) = file.next(alloc)? {
        sentences.push(sentence)?;
    }
    Ok(sentences)
}

/// Whether a file of sentences would be read, and else why not. One sentence is kept at a time.
pub fn check(alloc: Global, text: &str) -> Result<(), SentenceError>
    ensures ok { IfOk result (λ _. (sentences : List SentenceRecord)
        × AreSentences text.now sentences) }
    ensures refused { IfErr result (λ error. (error ≡ NoMemory) ⊎ Refuses text.now error) }
    ensures exact { IfOk result (λ _. (error : SentenceError) → Refuses text.now error → ⊥) }
{
    let mut file = Sentences::open(text)?;
    while let Some(_sentence) = file.next(alloc)? {}
    Ok(())
}
