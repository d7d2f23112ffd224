//! Reads a file of rows, line by line.

use crate::content::piece_of;
use crate::escapes::unescaped;
use crate::malformed::Malformed;
use crate::named::{begin, bytes_of, extend_last};
use crate::place::Place;
use crate::suite::{Row, Suite};
use std::alloc::Global;

/// What was read so far.
#[derive(Drop)]
pub struct Reader {
    alloc: Global,
    suite: Suite,
    place: Place,
}

impl Reader {
    /// The reader before the first line. Takes no memory.
    pub fn new(alloc: Global) -> Reader {
        Reader {
            alloc,
            suite: Suite::new(alloc),
            place: Place::Head,
        }
    }

    /// Reads one more line, without its line feed.
    pub fn read_line(&mut self, line: &str) -> Result<(), Malformed> {
        if line.is_empty() || line.starts_with('#') {
            return Ok(());
        }
        match piece_of(self.alloc, line, self.suite.texts.as_slice())? {
            Some(piece) => self.extend(piece.as_slice()),
            None => self.read_word(line),
        }
    }

    /// The suite, where no row is cut off.
    pub fn finish(self) -> Result<Suite, Malformed> {
        match self.place {
            Place::Status => Ok(self.suite),
            _ => Err(Malformed::Unended),
        }
    }

    /// Reads a line that begins with a word.
    fn read_word(&mut self, line: &str) -> Result<(), Malformed> {
        let (word, rest) = line.split_once(' ').unwrap_or((line, ""));
        if !is_known(word) {
            return Err(Malformed::NoKind);
        }
        let place = self.place.after(word).ok_or(Malformed::Misplaced)?;
        self.place = place;
        match place {
            Place::Text => begin(self.alloc, &mut self.suite.texts, rest),
            Place::SharedFile => begin(self.alloc, &mut self.suite.files, rest),
            Place::Row if word == "row" => self.begin_row(rest),
            _ => self.read_part(place, rest),
        }
    }

    /// Begins a row, whose name no row before has.
    fn begin_row(&mut self, name: &str) -> Result<(), Malformed> {
        if name.is_empty() {
            return Err(Malformed::NoName);
        }
        if self.suite.rows.iter().any(|row| row.name.as_str() == name) {
            return Err(Malformed::Twice);
        }
        self.suite.rows.push(Row::new(self.alloc, name)?)?;
        Ok(())
    }

    /// Reads a line of the last row behind its name.
    fn read_part(&mut self, place: Place, rest: &str) -> Result<(), Malformed> {
        let shared = bytes_of(self.suite.files.as_slice(), rest).is_some();
        let Some(row) = self.suite.rows.last_mut() else {
            return Err(Malformed::Misplaced);
        };
        match place {
            Place::Row if !shared => return Err(Malformed::Unknown),
            Place::Row => row.without.push(String::from_str(self.alloc, rest)?)?,
            Place::File => begin(self.alloc, &mut row.files, rest)?,
            Place::Run => row.words = words_of(self.alloc, rest)?,
            Place::Status => row.status = rest.parse().map_err(|_| Malformed::BadNumber)?,
            _ if !rest.is_empty() => return Err(Malformed::NoKind),
            _ => {},
        }
        Ok(())
    }

    /// Adds to the content that stands last.
    fn extend(&mut self, bytes: &[u8]) -> Result<(), Malformed> {
        match self.place {
            Place::Text => extend_last(&mut self.suite.texts, bytes),
            Place::SharedFile => extend_last(&mut self.suite.files, bytes),
            _ => self.extend_row(bytes),
        }
    }

    /// Adds to the content of the last row that stands last.
    fn extend_row(&mut self, bytes: &[u8]) -> Result<(), Malformed> {
        let Some(row) = self.suite.rows.last_mut() else {
            return Err(Malformed::Misplaced);
        };
        match self.place {
            Place::File => extend_last(&mut row.files, bytes),
            Place::Out => Ok(row.out.extend_from_slice(bytes)?),
            Place::Err => Ok(row.err.extend_from_slice(bytes)?),
            _ => Err(Malformed::Misplaced),
        }
    }
}

/// Whether lines begin with this word.
fn is_known(word: &str) -> bool {
    matches!(
        word,
        "text" | "file" | "row" | "without" | "run" | "out" | "err" | "status"
    )
}

/// The words of a run, with one space between. An empty word is written `''`, and a word may have
/// escapes.
fn words_of(alloc: Global, line: &str) -> Result<Vec<String>, Malformed> {
    let mut words = Vec::new(alloc);
    if line.is_empty() {
        return Ok(words);
    }
    for word in line.split(' ') {
        words.push(word_of(alloc, word)?)?;
    }
    Ok(words)
}

/// A word of a run.
fn word_of(alloc: Global, word: &str) -> Result<String, Malformed> {
    match word {
        "" => Err(Malformed::EmptyWord),
        "''" => Ok(String::new(alloc)),
        _ => String::from_utf8(unescaped(alloc, word)?).map_err(|_| Malformed::NoText),
    }
}
