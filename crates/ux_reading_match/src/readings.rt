//! The readings of a file, each read once.

ghost use Rattle.std.specs.Prelude.{◌↔◌, IfOk, IsTrue};
ghost use Rattle.ux_reading_match.specs.Readings.{AreReadingsOf, MatchesNumber};

use crate::matching::matches;
use std::alloc::Global;
use std::marker::Model;
use ux_alphabet::Alphabet;
use ux_base::{Mem, Txt};
use ux_net::Label;
use ux_reading_table::ReadingTable;
use ux_sentence::Reading;

/// The readings of a table by their numbers, with their printed texts. Contracts see the list of the
/// readings.
#[derive(Drop)]
pub struct Readings<'a> {
    readings: Vec<Reading>,
    texts: &'a [Txt],
}

impl<'a> Model for Readings<'a> {
    ghost use Rattle.std.specs.Prelude.{List};
    ghost use Rattle.ux_sentence.specs.declared.sentence.Reading.{Reading as ReadingRecord};
    ghost use Rattle.ux_reading_match.specs.Readings.{AreReadingsOf};

    ghost Value = { List ReadingRecord };

    ghost view = { λ readings. readings.readings.items };

    ghost invariant = { λ readings.
        AreReadingsOf readings.texts.now readings.readings.items };
}

impl<'a> Readings<'a> {
    /// The readings of the table. Each is read once.
    pub fn of(alloc: Global, table: &'a ReadingTable<'_>) -> Mem<Readings<'a>>
        ensures { IfOk result (λ readings. AreReadingsOf table.now readings) }
    {
        let texts = table.texts();
        let mut readings = Vec::with_capacity(alloc, texts.len())?;
        for number in 0..texts.len() {
            readings.push(table.reading(alloc, number)?)?;
        }
        Ok(Readings { readings, texts })
    }

    /// Whether the label matches the reading with the number. Takes no memory.
    pub fn matches(&self, label: &Label, number: u32, alphabet: &Alphabet) -> bool
        ensures { IsTrue result ↔ MatchesNumber alphabet.now self.now label.now number }
    {
        let index = number as usize;
        let Some(reading) = self.readings.get(index) else {
            return false;
        };
        matches(label, reading, self.texts[index].as_str(), alphabet)
    }
}
