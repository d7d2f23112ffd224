//! A class of lemmas, with the lines of the endings that occurred.

ghost use Rattle.std.specs.Prelude.{◌≡◌, IfErr, IfOk, IfSome, string_bytes};
ghost use Rattle.ux_inflect.specs.Refusing.{IsAccepted, Refuses};
ghost use Rattle.ux_paradigm.specs.Kept.{IsKept};
ghost use Rattle.ux_paradigm.specs.Lines.{AreLines};

use crate::letters::ending_place;
use crate::printing::{entry_lines, tail_lines};
use crate::tail::{Tail, tails_of};
use indexmap::IndexMap;
use std::alloc::Global;
use std::marker::Model;
use ux_base::Mem;
use ux_dela::Stem;
use ux_inflect::{InflectError, inflect};
use ux_net::Net;

/// The letters beyond which endings aren't kept. Longer ones hardly come again.
const MOST_LETTERS: usize = 32;

/// How many ends of lines a paradigm keeps, some 100 bytes each. A further ending isn't kept: its
/// lemmas are inflected one by one.
const MOST_TAILS: usize = 1 << 16;

/// A class of lemmas. Contracts see it as the net of its graph.
#[derive(Drop)]
pub struct Paradigm {
    net: Net,
    /// How many last letters of a lemma are looked at. The class didn't accept fewer: whether it does
    /// is a matter of how many letters there are, and not of which.
    letters: usize,
    /// How many ends of lines may still be kept.
    room: usize,
    /// The endings so far, each with the ends of the lines of its forms.
    kept: IndexMap<String, Vec<Tail>>,
}

impl Model for Paradigm {
    ghost use Rattle.std.specs.Prelude.{All, List, string_bytes};
    ghost use Rattle.ux_net.specs.declared.net_graph.NetGraph.{NetGraph};
    ghost use Rattle.ux_paradigm.specs.Kept.{IsKept};

    ghost Value = { List NetGraph };

    ghost view = { λ paradigm. paradigm.net };

    ghost invariant = { λ paradigm.
        All (λ entry. IsKept paradigm.net (string_bytes entry.0) entry.1.items)
        paradigm.kept.entries };
}

impl Paradigm {
    /// The class of this net, without endings. Takes no memory.
    pub fn new(alloc: Global, net: Net) -> Paradigm
        ensures { result ≡ net }
    {
        Paradigm {
            net,
            letters: 1,
            room: MOST_TAILS,
            kept: IndexMap::new(alloc),
        }
    }

    /// The lines of the forms of a stem, each with its line feed. The first lemma with an ending is
    /// inflected; a further one takes a look-up and a step a byte of its lines.
    pub fn lines(&mut self, alloc: Global, stem: &Stem) -> Result<String, InflectError>
        ensures same { self.new ≡ self.old }
        ensures accepted { IfOk result (λ lines. IsAccepted stem.now self.old) }
        ensures lines { IfOk result (λ lines. AreLines stem.now self.old (string_bytes lines)) }
        ensures refused { IfErr result (Refuses stem.now self.old) }
    {
        if let Some(lines) = self.known_lines(alloc, stem)? {
            return Ok(lines);
        }
        self.learn(alloc, stem.lemma.as_str())?;
        match self.known_lines(alloc, stem)? {
            Some(lines) => Ok(lines),
            None => stem_lines(alloc, stem, &self.net),
        }
    }

    /// The lines of the stem, if its ending is known.
    fn known_lines(&self, alloc: Global, stem: &Stem) -> Mem<Option<String>>
        ensures accepted { IfOk result (λ found. IfSome found (λ lines.
            IsAccepted stem.now self.now)) }
        ensures lines { IfOk result (λ found. IfSome found (λ lines.
            AreLines stem.now self.now (string_bytes lines))) }
    {
        let place = ending_place(stem.lemma.as_str(), self.letters);
        let (front, ending) = stem.lemma.as_str().split_at(place);
        match self.kept.get(ending) {
            Some(tails) => {
                let lines = tail_lines(alloc, front, stem, tails.as_slice())?;
                Ok(Some(lines))
            },
            None => Ok(None),
        }
    }

    /// Keeps the ends of the lines of the lemma's ending. Where the class doesn't accept it, endings
    /// have more letters from then on.
    fn learn(&mut self, alloc: Global, lemma: &str) -> Mem<()>
        ensures { self.new ≡ self.old }
    {
        if self.letters > MOST_LETTERS || self.room == 0 {
            return Ok(());
        }
        let place = ending_place(lemma, self.letters);
        let (_front, ending) = lemma.split_at(place);
        match tails_of(alloc, ending, &self.net)? {
            Some(tails) => self.keep(alloc, ending, tails),
            None => {
                // By a fourth, so that few lengths are tried.
                self.letters += 1 + self.letters / 4;
                Ok(())
            },
        }
    }

    /// Keeps the ends of the lines of the ending.
    fn keep(&mut self, alloc: Global, ending: &str, tails: Vec<Tail>) -> Mem<()>
        requires { IsKept self.old ending.now tails.items }
        ensures { self.new ≡ self.old }
    {
        let room = self.room.saturating_sub(tails.len()).saturating_sub(1);
        let key = String::from_str(alloc, ending)?;
        self.kept.insert(key, tails)?;
        self.room = room;
        Ok(())
    }
}

/// The lines of the forms of a stem, which is inflected by itself.
fn stem_lines(alloc: Global, stem: &Stem, net: &Net) -> Result<String, InflectError>
    ensures accepted { IfOk result (λ lines. IsAccepted stem.now net.now) }
    ensures lines { IfOk result (λ lines. AreLines stem.now net.now (string_bytes lines)) }
    ensures refused { IfErr result (Refuses stem.now net.now) }
{
    let entries = inflect(alloc, stem, net)?;
    let lines = entry_lines(alloc, &entries)?;
    Ok(lines)
}
