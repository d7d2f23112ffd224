//! The search itself, for the sentences of one file.

ghost use Rattle.std.specs.Prelude.{◌≡◌, List, IfOk};
ghost use Rattle.ux_net.specs.Nets.{net_grammar};
ghost use Rattle.ux_sentence.specs.declared.sentence.Sentence.{Sentence as SentenceRecord};
ghost use Rattle.ux_tfst_locate.specs.Sought.{AreTold};
ghost use Rattle.ux_tfst_locate.specs.Spans.{AreSpans};

use crate::basis::LatticeBasis;
use crate::gathering::gathered;
use crate::lattice::Lattice;
use crate::listing::{OnPaths, spans_of, stretches};
use crate::reaching::{leading, reached};
use crate::span::Span;
use std::alloc::Global;
use std::marker::Model;
use ux_alphabet::Alphabet;
use ux_base::Mem;
use ux_chart::{Chart, PreparedNet};
use ux_net::Net;
use ux_reading_match::Readings;
use ux_reading_table::{NumberedSentence, ReadingTable};

/// What is sought in the sentences of a file. Contracts see the letters, the net and the texts of
/// the readings.
#[derive(Drop)]
pub struct Finder<'a> {
    net: &'a Net,
    alphabet: &'a Alphabet,
    prepared: PreparedNet,
    readings: Readings<'a>,
}

impl<'a> Model for Finder<'a> {
    ghost use Rattle.std.specs.Prelude.{map};
    ghost use Rattle.ux_chart.specs.Prepared.{IsPrepared};
    ghost use Rattle.ux_sentence.specs.Written.{reading_text};
    ghost use Rattle.ux_tfst_locate.specs.Sought.{Sought, AreSpellable};

    ghost Value = { Sought };

    ghost view = { λ finder. record {
      letters = finder.alphabet.now;
      net = finder.net.now;
      texts = map reading_text finder.readings;
    } };

    ghost invariant = { λ finder.
        IsPrepared finder.net.now finder.prepared × AreSpellable finder.readings };
}

impl<'a> Finder<'a> {
    /// A finder for the sentences whose readings the table has. Each reading is read once, and what
    /// charts ask of the net is made once.
    pub fn of(
        alloc: Global,
        net: &'a Net,
        alphabet: &'a Alphabet,
        table: &'a ReadingTable<'_>,
    ) -> Mem<Finder<'a>>
        ensures letters { IfOk result (λ finder. finder.letters ≡ alphabet.now) }
        ensures net { IfOk result (λ finder. finder.net ≡ net.now) }
        ensures texts { IfOk result (λ finder. finder.texts ≡ table.now) }
    {
        let prepared = PreparedNet::of(alloc, net)?;
        let readings = Readings::of(alloc, table)?;
        Ok(Finder {
            net,
            alphabet,
            prepared,
            readings,
        })
    }

    /// Where the main graph is found in the sentences: each span once, in order. It takes
    /// time in their links, in the parts of the net that are tried there, and in what these find.
    pub fn spans(&self, alloc: Global, sentences: &[NumberedSentence]) -> Mem<Vec<Span>>
        requires { (old : List SentenceRecord) × AreTold self.now.texts old sentences.now }
        ensures { IfOk result (λ spans. (old : List SentenceRecord) →
            AreTold self.now.texts old sentences.now →
            AreSpans self.now.letters (net_grammar self.now.net) old spans.items) }
    {
        let links = gathered(alloc, sentences)?;
        let lattice = Lattice::of(alloc, links.as_slice())?;
        let basis = LatticeBasis {
            lattice: &lattice,
            readings: &self.readings,
            alphabet: self.alphabet,
        };
        let chart = Chart::fill(alloc, &basis, self.net, &self.prepared)?;
        let reached = reached(alloc, &lattice)?;
        let leading = leading(alloc, &lattice)?;
        let paths = OnPaths {
            reached: reached.as_slice(),
            leading: leading.as_slice(),
        };
        let found = stretches(
            alloc,
            &basis,
            self.net,
            &self.prepared.parts,
            &chart,
            &paths,
        )?;
        spans_of(alloc, lattice.places.as_slice(), found.as_slice())
    }
}
