//! The hits of a search that a policy keeps, each with its text.
//!
//! Where outputs are ignored, and the grammar has neither contexts nor cuts, walks that tell only where
//! derivations end find the hits, and the texts are taken from the corpus.

ghost use Rattle.std.specs.Prelude.{◌≡◌, ◌<◌, All, IfOk, map};
ghost use Rattle.ux_net.specs.Nets.{net_grammar};
ghost use Rattle.ux_lexical_tables.specs.Belonging.{Belongs};
ghost use Rattle.ux_locate.specs.Hits.{IsHit};
ghost use Rattle.ux_locate.specs.Index.{IsKeptListing};
ghost use Rattle.ux_locate.specs.Spans.{LiesIn, hit_at};

use std::alloc::Global;
use std::sync::ledger::{Blank, Ledger};
use ux_alphabet::Alphabet;
use ux_base::{Mem, Mode, NoVar, Policy, Steps, Txt};
use ux_lexical_tables::LexicalTables;
use ux_locate::{locate, locate_spans};
use ux_net::Net;
use ux_outputs::{Hit, Span};
use ux_tokens::Text;

/// The hits that the policy keeps, with no step taken before.
pub(crate) fn hits_of<L: Ledger>(
    alloc: Global,
    net: &Net,
    text: &Text,
    alphabet: &Alphabet,
    applied: &LexicalTables,
    mode: Mode,
    policy: Policy,
    novar: NoVar,
    blank: Blank,
) -> Mem<Vec<Hit>>
    requires name { blank.name ≡ L.name }
    requires parts { blank.parts ≡ L.parts }
    requires some { 0 < blank.parts }
    requires belongs { Belongs alphabet.now text.now applied.now }
    ensures { IfOk result (λ hits. IsKeptListing policy
        (IsHit alphabet.now text.now applied.now (net_grammar net.now) mode novar) hits.items) }
{
    let mut steps = Steps::<L>::new(blank);
    match mode {
        Mode::Ignore if net.cuts_nothing() => {
            let spans = locate_spans(alloc, net, text, alphabet, applied, policy, &mut steps)?;
            hits_at(alloc, text, spans.as_slice())
        }
        Mode::Ignore | Mode::Merge | Mode::Replace => {
            locate(
                alloc, net, text, alphabet, applied, mode, novar, policy, &mut steps,
            )
        }
    }
}

/// The hits of these spans, each with the text of its tokens.
fn hits_at(alloc: Global, text: &Text, spans: &[Span]) -> Mem<Vec<Hit>>
    requires { All (LiesIn text.now) spans.now }
    ensures { IfOk result (λ hits. hits.items ≡ map (hit_at text.now) spans.now) }
{
    let mut hits = Vec::new(alloc);
    for span in spans {
        hits.push(hit_of(alloc, text, *span)?)?;
    }
    Ok(hits)
}

/// The hit of a span.
fn hit_of(alloc: Global, text: &Text, span: Span) -> Mem<Hit>
    requires { LiesIn text.now span }
    ensures { IfOk result (λ hit. hit ≡ hit_at text.now span) }
{
    // A text has so few tokens that their numbers fit.
    let _few = text.len();
    let found = String::from_str(alloc, text.slice(span.first, span.last))?;
    Ok(Hit {
        first: span.first as u32,
        last: span.last as u32,
        text: Txt::new(found),
    })
}
