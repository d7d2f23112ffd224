//! The search, and what is told of it.

ghost use Rattle.std.specs.Prelude.{◌≡◌, ◌<◌, ◌≤◌, ◌++◌, All, IfOk, OnOk, length, map, string_bytes};
ghost use Rattle.ux_base.specs.declared.settings.Mode.TheVariants.{Ignore};
ghost use Rattle.ux_base.specs.declared.settings.NoVar.TheVariants.{Nothing};
ghost use Rattle.ux_apply.specs.Applying.{contents};
ghost use Rattle.ux_lexical_tables.specs.Belonging.{Belongs};
ghost use Rattle.ux_net.specs.Nets.{net_grammar};
ghost use Rattle.ux_tokens.specs.Tokens.{AreTokens};
ghost use Rattle.ux_locate.specs.Hits.{IsHit};
ghost use Rattle.ux_locate.specs.Spans.{LiesIn, hit_at};
ghost use Rattle.ux_cmd_bench.specs.Counted.{AreCounts};
ghost use Rattle.ux_cmd_bench.specs.MadeText.{made_text};
ghost use Rattle.ux_cmd_bench.specs.Summaries.{IsSummary, count_line, longest_of, summary};

use crate::made_text::made_text;
use itoa::Buffer;
use std::alloc::{AllocError, Global};
use std::marker::Brand;
use std::sync::ledger::{Blank, Ledger};
use ux_alphabet::Alphabet;
use ux_apply::{Priority, apply};
use ux_base::{Mem, Mode, NoMemory, NoVar, Policy, Steps};
use ux_dict::ListLexicon;
use ux_lexical_tables::LexicalTables;
use ux_locate::{locate, locate_spans};
use ux_net::Net;
use ux_outputs::{Hit, Span};
use ux_tokens::{Text, TextError};

/// What is told of a search in a text of so many words. Takes a step a word, beside those of the search.
pub(crate) fn summary(
    alloc: Global,
    n: u32,
    alphabet: &Alphabet,
    dics: &[(Priority, ListLexicon)],
    net: &Net,
) -> Mem<Vec<u8>>
    ensures { IfOk result (λ summary. IsSummary n alphabet.now dics.now (net_grammar net.now)
        summary.items) }
{
    let text = text_of(alloc, n, alphabet)?;
    let applied = apply(alloc, &text, alphabet, dics)?;
    let blank = Blank::new(1);
    let (hits, longest) = counts::<Brand>(alloc, net, &text, alphabet, &applied, blank)?;
    lines(alloc, n as usize, text.len(), hits, longest)
}

/// A text of so many words.
fn text_of(alloc: Global, n: u32, alphabet: &Alphabet) -> Mem<Text>
    ensures { IfOk result (AreTokens alphabet.now (made_text n)) }
{
    match Text::read(alloc, made_text(alloc, n)?, alphabet) {
        Ok(text) => Ok(text),
        // No request has as many words as that takes.
        Err(TextError::TooManyTokens | TextError::NoMemory) => Err(NoMemory),
    }
}

/// How many hits there are, and the greatest number of tokens of one, with no step taken before. Where
/// the grammar has no cuts, no text of a hit is copied.
fn counts<L: Ledger>(
    alloc: Global,
    net: &Net,
    text: &Text,
    alphabet: &Alphabet,
    applied: &LexicalTables,
    blank: Blank,
) -> Mem<(usize, usize)>
    requires name { blank.name ≡ L.name }
    requires parts { blank.parts ≡ L.parts }
    requires some { 0 < blank.parts }
    requires belongs { Belongs alphabet.now text.now applied.now }
    ensures { IfOk result (λ counts. AreCounts
        (IsHit alphabet.now text.now applied.now (net_grammar net.now) Ignore Nothing)
        counts.0 counts.1) }
{
    let mut steps = Steps::<L>::new(blank);
    if net.cuts_nothing() {
        let spans = locate_spans(alloc, net, text, alphabet, applied, Policy::All, &mut steps)?;
        return Ok((spans.len(), longest_span(text, spans.as_slice())));
    }
    let hits = locate(
        alloc,
        net,
        text,
        alphabet,
        applied,
        Mode::Ignore,
        NoVar::Nothing,
        Policy::All,
        &mut steps,
    )?;
    Ok((hits.len(), longest_hit(hits.as_slice())))
}

/// The greatest number of tokens of a span of the text, 0 without one.
fn longest_span(text: &Text, spans: &[Span]) -> usize
    requires { All (LiesIn text.now) spans.now }
    ensures { result ≡ longest_of (map (hit_at text.now) spans.now) }
{
    let _count = text.len();
    let mut longest = 0;
    for span in spans {
        let tokens = span.last - span.first + 1;
        longest = longest.max(tokens);
    }
    longest
}

/// The greatest number of tokens of a hit, 0 without one.
fn longest_hit(hits: &[Hit]) -> usize
    ensures { result ≡ longest_of hits.now }
{
    let mut longest = 0;
    for hit in hits {
        let tokens = hit.last.saturating_sub(hit.first) as usize + 1;
        longest = longest.max(tokens);
    }
    longest
}

/// The four lines.
fn lines(alloc: Global, words: usize, tokens: usize, hits: usize, longest: usize) -> Mem<Vec<u8>>
    ensures { IfOk result (λ lines. lines.items ≡ summary words tokens hits longest) }
{
    let mut lines = String::new(alloc);
    push_count(&mut lines, "words", words)?;
    push_count(&mut lines, "tokens", tokens)?;
    push_count(&mut lines, "hits", hits)?;
    push_count(&mut lines, "longest", longest)?;
    Ok(lines.into_bytes())
}

/// Adds the line of a count.
fn push_count(lines: &mut String, name: &str, count: usize) -> Result<(), AllocError>
    ensures { OnOk result (string_bytes lines.new ≡ string_bytes lines.old ++ count_line name.now count) }
{
    let mut buffer = Buffer::new();
    lines.push_str(name)?;
    lines.push(' ')?;
    lines.push_str(buffer.format(count))?;
    lines.push('\n')
}
