//! The search, some sentences at a time.
//!
//! The text is gone through once, which finds each fault; its sentences are in memory in numbers. A
//! chart begins with lists of its own, so sentences of some thousand links are searched together.

ghost use Rattle.std.specs.Prelude.{◌≡◌, ◌<◌, ◌≤◌, ℕ, List, IfErr, IfOk, OnOk, length, string_bytes};
ghost use Rattle.std.specs.List.{AllZip, slice_range};
ghost use Rattle.ux_base.specs.Outside.{IsLater};
ghost use Rattle.ux_plan.specs.Commands.{Answers};
ghost use Rattle.ux_plan.specs.Plans.{Halts};
ghost use Rattle.ux_net.specs.Nets.{net_grammar};
ghost use Rattle.ux_reading_table.specs.Numbered.{IsNumberedBy, IsNumberedText};
ghost use Rattle.ux_cmd_tfind.specs.Lines.{HasSpans, IsFoundText, PrintsFound};
ghost use Rattle.ux_sentence.specs.Valid.{AreValid};
ghost use Rattle.ux_sentence.specs.declared.sentence.Sentence.{Sentence as SentenceRecord};
ghost use Rattle.ux_tfst_locate.specs.Sought.{AreTold};
ghost use Rattle.ux_cmd_tfind.specs.Tfind.{tfind as tfind_command};

use crate::files::{check_usable, read_text};
use crate::printing::print_spans;
use std::alloc::Global;
use ux_alphabet::Alphabet;
use ux_base::{Folder, Mem};
use ux_grammars::read_net;
use ux_net::Net;
use ux_plan::{Stop, read_decoded};
use ux_reading_table::{NumberedSentence, NumberedText};
use ux_reasons::Reason;
use ux_texts::read_alphabet;
use ux_tfst_locate::Finder;

/// Sentences of so many links are searched together. That takes few megabytes.
const MOST_LINKS: usize = 8_192;

/// Reads an alphabet, a grammar and the automata of sentences, and gives a line for each stretch of
/// a sentence that the grammar derives.
#[tactic(auto, using(ux_plan::proofs::PlanSteps::plan_steps, ux_plan::proofs::Decoded::decoding))]
pub fn tfind<F: Folder>(
    alloc: Global,
    graph: &str,
    tfst: &str,
    alphabet: &str,
    folder: &mut F,
) -> Result<Vec<u8>, Stop<Reason>>
    ensures later { IsLater (F.seen folder.old) (F.seen folder.new) }
    ensures ok { IfOk result (λ answer. Answers (tfind_command graph.now tfst.now alphabet.now)
        (F.seen folder.old).files answer.items) }
    ensures err { IfErr result (Halts (tfind_command graph.now tfst.now alphabet.now).plan
        (F.seen folder.old) (F.seen folder.new)) }
{
    let alphabet = read_alphabet(alloc, alphabet, false, folder)?;
    let net = read_net(alloc, graph, &alphabet, folder)?;
    check_usable(alloc, graph, &net)?;
    let text = read_decoded(alloc, tfst, folder)?;
    let read = read_text(alloc, tfst, text.as_str())?;
    let answer = found(alloc, &net, &alphabet, &read)?;
    Ok(answer.into_bytes())
}

/// The lines of all spans of the sentences of a file that was read.
fn found(alloc: Global, net: &Net, alphabet: &Alphabet, read: &NumberedText<'_>) -> Mem<String>
    requires { (text : List ℕ) × IsNumberedText text read.now.table read.now.sentences.items }
    ensures { IfOk result (λ answer. (text : List ℕ) →
        IsNumberedText text read.now.table read.now.sentences.items →
        IsFoundText alphabet.now (net_grammar net.now) text (string_bytes answer)) }
{
    let finder = Finder::of(alloc, net, alphabet, &read.table)?;
    print_all(alloc, &finder, read.sentences.as_slice())
}

/// The lines of all spans of the sentences, some searched together after others.
fn print_all(alloc: Global, finder: &Finder<'_>, sentences: &[NumberedSentence]) -> Mem<String>
    requires { (old : List SentenceRecord) × AreValid old
        × AllZip (IsNumberedBy finder.now.texts) old sentences.now }
    ensures { IfOk result (λ answer. (old : List SentenceRecord) → AreValid old →
        AllZip (IsNumberedBy finder.now.texts) old sentences.now →
        HasSpans finder.now.letters (net_grammar finder.now.net) old (string_bytes answer)) }
{
    let mut answer = String::from_str(alloc, "#T\n")?;
    let mut first = 0;
    'together: while first < sentences.len() {
        let next = after_many(sentences, first);
        print_found(alloc, finder, between(sentences, first, next), &mut answer)?;
        first = next;
    }
    Ok(answer)
}

/// The place after the sentences from one on that are searched together: those that have many links
/// between them, or all that are left.
fn after_many(sentences: &[NumberedSentence], first: usize) -> usize
    requires { first < length sentences.now }
    ensures after { first < result }
    ensures inside { result ≤ length sentences.now }
{
    let mut links = 0usize;
    for place in first..sentences.len() {
        links = links.saturating_add(sentences[place].links.len());
        if MOST_LINKS <= links {
            return place + 1;
        }
    }
    sentences.len()
}

/// The sentences from a place up to another one.
fn between(sentences: &[NumberedSentence], first: usize, next: usize) -> &[NumberedSentence]
    requires in_order { first ≤ next }
    requires inside { next ≤ length sentences.now }
    ensures { result.now ≡ slice_range sentences.now first next }
{
    &sentences[first..next]
}

/// Adds the lines of the spans of these sentences.
fn print_found(
    alloc: Global,
    finder: &Finder<'_>,
    sentences: &[NumberedSentence],
    answer: &mut String,
) -> Mem<()>
    requires { (old : List SentenceRecord) × AreTold finder.now.texts old sentences.now }
    ensures { OnOk result ((old : List SentenceRecord) →
        AreTold finder.now.texts old sentences.now →
        PrintsFound finder.now old (string_bytes answer.old) (string_bytes answer.new)) }
{
    let spans = finder.spans(alloc, sentences)?;
    print_spans(answer, spans.as_slice())?;
    Ok(())
}
