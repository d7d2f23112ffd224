//! The rules, applied to the automata of sentences one after the other.
//!
//! The text is gone through once, which finds each fault. Beside the text and the answer its sentences
//! are in memory in numbers, and what is left of one.

ghost use Rattle.std.specs.Prelude.{◌≡◌, List, IfErr, IfOk, OnOk, string_bytes};
ghost use Rattle.std.specs.List.{AllZip};
ghost use Rattle.ux_base.specs.Outside.{IsLater};
ghost use Rattle.ux_plan.specs.Commands.{Answers};
ghost use Rattle.ux_plan.specs.Plans.{Halts};
ghost use Rattle.ux_sentence.specs.declared.sentence.Sentence.{Sentence as SentenceRecord};
ghost use Rattle.ux_cmd_elag.specs.Elag.{elag as elag_command};
ghost use Rattle.ux_cmd_elag.specs.Ruling.{AllStand, IsRuledFile, PrintsLeft, Stands};

use crate::files::{read_rules, read_text};
use std::alloc::Global;
use ux_base::{Folder, Mem, Txt};
use ux_elag::{PreparedRules, ReadyRule};
use ux_plan::{Stop, read_decoded};
use ux_reading_table::{NumberedSentence, NumberedText, print_numbered};
use ux_reasons::Reason;
use ux_sentence::print_head;

/// Reads the automata of sentences and rules, and gives the automata with exactly the reading lists
/// that satisfy every rule.
#[tactic(auto, using(ux_plan::proofs::PlanSteps::plan_steps, ux_plan::proofs::Decoded::decoding))]
pub fn elag<F: Folder>(
    alloc: Global,
    tfst: &str,
    rules: &[Txt],
    folder: &mut F,
) -> Result<Vec<u8>, Stop<Reason>>
    ensures later { IsLater (F.seen folder.old) (F.seen folder.new) }
    ensures ok { IfOk result (λ answer. Answers (elag_command tfst.now rules.now)
        (F.seen folder.old).files answer.items) }
    ensures err { IfErr result (Halts (elag_command tfst.now rules.now).plan
        (F.seen folder.old) (F.seen folder.new)) }
{
    let text = read_decoded(alloc, tfst, folder)?;
    let read = read_text(alloc, tfst, text.as_str())?;
    let rules = read_rules(alloc, rules, folder)?;
    let answer = ruled(alloc, &read, rules)?;
    Ok(answer.into_bytes())
}

/// The file of the sentences, after the rules.
fn ruled(alloc: Global, read: &NumberedText<'_>, rules: Vec<ReadyRule>) -> Mem<String>
    requires { (old : List SentenceRecord) × AllStand read.now.table old read.now.sentences.items }
    ensures { IfOk result (λ answer. (old : List SentenceRecord) →
        AllStand read.now.table old read.now.sentences.items →
        IsRuledFile rules.items old (string_bytes answer)) }
{
    let mut prepared = PreparedRules::of(alloc, rules, &read.table)?;
    print_ruled(alloc, read.sentences.as_slice(), &mut prepared)
}

/// The file of these sentences, after the rules.
fn print_ruled(
    alloc: Global,
    sentences: &[NumberedSentence],
    rules: &mut PreparedRules<'_>,
) -> Mem<String>
    requires { (old : List SentenceRecord) × AllZip (Stands rules.old.texts) sentences.now old }
    ensures { IfOk result (λ answer. (old : List SentenceRecord) →
        AllZip (Stands rules.old.texts) sentences.now old →
        IsRuledFile rules.old.rules old (string_bytes answer)) }
{
    let mut answer = print_head(alloc, sentences.len())?;
    for sentence in sentences {
        print_left(alloc, rules, sentence, &mut answer)?;
    }
    Ok(answer)
}

/// Adds what the rules leave of the sentence behind what stands in the answer.
fn print_left(
    alloc: Global,
    rules: &mut PreparedRules<'_>,
    sentence: &NumberedSentence,
    answer: &mut String,
) -> Mem<()>
    requires { (old : SentenceRecord) × Stands rules.old.texts sentence.now old }
    ensures same { rules.new ≡ rules.old }
    ensures printed { OnOk result ((old : SentenceRecord) →
        Stands rules.old.texts sentence.now old →
        PrintsLeft rules.old.rules old (string_bytes answer.old) (string_bytes answer.new)) }
{
    let left = rules.apply(alloc, sentence)?;
    print_numbered(&left, rules.texts(), answer)
}
