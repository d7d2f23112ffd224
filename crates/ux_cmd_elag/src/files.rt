//! The files of `elag`: the automata of sentences, and the graphs of rules.

ghost use Rattle.std.specs.Prelude.{IfErr, IfOk};
ghost use Rattle.ux_base.specs.Outside.{IsLater};
ghost use Rattle.ux_plan.specs.Plans.{Halts, StopsFile, each};
ghost use Rattle.ux_reading_table.specs.Numbered.{IsNumberedText};
ghost use Rattle.ux_cmd_elag.specs.Files.{AreRead, ReadsRule, StopsRule, StopsSentences, StopsText};
ghost use Rattle.ux_cmd_elag.specs.Reading.{named_format, rule_format};

use std::alloc::Global;
use ux_base::{Folder, Txt};
use ux_elag::ReadyRule;
use ux_grammars::drawn_graph;
use ux_plan::{Stop, read_bytes, refused};
use ux_reading_table::NumberedText;
use ux_reasons::Reason;
use ux_rules::{Rule, RuleError};
use ux_sentence::SentenceError;

/// A file of sentence automata, in numbers. The file has this name and this text.
pub(crate) fn read_text<'a>(
    alloc: Global,
    name: &str,
    text: &'a str,
) -> Result<NumberedText<'a>, Stop<Reason>>
    ensures ok { IfOk result (λ read. IsNumberedText text.now read.table read.sentences.items) }
    ensures err { IfErr result (StopsText name.now text.now) }
{
    match NumberedText::of(alloc, text) {
        Ok(read) => Ok(read),
        Err(error) => Err(no_sentences(alloc, name, error)),
    }
}

/// The stop that names the file of automata that is refused by the error.
fn no_sentences(alloc: Global, name: &str, error: SentenceError) -> Stop<Reason>
    ensures { StopsSentences name.now error result }
{
    match error {
        SentenceError::BadLine { line } => {
            refused(
                alloc,
                name,
                Reason::Sentence(SentenceError::BadLine { line }),
            )
        }
        SentenceError::BadEdge { line } => {
            refused(
                alloc,
                name,
                Reason::Sentence(SentenceError::BadEdge { line }),
            )
        }
        SentenceError::Backward { line } => {
            refused(
                alloc,
                name,
                Reason::Sentence(SentenceError::Backward { line }),
            )
        }
        SentenceError::NoMemory => Stop::NoMemory,
    }
}

/// Reads the rules of these names.
#[tactic(auto, using(ux_plan::proofs::PlanSteps::plan_steps))]
pub(crate) fn read_rules<F: Folder>(
    alloc: Global,
    names: &[Txt],
    folder: &mut F,
) -> Result<Vec<ReadyRule>, Stop<Reason>>
    ensures later { IsLater (F.seen folder.old) (F.seen folder.new) }
    ensures ok { IfOk result (λ rules. AreRead names.now (F.seen folder.old).files rules.items) }
    ensures err { IfErr result (Halts (each named_format names.now)
        (F.seen folder.old) (F.seen folder.new)) }
{
    let mut rules = Vec::new(alloc);
    for name in names {
        let rule = read_rule(alloc, name.as_str(), folder)?;
        rules.push(rule)?;
    }
    Ok(rules)
}

/// Reads the rule that the file of this name draws.
#[tactic(auto, using(crate::proofs::StopLemmas::rule_steps))]
fn read_rule<F: Folder>(
    alloc: Global,
    name: &str,
    folder: &mut F,
) -> Result<ReadyRule, Stop<Reason>>
    ensures later { IsLater (F.seen folder.old) (F.seen folder.new) }
    ensures ok { IfOk result (ReadsRule name.now (F.seen folder.old).files) }
    ensures err { IfErr result (StopsFile rule_format name.now
        (F.seen folder.old) (F.seen folder.new)) }
{
    let bytes = read_bytes(alloc, name, folder)?;
    let graph = drawn_graph(alloc, name, bytes)?;
    match Rule::of(alloc, &graph) {
        Ok(rule) => Ok(ReadyRule::of(alloc, rule)?),
        Err(error) => Err(no_rule(alloc, name, error)),
    }
}

/// The stop that names the file of the graph that is no rule by the error.
fn no_rule(alloc: Global, name: &str, error: RuleError) -> Stop<Reason>
    ensures { StopsRule name.now error result }
{
    match error {
        RuleError::NoIf => refused(alloc, name, Reason::Rule(RuleError::NoIf)),
        RuleError::BadMarks { node } => {
            refused(alloc, name, Reason::Rule(RuleError::BadMarks { node }))
        }
        RuleError::Call { node } => refused(alloc, name, Reason::Rule(RuleError::Call { node })),
        RuleError::BadItem { node } => {
            refused(alloc, name, Reason::Rule(RuleError::BadItem { node }))
        }
        RuleError::NoMemory => Stop::NoMemory,
    }
}
