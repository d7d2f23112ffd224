//! Rules, made ready once for all sentences.

ghost use Rattle.std.specs.Prelude.{◌≡◌, ◌<◌, ◌^◌, [], ◌∷◌, All, IfOk, length};
ghost use Rattle.ux_elag.specs.Left.{IsLeft};
ghost use Rattle.ux_elag.specs.Numbers.{AreBelow, AreReadings, HaveTexts, IsFormed, sentence_of};
ghost use Rattle.ux_elag.specs.Prepared.{IsFresh};
ghost use Rattle.ux_elag.specs.Ready.{IsMonitorOf, numbered_steps};
ghost use Rattle.ux_elag.specs.Ready as specs;

use crate::naming::{ordered_sentence, without_states};
use crate::passing::kinds_of;
use crate::placing::place_states;
use crate::prepared_rule::PreparedRule;
use std::alloc::Global;
use std::marker::Model;
use ux_base::{Mem, NoMemory, Txt};
use ux_monitor::{Monitor, Sign as NumberedSign, Step as NumberedStep, keep_satisfying};
use ux_reading_table::NumberedSentence;
use ux_rules::{Rule, Sign, Step};
use ux_sentence::Reading;

/// A rule, ready to be applied to any number of sentences. Contracts see it as the rule.
#[derive(Drop)]
pub struct ReadyRule {
    rule: Rule,
    monitor: Monitor,
}

impl Model for ReadyRule {
    ghost use Rattle.ux_rules.specs.Rules.{RuleSteps};
    ghost use Rattle.ux_elag.specs.Ready.{IsMonitorOf};

    ghost Value = { RuleSteps };

    ghost view = { λ ready. ready.rule };

    ghost invariant = { λ ready. IsMonitorOf ready.rule.steps ready.monitor.rule };
}

impl ReadyRule {
    /// The rule, made ready. Takes time in its steps.
    pub fn of(alloc: Global, rule: Rule) -> Mem<ReadyRule>
        ensures { IfOk result (λ ready. ready ≡ rule) }
    {
        let steps = numbered_steps_of(alloc, rule.steps())?;
        let monitor = Monitor::new(alloc, steps.as_slice(), &[1])?;
        Ok(ReadyRule { rule, monitor })
    }

    /// The steps of the rule.
    pub(crate) fn steps(&self) -> &[Step]
        ensures { result.now ≡ self.now.steps }
    {
        self.rule.steps()
    }

    /// The rule, to be prepared for a table of which it has no kinds yet.
    pub(crate) fn without_kinds(self, alloc: Global) -> PreparedRule
        ensures { IsFresh self result }
    {
        PreparedRule {
            rule: self.rule,
            monitor: self.monitor,
            kinds: Vec::new(alloc),
        }
    }

    /// What the rule leaves of the sentence, which numbers these readings, which have these texts.
    pub(crate) fn leave(
        &mut self,
        alloc: Global,
        texts: &[Txt],
        readings: &[Reading],
        sentence: &NumberedSentence,
    ) -> Mem<NumberedSentence>
        requires formed { IsFormed sentence.now }
        requires readings { AreReadings readings.now }
        requires texts { HaveTexts texts.now readings.now }
        requires below { AreBelow (length readings.now) sentence.now.links.items }
        ensures same { self.new ≡ self.old }
        ensures below { IfOk result (λ left. AreBelow (length readings.now) left.links.items) }
        ensures left { IfOk result (λ left. IsLeft self.old (sentence_of readings.now sentence.now)
            (sentence_of readings.now left)) }
    {
        if sentence.states == 0 {
            return Ok(without_states(alloc, sentence.number));
        }
        let source = place_states(alloc, sentence)?;
        let kinds = kinds_of(alloc, self.rule.steps(), &mut self.monitor, readings)?;
        let kept = keep_satisfying(
            alloc,
            &mut self.monitor,
            kinds.as_slice(),
            source.links.as_slice(),
            source.last,
        )?;
        ordered_sentence(alloc, sentence.number, kept, texts)
    }
}

/// The steps, with the number of each test in its place: that of its step.
fn numbered_steps_of(alloc: Global, steps: &[Step]) -> Mem<Vec<NumberedStep>>
    ensures numbered { IfOk result (λ found. found.items ≡ numbered_steps 0 steps.now) }
    ensures fit { IfOk result (λ _. length steps.now < 2 ^ 32) }
{
    if steps.len() > u32::MAX as usize {
        return Err(NoMemory);
    }
    let mut found = Vec::new(alloc);
    for (index, step) in steps.iter().enumerate() {
        found.push(NumberedStep {
            from: step.from,
            to: step.to,
            sign: numbered_sign(index as u32, &step.sign),
        })?;
    }
    Ok(found)
}

/// The sign, with a number in place of its test.
fn numbered_sign(number: u32, sign: &Sign) -> NumberedSign
    ensures { result ≡ specs.numbered_sign number sign.now }
{
    match sign {
        Sign::Free => NumberedSign::Free,
        Sign::If => NumberedSign::If,
        Sign::Then => NumberedSign::Then,
        Sign::Read(_) => NumberedSign::Read(number),
    }
}
