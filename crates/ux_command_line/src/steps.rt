//! The steps and the dictionaries of a cascade, each by one word.

ghost use Rattle.std.specs.Prelude.{◌≡◌, ◌++◌, option_to_list, OnOk, IfOk, IsErrOf, Some, None, true, false};
ghost use Rattle.ux_command_line.specs.Steps.{dic_of, step_of, times_of, rewriting_of, word_by, step_word_of, are_steps, steps_in, dics_in, WritesStep};
ghost use Rattle.ux_command_line.specs.declared.steps.StepWord.{StepWord};
ghost use Rattle.ux_command_line.specs.declared.error.WordsError.TheVariants.{Usage};

use crate::error::WordsError;
use crate::number::number;
use crate::request::CascadeStep;
use std::alloc::{AllocError, Global};
use ux_base::{Mode, Txt};

/// What the words of a cascade stand for, each kind in the order of the words.
#[derive(Drop)]
pub struct Steps {
    /// The graphs by which the text is rewritten.
    pub steps: Vec<CascadeStep>,
    /// The dictionaries, which count for every step.
    pub dics: Vec<Txt>,
}

impl Steps {
    /// The steps and the dictionaries that the words write, if each writes one.
    pub fn of(alloc: Global, words: &[Txt]) -> Result<Steps, WordsError>
        ensures ok { IfOk result (λ read. (are_steps words.now ≡ true)
            × (read.steps.items ≡ steps_in words.now) × (read.dics.items ≡ dics_in words.now)) }
        ensures usage { IsErrOf result Usage → are_steps words.now ≡ false }
    {
        let mut read = Steps {
            steps: Vec::new(alloc),
            dics: Vec::new(alloc),
        };
        for word in words {
            read.add(step_word(alloc, word.as_str())?)?;
        }
        Ok(read)
    }

    /// Adds what one more word stands for.
    fn add(&mut self, word: StepWord) -> Result<(), AllocError>
        ensures steps { OnOk result
            (self.new.steps.items ≡ self.old.steps.items ++ option_to_list (step_of word)) }
        ensures dics { OnOk result
            (self.new.dics.items ≡ self.old.dics.items ++ option_to_list (dic_of word)) }
    {
        match word {
            StepWord::Step(step) => self.steps.push(step)?,
            StepWord::Dic(dic) => self.dics.push(dic)?,
        }
        Ok(())
    }
}

/// What one word of a cascade stands for.
#[derive(Drop)]
pub enum StepWord {
    /// A graph by which the text is rewritten.
    Step(CascadeStep),
    /// The file of a dictionary.
    Dic(Txt),
}

/// The step or the dictionary that a word writes, as `merge:g.grf`, `replace7:g.grf` or `dic:d.dic`.
fn step_word(alloc: Global, word: &str) -> Result<StepWord, WordsError>
    ensures ok { IfOk result (λ step. step_word_of word.now ≡ Some step) }
    ensures usage { IsErrOf result Usage → step_word_of word.now ≡ None }
    // What is read was written so, and what is refused is written for no step.
    ensures written { IfOk result (WritesStep word.now) }
    ensures unwritten { IsErrOf result Usage →
        (step : StepWord) → WritesStep word.now step → ⊥ }
{
    match read_word(alloc, word)? {
        Some(step) => Ok(step),
        None => Err(WordsError::Usage),
    }
}

fn read_word(alloc: Global, word: &str) -> Result<Option<StepWord>, AllocError>
    ensures { IfOk result (λ read. read ≡ step_word_of word.now) }
{
    match word.split_once(':') {
        Some((kind, name)) => word_of_kind(alloc, kind, name),
        None => Ok(None),
    }
}

fn word_of_kind(alloc: Global, kind: &str, name: &str) -> Result<Option<StepWord>, AllocError>
    ensures { IfOk result (λ read. read ≡ word_by kind.now name.now) }
{
    if name.is_empty() {
        return Ok(None);
    }
    if kind == "dic" {
        return Ok(Some(StepWord::Dic(Txt::from_str(alloc, name)?)));
    }
    let Some((mode, times)) = rewriting(kind) else {
        return Ok(None);
    };
    Ok(Some(StepWord::Step(CascadeStep {
        graph: Txt::from_str(alloc, name)?,
        mode,
        times,
    })))
}

/// How a step rewrites, and how often.
fn rewriting(kind: &str) -> Option<(Mode, u32)>
    ensures { result ≡ rewriting_of kind.now }
{
    if let Some(digits) = kind.strip_prefix("merge") {
        return Some((Mode::Merge, times(digits)?));
    }
    let digits = kind.strip_prefix("replace")?;
    Some((Mode::Replace, times(digits)?))
}

/// Once where no digits stand, else as they say.
fn times(digits: &str) -> Option<u32>
    ensures { result ≡ times_of digits.now }
{
    if digits.is_empty() {
        return Some(1);
    }
    number(digits, 2, 1, 99)
}
