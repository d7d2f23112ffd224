//! The automata of a text's sentences as one text, made sentence by sentence.

ghost use Rattle.std.specs.Prelude.{◌≡◌, ◌++◌, ◌+◌, ◌<◌, ℕ, List, IfOk, OnOk, length, Some, slice_get, string_bytes};
ghost use Rattle.ux_alphabet.specs.Letters.{Letters};
ghost use Rattle.ux_lexical_tables.specs.Belonging.{Belongs};
ghost use Rattle.ux_sentence.specs.Written.{IsPrinted};
ghost use Rattle.ux_sentence.specs.declared.sentence.Sentence.{Sentence as SentenceRecord};
ghost use Rattle.ux_text_automaton.specs.Built.{IsSentenceOf};
ghost use Rattle.ux_text_automaton.specs.Runs.{IsRun};
ghost use Rattle.ux_cmd_txt2tfst.specs.Tfst.{AreAutomata};

use std::alloc::Global;
use ux_base::Mem;
use ux_lexical_tables::LexicalTables;
use ux_sentence::{print_head, print_sentence};
use ux_text_automaton::{Run, runs, sentence};
use ux_tokens::Text;

/// The text of the automata of all sentences. One of them is in memory at a time.
pub(crate) fn write_automata(alloc: Global, text: &Text, tables: &LexicalTables) -> Mem<String>
    // `tables` are those of this text.
    requires { (alphabet : Letters) × Belongs alphabet text.now tables.now }
    ensures { IfOk result (λ answer. AreAutomata text.now tables.now (string_bytes answer)) }
{
    let runs = runs(alloc, text)?;
    let mut answer = print_head(alloc, runs.len())?;
    for place in 0..runs.len() {
        write_sentence(
            &mut answer,
            alloc,
            text,
            tables,
            runs[place],
            place as u32 + 1,
        )?;
    }
    Ok(answer)
}

/// Writes the automaton of one sentence last.
fn write_sentence(
    answer: &mut String,
    alloc: Global,
    text: &Text,
    tables: &LexicalTables,
    run: Run,
    number: u32,
) -> Mem<()>
    // `tables` are those of this text.
    requires belongs { (alphabet : Letters) × Belongs alphabet text.now tables.now }
    requires run { IsRun text.now run }
    ensures { OnOk result ((made : SentenceRecord) × (IsSentenceOf text.now tables.now run number made)
        × ((printed : List ℕ) × IsPrinted made printed
        × (string_bytes answer.new ≡ string_bytes answer.old ++ printed))) }
{
    let made = sentence(alloc, text, tables, run, number)?;
    print_sentence(alloc, &made, answer)
}
