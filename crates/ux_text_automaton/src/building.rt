//! The automata of sentences, one at a time or all of a text.

ghost use Rattle.std.specs.Prelude.{◌≡◌, ◌^◌, ◌<◌, IfOk, OnOk, length};
ghost use Rattle.ux_alphabet.specs.Letters.{Letters};
ghost use Rattle.ux_lexical_tables.specs.Belonging.{Belongs};
ghost use Rattle.ux_text_automaton.specs.Built.{AreLinks, AreSentences, IsSentenceOf};
ghost use Rattle.ux_text_automaton.specs.Candidates.{AreStates};
ghost use Rattle.ux_text_automaton.specs.Runs.{IsRun};

use crate::readings::put_links_from;
use crate::run::Run;
use crate::runs_of::runs;
use crate::states::{state_before, states_of};
use std::alloc::Global;
use ux_base::{Lst, Mem};
use ux_lexical_tables::LexicalTables;
use ux_sentence::{Link, Sentence};
use ux_tokens::Text;

/// The automata of all sentences of the text, numbered from 1. They are all in memory then: a text
/// of many megabytes has millions of links, so take `runs` and one `sentence` at a time where that
/// will do.
pub fn build(alloc: Global, text: &Text, tables: &LexicalTables) -> Mem<Vec<Sentence>>
    // `tables` are those of this text.
    requires { (alphabet : Letters) × Belongs alphabet text.now tables.now }
    ensures { IfOk result (λ sentences. AreSentences text.now tables.now sentences.items) }
{
    let runs = runs(alloc, text)?;
    let mut sentences = Vec::new(alloc);
    for place in 0..runs.len() {
        let number = place as u32 + 1;
        sentences.push(sentence(alloc, text, tables, runs[place], number)?)?;
    }
    Ok(sentences)
}

/// The automaton of one sentence, with its number in the text. Takes a step for each token and link
/// of the sentence, and what sorting the links from each token takes.
pub fn sentence(
    alloc: Global,
    text: &Text,
    tables: &LexicalTables,
    run: Run,
    number: u32,
) -> Mem<Sentence>
    // `tables` are those of this text.
    requires belongs { (alphabet : Letters) × Belongs alphabet text.now tables.now }
    requires run { IsRun text.now run }
    ensures sentence { IfOk result (IsSentenceOf text.now tables.now run number) }
    ensures few { IfOk result (λ sentence. length sentence.links < 2 ^ 64) }
{
    let states = states_of(alloc, text, run)?;
    let links = links_of(alloc, text, tables, run, &states)?;
    let last = state_before(text, &states, run, run.end);
    Ok(Sentence {
        number,
        states: last + 1,
        links: Lst::new(links),
    })
}

/// The links of a sentence, in order.
fn links_of(
    alloc: Global,
    text: &Text,
    tables: &LexicalTables,
    run: Run,
    states: &[u64],
) -> Mem<Vec<Link>>
    requires belongs { (alphabet : Letters) × Belongs alphabet text.now tables.now }
    requires run { IsRun text.now run }
    requires states { AreStates text.now run.first run.end states.now }
    ensures { IfOk result (λ links. AreLinks text.now tables.now run links.items) }
{
    let mut links = Vec::new(alloc);
    for place in run.first..run.end {
        put_links_from(&mut links, alloc, text, tables, run, states, place)?;
    }
    Ok(links)
}
