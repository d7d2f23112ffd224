//! The files of the command, read in their order: the alphabet, the graphs, the text, the dictionaries.

ghost use Rattle.std.specs.Prelude.{◌≡◌, ◌⊎◌, ◌<◌, ℕ, List, IfErr, IfOk, IsTrue, OnOk, false, length};
ghost use Rattle.ux_base.specs.Outside.{IsLater};
ghost use Rattle.ux_dictionaries.specs.Dictionaries.{contents_of};
ghost use Rattle.ux_marks.specs.Marks.{KeepsMarks};
ghost use Rattle.ux_plan.specs.Plans.{Comes, Halts, Reads, StopsFile, StopsTest, refusing};
ghost use Rattle.ux_alphabet.specs.File.{Refuses};
ghost use Rattle.ux_texts.specs.Texts.{IsAlphabet, alphabet_format};
ghost use Rattle.ux_tokens.specs.Reading.{HasTooManyTokens};
ghost use Rattle.ux_cmd_morpho.specs.Answering.{IsWordAt};
ghost use Rattle.ux_cmd_morpho.specs.Files.{AreFiles, HasMarkedNet};
ghost use Rattle.ux_cmd_morpho.specs.Reading.{HasLongWord, NamesMarks, RefusesNetMarks, files_plan, marks_plan, single_of, words_plan};

use std::alloc::Global;
use ux_alphabet::{Alphabet, AlphabetError};
use ux_apply::Priority;
use ux_base::{Folder, Mem, Txt};
use ux_dictionaries::read_dictionaries;
use ux_grammars::{named_file, read_marked_net};
use ux_lexicon::AnyLexicon;
use ux_marks::{MorphError, check_marks};
use ux_morpho::has_few_letters;
use ux_net::Net;
use ux_plan::{Stop, read_decoded, refused, too_large};
use ux_reasons::Reason;
use ux_texts::read_text;
use ux_tokens::{Kind, Text};

/// The files, each as its reader gives it.
#[derive(Drop)]
pub struct Files {
    /// The letters, each of them a word of its own.
    pub alphabet: Alphabet,
    /// The grammar, as states.
    pub net: Net,
    /// The tokens.
    pub text: Text,
    /// The dictionaries, each with its priority.
    pub dics: Vec<(Priority, AnyLexicon)>,
}

/// Reads the files.
#[tactic(auto, using(ux_plan::proofs::PlanSteps::plan_steps))]
pub(crate) fn read_files<F: Folder>(
    alloc: Global,
    graph: &str,
    text: &str,
    alphabet: &str,
    dics: &[Txt],
    folder: &mut F,
) -> Result<Files, Stop<Reason>>
    ensures later { IsLater (F.seen folder.old) (F.seen folder.new) }
    ensures ok { IfOk result (λ files. AreFiles graph.now text.now alphabet.now dics.now
        (F.seen folder.old).files files.alphabet files.net files.text
        (contents_of files.dics.items)) }
    ensures err { IfErr result (Halts (files_plan graph.now text.now alphabet.now dics.now)
        (F.seen folder.old) (F.seen folder.new)) }
{
    let (words, alphabet) = read_alphabets(alloc, alphabet, folder)?;
    let net = read_net(alloc, graph, &alphabet, folder)?;
    let text = read_words(alloc, text, &words, &alphabet, folder)?;
    let dics = read_dictionaries(alloc, dics, folder)?;
    Ok(Files {
        alphabet,
        net,
        text,
        dics,
    })
}

/// Reads a file of letters: first as an alphabet of which words are made, and then with each letter a word
/// of its own.
#[tactic(auto, using(ux_plan::proofs::Decoded::decoding))]
fn read_alphabets<F: Folder>(
    alloc: Global,
    name: &str,
    folder: &mut F,
) -> Result<(Alphabet, Alphabet), Stop<Reason>>
    ensures later { IsLater (F.seen folder.old) (F.seen folder.new) }
    ensures single { IfOk result (λ pair. pair.1 ≡ single_of pair.0) }
    ensures ok { IfOk result (λ pair. Reads (alphabet_format false) name.now
        (F.seen folder.old).files pair.0) }
    ensures err { IfErr result (StopsFile (alphabet_format false) name.now
        (F.seen folder.old) (F.seen folder.new)) }
{
    let text = read_decoded(alloc, name, folder)?;
    match two_alphabets(alloc, text.as_str()) {
        Ok(pair) => Ok(pair),
        Err(AlphabetError::NoMemory) => Err(Stop::NoMemory),
        Err(error) => Err(refused(alloc, name, Reason::Alphabet(error))),
    }
}

/// The alphabet of this text, and the same with each letter a word of its own.
fn two_alphabets(alloc: Global, text: &str) -> Result<(Alphabet, Alphabet), AlphabetError>
    ensures ok { IfOk result (λ pair. IsAlphabet false text.now pair.0) }
    ensures single { IfOk result (λ pair. pair.1 ≡ single_of pair.0) }
    ensures err { IfErr result (λ error. (error ≡ AlphabetError.NoMemory)
        ⊎ Refuses text.now error) }
{
    let words = Alphabet::read(alloc, text)?;
    let letters = Alphabet::read(alloc, text)?;
    Ok((words, letters.by_character()))
}

/// Reads the grammar whose main graph's file the word names, whose marks keep to their rule.
#[tactic(auto, using(ux_plan::proofs::PlanSteps::plan_steps))]
fn read_net<F: Folder>(
    alloc: Global,
    word: &str,
    alphabet: &Alphabet,
    folder: &mut F,
) -> Result<Net, Stop<Reason>>
    ensures later { IsLater (F.seen folder.old) (F.seen folder.new) }
    ensures ok { IfOk result (HasMarkedNet (marks_plan word.now alphabet.now)
        (F.seen folder.old).files alphabet.now) }
    ensures err { IfErr result (Halts (marks_plan word.now alphabet.now)
        (F.seen folder.old) (F.seen folder.new)) }
{
    let net = read_marked_net(alloc, word, alphabet, folder)?;
    keep_marks(alloc, word, &net)?;
    Ok(net)
}

/// Tests the marks of a net.
fn keep_marks(alloc: Global, word: &str, net: &Net) -> Result<(), Stop<Reason>>
    ensures ok { OnOk result (KeepsMarks net.now) }
    ensures err { IfErr result (StopsTest (refusing (RefusesNetMarks word.now net.now))) }
{
    match check_marks(alloc, net) {
        Ok(()) => Ok(()),
        Err(error) => Err(refused_marks(alloc, word, error)),
    }
}

/// The stop that names the file of the graph with a bad state.
fn refused_marks(alloc: Global, word: &str, error: MorphError) -> Stop<Reason>
    ensures { (result ≡ Stop.NoMemory) ⊎ ((file : List ℕ) × NamesMarks word.now error file
        × (result ≡ Stop.Refused file (Reason.Morph error))) }
{
    match error {
        MorphError::BadMarks { graph, node } => {
            match named_file(alloc, word, graph.as_str()) {
                Ok(file) => Stop::Refused {
                    name: Txt::new(file),
                    reason: Reason::Morph(MorphError::BadMarks { graph, node }),
                },
                Err(_) => Stop::NoMemory,
            }
        }
        // No test of marks names a token.
        MorphError::BadOutput { .. } => Stop::NoMemory,
        MorphError::NoMemory => Stop::NoMemory,
    }
}

/// Reads a text of which no word has too many letters.
#[tactic(auto, using(ux_plan::proofs::PlanSteps::plan_steps))]
fn read_words<F: Folder>(
    alloc: Global,
    name: &str,
    words: &Alphabet,
    letters: &Alphabet,
    folder: &mut F,
) -> Result<Text, Stop<Reason>>
    ensures later { IsLater (F.seen folder.old) (F.seen folder.new) }
    ensures ok { IfOk result (Comes (words_plan name.now words.now letters.now)
        (F.seen folder.old).files) }
    ensures short { IfOk result (λ text. HasLongWord letters.now text → ⊥) }
    ensures err { IfErr result (Halts (words_plan name.now words.now letters.now)
        (F.seen folder.old) (F.seen folder.new)) }
{
    let text = read_text(alloc, name, words, folder)?;
    if !are_words_short(alloc, &text, letters)? {
        return Err(too_large(alloc, name));
    }
    Ok(text)
}

/// Whether no word of the text has too many letters.
fn are_words_short(alloc: Global, text: &Text, letters: &Alphabet) -> Mem<bool>
    ensures short { IfOk result (λ short. IsTrue short → HasLongWord letters.now text.now → ⊥) }
    ensures long { IfOk result (λ short. (IsTrue short → ⊥) → HasLongWord letters.now text.now) }
{
    for place in 0..text.len() {
        if !is_short_at(alloc, text, place, letters)? {
            return Ok(false);
        }
    }
    Ok(true)
}

/// Whether no word with too many letters stands at the place.
fn is_short_at(alloc: Global, text: &Text, place: usize, letters: &Alphabet) -> Mem<bool>
    requires inside { place < length text.now }
    ensures short { IfOk result (λ short. IsTrue short → (word : List ℕ) →
        IsWordAt text.now place word → HasTooManyTokens letters.now word → ⊥) }
    ensures long { IfOk result (λ short. (IsTrue short → ⊥) → HasLongWord letters.now text.now) }
{
    if text.kind(place) != Kind::Word {
        return Ok(true);
    }
    has_few_letters(alloc, text.token(place), letters)
}
