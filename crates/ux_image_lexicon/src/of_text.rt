//! A file of forms, made into an automaton.
//!
//! The forms of the file go into an automaton as for an image, each with the number of its list of
//! codes, and no bytes are laid out. No entry stands twice in a content, so that a form has as many
//! entries as its list has codes, and nothing is to be counted.

ghost use Rattle.std.specs.Prelude.{◌≡◌, ◌⊎◌, ◌<◌, ◌^◌, IfErr, IfOk, length};
ghost use Rattle.ux_dawg.specs.Automaton.{IsMinimalOf};
ghost use Rattle.ux_dela.specs.Files.{Refuses};
ghost use Rattle.ux_dela.specs.declared.error.DelaError.{DelaError};
ghost use Rattle.ux_dela.specs.declared.error.DelaError.TheVariants.{NoMemory};
ghost use Rattle.ux_dict.specs.Content.{IsDictionary};
ghost use Rattle.ux_dict.specs.FileContent.{IsFileContent};
ghost use Rattle.ux_image_lexicon.specs.Counting.{TellsEach};
ghost use Rattle.ux_image_lexicon.specs.Told.{content_in};

use crate::coded::Coded;
use crate::counts::Counts;
use crate::lexicon::ImageLexicon;
use crate::lists::read_lists;
use indexmap::IndexMap;
use std::alloc::Global;
use ux_base::{Mem, NoMemory as OutOfMemory};
use ux_dawg::{Builder, States};
use ux_dela::DelaError;
use ux_dict::{Stored, content_in as content_of};
use ux_image::{Listing, dictionary_is_content, list_codes};
use ux_image_look_ups::longest;

/// The dictionary of a file of forms as an automaton, or why the file's first bad line is refused.
/// Keeps the file's content until the automaton is built. Takes a step a byte and sorts the entries.
pub fn read_text(alloc: Global, text: &str) -> Result<ImageLexicon, DelaError>
    ensures ok { IfOk result (IsFileContent text.now) }
    ensures refused { IfErr result (λ error. (error ≡ NoMemory) ⊎ Refuses text.now error) }
    ensures exact { IfOk result (λ _. (error : DelaError) → Refuses text.now error → ⊥) }
{
    let content = content_of(alloc, text)?;
    match of_content(alloc, content) {
        Ok(lexicon) => Ok(lexicon),
        Err(OutOfMemory) => Err(DelaError::NoMemory),
    }
}

/// The dictionary of this content, which is given up before its automaton is finished, so that both
/// are not there at once. Where 32 bits don't hold a number, it answers that memory ran out.
fn of_content(alloc: Global, content: Vec<Stored>) -> Mem<ImageLexicon>
    requires { IsDictionary content.items }
    ensures { IfOk result (λ lexicon. lexicon ≡ content.items) }
{
    dictionary_is_content(&content);
    let Listing { builder, lists } = list_codes(alloc, &content)?;
    let total = content.len();
    drop(content);
    let states = states_of(alloc, builder)?;
    let read = read_lists(alloc, &lists)?;
    of_counted(alloc, Coded::new(states, read), total)
}

/// The states of the automaton of the forms. Where 32 bits don't number them, memory ran out.
fn states_of(alloc: Global, builder: Builder) -> Mem<States>
    ensures minimal { IfOk result (IsMinimalOf builder) }
    ensures few { IfOk result (λ states. length states < 2 ^ 32) }
{
    let automaton = builder.finish()?;
    if automaton.len() > u32::MAX as usize {
        return Err(OutOfMemory);
    }
    Ok(automaton.into_states())
}

/// The dictionary of an automaton and its lists, which tell so many entries.
fn of_counted(alloc: Global, coded: Coded, total: usize) -> Mem<ImageLexicon>
    requires { TellsEach coded total }
    ensures { IfOk result (λ lexicon. lexicon ≡ content_in coded) }
{
    let longest = longest(alloc, coded.states())?;
    let counts = Counts {
        total,
        fewer: IndexMap::new(alloc),
    };
    Ok(ImageLexicon {
        coded,
        longest,
        counts,
    })
}
