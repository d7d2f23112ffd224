//! The layout of an image: its states, and its lists of codes.

ghost use Rattle.std.specs.Prelude.{◌≡◌, ◌⊎◌, IfErr, IfOk};
ghost use Rattle.ux_dawg.specs.Paths.{MakeAutomaton};
ghost use Rattle.ux_image_lists.specs.Images.{HasLists, IsLayoutOf, RefusesLayout, RefusesLists};
ghost use Rattle.ux_image_reader.specs.Fronts.{IsFrontOf};
ghost use Rattle.ux_image_reader.specs.declared.error.ImageError.{ImageError as ErrorData};
ghost use Rattle.ux_image_reader.specs.declared.error.ImageError.TheVariants.{NoMemory};

use crate::lists::read_lists;
use crate::shortest::shortest_forms;
use indexmap::IndexSet;
use std::alloc::Global;
use ux_dawg::States;
use ux_image::CodeList;
use ux_image_reader::{Front, ImageError, read_front};

/// The states of an image, and its lists of codes.
#[derive(Drop)]
pub struct Image {
    /// The states, by number. The last one is the root.
    pub states: States,
    /// The lists of codes, by number.
    pub lists: IndexSet<CodeList>,
}

/// The states and lists of an image, or the first fault of the file. That too many entries come of
/// them is no fault here: `count_letters` counts.
///
/// The time is linear in the file, and no more room is taken than what was read needs, whatever its
/// counts say.
pub fn read_layout(alloc: Global, bytes: &[u8]) -> Result<Image, ImageError>
    ensures ok { IfOk result (IsLayoutOf bytes.now) }
    ensures automaton { IfOk result (λ image. MakeAutomaton image.states) }
    ensures exact { IfOk result (λ _. (error : ErrorData) → RefusesLayout bytes.now error → ⊥) }
    ensures err { IfErr result (λ error. (error ≡ NoMemory) ⊎ RefusesLayout bytes.now error) }
{
    let front = read_front(alloc, bytes)?;
    let lists = read_behind(alloc, &front, bytes)?;
    Ok(Image {
        states: front.states,
        lists,
    })
}

/// The lists behind the front.
fn read_behind(alloc: Global, front: &Front, bytes: &[u8]) -> Result<IndexSet<CodeList>, ImageError>
    requires front { IsFrontOf bytes.now front.now }
    requires automaton { MakeAutomaton front.now.states }
    ensures ok { IfOk result (λ lists. HasLists bytes.now front.now lists.keys) }
    ensures err { IfErr result (λ error.
        (error ≡ NoMemory) ⊎ RefusesLists bytes.now front.now error) }
{
    let shortest = shortest_forms(alloc, &front.states, front.lists)?;
    let (_, behind) = bytes.split_at(front.end);
    read_lists(alloc, front.version, shortest.as_slice(), behind)
}
