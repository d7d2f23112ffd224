//! The tests of states that are made among all of them.

ghost use Rattle.std.specs.Prelude.{◌≡◌, ◌<◌, ◌≤◌, ◌^◌, IfErr, IfOk, OnOk, length};
ghost use Rattle.ux_dawg.specs.Paths.{AreStates};
ghost use Rattle.ux_image_reader.specs.Fronts.{EqualsEarlier, IsFinalRoot, IsMisplaced};
ghost use Rattle.ux_image_reader.specs.Layout.{place_behind};
ghost use Rattle.ux_image_reader.specs.Tests.{used_by};
ghost use Rattle.ux_image_reader.specs.Reading.{AreTogether, IsFirst, RefusesTogether, first_of};

use crate::error::ImageError;
use crate::states::{count_used, place_behind};
use crate::visit::first_numbered_else;
use std::alloc::Global;
use ux_base::Mem;
use ux_dawg::{States, first_repeated};

/// Tests the states of a file that tells so many lists among one another.
pub(crate) fn accept_states(alloc: Global, lists: u32, states: &States) -> Result<(), ImageError>
    requires states { AreStates states.now }
    requires some { 0 < length states.now }
    requires used { used_by states.now ≤ lists }
    requires place { place_behind states.now < 2 ^ 64 }
    ensures ok { OnOk result (AreTogether lists states.now) }
    ensures err { IfErr result (RefusesTogether lists states.now) }
{
    if let Some(number) = first_misplaced(alloc, states)? {
        let offset = place_behind(states, number);
        return Err(ImageError::BadState { offset });
    }
    if count_used(states) < lists {
        return Err(ImageError::BadState { offset: 12 });
    }
    Ok(())
}

/// The first state that has a fault among the others. The time is linear in the edges.
fn first_misplaced(alloc: Global, states: &States) -> Mem<Option<usize>>
    requires states { AreStates states.now }
    requires some { 0 < length states.now }
    ensures { IfOk result (IsFirst (IsMisplaced states.now)) }
{
    let equal = first_equal(alloc, states)?;
    let numbered_else = first_numbered_else(alloc, states)?;
    Ok(first(final_root(states), first(equal, numbered_else)))
}

/// The root, if it is final.
fn final_root(states: &States) -> Option<usize>
    requires { 0 < length states.now }
    ensures { IsFirst (IsFinalRoot states.now) result }
{
    let root = states.len() - 1;
    match states.code(root) {
        Some(_) => Some(root),
        None => None,
    }
}

/// The first state that equals an earlier one.
fn first_equal(alloc: Global, states: &States) -> Mem<Option<usize>>
    ensures { IfOk result (IsFirst (EqualsEarlier states.now)) }
{
    first_repeated(alloc, states)
}

/// The lower of two numbers, as far as they are there.
fn first(one: Option<usize>, other: Option<usize>) -> Option<usize>
    ensures { result ≡ first_of one other }
{
    match (one, other) {
        (Some(one), Some(other)) => Some(one.min(other)),
        (Some(one), None) => Some(one),
        (None, other) => other,
    }
}
