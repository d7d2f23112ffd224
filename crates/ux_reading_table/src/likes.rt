//! Readings that are alike: those of entries with the same codes.

ghost use Rattle.std.specs.Prelude.{ℕ, List, IfOk, IfSome, OnOk};
ghost use Rattle.ux_dela.specs.declared.entry.Codes.{Codes as CodesRecord};
ghost use Rattle.ux_reading_table.specs.Alike.{IsAlike};
ghost use Rattle.ux_reading_table.specs.Liking.{AreFirsts, AreLikes, HasCodesOf};

use std::alloc::Global;
use ux_base::Mem;
use ux_dela::Codes;

/// Which readings are alike.
#[derive(Drop)]
pub(crate) struct Likes {
    /// For each reading the first one with its codes, or its own number.
    pub alike: Vec<u32>,
    /// For the first of the known codes the first reading with them.
    pub firsts: Vec<u32>,
}

/// No reading.
pub(crate) fn no_likes(alloc: Global) -> Likes
    ensures { (texts : List (List ℕ)) (codes : List CodesRecord) → AreLikes texts codes result }
{
    Likes {
        alike: Vec::new(alloc),
        firsts: Vec::new(alloc),
    }
}

/// Notes the reading with the number, whose codes have the place among these. Nothing is noted where
/// it isn't the next one.
pub(crate) fn note_like(
    likes: &mut Likes,
    codes: &[Codes],
    place: Option<usize>,
    number: u32,
) -> Mem<()>
    ensures { OnOk result ((texts : List (List ℕ)) → AreLikes texts codes.now likes.old →
        IfSome place (λ place. HasCodesOf texts codes.now place number) →
        AreLikes texts codes.now likes.new) }
{
    if number as usize != likes.alike.len() {
        return Ok(());
    }
    let like = like_of(&mut likes.firsts, codes, place, number)?;
    likes.alike.push(like)?;
    Ok(())
}

/// The first reading with the codes at the place, which is this one where none is noted.
fn like_of(firsts: &mut Vec<u32>, codes: &[Codes], place: Option<usize>, number: u32) -> Mem<u32>
    ensures { IfOk result (λ like. (texts : List (List ℕ)) →
        AreFirsts texts codes.now firsts.old.items →
        IfSome place (λ place. HasCodesOf texts codes.now place number) →
        AreFirsts texts codes.now firsts.new.items × IsAlike texts number like) }
{
    let Some(place) = place else {
        return Ok(number);
    };
    if let Some(first) = firsts.get(place) {
        return Ok(*first);
    }
    if place == firsts.len() && place < codes.len() {
        firsts.push(number)?;
    }
    Ok(number)
}
