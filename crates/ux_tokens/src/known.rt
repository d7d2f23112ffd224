//! Numbers that are found without the table of different texts: the space's, and those of short
//! texts.
//!
//! Most tokens are short and were met before, and a look into the table and at its text waits for
//! memory twice. So a text of at most sixteen bytes is kept in a slot, as one number beside its
//! length, and is found again by one look. A hash gives each text its slot, and a later text takes
//! the place of an earlier one: that one is looked up in the table when it comes again.

ghost use Rattle.std.specs.Prelude.{◌≡◌, ◌<◌, ℕ, List, All, Some, IfOk, IfSome, [], length, take, slice_get};
ghost use Rattle.std.specs.Int.{bytes_high_first};
ghost use Rattle.ux_tokens.specs.Known.{AreKnown, HasNumber};

use std::alloc::{AllocError, Global};

/// How many slots there are: two megabytes. Of half as many the nearer memory of a processor would
/// hold more, but half as many tokens again would be looked up in the table. A text of fewer bytes has
/// none: to empty them would take longer than to look its tokens up.
const SLOTS: usize = 65_536;

/// The bits of a hash that aren't the number of a slot.
const UNUSED_BITS: u32 = 48;

/// An odd number whose bits are as if by chance, the golden ratio's.
const MULTIPLIER: u64 = 0x9e37_79b9_7f4a_7c15;

/// A text of at most sixteen bytes.
#[derive(Clone, Copy)]
pub struct Short {
    /// The number that its bytes make, the first of them the highest.
    pub bytes: u128,
    /// How many bytes it has.
    pub len: u32,
}

/// A short text and its number, or nothing where the length is 0.
#[derive(Clone, Copy)]
pub struct Slot {
    /// The bytes of the text.
    pub bytes: u128,
    /// The length of the text.
    pub len: u32,
    /// The number that the text was given.
    pub number: u32,
}

/// The numbers that are known.
#[derive(Drop)]
pub struct Known {
    /// The number of the space, once it was given.
    pub space: Option<u32>,
    /// Short texts with their numbers.
    pub slots: Vec<Slot>,
}

impl Known {
    /// No number yet, for a text of so many bytes.
    pub fn new(alloc: Global, len: usize) -> Result<Known, AllocError>
        ensures { IfOk result (AreKnown []) }
    {
        let count = if len < SLOTS { 0 } else { SLOTS };
        let slots = empty_slots(alloc, count)?;
        Ok(Known { space: None, slots })
    }

    /// The number of a short text, if its slot has it.
    #[inline(always)]
    pub(crate) fn find(&self, short: Short) -> Option<u32>
        requires { 0 < short.len }
        ensures { IfSome result (λ number. (texts : List (List ℕ)) → AreKnown texts self.now →
            slice_get texts number ≡ Some (bytes_high_first short.len short.bytes)) }
    {
        let slot = self.slots.get(place_of(short))?;
        if slot.bytes == short.bytes && slot.len == short.len {
            return Some(slot.number);
        }
        None
    }

    /// Puts the number of a short text into its slot.
    pub(crate) fn put(&mut self, short: Short, number: u32)
        ensures { (texts : List (List ℕ)) → AreKnown texts self.old →
            slice_get texts number ≡ Some (bytes_high_first short.len short.bytes) →
            AreKnown texts self.new }
    {
        let place = place_of(short);
        if place < self.slots.len() {
            self.slots[place] = Slot {
                bytes: short.bytes,
                len: short.len,
                number,
            };
        }
    }
}

/// So many slots with nothing in them.
fn empty_slots(alloc: Global, count: usize) -> Result<Vec<Slot>, AllocError>
    ensures { IfOk result (λ slots. All (HasNumber []) slots.items) }
{
    let mut slots = Vec::with_capacity(alloc, count)?;
    for _ in 0..count {
        slots.push(Slot {
            bytes: 0,
            len: 0,
            number: 0,
        })?;
    }
    Ok(slots)
}

/// The text of this length at the front, if it is short. `None` also where fewer than sixteen
/// bytes are left, since sixteen are read at once.
#[inline(always)]
pub(crate) fn short_front(text: &[u8], len: usize) -> Option<Short>
    requires { 0 < len }
    ensures some { IfSome result (λ short. 0 < short.len) }
    ensures bytes { IfSome result (λ short.
        bytes_high_first short.len short.bytes ≡ take len text.now) }
{
    if len > 16 {
        return None;
    }
    let front = text.first_chunk::<16>()?;
    let bytes = u128::from_be_bytes(*front) >> (128 - 8 * len as u32);
    Some(Short {
        bytes,
        len: len as u32,
    })
}

/// The place of the slot that a short text may have. Most texts have no byte above the lower eight.
fn place_of(short: Short) -> usize {
    let upper = (short.bytes >> 64) as u64;
    let lower = (short.bytes & u64::MAX as u128) as u64;
    let hash = (upper.wrapping_mul(MULTIPLIER) ^ lower).wrapping_mul(MULTIPLIER);
    (hash >> UNUSED_BITS) as usize
}
