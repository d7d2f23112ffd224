//! Where states are found by what they are: buckets of items. The item of a state is a link to the
//! next older item of its bucket, with the number of the state and 32 bits of its hash. A state
//! that `register` finds by its target has no item.
//!
//! A look-up compares hashes, and looks at a state itself only where they are equal: so another
//! item of the bucket costs one load. An index that is widened has at least twice as many buckets
//! as items, so most buckets have one item at most. When there are half as many items as buckets,
//! twice as many buckets are made of the hashes alone, beside those of before. An item costs 12
//! bytes of its link and 8 to 16 of buckets, and is put into a bucket three times at most on
//! average. With room for a known number there are 4 to 8 bytes of buckets an item, which is put in
//! once.

ghost use Rattle.std.specs.Prelude.{◌≡◌, ◌↔◌, ◌+◌, ◌<◌, ℕ, IfOk, IsTrue, OnErr, OnOk, get_or, length};
ghost use Rattle.ux_dawg.specs.Building.{bare};
ghost use Rattle.ux_dawg.specs.Flat.{state_of};
ghost use Rattle.ux_dawg.specs.Hash.{hash_of};
ghost use Rattle.ux_dawg.specs.Indexed.{bucket_in, buckets, held, AreIndexed, AreLinked, HasSameItems, Holds, IsAdded, IsBegun, IsEmpty, IsPlace, IsSameIndex, IsStored, IsWidened};

use crate::state::Edge;
use crate::states::States;
use std::alloc::Global;
use ux_base::{Mem, NoMemory};

/// How many buckets there are at least, where there are any.
const FEWEST: usize = 16;

/// How many items have marks: one less than there are marks.
const MOST: usize = 0xffff_ffff;

/// What the index has of a state.
#[derive(Clone, Copy, Debug)]
struct Link {
    /// The mark of the next older item of the bucket.
    older: u32,
    /// The hash of the state.
    hash: u32,
    /// The number of the state.
    number: u32,
}

/// An index of states. A mark is one more than an item, and 0 where there is none.
#[derive(Debug, Drop)]
pub struct Index {
    /// For each bucket the mark of its newest item.
    newest: Vec<u32>,
    /// For each item its link.
    links: Vec<Link>,
}

impl Index {
    /// The index of no state, without a bucket. Takes no memory.
    pub(crate) fn new(alloc: Global) -> Index
        ensures { IsEmpty result }
    {
        Index {
            newest: Vec::new(alloc),
            links: Vec::new(alloc),
        }
    }

    /// The index of no state, with buckets and room for so many.
    pub(crate) fn with_room(alloc: Global, many: usize) -> Mem<Index>
        ensures empty { IfOk result (λ index. IsEmpty index) }
        ensures some { IfOk result (λ index. 0 < buckets index) }
    {
        let rounded = many.checked_next_power_of_two().ok_or(NoMemory)?;
        Ok(Index {
            newest: vec![in alloc; 0; rounded.max(FEWEST)]?,
            links: Vec::with_capacity(alloc, many)?,
        })
    }

    /// Makes twice as many buckets, where there are no more than twice as many as items.
    pub(crate) fn widen(&mut self) -> Mem<()>
        requires { AreLinked (held self.old) self.old }
        ensures widened { IsWidened self.old self.new }
        ensures some { OnOk result (0 < buckets self.new) }
    {
        let many = self.newest.len();
        if self.links.len() < many / 2 {
            return Ok(());
        }
        let alloc = *self.newest.allocator();
        self.newest = vec![in alloc; 0; many.saturating_mul(2).max(FEWEST)]?;
        self.link_all();
        Ok(())
    }

    /// Puts all links into the buckets, which are empty.
    fn link_all(&mut self)
        requires empty { AreLinked 0 self.old }
        requires some { 0 < buckets self.old }
        ensures linked { AreLinked (held self.new) self.new }
        ensures same { HasSameItems self.old self.new }
    {
        for item in 0..self.links.len() {
            self.link(item);
        }
    }

    /// Puts the link of this item into its bucket, where those before it are in theirs.
    fn link(&mut self, item: usize)
        requires linked { AreLinked item self.old }
        requires within { item < held self.old }
        requires some { 0 < buckets self.old }
        ensures linked { AreLinked (item + 1) self.new }
        ensures same { HasSameItems self.old self.new }
    {
        let link = self.links[item];
        let bucket = self.bucket_of(link.hash);
        let older = self.newest[bucket];
        self.links[item] = Link { older, ..link };
        self.newest[bucket] = item as u32 + 1;
    }

    /// Puts a link for the hash and the number last, and gives its item. It is in no bucket yet.
    fn begin(&mut self, hash: u32, number: usize) -> Mem<usize>
        ensures ok { IfOk result (λ item. IsBegun hash number item self.old self.new) }
        ensures err { OnErr result (IsSameIndex self.old self.new) }
    {
        let item = self.links.len();
        if item >= MOST {
            return Err(NoMemory);
        }
        let number = u32::try_from(number).map_err(|_| NoMemory)?;
        self.links.push(Link {
            older: 0,
            hash,
            number,
        })?;
        Ok(item)
    }

    /// Puts the state of this number last, and into the bucket of its hash.
    pub(crate) fn add(&mut self, hash: u32, number: usize) -> Mem<()>
        requires linked { AreLinked (held self.old) self.old }
        requires some { 0 < buckets self.old }
        ensures { OnOk result (IsAdded hash number self.old self.new) }
    {
        let item = self.begin(hash, number)?;
        self.link(item);
        Ok(())
    }

    /// The number of the state of this hash, if the index has it.
    pub(crate) fn place(
        &self,
        states: &States,
        hash: u32,
        code: Option<u32>,
        edges: &[Edge],
    ) -> Option<usize>
        requires indexed { AreIndexed states.now self.now }
        requires hash { hash ≡ hash_of (state_of code edges.now) }
        requires some { 0 < buckets self.now }
        ensures { IsPlace states.now self.now (state_of code edges.now) result }
    {
        let bucket = self.bucket_of(hash);
        let mut mark = self.newest[bucket];
        while mark > 0 {
            let link = self.links[mark as usize - 1];
            let number = link.number as usize;
            if link.hash == hash && is_state(states, number, code, edges) {
                return Some(number);
            }
            mark = link.older;
        }
        None
    }

    /// Puts the state of this hash last, and into its bucket; neither, where memory runs out.
    pub(crate) fn store(
        &mut self,
        states: &mut States,
        hash: u32,
        code: Option<u32>,
        edges: &[Edge],
    ) -> Mem<usize>
        requires indexed { AreIndexed states.old self.old }
        requires within { (n : ℕ) → Holds self.old n → n < length states.old }
        requires hash { hash ≡ hash_of (state_of code edges.now) }
        requires some { 0 < buckets self.old }
        ensures ok { IfOk result (λ i.
            IsStored (state_of code edges.now) i states.old states.new self.old self.new) }
        ensures same { OnErr result (states.new ≡ states.old) }
        ensures err { OnErr result (IsSameIndex self.old self.new) }
    {
        let number = states.len();
        let item = self.begin(hash, number)?;
        match states.push(code, edges) {
            Ok(()) => {
                self.link(item);
                Ok(number)
            }
            Err(error) => {
                self.links.pop();
                Err(error)
            }
        }
    }

    /// The bucket of the hash: of the low bits, since the buckets are a power of two.
    fn bucket_of(&self, hash: u32) -> usize
        requires { 0 < buckets self.now }
        ensures bucket { result ≡ bucket_in (buckets self.now) hash }
        ensures within { result < buckets self.now }
    {
        hash as usize & (self.newest.len() - 1)
    }
}

/// Whether the state of the number has this number of a list and these edges. A number without a
/// state counts as that of a state with neither.
pub(crate) fn is_state(states: &States, number: usize, code: Option<u32>, edges: &[Edge]) -> bool
    ensures { IsTrue result ↔ (get_or states.now number bare ≡ state_of code edges.now) }
{
    states.code(number) == code && states.edges(number) == edges
}
