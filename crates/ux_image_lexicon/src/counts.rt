//! How many entries a dictionary has, of all forms and of each.
//!
//! Two codes of a list may make one entry of some form, as `cats,cat.N` is made by taking the `s`
//! off and by writing the lemma anew. The forms of lists where that may be are counted one by one when
//! a dictionary is read, and all others by their codes, by the `sums` of states.

ghost use Rattle.std.specs.Prelude.{◌≡◌, ◌+◌, ◌<◌, [], IfOk, IsTrue, OnOk, length, min};
ghost use Rattle.std.specs.Str.{encode_utf8_all};
ghost use Rattle.ux_image_lists.specs.Sizes.{MOST};
ghost use Rattle.ux_image_lexicon.specs.Counting.{different_by, told_of, AreApart, AreCounts, AreNone, Enters, IsApart, Notes, Puts};
ghost use Rattle.ux_image_lexicon.specs.Summing.{AreSums, Visits};

use crate::apart::flag_at;
use crate::coded::Coded;
use crate::codes::{ReadCode, ReadList};
use crate::entries::{codes_at, push_codes};
use crate::sums::Sums;
use crate::walk::Walk;
use indexmap::IndexMap;
use std::alloc::Global;
use ux_base::Mem;
use ux_dict::different;
use ux_image_content::text_of;

/// How many entries there are.
#[derive(Drop)]
pub(crate) struct Counts {
    /// Those of all forms.
    pub(crate) total: usize,
    /// Those of each form that has fewer entries than codes.
    pub(crate) fewer: IndexMap<String, usize>,
}

/// How many entries the automaton and its lists tell. Takes a step for each code of a list, each state
/// and each edge, and goes along those beginnings of forms alone that lead to a list with two codes
/// that differ in the lemma alone: along each once, with a step for each letter that comes next. Of the
/// forms of such a list it makes the entries, one form at a time. Where there is no such list, no form
/// is gone to.
pub(crate) fn count(alloc: Global, coded: &Coded) -> Mem<Counts>
    ensures { IfOk result (AreCounts coded.now) }
{
    let mut counts = Counts {
        total: 0,
        fewer: IndexMap::new(alloc),
    };
    let mut walk = Walk::new(alloc);
    let sums = Sums::of(alloc, coded)?;
    go_through(alloc, coded, &sums, &mut walk, &mut counts)?;
    Ok(counts)
}

/// Goes through the states, and counts the entries of all forms.
fn go_through(
    alloc: Global,
    coded: &Coded,
    sums: &Sums,
    walk: &mut Walk,
    counts: &mut Counts,
) -> Mem<()>
    requires sums { AreSums coded.now sums.now }
    requires letters { walk.old.letters.items ≡ [] }
    requires branches { walk.old.branches.items ≡ [] }
    requires counts { AreNone counts.old }
    ensures { OnOk result (AreCounts coded.now counts.new) }
{
    let root = coded.states().len() - 1;
    visit(alloc, coded, sums, root, walk, counts)?;
    while let Some(branch) = walk.pop() {
        walk.go_to(branch)?;
        visit(alloc, coded, sums, branch.state, walk, counts)?;
    }
    Ok(())
}

/// Counts the entries of the forms behind the state at once, where each of their codes makes one.
/// Else enters the state.
fn visit(
    alloc: Global,
    coded: &Coded,
    sums: &Sums,
    state: usize,
    walk: &mut Walk,
    counts: &mut Counts,
) -> Mem<()>
    requires sums { AreSums coded.now sums.now }
    requires within { state < length coded.now.states }
    ensures { OnOk result (Visits coded.now state walk.old walk.new counts.old counts.new) }
{
    let sum = sums.states[state];
    if sum.apart {
        counts.add(sum.codes);
        return Ok(());
    }
    enter(alloc, coded, &sums.lists, state, walk, counts)
}

/// Counts the entries of the form that ends in the state, if one does, and leaves the states behind
/// it for later.
fn enter(
    alloc: Global,
    coded: &Coded,
    apart: &[bool],
    state: usize,
    walk: &mut Walk,
    counts: &mut Counts,
) -> Mem<()>
    requires apart { AreApart coded.now.lists apart.now }
    requires within { state < length coded.now.states }
    ensures { OnOk result (Enters coded.now state walk.old walk.new counts.old counts.new) }
{
    let code = coded.states().code(state);
    counts.note(alloc, coded.lists(), apart, walk.letters(), code)?;
    walk.branch(coded.states().edges(state))
}

impl Counts {
    /// The number of entries of all forms.
    pub(crate) fn total(&self) -> usize
        ensures { result ≡ self.now.total }
    {
        self.total
    }

    /// The number of entries of the form, which has so many codes.
    pub(crate) fn of(&self, form: &str, codes: usize) -> usize
        ensures { result ≡ told_of self.now form.now codes }
    {
        match self.fewer.get(form) {
            Some(count) => *count,
            None => codes,
        }
    }

    /// Counts so many entries more, and keeps nothing of their forms.
    fn add(&mut self, made: usize)
        ensures total { self.new.total ≡ min (self.old.total + made) MOST }
        ensures fewer { self.new.fewer ≡ self.old.fewer }
    {
        // The entries of an image are far fewer than a machine word counts.
        self.total = self.total.saturating_add(made);
    }

    /// Counts the entries of the form of these letters, if it has a list.
    fn note(
        &mut self,
        alloc: Global,
        lists: &[ReadList],
        apart: &[bool],
        letters: &[char],
        number: Option<u32>,
    ) -> Mem<()>
        requires { AreApart lists.now apart.now }
        ensures { OnOk result (Notes lists.now letters.now number self.old self.new) }
    {
        if let Some(number) = number {
            let apart = flag_at(apart, number);
            self.note_form(alloc, letters, codes_at(lists, number), apart)?;
        }
        Ok(())
    }

    /// Counts the entries that the codes make of the form of these letters. `apart` says that they
    /// are known to make as many of any form.
    fn note_form(
        &mut self,
        alloc: Global,
        letters: &[char],
        codes: &[ReadCode],
        apart: bool,
    ) -> Mem<()>
        requires { IsTrue apart → IsApart codes.now }
        ensures { OnOk result (Puts (encode_utf8_all letters.now)
            (different_by (encode_utf8_all letters.now) codes.now) (length codes.now) self.old
            self.new) }
    {
        let made = count_different(alloc, letters, codes, apart)?;
        self.put(alloc, letters, made, codes.len())
    }

    /// Counts the entries of the form of these letters, of which so many codes make so many.
    fn put(&mut self, alloc: Global, letters: &[char], made: usize, codes: usize) -> Mem<()>
        ensures { OnOk result
            (Puts (encode_utf8_all letters.now) made codes self.old self.new) }
    {
        self.add(made);
        if made != codes {
            self.fewer.insert(text_of(alloc, letters)?, made)?;
        }
        Ok(())
    }
}

/// How many different entries the codes make of the form of these letters. Makes them, where it isn't
/// known that the codes make as many of any form.
fn count_different(alloc: Global, letters: &[char], codes: &[ReadCode], apart: bool) -> Mem<usize>
    requires { IsTrue apart → IsApart codes.now }
    ensures { IfOk result (λ made. made ≡ different_by (encode_utf8_all letters.now) codes.now) }
{
    if apart {
        return Ok(codes.len());
    }
    let form = text_of(alloc, letters)?;
    let mut entries = Vec::new(alloc);
    push_codes(alloc, form.as_str(), codes, &mut entries)?;
    Ok(different(alloc, entries)?.len())
}
