//! The states on the way of the last form, which later forms may still go through: how they are
//! begun, and how they are given up to the register.

ghost use Rattle.std.specs.Prelude.{◌≡◌, ℕ, ◌<◌, ◌+◌, ◌^◌, ◌≤◌, ◌↔◌, Some, IfOk, IsTrue, Contains, length, slice_get, nat_eq, take_while, zip, vec_len};
ghost use Rattle.std.specs.Cmp.Lexicographic.{slice_cmp};
ghost use Rattle.std.specs.Ordering.{nat_cmp};
ghost use Rattle.std.specs.declared.cmp.Ordering.TheVariants.{Less};
ghost use Rattle.ux_dawg.specs.declared.state.Edge.{Edge};
ghost use Rattle.ux_dawg.specs.Building.{letters, IsSound, IsClosed, IsCut, IsGrown, IsShared, IsReady, bare};
ghost use Rattle.ux_dawg.specs.Paths.{AreStates};

use crate::items::Items;
use crate::register::Register;
use crate::state::{Edge, State};
use std::alloc::Global;
use ux_base::Mem;

/// A pending state, and the character of the edge that leads from it to the next one.
#[derive(Debug, Drop)]
pub struct Frame {
    /// The state without its last edge.
    pub state: State,
    /// The character of its last edge.
    pub letter: char,
}

/// The pending states above the deepest one.
#[derive(Debug, Drop)]
pub struct Pending {
    /// These states, from the root down.
    pub above: Vec<Frame>,
    /// Lists of edges that finished states left, for states that are begun: so a state takes no
    /// list from the allocator, unless the form is longer than all before it.
    pub spare: Vec<Items<Edge>>,
}

/// Whether the word comes after the way to the deepest state.
pub(crate) fn comes_next(above: &[Frame], word: &[char]) -> bool
    ensures { IsTrue result ↔ (slice_cmp nat_cmp (letters above.now) word.now ≡ Less) }
{
    let same = count_same(above, word);
    let Some(letter) = word.get(same) else {
        return false;
    };
    match above.get(same) {
        Some(frame) => frame.letter < *letter,
        None => true,
    }
}

/// How many letters the way to the deepest state shares with a word that comes after it.
pub(crate) fn shared(above: &[Frame], word: &[char]) -> usize
    requires { slice_cmp nat_cmp (letters above.now) word.now ≡ Less }
    ensures { IsShared (letters above.now) word.now result }
{
    count_same(above, word)
}

/// How many letters from the front on are the same.
fn count_same(above: &[Frame], word: &[char]) -> usize
    ensures { result ≡ length (take_while (λ p. nat_eq p.0.letter p.1) (zip above.now word.now)) }
{
    above
        .iter()
        .zip(word.iter())
        .take_while(|(frame, letter)| frame.letter == **letter)
        .count()
}

/// Finishes the states that are deeper than this.
pub(crate) fn cut(
    register: &mut Register,
    pending: &mut Pending,
    mut top: State,
    depth: usize,
) -> Mem<State>
    requires ready { IsReady register.old pending.old.above.items top }
    requires most { depth ≤ vec_len pending.old.above }
    requires few { length register.old + vec_len pending.old.above < 2 ^ 32 }
    ensures { IfOk result (λ state. IsCut register.old pending.old.above.items top
        register.new pending.new.above.items state depth) }
{
    while pending.above.len() > depth {
        top = close(register, pending, top)?;
    }
    Ok(top)
}

/// Finishes the deepest state, and gives the one above it.
fn close(register: &mut Register, pending: &mut Pending, top: State) -> Mem<State>
    requires some { 0 < vec_len pending.old.above }
    requires few { length register.old < 2 ^ 32 }
    requires fit { AreStates register.old }
    ensures { IfOk result (λ state. IsClosed register.old pending.old.above.items top
        register.new pending.new.above.items state) }
{
    let Some(frame) = pending.above.pop() else {
        unreachable!()
    };
    let Frame { mut state, letter } = frame;
    let State { code, edges } = top;
    let number = register.keep(code, edges.as_slice())?;
    let target = number as u32;
    pending.spare.push(edges)?;
    state.edges.push(Edge { letter, target })?;
    Ok(state)
}

/// Begins a state for each letter of the word.
pub(crate) fn grow(
    alloc: Global,
    register: &Register,
    pending: &mut Pending,
    mut top: State,
    word: &[char],
) -> Mem<State>
    requires sound { IsSound register.now pending.old.above.items top }
    requires under { (a : ℕ) (e : Edge) → slice_get word.now 0 ≡ Some a →
        Contains top.edges e → e.letter < a }
    ensures { IfOk result (λ state. IsGrown register.now pending.old.above.items top word.now
        pending.new.above.items state) }
{
    for letter in word {
        pending.above.push(Frame {
            state: top,
            letter: *letter,
        })?;
        top = begin_state(alloc, &mut pending.spare);
    }
    Ok(top)
}

/// Begins a state, with a list that is to spare, if there is one.
fn begin_state(alloc: Global, spare: &mut Vec<Items<Edge>>) -> State
    ensures { result ≡ bare }
{
    let Some(mut edges) = spare.pop() else {
        return empty_state(alloc);
    };
    edges.clear();
    State { code: None, edges }
}

/// A state in which no form ends, and from which nothing leads. Takes no memory.
pub(crate) fn empty_state(alloc: Global) -> State
    ensures { result ≡ bare }
{
    State {
        code: None,
        edges: Items::empty(alloc),
    }
}
