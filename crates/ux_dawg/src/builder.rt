//! Building the automaton, a form at a time: the pending states below what a form shares with the
//! last one are given up to the register, and states are begun for its other characters.

ghost use Rattle.std.specs.Prelude.{◌≡◌, ◌<◌, ◌^◌, ◌↔◌, ◌+◌, [], ◌∷◌, ◌++◌, IfOk, IsTrue, length};
ghost use Rattle.ux_dawg.specs.Forms.{AreSorted, HasRoomFor, MayFollow, form_of, letters_in};
ghost use Rattle.ux_dawg.specs.Automaton.{IsMinimalOf};

use crate::dawg::Dawg;
use crate::pending::{Pending, comes_next, cut, empty_state, grow, shared};
use crate::register::Register;
use crate::state::{Form, State};
use std::alloc::Global;
use std::marker::Model;
use ux_base::Mem;

/// An automaton that is being built. Contracts see it as the list of the forms that were added, in
/// order.
#[derive(Drop)]
pub struct Builder {
    /// The states that no later form can change.
    register: Register,
    /// The states on the way of the last form, but for the deepest.
    pending: Pending,
    /// The state in which the last form ends.
    top: State,
    /// How many characters the forms have together.
    many: u32,
}

impl Model for Builder {
    ghost use Rattle.std.specs.Prelude.{List};
    ghost use Rattle.ux_dawg.specs.declared.state.Form.{Form};
    ghost use Rattle.ux_dawg.specs.Listed.{forms_held, IsBuilt};

    ghost Value = { List Form };

    ghost view = { λ b. forms_held b.register b.pending.above.items b.top };

    ghost invariant = { λ b. IsBuilt b.register b.pending.above.items b.top b.many };
}

impl Builder {
    /// The automaton of no form. Takes no memory.
    pub fn new(alloc: Global) -> Builder
        ensures { result ≡ [] }
    {
        Builder {
            register: Register::new(alloc),
            pending: Pending {
                above: Vec::new(alloc),
                spare: Vec::new(alloc),
            },
            top: empty_state(alloc),
            many: 0,
        }
    }

    /// Whether a form of these characters may be added: it comes after the last one, and the forms
    /// then still have fewer than 2^32 characters together. Looks at each character once at most.
    pub fn may_add(&self, letters: &[char]) -> bool
        ensures { IsTrue result ↔ MayFollow self.now letters.now }
    {
        self.has_room_for(letters) && comes_next(self.pending.above.as_slice(), letters)
    }

    /// Whether the forms still have fewer than 2^32 characters together with a form of these. Takes
    /// one step.
    fn has_room_for(&self, letters: &[char]) -> bool
        ensures { IsTrue result ↔ HasRoomFor self.now letters.now }
    {
        letters.len() <= (u32::MAX - self.many) as usize
    }

    /// The builder with one more form. `may_add` tells what it asks.
    pub fn add(self, letters: &[char], code: u32) -> Mem<Builder>
        requires { MayFollow self letters.now }
        ensures { IfOk result (λ builder. builder ≡ self ++ form_of letters.now code ∷ []) }
    {
        let Builder {
            mut register,
            mut pending,
            top,
            many,
        } = self;
        let alloc = *pending.above.allocator();
        let depth = shared(pending.above.as_slice(), letters);
        let open = cut(&mut register, &mut pending, top, depth)?;
        let deepest = grow(alloc, &register, &mut pending, open, &letters[depth..])?;
        let State { code: _, edges } = deepest;
        Ok(Builder {
            register,
            pending,
            top: State {
                code: Some(code),
                edges,
            },
            many: many + letters.len() as u32,
        })
    }

    /// The minimal automaton of the forms: exactly these, each with its number.
    pub fn finish(self) -> Mem<Dawg>
        ensures { IfOk result (λ automaton. IsMinimalOf self automaton) }
    {
        let Builder {
            mut register,
            mut pending,
            top,
            many: _,
        } = self;
        let open = cut(&mut register, &mut pending, top, 0)?;
        let root = register.keep(open.code, open.edges.as_slice())?;
        Ok(Dawg::of(register.into_states()))
    }
}

/// The minimal automaton of sorted forms: exactly these, each with its number.
///
/// Takes time in the characters of the forms. `are_sorted` and `have_few_letters` tell what it
/// asks.
pub fn build(alloc: Global, forms: &[Form]) -> Mem<Dawg>
    requires sorted { AreSorted [] forms.now }
    requires few { letters_in forms.now < 2 ^ 32 }
    ensures { IfOk result (λ automaton. IsMinimalOf forms.now automaton) }
{
    let mut builder = Builder::new(alloc);
    for form in forms {
        builder = builder.add(form.letters.as_slice(), form.code)?;
    }
    builder.finish()
}
