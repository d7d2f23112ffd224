//! What a fold is: what is made of the events of a derivation, one by one.

ghost use Rattle.std.specs.Prelude.{◌≡◌, ℕ, IfOk, OnOk, Option, Some};
ghost use Rattle.std.proofs.Common.{sym, ◌∙◌};
ghost use Rattle.ux_outputs.specs.declared.event.Event.{Event};
ghost use Rattle.ux_folds.specs.Folding.{Grows, event_of};

use ux_base::Mem;

/// An event whose text is lent.
#[derive(Clone, Copy)]
pub enum LentEvent<'t> {
    /// The tokens from one position to another are taken.
    Take {
        /// The position before the first.
        from: usize,
        /// The position after the last.
        to: usize,
    },
    /// A text is put out.
    Put(&'t str),
    /// The value of a variable is put out, or it is tested.
    Value(&'t str),
    /// A variable begins.
    Begin(&'t str),
    /// A variable ends.
    End(&'t str),
    /// What stands to the left is no part of the hit.
    Cut,
}

/// What is made of events, one by one. A state is a number, and equal numbers are one state: two
/// derivations that come to the same state go on as one.
pub trait Fold {
    /// What a state stands for.
    ghost Meant: { Type 0 };

    ghost means: { Self → ℕ → Meant → Type 0 };

    /// What becomes of a state by one more event.
    ghost next: { Self → ℕ → Event → Option ℕ → Type 0 };

    /// The state after one more event. None where the derivation is dropped.
    fn add(&mut self, state: usize, event: LentEvent<'_>) -> Mem<Option<usize>>
        requires { (meant : Meant) × means self.old state meant }
        ensures grows { OnOk result (Grows (next self.old) (next self.new)
            (means self.old) (means self.new)) }
        ensures next { IfOk result (next self.new state (event_of event.entry)) };

    /// An event has one result.
    ghost one: { (f : Self) (s : ℕ) (e : Event) (r t : Option ℕ) →
        next f s e r → next f s e t → r ≡ t };

    /// What becomes of a state stands for something.
    ghost lands: { (f : Self) (s : ℕ) (e : Event) (u : ℕ) → next f s e (Some u) →
        (meant : Meant) × means f u meant };
}

/// Nothing is made of events: 0 is the one state.
#[derive(Drop)]
pub struct NoFold;

impl Fold for NoFold {
    ghost Meant = { Unit {0} };

    ghost means = { λ fold state meant. Unit {0} };

    ghost next = { λ fold state event result. result ≡ Some 0 };

    fn add(&mut self, state: usize, event: LentEvent<'_>) -> Mem<Option<usize>> {
        Ok(Some(0))
    }

    ghost one = { λ f s e r t h k. h ∙ sym k };

    ghost lands = { λ f s e u h. (tt, tt) };
}
