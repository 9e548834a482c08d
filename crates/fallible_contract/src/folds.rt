//! Folds, whose state a reference points to: their turns.
ghost use Rattle.std.specs.Prelude.{◌≡◌, ◌+◌, ◌-◌, ◌^◌, ◌<◌, ⊤, Result, Option, Some};
ghost use Rattle.std.specs.Borrow.{MutBor};
ghost use Rattle.fallible_contract.specs.Folds.{IsFoldTurn, IsFoldTurnInSlot, takes_in_slot, IsNthTurn, within, call_with, takes_with, ReduceCall, reduce_takes};
ghost use Rattle.std.specs.declared.ops.ControlFlow.{ControlFlow};
ghost use Rattle.std.specs.declared.ops.ControlFlow.TheVariants.{Continue, Break};

use std::convert::Infallible;
use std::ops::ControlFlow;

/// One turn of a fold: on the fold's state and an item it goes on, or stops the fold with a result. Every closure of this shape is one.
pub trait Turn<C, A, R> {
    // Holds of a state and an item on which the turn may be taken.
    ghost can_turn: { Self → C → A → Type 0 };

    // Holds of those, of what the turn may return, and of the state that it leaves.
    ghost turns: { Self → C → A → ControlFlow R (Unit {0}) → C → Type 0 };

    /// Takes the turn: `Continue` if the fold goes on, or `Break` with what it stops with.
    fn turn(&self, state: &mut C, item: A) -> ControlFlow<R, ()>
        requires { can_turn self.now state.old item }
        ensures { turns self.now state.old item result state.new };
}

impl<C, A, R, F: Fn(&mut C, A) -> ControlFlow<R, ()>> Turn<C, A, R> for F {
    ghost can_turn = { λ f c x. (lent : MutBor C) → lent.now ≡ c → F.pre f lent x };

    ghost turns = { λ f c x r d. (lent : MutBor C) × (back : MutBor C) × (lent.now ≡ c)
        × F.post f lent x r back × (back.now ≡ d) };

    #[inline(always)]
    fn turn(&self, state: &mut C, item: A) -> ControlFlow<R, ()> {
        self(state, item)
    }
}

/// The state of an adapter's fold through its source's own: the caller's, and the adapter's.
#[derive(Drop)]
pub struct Beside<'a, C, P> {
    /// the caller's state
    pub c: &'a mut C,
    /// the adapter's state
    pub p: &'a mut P,
}

/// What a fold of the source returns whose turn stops with a result: that result, or the source's `Ok(None)` or failure.
#[inline(always)]
pub fn answer_within<R, E>(answer: Result<Option<Result<Option<R>, E>>, E>) -> Result<Option<R>, E>
    ensures { result ≡ within answer }
{
    match answer {
        Ok(Some(stop)) => stop,
        Ok(None) => Ok(None),
        Err(e) => Err(e),
    }
}

/// The turn of `count`, whose state is the number of items.
#[derive(Drop)]
pub struct CountTurn;

impl<A: Drop> Turn<usize, A, Infallible> for CountTurn {
    ghost can_turn = { λ _ n _. n < 2 ^ 64 - 1 };

    ghost turns = { λ _ n _ r k. (r ≡ Continue tt) × (k ≡ n + 1) };

    /// Adds one.
    #[inline(always)]
    fn turn(&self, state: &mut usize, _item: A) -> ControlFlow<Infallible, ()> {
        *state += 1;
        ControlFlow::Continue(())
    }
}

/// The turn of `last`, whose state is the item that came last.
#[derive(Drop)]
pub struct LastTurn;

impl<A: Drop> Turn<Option<A>, A, Infallible> for LastTurn {
    ghost can_turn = { λ _ _ _. ⊤ };

    ghost turns = { λ _ _ x r d. (r ≡ Continue tt) × (d ≡ Some x) };

    /// Replaces the item by the next one.
    #[inline(always)]
    fn turn(&self, state: &mut Option<A>, item: A) -> ControlFlow<Infallible, ()> {
        *state = Some(item);
        ControlFlow::Continue(())
    }
}

/// The turn of `try_fold`, whose state is the value so far, in a slot that is empty only during a call, and the closure.
#[derive(Drop)]
pub struct TryFoldTurn;

impl<A, B: Drop, E, F: FnMut(B, A) -> Result<B, E>> Turn<(Option<B>, F), A, E> for TryFoldTurn {
    ghost can_turn = { λ _ p x. takes_in_slot (takes_with F.FnMut) p x };

    ghost turns = { λ _ p x r q. IsFoldTurnInSlot (call_with F.FnMut) p x r q };

    /// Calls the closure on the value so far and the item.
    #[inline(always)]
    fn turn(&self, state: &mut (Option<B>, F), item: A) -> ControlFlow<E, ()> {
        match state.0.take() {
            Some(value) => match (state.1)(value, item) {
                Ok(value) => {
                    state.0 = Some(value);
                    ControlFlow::Continue(())
                }
                Err(e) => ControlFlow::Break(e),
            },
            None => unreachable!(),
        }
    }
}

/// The turn of `reduce`, whose state is the value so far, if an item came, and the closure.
#[derive(Drop)]
pub struct ReduceTurn;

impl<A: Drop, E, F: FnMut(A, A) -> Result<A, E>> Turn<(Option<A>, F), A, E> for ReduceTurn {
    ghost can_turn = { λ _ p x. reduce_takes (takes_with F.FnMut) p.1 p.0 x };

    ghost turns = { λ _ p x r q. IsFoldTurn (ReduceCall (call_with F.FnMut)) p x r q };

    /// Takes the first item without a call; then it calls the closure on the value so far and the item.
    #[inline(always)]
    fn turn(&self, state: &mut (Option<A>, F), item: A) -> ControlFlow<E, ()> {
        let value = match state.0.take() {
            Some(value) => match (state.1)(value, item) {
                Ok(value) => value,
                Err(e) => return ControlFlow::Break(e),
            },
            None => item,
        };
        state.0 = Some(value);
        ControlFlow::Continue(())
    }
}

/// The turn of an `nth` that is one fold, whose state is how many items are still to be skipped. It stops with the item that comes when none are.
#[derive(Drop)]
pub struct NthTurn;

impl<A: Drop> Turn<usize, A, A> for NthTurn {
    ghost can_turn = { λ _ _ _. ⊤ };

    ghost turns = { λ _ n x r k. IsNthTurn n x r k };

    /// Subtracts one, or stops with the item.
    #[inline(always)]
    fn turn(&self, state: &mut usize, item: A) -> ControlFlow<A, ()> {
        if *state == 0 {
            ControlFlow::Break(item)
        } else {
            *state -= 1;
            ControlFlow::Continue(())
        }
    }
}

/// The turn of a draw that is a fold: it stops with the first item.
#[derive(Drop)]
pub struct FirstTurn;

impl<A> Turn<(), A, A> for FirstTurn {
    ghost can_turn = { λ _ _ _. ⊤ };

    ghost turns = { λ _ _ x r _. r ≡ Break x };

    /// Stops with the item.
    #[inline(always)]
    fn turn(&self, _state: &mut (), item: A) -> ControlFlow<A, ()> {
        ControlFlow::Break(item)
    }
}
