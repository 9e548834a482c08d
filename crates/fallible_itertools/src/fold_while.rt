//! Folds that may stop early.
ghost use Rattle.std.specs.Prelude.{◌≡◌, IsSome, Ok, None, Result};
ghost use Rattle.fallible_iterator.specs.Folds.{IsFoldTurnInSlot, takes_in_slot, call_with, takes_with};
ghost use Rattle.fallible_itertools.specs.FoldWhile.{WhileCall, StopsWith, while_answer, value_of, is_done_at};

use fallible_iterator::Turn;
use std::ops::ControlFlow;

/// A value so far, and whether its fold goes on.
#[derive(Clone, Copy, Debug, Drop, PartialEq, Eq)]
pub enum FoldWhile<B> {
    /// It goes on with this value, or the iterator returned `Ok(None)`.
    Continue(B),
    /// It is done, with this value.
    Done(B),
}

impl<B> FoldWhile<B> {
    /// Returns the value, of either variant.
    pub fn into_inner(self) -> B
        ensures { result ≡ value_of self }
    {
        match self {
            FoldWhile::Continue(value) => value,
            FoldWhile::Done(value) => value,
        }
    }

    /// Returns whether it is `Done`.
    pub fn is_done(&self) -> bool
        ensures { result ≡ is_done_at self.now }
    {
        matches!(self, FoldWhile::Done(_))
    }
}

/// The turn of `fold_while`, whose state is the value so far, in a slot that is empty only during a call, and the closure.
#[derive(Drop)]
pub struct FoldWhileTurn;

impl<A, B: Drop, E, F: FnMut(B, A) -> Result<FoldWhile<B>, E>> Turn<(Option<B>, F), A, Result<B, E>>
    for FoldWhileTurn {
    ghost can_turn = { λ _ p x. takes_in_slot (takes_with F.FnMut) p x };

    ghost turns = { λ _ p x r q. IsFoldTurnInSlot (WhileCall (call_with F.FnMut)) p x r q };

    /// Calls the closure on the value so far and the item.
    #[inline(always)]
    fn turn(&self, state: &mut (Option<B>, F), item: A) -> ControlFlow<Result<B, E>, ()> {
        match state.0.take() {
            Some(value) => match (state.1)(value, item) {
                Ok(FoldWhile::Continue(value)) => {
                    state.0 = Some(value);
                    ControlFlow::Continue(())
                }
                Ok(FoldWhile::Done(value)) => ControlFlow::Break(Ok(value)),
                Err(e) => ControlFlow::Break(Err(e)),
            },
            None => unreachable!(),
        }
    }
}

/// What `fold_while` returns, from what its fold returned and the value that it left: that value at `Ok(None)`, what the fold stopped with, or the source's failure.
pub fn while_or_stop<B: Drop, E>(
    answer: Result<Option<Result<B, E>>, E>,
    value: Option<B>,
) -> Result<FoldWhile<B>, E>
    requires { answer ≡ Ok None → IsSome value }
    ensures { (stop : Result B (Result B E)) × StopsWith answer value stop
        × (result ≡ while_answer stop) }
{
    match answer {
        Ok(None) => match value {
            Some(value) => Ok(FoldWhile::Continue(value)),
            None => unreachable!(),
        },
        Ok(Some(Ok(value))) => Ok(FoldWhile::Done(value)),
        Ok(Some(Err(e))) => Err(e),
        Err(e) => Err(e),
    }
}
