//! What adapters make of the items that they let pass, and the turn of their folds.
ghost use Rattle.std.specs.Prelude.{Option, Result};
ghost use Rattle.fallible_contract.specs.Folding.{FoldingTakes, FoldingTurn};
ghost use Rattle.fallible_contract.specs.Folds.{TurnThrough, beside, beside_names};
ghost use Rattle.fallible_contract.specs.Passing.{ItemPassed, PassAnswer, IfItem, LeavesNoneOut};
ghost use Rattle.fallible_contract.specs.declared.passing.Outcome.{Outcome};

use crate::folds::{Beside, Turn};
use std::ops::ControlFlow;

/// What becomes of one item.
#[derive(Drop)]
pub enum Outcome<B, E> {
    /// an item in its place
    Kept(B),
    /// nothing
    LeftOut,
    /// a failure in its place
    Failure(E),
    /// an `Ok(None)` in its place
    End,
}

/// What an adapter makes of one item of its source, with the state that it keeps from item to item: its closure, or a count.
pub trait Pass<P, X, E> {
    /// What the adapter yields.
    type Kept;

    /// What the closure returns for an item.
    type Answer;

    // Holds of a state and an item on which the closure may be called.
    ghost can_pass: { Self → P → X → Type 0 };

    // Holds of those, of what the closure may return, and of the state that it leaves.
    ghost call: { Self → P → X → Self.Answer → P → Type 0 };

    // What becomes of an item by the closure's result.
    ghost outcome: { Self → X → Self.Answer → Outcome Self.Kept E };

    /// Calls the closure once on the item.
    fn pass(&self, state: &mut P, item: X) -> Outcome<Self::Kept, E>
        requires { can_pass self.now state.old item }
        ensures { ItemPassed (call self.now) (outcome self.now) state.old item result state.new };
}

/// What becomes of one item of the source, or of one failure where those are passed, and the caller's turn on what is kept: whether the fold goes on, or what it returns.
#[inline(always)]
pub fn turn_on_passed<P, X, E, A: Pass<P, X, E>, C, R, K: Turn<C, A::Kept, R>>(
    item: X,
    p: &mut P,
    adapter: &A,
    state: &mut C,
    turn: &K,
) -> ControlFlow<Result<Option<R>, E>, ()>
    requires { FoldingTakes (A.call adapter.now) (A.outcome adapter.now) (A.can_pass adapter.now)
        (K.can_turn turn.now) (state.old, p.old) item }
    ensures { FoldingTurn (A.call adapter.now) (A.outcome adapter.now) (K.turns turn.now)
        (state.old, p.old) item result (state.new, p.new) }
{
    match adapter.pass(p, item) {
        Outcome::Kept(y) => match turn.turn(state, y) {
            ControlFlow::Continue(()) => ControlFlow::Continue(()),
            ControlFlow::Break(stop) => ControlFlow::Break(Ok(Some(stop))),
        },
        Outcome::LeftOut => ControlFlow::Continue(()),
        Outcome::Failure(e) => ControlFlow::Break(Err(e)),
        Outcome::End => ControlFlow::Break(Ok(None)),
    }
}

/// The turn of an adapter's fold through its source's own: what becomes of the item, and the caller's turn on what is kept.
#[derive(Drop)]
pub struct PassTurn<'a, A, K> {
    /// the adapter
    pub adapter: &'a A,
    /// the caller's turn
    pub turn: &'a K,
}

impl<'a, 'b, P, X, E, C, R, A: Pass<P, X, E>, K: Turn<C, A::Kept, R>> Turn<
    Beside<'b, C, P>,
    X,
    Result<Option<R>, E>,
> for PassTurn<'a, A, K> {
    ghost can_turn = { λ k b x.
        FoldingTakes (A.call k.adapter.now) (A.outcome k.adapter.now)
        (A.can_pass k.adapter.now) (K.can_turn k.turn.now) (beside b) x };

    ghost turns = { λ k b x r d. TurnThrough beside beside_names
        (FoldingTurn (A.call k.adapter.now) (A.outcome k.adapter.now) (K.turns k.turn.now))
        b x r d };

    /// Calls the closure once, and takes the caller's turn if the item is kept.
    #[inline(always)]
    fn turn(&self, state: &mut Beside<'b, C, P>, item: X) -> ControlFlow<Result<Option<R>, E>, ()> {
        turn_on_passed(item, state.p, self.adapter, state.c, self.turn)
    }
}

/// What an adapter that leaves nothing out makes of one answer of its source: the closure is called if that is an item.
pub fn passed<P, X, E, A: Pass<P, X, E>>(
    drawn: Result<Option<X>, E>,
    state: &mut P,
    adapter: &A,
) -> Result<Option<A::Kept>, E>
where
    requires takes { IfItem (A.can_pass adapter.now state.old) drawn }
    requires answers { LeavesNoneOut (A.outcome adapter.now) }
    ensures { PassAnswer (A.call adapter.now) (A.outcome adapter.now) state.old drawn result
        state.new }
{
    match drawn {
        Ok(Some(x)) => match adapter.pass(state, x) {
            Outcome::Kept(y) => Ok(Some(y)),
            Outcome::LeftOut => unreachable!(),
            Outcome::Failure(e) => Err(e),
            Outcome::End => Ok(None),
        },
        Ok(None) => Ok(None),
        Err(e) => Err(e),
    }
}
