//! The folds of the adapters whose closure is called on failures, through their sources' own. The closure is called on the failure that the source's fold returns, and so never on what a turn stops with.
ghost use Rattle.fallible_contract.specs.Closures.{IsCallable};
ghost use Rattle.fallible_contract.specs.Ends.{from_back};
ghost use Rattle.fallible_contract.specs.Failing.{failing_step, recovering_contract, recovering_step};
ghost use Rattle.fallible_contract.specs.Folds.{CallableDriving, Driven};

use crate::number::Number;
use crate::traits::FallibleIterator;
use crate::traits::double_ended::DoubleEndedFallibleIterator;
use fallible_contract::failing::{Fail, failed};
use fallible_contract::folds::Turn;
use fallible_contract::passing::{Pass, turn_on_passed};
use std::ops::ControlFlow;

/// The fold from the front of such an adapter: the source's, and what becomes of the failure that it met.
pub fn drive_failing<I: FallibleIterator, P, A: Fail<P, I::Error>, C, R, K: Turn<C, I::Item, R>>(
    it: &mut I,
    p: &mut P,
    adapter: &A,
    state: &mut C,
    turn: &K,
) -> Result<Option<R>, A::Failure>
where
    requires can_next { I.contract.can_next it.old }
    requires finite { I.contract.is_finite it.old }
    requires takes { IsCallable (A.call adapter.now) (A.can_fail adapter.now)
        (I.contract.may_fail it.old) p.old }
    requires callable { CallableDriving (failing_step I.contract.steps (A.call adapter.now))
        (K.turns turn.now) (K.can_turn turn.now) (it.old, p.old) state.old }
    ensures { Driven (failing_step I.contract.steps (A.call adapter.now))
        (K.turns turn.now) (it.old, p.old) state.old result (it.new, p.new) state.new }
{
    failed(it.drive(state, turn), p, adapter)
}

/// The fold from the back of such an adapter: the source's from the back, and what becomes of the failure that it met.
pub fn drive_back_failing<
    I: DoubleEndedFallibleIterator,
    P,
    A: Fail<P, I::Error>,
    C,
    R,
    K: Turn<C, I::Item, R>,
>(it: &mut I, p: &mut P, adapter: &A, state: &mut C, turn: &K) -> Result<Option<R>, A::Failure>
where
    requires can_next { I.ends.can_next it.old }
    requires finite { I.contract.is_finite it.old }
    requires takes { IsCallable (A.call adapter.now) (A.can_fail adapter.now)
        (I.ends.may_fail it.old) p.old }
    requires callable { CallableDriving (failing_step I.ends.steps (A.call adapter.now))
        (K.turns turn.now) (K.can_turn turn.now) (it.old, p.old) state.old }
    ensures { Driven (failing_step I.ends.steps (A.call adapter.now))
        (K.turns turn.now) (it.old, p.old) state.old result (it.new, p.new) state.new }
{
    failed(it.drive_back(state, turn), p, adapter)
}

/// The fold from the front of an adapter by which a failure may become an item, nothing or another failure: the source's fold up to a failure, and the turn on that; and again, if that turn goes on.
///
/// Proof: each further fold of the source has fewer draws to make, by the bound `left`.
pub fn drive_recovering<
    I: FallibleIterator,
    P,
    E,
    A: Pass<P, I::Error, E, Kept = I::Item>,
    C,
    R,
    K: Turn<C, I::Item, R>,
>(it: &mut I, p: &mut P, adapter: &A, left: Number, state: &mut C, turn: &K) -> Result<Option<R>, E>
where
    requires can_next { (recovering_contract I.contract (A.call adapter.now)
        (A.can_pass adapter.now) (A.outcome adapter.now)).can_next (it.old, p.old) }
    requires bounded { (recovering_contract I.contract (A.call adapter.now)
        (A.can_pass adapter.now) (A.outcome adapter.now)).bound (it.old, p.old) left.value }
    requires callable { CallableDriving
        (recovering_step I.contract.steps (A.call adapter.now) (A.outcome adapter.now))
        (K.turns turn.now) (K.can_turn turn.now) (it.old, p.old) state.old }
    ensures { Driven
        (recovering_step I.contract.steps (A.call adapter.now) (A.outcome adapter.now))
        (K.turns turn.now) (it.old, p.old) state.old result (it.new, p.new) state.new }
{
    let mut left = left;
    loop {
        match it.drive(state, turn) {
            Ok(value) => return Ok(value),
            Err(d) => match turn_on_passed(d, p, adapter, state, turn) {
                ControlFlow::Continue(()) => {}
                ControlFlow::Break(answer) => return answer,
            },
        }
        left = left.one_less();
    }
}

/// The fold from the back of an adapter by which a failure may become an item, nothing or another failure.
pub fn drive_back_recovering<
    I: DoubleEndedFallibleIterator,
    P,
    E,
    A: Pass<P, I::Error, E, Kept = I::Item>,
    C,
    R,
    K: Turn<C, I::Item, R>,
>(it: &mut I, p: &mut P, adapter: &A, left: Number, state: &mut C, turn: &K) -> Result<Option<R>, E>
where
    requires can_next { (recovering_contract (from_back I.contract I.ends) (A.call adapter.now)
        (A.can_pass adapter.now) (A.outcome adapter.now)).can_next (it.old, p.old) }
    requires bounded { (recovering_contract (from_back I.contract I.ends) (A.call adapter.now)
        (A.can_pass adapter.now) (A.outcome adapter.now)).bound (it.old, p.old) left.value }
    requires callable { CallableDriving
        (recovering_step I.ends.steps (A.call adapter.now) (A.outcome adapter.now))
        (K.turns turn.now) (K.can_turn turn.now) (it.old, p.old) state.old }
    ensures { Driven
        (recovering_step I.ends.steps (A.call adapter.now) (A.outcome adapter.now))
        (K.turns turn.now) (it.old, p.old) state.old result (it.new, p.new) state.new }
{
    let mut left = left;
    loop {
        match it.drive_back(state, turn) {
            Ok(value) => return Ok(value),
            Err(d) => match turn_on_passed(d, p, adapter, state, turn) {
                ControlFlow::Continue(()) => {}
                ControlFlow::Break(answer) => return answer,
            },
        }
        left = left.one_less();
    }
}
