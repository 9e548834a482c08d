//! The folds of the adapters that let items pass, through their sources' own. The adapter's state stands beside the caller's, and a reference points to each.
ghost use Rattle.std.specs.Prelude.{◌≡◌, ◌+◌, ◌-◌, ◌^◌, ◌<◌, true, Result, Option};
ghost use Rattle.std.specs.Int.{from_bool};
ghost use Rattle.std.specs.declared.convert.Infallible.{Infallible};
ghost use Rattle.fallible_contract.specs.Folding.{FoldingTakes, FoldingTurn};
ghost use Rattle.fallible_contract.specs.Folds.{CallableDriving, Driven, TurnThrough, beside, beside_names};
ghost use Rattle.fallible_contract.specs.Goals.{IsCountTurn};
ghost use Rattle.fallible_contract.specs.Passing.{passing_step};
ghost use Rattle.fallible_core.specs.Filtering.Filter.{DrawingTurn};

use crate::traits::FallibleIterator;
use crate::traits::double_ended::DoubleEndedFallibleIterator;
use fallible_contract::folds::{Beside, Turn, answer_within};
use fallible_contract::passing::{Outcome, Pass, PassTurn};
use std::convert::Infallible;
use std::ops::ControlFlow;

/// The fold from the front of an adapter: what becomes of each item of the source, and the caller's turn on what is kept.
pub fn drive_passing<
    I: FallibleIterator,
    P,
    A: Pass<P, I::Item, I::Error>,
    C,
    R,
    K: Turn<C, A::Kept, R>,
>(it: &mut I, p: &mut P, adapter: &A, state: &mut C, turn: &K) -> Result<Option<R>, I::Error>
where
    requires can_next { I.contract.can_next it.old }
    requires finite { I.contract.is_finite it.old }
    requires callable { CallableDriving I.contract.steps
        (FoldingTurn (A.call adapter.now) (A.outcome adapter.now) (K.turns turn.now))
        (FoldingTakes (A.call adapter.now) (A.outcome adapter.now)
        (A.can_pass adapter.now) (K.can_turn turn.now))
        it.old (state.old, p.old) }
    ensures { Driven (passing_step I.contract.steps (A.call adapter.now) (A.outcome adapter.now))
        (K.turns turn.now) (it.old, p.old) state.old result (it.new, p.new) state.new }
{
    let mut both = Beside { c: state, p };
    let answer = it.drive(&mut both, &PassTurn { adapter, turn });
    answer_within(answer)
}

/// The fold from the back of an adapter: what becomes of each item of the source, and the caller's turn on what is kept.
pub fn drive_back_passing<
    I: DoubleEndedFallibleIterator,
    P,
    A: Pass<P, I::Item, I::Error>,
    C,
    R,
    K: Turn<C, A::Kept, R>,
>(it: &mut I, p: &mut P, adapter: &A, state: &mut C, turn: &K) -> Result<Option<R>, I::Error>
where
    requires can_next { I.ends.can_next it.old }
    requires finite { I.contract.is_finite it.old }
    requires callable { CallableDriving I.ends.steps
        (FoldingTurn (A.call adapter.now) (A.outcome adapter.now) (K.turns turn.now))
        (FoldingTakes (A.call adapter.now) (A.outcome adapter.now)
        (A.can_pass adapter.now) (K.can_turn turn.now))
        it.old (state.old, p.old) }
    ensures { Driven (passing_step I.ends.steps (A.call adapter.now) (A.outcome adapter.now))
        (K.turns turn.now) (it.old, p.old) state.old result (it.new, p.new) state.new }
{
    let mut both = Beside { c: state, p };
    let answer = it.drive_back(&mut both, &PassTurn { adapter, turn });
    answer_within(answer)
}

/// The turn of a draw by a fold of the source: it stops with what becomes of the first item that isn't left out.
#[derive(Drop)]
pub(crate) struct PassDrawTurn<'a, A> {
    pub(crate) adapter: &'a A,
}

impl<'a, P, X, E, A: Pass<P, X, E>> Turn<P, X, Result<Option<A::Kept>, E>> for PassDrawTurn<'a, A> {
    ghost can_turn = { λ k f x. A.can_pass k.adapter.now f x };

    ghost turns = { λ k f x r g. DrawingTurn (A.call k.adapter.now) (A.outcome k.adapter.now)
        f x r g };

    #[inline(always)]
    fn turn(&self, state: &mut P, item: X) -> ControlFlow<Result<Option<A::Kept>, E>, ()> {
        match self.adapter.pass(state, item) {
            Outcome::Kept(y) => ControlFlow::Break(Ok(Some(y))),
            Outcome::LeftOut => ControlFlow::Continue(()),
            Outcome::Failure(e) => ControlFlow::Break(Err(e)),
            Outcome::End => ControlFlow::Break(Ok(None)),
        }
    }
}

/// The fold that counts what an adapter keeps: it adds one for each item that stays.
pub(crate) fn drive_count_passing<I: FallibleIterator, P, A: Pass<P, I::Item, I::Error>>(
    it: &mut I,
    p: &mut P,
    adapter: &A,
    number: &mut usize,
) -> Result<Option<Infallible>, I::Error>
where
    A::Kept: Drop,
    requires can_next { I.contract.can_next it.old }
    requires finite { I.contract.is_finite it.old }
    requires callable { CallableDriving I.contract.steps
        (FoldingTurn (A.call adapter.now) (A.outcome adapter.now) (IsCountTurn {R = Infallible}))
        (FoldingTakes (A.call adapter.now) (A.outcome adapter.now)
        (A.can_pass adapter.now) (λ n _. n < 2 ^ 64 - 1))
        it.old (number.old, p.old) }
    ensures { Driven (passing_step I.contract.steps (A.call adapter.now) (A.outcome adapter.now))
        (IsCountTurn {R = Infallible}) (it.old, p.old) number.old result (it.new, p.new) number.new }
{
    let mut both = Beside { c: number, p };
    let answer = it.drive(&mut both, &PassCountTurn { adapter });
    answer_within(answer)
}

// The turn of that fold: it adds one if the item is kept.
#[derive(Drop)]
struct PassCountTurn<'a, A> {
    adapter: &'a A,
}

impl<'a, 'b, P, X, E, A: Pass<P, X, E>> Turn<Beside<'b, usize, P>, X, Result<Option<Infallible>, E>>
    for PassCountTurn<'a, A>
where
    A::Kept: Drop,
{
    ghost can_turn = { λ k b x.
        FoldingTakes (A.call k.adapter.now) (A.outcome k.adapter.now)
        (A.can_pass k.adapter.now) (λ n _. n < 2 ^ 64 - 1) (beside b) x };

    ghost turns = { λ k b x r d. TurnThrough beside beside_names
        (FoldingTurn (A.call k.adapter.now) (A.outcome k.adapter.now) IsCountTurn)
        b x r d };

    #[inline(always)]
    fn turn(
        &self,
        state: &mut Beside<'b, usize, P>,
        item: X,
    ) -> ControlFlow<Result<Option<Infallible>, E>, ()> {
        let kept = match self.adapter.pass(state.p, item) {
            Outcome::Kept(_) => true,
            Outcome::LeftOut => false,
            Outcome::Failure(e) => return ControlFlow::Break(Err(e)),
            Outcome::End => return ControlFlow::Break(Ok(None)),
        };
        count_if(state.c, kept);
        ControlFlow::Continue(())
    }
}

// Adds one if the item is kept. The sum has no branch.
#[inline(always)]
fn count_if(number: &mut usize, kept: bool)
where
    requires { kept ≡ true → number.old < 2 ^ 64 - 1 }
    ensures { number.new ≡ number.old + from_bool kept }
{
    *number += usize::from(kept);
}
