//! Whether items equal one item, and comparisons of two iterators by a closure on two items.
ghost use Rattle.std.specs.Prelude.{◌≡◌, ⊤, ◌⊎◌, Option};
ghost use Rattle.fallible_iterator.specs.Folds.{call_with, goes_on, takes_with};
ghost use Rattle.fallible_itertools_adapters.specs.Staging.{calls_nothing};
ghost use Rattle.fallible_itertools.specs.Equal.{CallableInRounds, CompareByDraws, IsCmpTurn, IsEqTurn, equal_flow, first_or_both, wanted_flow};
ghost use Rattle.fallible_itertools.specs.Stepping.{StepTurns, at_once, whether_stopped};

use fallible_iterator::extending::number_of_either;
use fallible_iterator::{FallibleIterator, Turn};
use std::cmp::Ordering;
use std::ops::ControlFlow;

/// The turn of `contains`, which keeps nothing: it stops at the first item that equals the wanted one.
#[derive(Drop)]
pub struct ContainsTurn<'a, A> {
    /// the wanted item
    pub wanted: &'a A,
}

impl<'a, A: PartialEq + Drop> Turn<((), ()), A, ()> for ContainsTurn<'a, A> {
    ghost can_turn = { λ _ _ _. ⊤ };

    ghost turns = { λ k c x r d. StepTurns calls_nothing (at_once (wanted_flow A.eq k.wanted.now)) c x r d };

    /// Compares the item once.
    #[inline(always)]
    fn turn(&self, _state: &mut ((), ()), item: A) -> ControlFlow<(), ()> {
        if item == *self.wanted {
            ControlFlow::Break(())
        } else {
            ControlFlow::Continue(())
        }
    }
}

/// The turn of `all_equal` and `all_equal_value`, whose state is the first item, if one came, beside nothing: it stops with an item that the first one doesn't equal.
#[derive(Drop)]
pub struct EqualTurn;

impl<A: PartialEq + Drop> Turn<(Option<A>, ()), A, A> for EqualTurn {
    ghost can_turn = { λ _ _ _. ⊤ };

    ghost turns = { λ _ c x r d. StepTurns calls_nothing (at_once (equal_flow A.eq)) c x r d };

    /// Keeps the first item, and compares each later one with it.
    #[inline(always)]
    fn turn(&self, state: &mut (Option<A>, ()), item: A) -> ControlFlow<A, ()> {
        if let Some(first) = &state.0 {
            if *first == item {
                ControlFlow::Continue(())
            } else {
                ControlFlow::Break(item)
            }
        } else {
            state.0 = Some(item);
            ControlFlow::Continue(())
        }
    }
}

/// Returns whether the fold stopped, or whether it didn't.
pub fn whether_stopped<R: Drop, E>(answer: Result<Option<R>, E>, stopped: bool) -> Result<bool, E>
    ensures { result ≡ whether_stopped stopped answer }
{
    match answer {
        Ok(None) => Ok(!stopped),
        Ok(Some(_)) => Ok(stopped),
        Err(e) => Err(e),
    }
}

/// Returns the first item, if nothing differs from it, or both.
pub fn first_or_both<A: Drop, E>(
    answer: Result<Option<A>, E>,
    first: Option<A>,
) -> Result<Result<A, Option<(A, A)>>, E>
    ensures { result ≡ first_or_both answer first }
{
    match (answer, first) {
        (Err(e), _) => Err(e),
        (Ok(_), None) => Ok(Err(None)),
        (Ok(None), Some(x)) => Ok(Ok(x)),
        (Ok(Some(y)), Some(x)) => Ok(Err(Some((x, y)))),
    }
}

/// Draws the left and then the right in each round, until a failure, an `Ok(None)`, or a turn on the two items that stops.
pub fn compare_by<L, R, C, K>(
    left: L,
    right: R,
    state: C,
    turn: &K,
) -> Result<Option<Ordering>, L::Error>
where
    L: FallibleIterator,
    L::Item: Drop,
    R: FallibleIterator<Error = L::Error>,
    R::Item: Drop,
    C: Drop,
    K: Turn<C, (L::Item, R::Item), Result<Option<Ordering>, L::Error>>,
    requires left { L.contract.can_next left }
    requires right { R.contract.can_next right }
    requires finite { L.contract.is_finite left ⊎ R.contract.is_finite right }
    requires callable { CallableInRounds L.contract.steps R.contract.steps
        (goes_on (K.turns turn.now)) (K.can_turn turn.now) left right state }
    ensures { CompareByDraws (K.turns turn.now) L.contract.steps R.contract.steps left right state
        result }
{
    let (mut left, mut right, mut count) = number_of_either(left, right);
    let mut state = state;
    loop {
        let x = match left.next() {
            Ok(x) => x,
            Err(e) => return Err(e),
        };
        let y = match right.next() {
            Ok(y) => y,
            Err(e) => return Err(e),
        };
        match (x, y) {
            (None, None) => return Ok(Some(Ordering::Equal)),
            (None, Some(_)) => return Ok(Some(Ordering::Less)),
            (Some(_), None) => return Ok(Some(Ordering::Greater)),
            (Some(x), Some(y)) => match turn.turn(&mut state, (x, y)) {
                ControlFlow::Continue(()) => count = count.one_less(),
                ControlFlow::Break(answer) => return answer,
            },
        }
    }
}

/// The turn of `cmp_by`, whose state is the closure: it stops at two items that aren't equal, or if the closure fails.
#[derive(Drop)]
pub struct CmpTurn;

impl<A, B, E, F: FnMut(A, B) -> Result<Ordering, E>> Turn<F, (A, B), Result<Option<Ordering>, E>>
    for CmpTurn {
    ghost can_turn = { λ _ f p. takes_with F.FnMut f p.0 p.1 };

    ghost turns = { λ _ f p r g. IsCmpTurn (call_with F.FnMut) f p r g };

    /// Calls the closure once.
    #[inline(always)]
    fn turn(&self, state: &mut F, item: (A, B)) -> ControlFlow<Result<Option<Ordering>, E>, ()> {
        match state(item.0, item.1) {
            Ok(Ordering::Equal) => ControlFlow::Continue(()),
            Ok(order) => ControlFlow::Break(Ok(Some(order))),
            Err(e) => ControlFlow::Break(Err(e)),
        }
    }
}

/// The turn of `eq_by`, whose state is the closure: it stops, with no order, at two items that aren't equal, or if the closure fails.
#[derive(Drop)]
pub struct EqTurn;

impl<A, B, E, F: FnMut(A, B) -> Result<bool, E>> Turn<F, (A, B), Result<Option<Ordering>, E>>
    for EqTurn {
    ghost can_turn = { λ _ f p. takes_with F.FnMut f p.0 p.1 };

    ghost turns = { λ _ f p r g. IsEqTurn (call_with F.FnMut) f p r g };

    /// Calls the closure once.
    #[inline(always)]
    fn turn(&self, state: &mut F, item: (A, B)) -> ControlFlow<Result<Option<Ordering>, E>, ()> {
        match state(item.0, item.1) {
            Ok(true) => ControlFlow::Continue(()),
            Ok(false) => ControlFlow::Break(Ok(None)),
            Err(e) => ControlFlow::Break(Err(e)),
        }
    }
}
