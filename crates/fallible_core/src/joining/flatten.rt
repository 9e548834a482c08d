// The adapter that yields what inner iterators yield.
ghost use Rattle.std.specs.Prelude.{◌≡◌, ℕ, [], ◌∷◌, None, Ok, List, Option, Result};
ghost use Rattle.fallible_contract.specs.Contract.{parts_as};
ghost use Rattle.fallible_contract.specs.Folds.{CallableDriving, Driven, TurnThrough, beside, beside_names};
ghost use Rattle.fallible_contract.specs.Laws.Contract.{lawful_parts};
ghost use Rattle.fallible_core.specs.Joining.Flatten.{FlattenTrace, flatten_contract, JoiningTakes, IsFlattenTurn, flatten_made, flatten_parts};
ghost use Rattle.fallible_core.specs.Laws.Joining.Flatten.{lawful_flatten};

use crate::traits::FallibleIterator;
use crate::traits::conversion::IntoFallibleIterator;
use fallible_contract::folds::{Beside, Turn, answer_within};
use std::ops::ControlFlow;

/// What the inner iterators yield that the items become, one inner iterator after the other. `J` is what an item becomes, and no caller writes it. The current one is drawn until its `Ok(None)`, and is dropped then. Then the next item is drawn. After a failure of the inner iterator it stays the current one. After a failure or an `Ok(None)` of the outer source the next call draws that source again.
#[derive(Clone, Debug, Drop)]
pub struct Flatten<
    I,
    J = <<I as FallibleIterator>::Item as IntoFallibleIterator>::IntoFallibleIter,
> {
    pub(crate) it: I,
    pub(crate) in_hand: Option<J>,
}

impl<U: IntoFallibleIterator, I: FallibleIterator<Item = U, Error = U::Error>> FallibleIterator
    for Flatten<I> {
    type Item = U::Item;

    type Error = U::Error;

    ghost contract = { parts_as flatten_parts
        (flatten_contract I.contract U.into_gives U.IntoFallibleIter.contract) };

    /// Draws the current inner iterator. If there is none or it ended, it draws the outer source until an item becomes an inner iterator that does not end at once, or a failure or `Ok(None)` comes.
    ///
    /// Requires: `next` may be called on the current inner iterator and on each that may come.
    fn next(&mut self) -> Result<Option<U::Item>, U::Error> {
        next_joined(&mut self.it, &mut self.in_hand)
    }

    fn size_hint(&self) -> (usize, Option<usize>) {
        (0, None)
    }

    /// The fold of the current inner iterator, and after its `Ok(None)`, in the same call, the outer source's.
    fn drive<C, R, K: Turn<C, U::Item, R>>(
        &mut self,
        state: &mut C,
        turn: &K,
    ) -> Result<Option<R>, U::Error> {
        drive_joined(&mut self.it, &mut self.in_hand, state, turn)
    }

    ghost lawful = { lawful_parts flatten_made
        (lawful_flatten _ I.lawful U.into_gives _ U.IntoFallibleIter.lawful) };
}

// One call of `next` of the joined inner iterators. The current one is dropped at its `Ok(None)`, and then the next item is drawn.
pub(crate) fn next_joined<U: IntoFallibleIterator, O: FallibleIterator<Item = U, Error = U::Error>>(
    outer: &mut O,
    in_hand: &mut Option<U::IntoFallibleIter>,
) -> Result<Option<U::Item>, U::Error>
where
    requires { (flatten_contract O.contract U.into_gives U.IntoFallibleIter.contract).can_next
        (outer.old, in_hand.old) }
    ensures { FlattenTrace O.contract.steps U.into_gives U.IntoFallibleIter.contract.steps
        (outer.old, in_hand.old) (result ∷ []) (outer.new, in_hand.new) }
{
    let mut left = (*outer).number();
    loop {
        match in_hand {
            Some(inner) => match inner.next() {
                Ok(None) => {}
                Ok(some @ Some(_)) => return Ok(some),
                Err(e) => return Err(e),
            },
            None => {}
        }
        *in_hand = None;
        match outer.next() {
            Ok(Some(x)) => *in_hand = Some(x.into_fallible_iter()),
            Ok(None) => return Ok(None),
            Err(e) => return Err(e),
        }
        left = left.one_less();
    }
}

// One fold of the joined inner iterators: of the current one, which is dropped at its `Ok(None)`, and then of the outer source. The one in which the fold stopped stays the current one.
pub(crate) fn drive_joined<
    U: IntoFallibleIterator,
    O: FallibleIterator<Item = U, Error = U::Error>,
    C,
    R,
    K: Turn<C, U::Item, R>,
>(
    outer: &mut O,
    in_hand: &mut Option<U::IntoFallibleIter>,
    state: &mut C,
    turn: &K,
) -> Result<Option<R>, U::Error>
where
    requires can_next { (flatten_contract O.contract U.into_gives
        U.IntoFallibleIter.contract).can_next
        (outer.old, in_hand.old) }
    requires finite { (flatten_contract O.contract U.into_gives
        U.IntoFallibleIter.contract).is_finite
        (outer.old, in_hand.old) }
    requires callable { CallableDriving
        (flatten_contract O.contract U.into_gives U.IntoFallibleIter.contract).steps
        (K.turns turn.now) (K.can_turn turn.now) (outer.old, in_hand.old) state.old }
    ensures { Driven (flatten_contract O.contract U.into_gives U.IntoFallibleIter.contract).steps
        (K.turns turn.now) (outer.old, in_hand.old) state.old result
        (outer.new, in_hand.new) state.new }
{
    match in_hand {
        Some(inner) => match inner.drive(state, turn) {
            Ok(Some(stop)) => return Ok(Some(stop)),
            Err(e) => return Err(e),
            Ok(None) => {}
        },
        None => {}
    }
    *in_hand = None;
    drive_outer(outer, in_hand, state, turn)
}

// The fold if there is no current inner iterator: one of the outer source.
fn drive_outer<
    U: IntoFallibleIterator,
    O: FallibleIterator<Item = U, Error = U::Error>,
    C,
    R,
    K: Turn<C, U::Item, R>,
>(
    outer: &mut O,
    in_hand: &mut Option<U::IntoFallibleIter>,
    state: &mut C,
    turn: &K,
) -> Result<Option<R>, U::Error>
where
    requires empty { in_hand.old ≡ None }
    requires can_next { (flatten_contract O.contract U.into_gives
        U.IntoFallibleIter.contract).can_next
        (outer.old, None) }
    requires finite { (flatten_contract O.contract U.into_gives
        U.IntoFallibleIter.contract).is_finite
        (outer.old, None) }
    requires callable { CallableDriving
        (flatten_contract O.contract U.into_gives U.IntoFallibleIter.contract).steps
        (K.turns turn.now) (K.can_turn turn.now) (outer.old, None) state.old }
    ensures { Driven (flatten_contract O.contract U.into_gives U.IntoFallibleIter.contract).steps
        (K.turns turn.now) (outer.old, None) state.old result (outer.new, in_hand.new) state.new }
{
    let mut both = Beside {
        c: state,
        p: in_hand,
    };
    let answer = outer.drive(&mut both, &FlattenTurn { turn });
    answer_within(answer)
}

// The turn of the outer source's fold: the inner iterator that the item becomes is folded by the caller's turn. The outer fold goes on if that fold returned `Ok(None)`. Otherwise it stops with what that fold returned, and the inner iterator is the current one.
#[derive(Drop)]
struct FlattenTurn<'a, K> {
    turn: &'a K,
}

impl<'a, 'b, U: IntoFallibleIterator, C, R, K: Turn<C, U::Item, R>> Turn<
    Beside<'b, C, Option<U::IntoFallibleIter>>,
    U,
    Result<Option<R>, U::Error>,
> for FlattenTurn<'a, K> {
    ghost can_turn = { λ k b x. JoiningTakes U.into_gives U.IntoFallibleIter.contract
        (K.turns k.turn.now) (K.can_turn k.turn.now) (beside b) x };

    ghost turns = { λ k b x r d. TurnThrough beside beside_names
        (IsFlattenTurn U.into_gives U.IntoFallibleIter.contract (K.turns k.turn.now)) b x r d };

    #[inline(always)]
    fn turn(
        &self,
        state: &mut Beside<'b, C, Option<U::IntoFallibleIter>>,
        item: U,
    ) -> ControlFlow<Result<Option<R>, U::Error>, ()> {
        let mut inner = item.into_fallible_iter();
        match inner.drive(state.c, self.turn) {
            Ok(Some(stop)) => {
                *state.p = Some(inner);
                ControlFlow::Break(Ok(Some(stop)))
            }
            Ok(None) => ControlFlow::Continue(()),
            Err(e) => {
                *state.p = Some(inner);
                ControlFlow::Break(Err(e))
            }
        }
    }
}
