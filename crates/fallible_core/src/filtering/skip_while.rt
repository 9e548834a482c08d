// The adapter that skips items up to the first one that a predicate rejects.
ghost use Rattle.std.specs.Prelude.{Some, Result, Option};
ghost use Rattle.fallible_contract.specs.Closures.{call_by_reference, takes_by_reference};
ghost use Rattle.fallible_contract.specs.Contract.{parts_as};
ghost use Rattle.fallible_contract.specs.Passing.{PassTest};
ghost use Rattle.fallible_contract.specs.Laws.Contract.{lawful_parts};
ghost use Rattle.fallible_core.specs.Filtering.SkipWhile.{skip_call, skip_takes, skip_while_outcome, skip_while_contract, skip_while_made, skip_while_parts};
ghost use Rattle.fallible_core.specs.Laws.Filtering.SkipWhile.{lawful_skip_while};

use crate::traits::FallibleIterator;
use fallible_contract::folds::Turn;
use fallible_contract::searching::{FindTurn, Test, found};
use std::ops::ControlFlow;

/// The items from the first one on for which the predicate returns false. The predicate is called up to that item and never after it; an item on which it fails is lost, and its failure is yielded.
#[derive(Clone, Debug, Drop)]
pub struct SkipWhile<I, P> {
    pub(crate) it: I,
    // whether the predicate returned false, and the predicate
    pub(crate) skipping: (bool, P),
}

impl<I: FallibleIterator, P: FnMut(&I::Item) -> Result<bool, I::Error>> FallibleIterator
    for SkipWhile<I, P>
where
    I::Item: Drop,
{
    type Item = I::Item;

    type Error = I::Error;

    ghost contract = { parts_as skip_while_parts (skip_while_contract I.contract P.FnMut) };

    /// Draws until an item is kept, or a failure or `Ok(None)` comes. It calls the predicate on each item until it first returned false. From then on it draws once.
    fn next(&mut self) -> Result<Option<I::Item>, I::Error> {
        if self.skipping.0 {
            self.it.next()
        } else {
            let turn = FindTurn {
                test: &SkipWhileTest,
            };
            found(self.it.drive(&mut self.skipping, &turn))
        }
    }

    fn size_hint(&self) -> (usize, Option<usize>) {
        if self.skipping.0 {
            self.it.size_hint()
        } else {
            (0, self.it.size_hint().1)
        }
    }

    /// The items up to the first one that is kept, as `next` draws them, and after it the source's fold.
    fn drive<C, R, K: Turn<C, I::Item, R>>(
        &mut self,
        state: &mut C,
        turn: &K,
    ) -> Result<Option<R>, I::Error> {
        match self.next() {
            Ok(Some(x)) => match turn.turn(state, x) {
                ControlFlow::Continue(()) => self.it.drive(state, turn),
                ControlFlow::Break(stop) => Ok(Some(stop)),
            },
            Ok(None) => Ok(None),
            Err(e) => Err(e),
        }
    }

    ghost lawful = { lawful_parts skip_while_made (lawful_skip_while P.FnMut I.lawful) };
}

// The test of the search in `next`, whose state is the flag beside the predicate: it accepts an item once the predicate returned false, or if it does so for this one.
#[derive(Drop)]
struct SkipWhileTest;

impl<X, E, P: FnMut(&X) -> Result<bool, E>> Test<(bool, P), X, E> for SkipWhileTest {
    ghost can_test = { λ _ state x. skip_takes (takes_by_reference P.FnMut) state x };

    ghost tests = { λ _ state x v d. PassTest (skip_call (call_by_reference P.FnMut)) skip_while_outcome
        state x v d };

    #[inline(always)]
    fn test(&self, state: &mut (bool, P), item: &X) -> Result<bool, E> {
        if state.0 {
            return Ok(true);
        }
        match (state.1)(item) {
            Ok(true) => Ok(false),
            Ok(false) => {
                state.0 = true;
                Ok(true)
            }
            Err(e) => Err(e),
        }
    }
}
