//! Searches: the turns of the folds that they are, the test of one, and what a search makes of its fold.
ghost use Rattle.std.specs.Prelude.{◌≡◌, ◌-◌, ◌^◌, ◌<◌, Bool, Result, None};
ghost use Rattle.std.specs.Borrow.{Bor, MutBor};
ghost use Rattle.fallible_contract.specs.Closures.{call_by_value, takes_by_value, call_by_reference, takes_by_reference};
ghost use Rattle.fallible_contract.specs.Searching.{IsFindTurn, IsSearchTurn, IsPositionTurn, search_answer, find_answer, all_pick, any_pick, find_map_pick, position_pick, for_each_pick};

use crate::folds::Turn;
use std::ops::ControlFlow;

/// What a search returns, from what its fold returned: `none` at `Ok(None)`, the source's failure, or what the fold stopped with.
pub fn answer_or<R: Drop, E>(answer: Result<Option<Result<R, E>>, E>, none: R) -> Result<R, E>
    ensures { result ≡ search_answer none answer }
{
    match answer {
        Ok(None) => Ok(none),
        Ok(Some(stop)) => stop,
        Err(e) => Err(e),
    }
}

/// What a search for a value returns, from what its fold returned: `Ok(None)` at the end, the source's failure, or what the fold stopped with.
pub fn answer_or_none<R, E>(answer: Result<Option<Result<Option<R>, E>>, E>) -> Result<Option<R>, E>
    ensures { result ≡ search_answer None answer }
{
    match answer {
        Ok(None) => Ok(None),
        Ok(Some(stop)) => stop,
        Err(e) => Err(e),
    }
}

/// What `find` returns, from what its fold returned: `Ok(None)` at the end, the source's failure, or the item or the failure that the fold stopped with.
pub fn found<A, E>(answer: Result<Option<Result<A, E>>, E>) -> Result<Option<A>, E>
    ensures { result ≡ find_answer answer }
{
    match answer {
        Ok(None) => Ok(None),
        Ok(Some(Ok(item))) => Ok(Some(item)),
        Ok(Some(Err(e))) => Err(e),
        Err(e) => Err(e),
    }
}

/// One test of a search: on the search's state and an item it returns whether the search ends there. Every closure of this shape is one.
pub trait Test<C, A, E> {
    // Holds of a state and an item on which the test may be made.
    ghost can_test: { Self → C → A → Type 0 };

    // Holds of those, of what the test may return, and of the state that it leaves.
    ghost tests: { Self → C → A → Result Bool E → C → Type 0 };

    /// Makes the test: `Ok(true)` ends the search with the item, `Ok(false)` goes on, and a failure ends it.
    fn test(&self, state: &mut C, item: &A) -> Result<bool, E>
        requires { can_test self.now state.old item.now }
        ensures { tests self.now state.old item.now result state.new };
}

impl<C, A, E, F: Fn(&mut C, &A) -> Result<bool, E>> Test<C, A, E> for F {
    ghost can_test = { λ f c x. (lent : MutBor C) → lent.now ≡ c → (shown : Bor A) → shown.now ≡ x
        → F.pre f lent shown };

    ghost tests = { λ f c x v d. (lent : MutBor C) × (shown : Bor A) × (back : MutBor C)
        × (lent.now ≡ c) × (shown.now ≡ x) × F.post f lent shown v back × (back.now ≡ d) };

    #[inline(always)]
    fn test(&self, state: &mut C, item: &A) -> Result<bool, E> {
        self(state, item)
    }
}

/// The turn of the fold that `find` is: it stops at an item that the test accepts or fails on, and goes on after one that it rejects.
#[derive(Drop)]
pub struct FindTurn<'a, K> {
    /// the test
    pub test: &'a K,
}

impl<'a, C, A: Drop, E, K: Test<C, A, E>> Turn<C, A, Result<A, E>> for FindTurn<'a, K> {
    ghost can_turn = { λ k c x. K.can_test k.test.now c x };

    ghost turns = { λ k c x r d. IsFindTurn (K.tests k.test.now) c x r d };

    /// Makes the test once.
    #[inline(always)]
    fn turn(&self, state: &mut C, item: A) -> ControlFlow<Result<A, E>, ()> {
        match self.test.test(state, &item) {
            Ok(true) => ControlFlow::Break(Ok(item)),
            Ok(false) => ControlFlow::Continue(()),
            Err(e) => ControlFlow::Break(Err(e)),
        }
    }
}

/// The test of `find`, whose state is the predicate, which it calls.
#[derive(Drop)]
pub struct FindTest;

impl<A, E, F: FnMut(&A) -> Result<bool, E>> Test<F, A, E> for FindTest {
    ghost can_test = { λ _ f x. takes_by_reference F.FnMut f x };

    ghost tests = { λ _ f x v g. call_by_reference F.FnMut f x v g };

    /// Calls the predicate once.
    #[inline(always)]
    fn test(&self, state: &mut F, item: &A) -> Result<bool, E> {
        state(item)
    }
}

/// The turn of `for_each`, whose state is the closure: it calls it on each item, and stops if it fails.
#[derive(Drop)]
pub struct ForEachTurn;

impl<A, E, F: FnMut(A) -> Result<(), E>> Turn<F, A, Result<(), E>> for ForEachTurn {
    ghost can_turn = { λ _ f x. takes_by_value F.FnMut f x };

    ghost turns = { λ _ f x r g. IsSearchTurn (call_by_value F.FnMut) for_each_pick f x r g };

    /// Calls the closure once.
    #[inline(always)]
    fn turn(&self, state: &mut F, item: A) -> ControlFlow<Result<(), E>, ()> {
        match state(item) {
            Ok(()) => ControlFlow::Continue(()),
            Err(e) => ControlFlow::Break(Err(e)),
        }
    }
}

/// The turn of `all`, whose state is the predicate: it stops at the first item for which that returns false, or fails.
#[derive(Drop)]
pub struct AllTurn;

impl<A, E, F: FnMut(A) -> Result<bool, E>> Turn<F, A, Result<bool, E>> for AllTurn {
    ghost can_turn = { λ _ f x. takes_by_value F.FnMut f x };

    ghost turns = { λ _ f x r g. IsSearchTurn (call_by_value F.FnMut) all_pick f x r g };

    /// Calls the predicate once.
    #[inline(always)]
    fn turn(&self, state: &mut F, item: A) -> ControlFlow<Result<bool, E>, ()> {
        match state(item) {
            Ok(true) => ControlFlow::Continue(()),
            Ok(false) => ControlFlow::Break(Ok(false)),
            Err(e) => ControlFlow::Break(Err(e)),
        }
    }
}

/// The turn of `any`, whose state is the predicate: it stops at the first item for which that returns true, or fails.
#[derive(Drop)]
pub struct AnyTurn;

impl<A, E, F: FnMut(A) -> Result<bool, E>> Turn<F, A, Result<bool, E>> for AnyTurn {
    ghost can_turn = { λ _ f x. takes_by_value F.FnMut f x };

    ghost turns = { λ _ f x r g. IsSearchTurn (call_by_value F.FnMut) any_pick f x r g };

    /// Calls the predicate once.
    #[inline(always)]
    fn turn(&self, state: &mut F, item: A) -> ControlFlow<Result<bool, E>, ()> {
        match state(item) {
            Ok(true) => ControlFlow::Break(Ok(true)),
            Ok(false) => ControlFlow::Continue(()),
            Err(e) => ControlFlow::Break(Err(e)),
        }
    }
}

/// The turn of `find_map`, whose state is the closure: it stops at the first value that this returns, or if it fails.
#[derive(Drop)]
pub struct FindMapTurn;

impl<A, B, E, F: FnMut(A) -> Result<Option<B>, E>> Turn<F, A, Result<Option<B>, E>>
    for FindMapTurn {
    ghost can_turn = { λ _ f x. takes_by_value F.FnMut f x };

    ghost turns = { λ _ f x r g. IsSearchTurn (call_by_value F.FnMut) find_map_pick f x r g };

    /// Calls the closure once.
    #[inline(always)]
    fn turn(&self, state: &mut F, item: A) -> ControlFlow<Result<Option<B>, E>, ()> {
        match state(item) {
            Ok(Some(y)) => ControlFlow::Break(Ok(Some(y))),
            Ok(None) => ControlFlow::Continue(()),
            Err(e) => ControlFlow::Break(Err(e)),
        }
    }
}

/// The turn of `position`, whose state is the number of items before and the predicate: it stops at the first item for which that returns true, or fails.
#[derive(Drop)]
pub struct PositionTurn;

impl<A, E, F: FnMut(A) -> Result<bool, E>> Turn<(usize, F), A, Result<Option<usize>, E>>
    for PositionTurn {
    ghost can_turn = { λ _ p x. takes_by_value F.FnMut p.1 x × (p.0 < 2 ^ 64 - 1) };

    ghost turns = { λ _ p x r q. IsPositionTurn (call_by_value F.FnMut) position_pick p x r q };

    /// Calls the predicate once, and adds one for the next item.
    #[inline(always)]
    fn turn(&self, state: &mut (usize, F), item: A) -> ControlFlow<Result<Option<usize>, E>, ()> {
        match (state.1)(item) {
            Ok(true) => ControlFlow::Break(Ok(Some(state.0))),
            Ok(false) => {
                state.0 += 1;
                ControlFlow::Continue(())
            }
            Err(e) => ControlFlow::Break(Err(e)),
        }
    }
}
