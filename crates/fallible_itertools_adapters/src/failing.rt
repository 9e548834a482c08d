// The adapters of failures: those that convert, show or replace them, and those that end at them.
ghost use Rattle.std.specs.Prelude.{Result, Option, ⊤, ◌≡◌, false};
ghost use Rattle.fallible_iterator.specs.Closures.{call_by_value, takes_by_reference, takes_by_value};
ghost use Rattle.fallible_iterator.specs.Contract.{parts_as};
ghost use Rattle.fallible_iterator.specs.Ends.{from_back, ends_of, ends_parts_as};
ghost use Rattle.fallible_iterator.specs.Laws.Contract.{lawful_parts};
ghost use Rattle.fallible_iterator.specs.Laws.Ends.{lawful_ends_parts};
ghost use Rattle.fallible_itertools_adapters.specs.Failing.{convert_call, err_into_contract, err_into_made, err_into_parts, inspect_err_contract, inspect_err_made, inspect_err_parts, seen_call, or_else_contract, or_else_outcome, or_else_made, or_else_parts, fuse_at_failure_contract, fuse_at_failure_made, fuse_at_failure_parts, stop_after_contract, stop_after_made, stop_after_parts};
ghost use Rattle.fallible_itertools_adapters.specs.Laws.Failing.{lawful_err_into, lawful_ends_err_into, lawful_inspect_err, lawful_ends_inspect_err, lawful_or_else, lawful_ends_or_else, lawful_fuse_at_failure, lawful_stop_after};

use fallible_iterator::extending::{
    Fail, FirstTurn, Outcome, Pass, drive_back_failing, drive_back_recovering, drive_failing,
    drive_recovering, failed,
};
use fallible_iterator::{DoubleEndedFallibleIterator, FallibleIterator, Goal, Number, Turn};
use std::marker::PhantomData;

/// The source with each failure converted by `From`. Items and `Ok(None)` pass.
#[derive(Drop)]
#[derive_where(Clone, Debug; I)]
pub struct ErrInto<I, E> {
    pub(crate) it: I,
    #[derive_where(skip)]
    pub(crate) made: PhantomData<E>,
}

impl<I, E> ErrInto<I, E> {
    /// Creates it. It draws nothing.
    #[inline(always)]
    pub fn new(it: I) -> ErrInto<I, E>
        ensures { err_into_parts result ≡ (it, tt) }
    {
        ErrInto {
            it,
            made: PhantomData,
        }
    }
}

impl<I: FallibleIterator, E: From<I::Error>> FallibleIterator for ErrInto<I, E> {
    type Item = I::Item;

    type Error = E;

    ghost contract = { parts_as err_into_parts (err_into_contract E.from_gives I.contract) };

    /// Draws once, and converts a failure.
    fn next(&mut self) -> Result<Option<I::Item>, E> {
        failed(
            self.it.next(),
            &mut (),
            &IntoFail::<E> { made: PhantomData },
        )
    }

    fn size_hint(&self) -> (usize, Option<usize>) {
        self.it.size_hint()
    }

    fn drive<C, R, K: Turn<C, I::Item, R>>(
        &mut self,
        state: &mut C,
        turn: &K,
    ) -> Result<Option<R>, E> {
        drive_failing(
            &mut self.it,
            &mut (),
            &IntoFail::<E> { made: PhantomData },
            state,
            turn,
        )
    }

    /// What the source makes of the goal, or the failure that it met, converted.
    fn drive_to(&mut self, goal: &mut Goal<I::Item>) -> Result<Option<I::Item>, E>
    where
        I::Item: Drop,
    {
        failed(
            self.it.drive_to(goal),
            &mut (),
            &IntoFail::<E> { made: PhantomData },
        )
    }

    ghost lawful = { lawful_parts err_into_made (lawful_err_into E.from_gives I.lawful) };
}

impl<I: DoubleEndedFallibleIterator, E: From<I::Error>> DoubleEndedFallibleIterator
    for ErrInto<I, E> {
    ghost ends = { ends_parts_as err_into_parts
        (ends_of (err_into_contract E.from_gives (from_back I.contract I.ends))) };

    /// Draws once from the back, and converts a failure.
    fn next_back(&mut self) -> Result<Option<I::Item>, E> {
        failed(
            self.it.next_back(),
            &mut (),
            &IntoFail::<E> { made: PhantomData },
        )
    }

    fn drive_back<C, R, K: Turn<C, I::Item, R>>(
        &mut self,
        state: &mut C,
        turn: &K,
    ) -> Result<Option<R>, E> {
        drive_back_failing(
            &mut self.it,
            &mut (),
            &IntoFail::<E> { made: PhantomData },
            state,
            turn,
        )
    }

    ghost lawful_ends = { lawful_ends_parts err_into_made
        (lawful_ends_err_into E.from_gives I.lawful_ends) };
}

// The failure, converted.
#[derive(Drop)]
struct IntoFail<E> {
    made: PhantomData<E>,
}

impl<D, E: From<D>> Fail<(), D> for IntoFail<E> {
    type Failure = E;

    ghost can_fail = { λ _ _ _. ⊤ };

    ghost call = { λ _ u d e v. convert_call E.from_gives u d e v };

    #[inline(always)]
    fn fail(&self, _state: &mut (), failure: D) -> E {
        E::from(failure)
    }
}

/// What the source returns. The closure is called on a reference to each failure first.
#[derive(Clone, Debug, Drop)]
pub struct InspectErr<I, F> {
    pub(crate) it: I,
    pub(crate) f: F,
}

impl<I, F> InspectErr<I, F> {
    /// Creates it. It draws nothing.
    #[inline(always)]
    pub fn new(it: I, f: F) -> InspectErr<I, F>
        ensures { inspect_err_parts result ≡ (it, f) }
    {
        InspectErr { it, f }
    }
}

impl<I: FallibleIterator, F: FnMut(&I::Error)> FallibleIterator for InspectErr<I, F> {
    type Item = I::Item;

    type Error = I::Error;

    ghost contract = { parts_as inspect_err_parts (inspect_err_contract I.contract F.FnMut) };

    /// Draws once, and calls the closure if a failure came.
    fn next(&mut self) -> Result<Option<I::Item>, I::Error> {
        failed(self.it.next(), &mut self.f, &InspectErrFail)
    }

    fn size_hint(&self) -> (usize, Option<usize>) {
        self.it.size_hint()
    }

    fn drive<C, R, K: Turn<C, I::Item, R>>(
        &mut self,
        state: &mut C,
        turn: &K,
    ) -> Result<Option<R>, I::Error> {
        drive_failing(&mut self.it, &mut self.f, &InspectErrFail, state, turn)
    }

    /// What the source makes of the goal. The closure is called on a failure that it met.
    fn drive_to(&mut self, goal: &mut Goal<I::Item>) -> Result<Option<I::Item>, I::Error>
    where
        I::Item: Drop,
    {
        failed(self.it.drive_to(goal), &mut self.f, &InspectErrFail)
    }

    ghost lawful = { lawful_parts inspect_err_made (lawful_inspect_err F.FnMut I.lawful) };
}

impl<I: DoubleEndedFallibleIterator, F: FnMut(&I::Error)> DoubleEndedFallibleIterator
    for InspectErr<I, F> {
    ghost ends = { ends_parts_as inspect_err_parts
        (ends_of (inspect_err_contract (from_back I.contract I.ends) F.FnMut)) };

    /// Draws once from the back, and calls the closure if a failure came.
    fn next_back(&mut self) -> Result<Option<I::Item>, I::Error> {
        failed(self.it.next_back(), &mut self.f, &InspectErrFail)
    }

    fn drive_back<C, R, K: Turn<C, I::Item, R>>(
        &mut self,
        state: &mut C,
        turn: &K,
    ) -> Result<Option<R>, I::Error> {
        drive_back_failing(&mut self.it, &mut self.f, &InspectErrFail, state, turn)
    }

    ghost lawful_ends = { lawful_ends_parts inspect_err_made
        (lawful_ends_inspect_err F.FnMut I.lawful_ends) };
}

// The failure itself, after the closure's call.
#[derive(Drop)]
struct InspectErrFail;

impl<D, F: FnMut(&D)> Fail<F, D> for InspectErrFail {
    type Failure = D;

    ghost can_fail = { λ _ f d. takes_by_reference F.FnMut f d };

    ghost call = { λ _ f d e g. seen_call F.FnMut f d e g };

    #[inline(always)]
    fn fail(&self, state: &mut F, failure: D) -> D {
        state(&failure);
        failure
    }
}

/// What the source returns, with each failure replaced by what the closure returns for it: an item, nothing or another failure. Items and `Ok(None)` pass.
#[derive(Clone, Debug, Drop)]
pub struct OrElse<I, F> {
    pub(crate) it: I,
    pub(crate) f: F,
}

impl<I, F> OrElse<I, F> {
    /// Creates it. It draws nothing.
    #[inline(always)]
    pub fn new(it: I, f: F) -> OrElse<I, F>
        ensures { or_else_parts result ≡ (it, f) }
    {
        OrElse { it, f }
    }
}

impl<I: FallibleIterator, E, F: FnMut(I::Error) -> Result<Option<I::Item>, E>> FallibleIterator
    for OrElse<I, F> {
    type Item = I::Item;

    type Error = E;

    ghost contract = { parts_as or_else_parts (or_else_contract I.contract F.FnMut) };

    /// Draws until an item or an `Ok(None)` comes, or a failure for which the closure returns an item or fails.
    fn next(&mut self) -> Result<Option<I::Item>, E> {
        self.drive(&mut (), &FirstTurn)
    }

    fn size_hint(&self) -> (usize, Option<usize>) {
        (0, None)
    }

    fn drive<C, R, K: Turn<C, I::Item, R>>(
        &mut self,
        state: &mut C,
        turn: &K,
    ) -> Result<Option<R>, E> {
        let left = (*self).number();
        drive_recovering(&mut self.it, &mut self.f, &OrElsePass, left, state, turn)
    }

    ghost lawful = { lawful_parts or_else_made (lawful_or_else F.FnMut I.lawful) };
}

impl<
    I: DoubleEndedFallibleIterator,
    E,
    F: FnMut(I::Error) -> Result<Option<I::Item>, E>,
> DoubleEndedFallibleIterator for OrElse<I, F> {
    ghost ends = { ends_parts_as or_else_parts
        (ends_of (or_else_contract (from_back I.contract I.ends) F.FnMut)) };

    /// Draws from the back until an item or an `Ok(None)` comes, or a failure for which the closure returns an item or fails.
    fn next_back(&mut self) -> Result<Option<I::Item>, E> {
        self.drive_back(&mut (), &FirstTurn)
    }

    fn drive_back<C, R, K: Turn<C, I::Item, R>>(
        &mut self,
        state: &mut C,
        turn: &K,
    ) -> Result<Option<R>, E> {
        let left = (*self).number();
        drive_back_recovering(&mut self.it, &mut self.f, &OrElsePass, left, state, turn)
    }

    ghost lawful_ends = { lawful_ends_parts or_else_made
        (lawful_ends_or_else F.FnMut I.lawful_ends) };
}

// What becomes of a failure by the closure's result.
#[derive(Drop)]
struct OrElsePass;

impl<X, D, E, F: FnMut(D) -> Result<Option<X>, E>> Pass<F, D, E> for OrElsePass {
    type Kept = X;

    type Answer = Result<Option<X>, E>;

    ghost can_pass = { λ _ f d. takes_by_value F.FnMut f d };

    ghost call = { λ _ f d v g. call_by_value F.FnMut f d v g };

    ghost outcome = { λ _ d v. or_else_outcome d v };

    #[inline(always)]
    fn pass(&self, state: &mut F, item: D) -> Outcome<X, E> {
        match state(item) {
            Ok(Some(x)) => Outcome::Kept(x),
            Ok(None) => Outcome::LeftOut,
            Err(e) => Outcome::Failure(e),
        }
    }
}

/// What the source returns up to its first failure, and that one too. Then each call returns `Ok(None)`. Items and `Ok(None)` of the source pass.
#[derive(Clone, Debug, Drop)]
pub struct FuseAtFailure<I> {
    pub(crate) it: I,
    // whether the source failed
    pub(crate) failed: bool,
}

impl<I> FuseAtFailure<I> {
    /// Creates it. It draws nothing.
    #[inline(always)]
    pub fn new(it: I) -> FuseAtFailure<I>
        ensures { fuse_at_failure_parts result ≡ (it, false) }
    {
        FuseAtFailure { it, failed: false }
    }
}

impl<I: FallibleIterator> FallibleIterator for FuseAtFailure<I> {
    type Item = I::Item;

    type Error = I::Error;

    ghost contract = { parts_as fuse_at_failure_parts (fuse_at_failure_contract I.contract) };

    /// Draws once, and nothing after a failure.
    fn next(&mut self) -> Result<Option<I::Item>, I::Error> {
        if self.failed {
            return Ok(None);
        }
        match self.it.next() {
            Ok(item) => Ok(item),
            Err(e) => {
                self.failed = true;
                Err(e)
            }
        }
    }

    fn size_hint(&self) -> (usize, Option<usize>) {
        if self.failed {
            (0, Some(0))
        } else {
            self.it.size_hint()
        }
    }

    ghost lawful = { lawful_parts fuse_at_failure_made (lawful_fuse_at_failure I.lawful) };
}

/// What the source returns up to its n-th failure, and that one too. Then each call returns `Ok(None)`. Items and `Ok(None)` of the source pass, and don't count.
#[derive(Clone, Debug, Drop)]
pub struct StopAfter<I> {
    pub(crate) it: I,
    // how many failures it still yields
    pub(crate) to_fail: usize,
    // how many items it still yields at most
    pub(crate) items: Number,
}

impl<I> StopAfter<I> {
    /// Creates it. It draws nothing.
    #[inline(always)]
    pub fn new(it: I, n: usize, items: Number) -> StopAfter<I>
        ensures { stop_after_parts result ≡ (it, (n, items.value)) }
    {
        StopAfter {
            it,
            to_fail: n,
            items,
        }
    }
}

impl<I: FallibleIterator> FallibleIterator for StopAfter<I> {
    type Item = I::Item;

    type Error = I::Error;

    ghost contract = { parts_as stop_after_parts (stop_after_contract I.contract) };

    /// Draws once, and nothing after the last failure.
    fn next(&mut self) -> Result<Option<I::Item>, I::Error> {
        if self.to_fail == 0 {
            return Ok(None);
        }
        match self.it.next() {
            Ok(Some(x)) => {
                self.items = self.items.one_less();
                Ok(Some(x))
            }
            Ok(None) => Ok(None),
            Err(e) => {
                self.to_fail -= 1;
                Err(e)
            }
        }
    }

    fn size_hint(&self) -> (usize, Option<usize>) {
        if self.to_fail == 0 {
            (0, Some(0))
        } else {
            self.it.size_hint()
        }
    }

    ghost lawful = { lawful_parts stop_after_made (lawful_stop_after I.lawful) };
}
