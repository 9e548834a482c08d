// The adapter that calls a closure on each failure.
ghost use Rattle.std.specs.Prelude.{Result, Option};
ghost use Rattle.fallible_contract.specs.Contract.{parts_as};
ghost use Rattle.fallible_contract.specs.Closures.{call_by_value, takes_by_value};
ghost use Rattle.fallible_contract.specs.Ends.{from_back, ends_of, ends_parts_as};
ghost use Rattle.fallible_contract.specs.Laws.Contract.{lawful_parts};
ghost use Rattle.fallible_contract.specs.Laws.Ends.{lawful_ends_parts};
ghost use Rattle.fallible_core.specs.OneToOne.MapErr.{map_err_contract, map_err_made, map_err_parts};
ghost use Rattle.fallible_core.specs.Laws.OneToOne.MapErr.{lawful_map_err, lawful_ends_map_err};

use crate::failing::{drive_back_failing, drive_failing};
use crate::traits::FallibleIterator;
use crate::traits::double_ended::DoubleEndedFallibleIterator;
use fallible_contract::failing::{Fail, failed};
use fallible_contract::folds::Turn;
use fallible_contract::goals::Goal;

/// The source with each failure replaced by what the closure returns for it. Items and `Ok(None)` pass.
#[derive(Clone, Debug, Drop)]
pub struct MapErr<I, F> {
    pub(crate) it: I,
    pub(crate) f: F,
}

impl<I: FallibleIterator, B, F: FnMut(I::Error) -> B> FallibleIterator for MapErr<I, F> {
    type Item = I::Item;

    type Error = B;

    ghost contract = { parts_as map_err_parts (map_err_contract I.contract F.FnMut) };

    /// Draws once, and calls the closure if a failure came.
    fn next(&mut self) -> Result<Option<I::Item>, B> {
        failed(self.it.next(), &mut self.f, &MapErrFail)
    }

    fn size_hint(&self) -> (usize, Option<usize>) {
        self.it.size_hint()
    }

    fn drive<C, R, K: Turn<C, I::Item, R>>(
        &mut self,
        state: &mut C,
        turn: &K,
    ) -> Result<Option<R>, B> {
        drive_failing(&mut self.it, &mut self.f, &MapErrFail, state, turn)
    }

    /// What the source makes of the goal, or what the closure returns for the failure that it met.
    fn drive_to(&mut self, goal: &mut Goal<I::Item>) -> Result<Option<I::Item>, B>
    where
        I::Item: Drop,
    {
        failed(self.it.drive_to(goal), &mut self.f, &MapErrFail)
    }

    ghost lawful = { lawful_parts map_err_made (lawful_map_err F.FnMut I.lawful) };
}

impl<I: DoubleEndedFallibleIterator, B, F: FnMut(I::Error) -> B> DoubleEndedFallibleIterator
    for MapErr<I, F> {
    ghost ends = { ends_parts_as map_err_parts
        (ends_of (map_err_contract (from_back I.contract I.ends) F.FnMut)) };

    /// Draws once from the back, and calls the closure if a failure came.
    fn next_back(&mut self) -> Result<Option<I::Item>, B> {
        failed(self.it.next_back(), &mut self.f, &MapErrFail)
    }

    fn drive_back<C, R, K: Turn<C, I::Item, R>>(
        &mut self,
        state: &mut C,
        turn: &K,
    ) -> Result<Option<R>, B> {
        drive_back_failing(&mut self.it, &mut self.f, &MapErrFail, state, turn)
    }

    ghost lawful_ends = { lawful_ends_parts map_err_made
        (lawful_ends_map_err F.FnMut I.lawful_ends) };
}

// What the closure returns for a failure.
#[derive(Drop)]
struct MapErrFail;

impl<D, E, F: FnMut(D) -> E> Fail<F, D> for MapErrFail {
    type Failure = E;

    ghost can_fail = { λ _ f d. takes_by_value F.FnMut f d };

    ghost call = { λ _ f d e g. call_by_value F.FnMut f d e g };

    #[inline(always)]
    fn fail(&self, state: &mut F, failure: D) -> E {
        state(failure)
    }
}
