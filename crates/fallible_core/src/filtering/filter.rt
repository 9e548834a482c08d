// The adapter that leaves out the items that a predicate rejects.
ghost use Rattle.std.specs.Prelude.{Result, Option};
ghost use Rattle.fallible_contract.specs.Contract.{parts_as};
ghost use Rattle.fallible_contract.specs.Closures.{call_by_reference, takes_by_reference};
ghost use Rattle.fallible_contract.specs.Ends.{from_back, ends_of, ends_parts_as};
ghost use Rattle.fallible_contract.specs.Laws.Contract.{lawful_parts};
ghost use Rattle.fallible_contract.specs.Laws.Ends.{lawful_ends_parts};
ghost use Rattle.fallible_core.specs.Filtering.Filter.{tested_outcome, filter_contract, filter_made, filter_parts};
ghost use Rattle.fallible_core.specs.Laws.Filtering.Filter.{lawful_filter, lawful_ends_filter};

use crate::passing::{PassDrawTurn, drive_back_passing, drive_count_passing, drive_passing};
use crate::traits::FallibleIterator;
use crate::traits::double_ended::DoubleEndedFallibleIterator;
use fallible_contract::folds::{LastTurn, NthTurn, Turn, answer_within};
use fallible_contract::goals::Goal;
use fallible_contract::passing::{Outcome, Pass};

/// The items for which the predicate returns true. An item on which it fails is lost, and its failure is yielded.
#[derive(Clone, Debug, Drop)]
pub struct Filter<I, F> {
    pub(crate) it: I,
    pub(crate) f: F,
}

impl<I: FallibleIterator, F: FnMut(&I::Item) -> Result<bool, I::Error>> FallibleIterator
    for Filter<I, F>
where
    I::Item: Drop,
{
    type Item = I::Item;

    type Error = I::Error;

    ghost contract = { parts_as filter_parts (filter_contract I.contract F.FnMut) };

    /// Draws until an item is kept, or a failure or `Ok(None)` comes. It calls the predicate on each item.
    fn next(&mut self) -> Result<Option<I::Item>, I::Error> {
        let turn = PassDrawTurn {
            adapter: &FilterPass,
        };
        answer_within(self.it.drive(&mut self.f, &turn))
    }

    fn size_hint(&self) -> (usize, Option<usize>) {
        (0, self.it.size_hint().1)
    }

    fn drive<C, R, K: Turn<C, I::Item, R>>(
        &mut self,
        state: &mut C,
        turn: &K,
    ) -> Result<Option<R>, I::Error> {
        drive_passing(&mut self.it, &mut self.f, &FilterPass, state, turn)
    }

    /// One fold of the source. A count adds one for each item that is kept.
    fn drive_to(&mut self, goal: &mut Goal<I::Item>) -> Result<Option<I::Item>, I::Error> {
        match goal {
            Goal::Count(number) => {
                match drive_count_passing(&mut self.it, &mut self.f, &FilterPass, number) {
                    Ok(None) => Ok(None),
                    Ok(Some(never)) => match never {},
                    Err(e) => Err(e),
                }
            }
            Goal::Last(item) => match self.drive(item, &LastTurn) {
                Ok(None) => Ok(None),
                Ok(Some(never)) => match never {},
                Err(e) => Err(e),
            },
            Goal::Nth(left) => self.drive(left, &NthTurn),
        }
    }

    ghost lawful = { lawful_parts filter_made (lawful_filter F.FnMut I.lawful) };
}

impl<
    I: DoubleEndedFallibleIterator,
    F: FnMut(&I::Item) -> Result<bool, I::Error>,
> DoubleEndedFallibleIterator for Filter<I, F>
where
    I::Item: Drop,
{
    ghost ends = { ends_parts_as filter_parts
        (ends_of (filter_contract (from_back I.contract I.ends) F.FnMut)) };

    /// Draws from the back until an item is kept, or a failure or `Ok(None)` comes. It calls the predicate on each item.
    fn next_back(&mut self) -> Result<Option<I::Item>, I::Error> {
        let turn = PassDrawTurn {
            adapter: &FilterPass,
        };
        answer_within(self.it.drive_back(&mut self.f, &turn))
    }

    fn drive_back<C, R, K: Turn<C, I::Item, R>>(
        &mut self,
        state: &mut C,
        turn: &K,
    ) -> Result<Option<R>, I::Error> {
        drive_back_passing(&mut self.it, &mut self.f, &FilterPass, state, turn)
    }

    ghost lawful_ends = { lawful_ends_parts
        filter_made (lawful_ends_filter F.FnMut I.lawful_ends) };
}

// What becomes of an item by the predicate's result.
#[derive(Drop)]
struct FilterPass;

impl<X: Drop, E, F: FnMut(&X) -> Result<bool, E>> Pass<F, X, E> for FilterPass {
    type Kept = X;

    type Answer = Result<bool, E>;

    ghost can_pass = { λ _ f x. takes_by_reference F.FnMut f x };

    ghost call = { λ _ f x v g. call_by_reference F.FnMut f x v g };

    ghost outcome = { λ _ x v. tested_outcome x v };

    #[inline(always)]
    fn pass(&self, state: &mut F, item: X) -> Outcome<X, E> {
        match state(&item) {
            Ok(true) => Outcome::Kept(item),
            Ok(false) => Outcome::LeftOut,
            Err(e) => Outcome::Failure(e),
        }
    }
}
