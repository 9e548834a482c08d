// The adapter that leaves out the items for which its closure returns `None`.
ghost use Rattle.std.specs.Prelude.{Result, Option};
ghost use Rattle.fallible_contract.specs.Contract.{parts_as};
ghost use Rattle.fallible_contract.specs.Closures.{call_by_value, takes_by_value};
ghost use Rattle.fallible_contract.specs.Ends.{from_back, ends_of, ends_parts_as};
ghost use Rattle.fallible_contract.specs.Laws.Contract.{lawful_parts};
ghost use Rattle.fallible_contract.specs.Laws.Ends.{lawful_ends_parts};
ghost use Rattle.fallible_core.specs.Filtering.FilterMap.{filter_map_outcome, filter_map_contract, filter_map_made, filter_map_parts};
ghost use Rattle.fallible_core.specs.Laws.Filtering.FilterMap.{lawful_filter_map, lawful_ends_filter_map};

use crate::passing::{drive_back_passing, drive_count_passing, drive_passing};
use crate::traits::FallibleIterator;
use crate::traits::double_ended::DoubleEndedFallibleIterator;
use fallible_contract::folds::{LastTurn, NthTurn, Turn, answer_within};
use fallible_contract::goals::Goal;
use fallible_contract::passing::{Outcome, Pass};
use fallible_contract::searching::FindMapTurn;

/// The values that the closure returns. An item for which it returns `None` is left out; an item on which it fails is lost, and its failure is yielded.
#[derive(Clone, Debug, Drop)]
pub struct FilterMap<I, F> {
    pub(crate) it: I,
    pub(crate) f: F,
}

impl<I: FallibleIterator, B, F: FnMut(I::Item) -> Result<Option<B>, I::Error>> FallibleIterator
    for FilterMap<I, F> {
    type Item = B;

    type Error = I::Error;

    ghost contract = { parts_as filter_map_parts (filter_map_contract I.contract F.FnMut) };

    /// Draws until the closure returns a value, or a failure or `Ok(None)` comes. It calls the closure on each item.
    fn next(&mut self) -> Result<Option<B>, I::Error> {
        answer_within(self.it.drive(&mut self.f, &FindMapTurn))
    }

    fn size_hint(&self) -> (usize, Option<usize>) {
        (0, self.it.size_hint().1)
    }

    fn drive<C, R, K: Turn<C, B, R>>(
        &mut self,
        state: &mut C,
        turn: &K,
    ) -> Result<Option<R>, I::Error> {
        drive_passing(&mut self.it, &mut self.f, &FilterMapPass, state, turn)
    }

    /// One fold of the source. A count adds one for each item for which the closure returns a value.
    fn drive_to(&mut self, goal: &mut Goal<B>) -> Result<Option<B>, I::Error>
    where
        B: Drop,
    {
        match goal {
            Goal::Count(number) => {
                match drive_count_passing(&mut self.it, &mut self.f, &FilterMapPass, number) {
                    Ok(None) => Ok(None),
                    Ok(Some(never)) => match never {},
                    Err(e) => Err(e),
                }
            }
            Goal::Last(item) => match self.drive(item, &LastTurn) {
                Ok(None) => Ok(None),
                Ok(Some(never)) => match never {},
                Err(e) => Err(e),
            },
            Goal::Nth(left) => self.drive(left, &NthTurn),
        }
    }

    ghost lawful = { lawful_parts filter_map_made (lawful_filter_map F.FnMut I.lawful) };
}

impl<
    I: DoubleEndedFallibleIterator,
    B,
    F: FnMut(I::Item) -> Result<Option<B>, I::Error>,
> DoubleEndedFallibleIterator for FilterMap<I, F> {
    ghost ends = { ends_parts_as filter_map_parts
        (ends_of (filter_map_contract (from_back I.contract I.ends) F.FnMut)) };

    /// Draws from the back until the closure returns a value, or a failure or `Ok(None)` comes. It calls the closure on each item.
    fn next_back(&mut self) -> Result<Option<B>, I::Error> {
        answer_within(self.it.drive_back(&mut self.f, &FindMapTurn))
    }

    fn drive_back<C, R, K: Turn<C, B, R>>(
        &mut self,
        state: &mut C,
        turn: &K,
    ) -> Result<Option<R>, I::Error> {
        drive_back_passing(&mut self.it, &mut self.f, &FilterMapPass, state, turn)
    }

    ghost lawful_ends = { lawful_ends_parts filter_map_made
        (lawful_ends_filter_map F.FnMut I.lawful_ends) };
}

// What becomes of an item by the closure's result.
#[derive(Drop)]
struct FilterMapPass;

impl<X, B, E, F: FnMut(X) -> Result<Option<B>, E>> Pass<F, X, E> for FilterMapPass {
    type Kept = B;

    type Answer = Result<Option<B>, E>;

    ghost can_pass = { λ _ f x. takes_by_value F.FnMut f x };

    ghost call = { λ _ f x v g. call_by_value F.FnMut f x v g };

    ghost outcome = { λ _ x v. filter_map_outcome x v };

    #[inline(always)]
    fn pass(&self, state: &mut F, item: X) -> Outcome<B, E> {
        match state(item) {
            Ok(Some(y)) => Outcome::Kept(y),
            Ok(None) => Outcome::LeftOut,
            Err(e) => Outcome::Failure(e),
        }
    }
}
