// The adapter that calls a closure on a reference to each item.
ghost use Rattle.std.specs.Prelude.{Some, Result, Option};
ghost use Rattle.fallible_contract.specs.Contract.{parts_as};
ghost use Rattle.fallible_contract.specs.Closures.{call_by_reference, takes_by_reference};
ghost use Rattle.fallible_contract.specs.Ends.{from_back, ends_of, ends_parts_as};
ghost use Rattle.fallible_contract.specs.Laws.Contract.{lawful_parts};
ghost use Rattle.fallible_contract.specs.Laws.Ends.{lawful_ends_parts};
ghost use Rattle.fallible_core.specs.OneToOne.Inspect.{inspect_contract, inspect_outcome, inspect_made, inspect_parts};
ghost use Rattle.fallible_core.specs.Laws.OneToOne.Inspect.{lawful_inspect, lawful_ends_inspect};

use crate::passing::{drive_back_passing, drive_passing};
use crate::traits::FallibleIterator;
use crate::traits::double_ended::DoubleEndedFallibleIterator;
use fallible_contract::folds::Turn;
use fallible_contract::passing::{Outcome, Pass, passed};

/// The items of the source. The closure is called on a reference to each first. An item on which it fails is lost, and its failure is yielded.
#[derive(Clone, Debug, Drop)]
pub struct Inspect<I, F> {
    pub(crate) it: I,
    pub(crate) f: F,
}

impl<I: FallibleIterator, F: FnMut(&I::Item) -> Result<(), I::Error>> FallibleIterator
    for Inspect<I, F>
where
    I::Item: Drop,
{
    type Item = I::Item;

    type Error = I::Error;

    ghost contract = { parts_as inspect_parts (inspect_contract I.contract F.FnMut) };

    /// Draws once, and calls the closure on an item.
    fn next(&mut self) -> Result<Option<I::Item>, I::Error> {
        passed(self.it.next(), &mut self.f, &InspectPass)
    }

    fn size_hint(&self) -> (usize, Option<usize>) {
        self.it.size_hint()
    }

    fn drive<C, R, K: Turn<C, I::Item, R>>(
        &mut self,
        state: &mut C,
        turn: &K,
    ) -> Result<Option<R>, I::Error> {
        drive_passing(&mut self.it, &mut self.f, &InspectPass, state, turn)
    }

    ghost lawful = { lawful_parts inspect_made (lawful_inspect F.FnMut I.lawful) };
}

impl<
    I: DoubleEndedFallibleIterator,
    F: FnMut(&I::Item) -> Result<(), I::Error>,
> DoubleEndedFallibleIterator for Inspect<I, F>
where
    I::Item: Drop,
{
    ghost ends = { ends_parts_as inspect_parts
        (ends_of (inspect_contract (from_back I.contract I.ends) F.FnMut)) };

    /// Draws once from the back, and calls the closure on an item.
    fn next_back(&mut self) -> Result<Option<I::Item>, I::Error> {
        passed(self.it.next_back(), &mut self.f, &InspectPass)
    }

    fn drive_back<C, R, K: Turn<C, I::Item, R>>(
        &mut self,
        state: &mut C,
        turn: &K,
    ) -> Result<Option<R>, I::Error> {
        drive_back_passing(&mut self.it, &mut self.f, &InspectPass, state, turn)
    }

    ghost lawful_ends = { lawful_ends_parts inspect_made
        (lawful_ends_inspect F.FnMut I.lawful_ends) };
}

// What becomes of an item after the closure's call.
#[derive(Drop)]
struct InspectPass;

impl<X: Drop, E, F: FnMut(&X) -> Result<(), E>> Pass<F, X, E> for InspectPass {
    type Kept = X;

    type Answer = Result<(), E>;

    ghost can_pass = { λ _ f x. takes_by_reference F.FnMut f x };

    ghost call = { λ _ f x v g. call_by_reference F.FnMut f x v g };

    ghost outcome = { λ _ x v. inspect_outcome x v };

    #[inline(always)]
    fn pass(&self, state: &mut F, item: X) -> Outcome<X, E> {
        match state(&item) {
            Ok(()) => Outcome::Kept(item),
            Err(e) => Outcome::Failure(e),
        }
    }
}
