// The adapter that clones what each item points to.
ghost use Rattle.std.specs.Prelude.{⊤, Some, Result, Option};
ghost use Rattle.fallible_contract.specs.Contract.{parts_as};
ghost use Rattle.fallible_contract.specs.Ends.{from_back, ends_of, ends_parts_as};
ghost use Rattle.fallible_contract.specs.Laws.Contract.{lawful_parts};
ghost use Rattle.fallible_contract.specs.Laws.Ends.{lawful_ends_parts};
ghost use Rattle.fallible_core.specs.OneToOne.Map.{map_outcome};
ghost use Rattle.fallible_core.specs.OneToOne.Cloned.{cloned_call, cloned_contract, cloned_made, cloned_parts};
ghost use Rattle.fallible_core.specs.Laws.OneToOne.Cloned.{lawful_cloned, lawful_ends_cloned};

use crate::passing::{drive_back_passing, drive_passing};
use crate::traits::FallibleIterator;
use crate::traits::double_ended::DoubleEndedFallibleIterator;
use fallible_contract::folds::Turn;
use fallible_contract::passing::{Outcome, Pass, passed};
use std::alloc::AllocError;

/// A clone of what each item points to.
///
/// Memory: if a clone can't be allocated, the failure converted from `AllocError` is yielded, and the item is lost.
#[derive(Clone, Debug, Drop)]
pub struct Cloned<I> {
    pub(crate) it: I,
}

impl<'a, T: Clone + 'a, I: FallibleIterator<Item = &'a T>> FallibleIterator for Cloned<I>
where
    I::Error: From<AllocError>,
{
    type Item = T;

    type Error = I::Error;

    ghost contract = { parts_as cloned_parts (cloned_contract T.is_clone T.is_infallible
        I.Error.from_gives I.contract) };

    /// Draws once, and returns a clone of what the item points to.
    fn next(&mut self) -> Result<Option<T>, I::Error> {
        passed(self.it.next(), &mut (), &ClonePass)
    }

    fn size_hint(&self) -> (usize, Option<usize>) {
        self.it.size_hint()
    }

    fn drive<C, R, K: Turn<C, T, R>>(
        &mut self,
        state: &mut C,
        turn: &K,
    ) -> Result<Option<R>, I::Error> {
        drive_passing(&mut self.it, &mut (), &ClonePass, state, turn)
    }

    ghost lawful = { lawful_parts cloned_made
        (lawful_cloned T.is_clone T.is_infallible I.Error.from_gives I.lawful) };
}

impl<'a, T: Clone + 'a, I: DoubleEndedFallibleIterator<Item = &'a T>> DoubleEndedFallibleIterator
    for Cloned<I>
where
    I::Error: From<AllocError>,
{
    ghost ends = { ends_parts_as cloned_parts (ends_of (cloned_contract T.is_clone T.is_infallible
        I.Error.from_gives (from_back I.contract I.ends))) };

    /// Draws once from the back, and returns a clone of what the item points to.
    fn next_back(&mut self) -> Result<Option<T>, I::Error> {
        passed(self.it.next_back(), &mut (), &ClonePass)
    }

    fn drive_back<C, R, K: Turn<C, T, R>>(
        &mut self,
        state: &mut C,
        turn: &K,
    ) -> Result<Option<R>, I::Error> {
        drive_back_passing(&mut self.it, &mut (), &ClonePass, state, turn)
    }

    ghost lawful_ends = { lawful_ends_parts cloned_made
        (lawful_ends_cloned T.is_clone T.is_infallible I.Error.from_gives I.lawful_ends) };
}

// A clone of what an item points to. It keeps no state.
#[derive(Drop)]
struct ClonePass;

impl<'b, T: Clone + 'b, E: From<AllocError>> Pass<(), &'b T, E> for ClonePass {
    type Kept = T;

    type Answer = Result<T, E>;

    ghost can_pass = { λ _ _ _. ⊤ };

    ghost call = { λ _ u x v w. cloned_call T.is_clone T.is_infallible E.from_gives u x v w };

    ghost outcome = { λ _ x v. map_outcome x v };

    #[inline(always)]
    fn pass(&self, _state: &mut (), item: &'b T) -> Outcome<T, E> {
        match T::clone(item) {
            Ok(y) => Outcome::Kept(y),
            Err(refused) => Outcome::Failure(E::from(refused)),
        }
    }
}
