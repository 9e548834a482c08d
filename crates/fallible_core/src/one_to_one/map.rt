// The adapter that calls a closure on each item.
ghost use Rattle.std.specs.Prelude.{Some, Result, Option};
ghost use Rattle.fallible_contract.specs.Contract.{parts_as};
ghost use Rattle.fallible_contract.specs.Closures.{call_by_value, takes_by_value};
ghost use Rattle.fallible_contract.specs.Ends.{from_back, ends_of, ends_parts_as};
ghost use Rattle.fallible_contract.specs.Laws.Contract.{lawful_parts};
ghost use Rattle.fallible_contract.specs.Laws.Ends.{lawful_ends_parts};
ghost use Rattle.fallible_core.specs.OneToOne.Map.{map_contract, map_outcome, map_made, map_parts};
ghost use Rattle.fallible_core.specs.Laws.OneToOne.Map.{lawful_map, lawful_ends_map};

use crate::passing::{drive_back_passing, drive_passing};
use crate::traits::FallibleIterator;
use crate::traits::double_ended::DoubleEndedFallibleIterator;
use fallible_contract::folds::Turn;
use fallible_contract::passing::{Outcome, Pass, passed};
use std::fmt;

/// What the closure returns for each item. If it fails, its failure is yielded, and the item is lost.
#[derive(Clone, Drop)]
pub struct Map<T, F> {
    pub(crate) it: T,
    pub(crate) f: F,
}

// It requires nothing of the closure.
impl<T: fmt::Debug, F> fmt::Debug for Map<T, F> {
    fn fmt<W: fmt::Write>(&self, f: &mut fmt::Formatter<W>) -> fmt::Result {
        let it = &self.it;
        write!(f, "Map {{ it: {it:?} }}")
    }
}

impl<I: FallibleIterator, B, F: FnMut(I::Item) -> Result<B, I::Error>> FallibleIterator
    for Map<I, F> {
    type Item = B;

    type Error = I::Error;

    ghost contract = { parts_as map_parts (map_contract I.contract F.FnMut) };

    /// Draws once, and calls the closure on an item.
    fn next(&mut self) -> Result<Option<B>, I::Error> {
        passed(self.it.next(), &mut self.f, &MapPass)
    }

    fn size_hint(&self) -> (usize, Option<usize>) {
        self.it.size_hint()
    }

    fn drive<C, R, K: Turn<C, B, R>>(
        &mut self,
        state: &mut C,
        turn: &K,
    ) -> Result<Option<R>, I::Error> {
        drive_passing(&mut self.it, &mut self.f, &MapPass, state, turn)
    }

    ghost lawful = { lawful_parts map_made (lawful_map F.FnMut I.lawful) };
}

impl<
    I: DoubleEndedFallibleIterator,
    B,
    F: FnMut(I::Item) -> Result<B, I::Error>,
> DoubleEndedFallibleIterator for Map<I, F> {
    ghost ends = { ends_parts_as map_parts
        (ends_of (map_contract (from_back I.contract I.ends) F.FnMut)) };

    /// Draws once from the back, and calls the closure on an item.
    fn next_back(&mut self) -> Result<Option<B>, I::Error> {
        passed(self.it.next_back(), &mut self.f, &MapPass)
    }

    fn drive_back<C, R, K: Turn<C, B, R>>(
        &mut self,
        state: &mut C,
        turn: &K,
    ) -> Result<Option<R>, I::Error> {
        drive_back_passing(&mut self.it, &mut self.f, &MapPass, state, turn)
    }

    ghost lawful_ends = { lawful_ends_parts map_made (lawful_ends_map F.FnMut I.lawful_ends) };
}

// What the closure makes of an item.
#[derive(Drop)]
struct MapPass;

impl<X, B, E, F: FnMut(X) -> Result<B, E>> Pass<F, X, E> for MapPass {
    type Kept = B;

    type Answer = Result<B, E>;

    ghost can_pass = { λ _ f x. takes_by_value F.FnMut f x };

    ghost call = { λ _ f x v g. call_by_value F.FnMut f x v g };

    ghost outcome = { λ _ x v. map_outcome x v };

    #[inline(always)]
    fn pass(&self, state: &mut F, item: X) -> Outcome<B, E> {
        match state(item) {
            Ok(y) => Outcome::Kept(y),
            Err(e) => Outcome::Failure(e),
        }
    }
}
