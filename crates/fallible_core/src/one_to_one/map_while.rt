// The adapter that maps each item, and returns `Ok(None)` where its closure returns `None`.
ghost use Rattle.fallible_contract.specs.Contract.{parts_as};
ghost use Rattle.fallible_contract.specs.Closures.{call_by_value, takes_by_value};
ghost use Rattle.fallible_contract.specs.Laws.Contract.{lawful_parts};
ghost use Rattle.fallible_core.specs.OneToOne.Scan.{scan_outcome};
ghost use Rattle.fallible_core.specs.OneToOne.MapWhile.{map_while_contract, map_while_made, map_while_parts};
ghost use Rattle.fallible_core.specs.Laws.OneToOne.MapWhile.{lawful_map_while};

use crate::passing::drive_passing;
use crate::traits::FallibleIterator;
use fallible_contract::folds::Turn;
use fallible_contract::passing::{Outcome, Pass, passed};

/// What the closure returns for each item. Where that is `None`, the adapter returns `Ok(None)`, and the next call draws again. If the closure fails, its failure is yielded, and the item is lost.
#[derive(Clone, Debug, Drop)]
pub struct MapWhile<I, F> {
    pub(crate) it: I,
    pub(crate) f: F,
}

impl<I: FallibleIterator, B, F: FnMut(I::Item) -> Result<Option<B>, I::Error>> FallibleIterator
    for MapWhile<I, F> {
    type Item = B;

    type Error = I::Error;

    ghost contract = { parts_as map_while_parts (map_while_contract I.contract F.FnMut) };

    /// Draws once, and calls the closure on an item.
    fn next(&mut self) -> Result<Option<B>, I::Error> {
        passed(self.it.next(), &mut self.f, &MapWhilePass)
    }

    fn size_hint(&self) -> (usize, Option<usize>) {
        (0, self.it.size_hint().1)
    }

    fn drive<C, R, K: Turn<C, B, R>>(
        &mut self,
        state: &mut C,
        turn: &K,
    ) -> Result<Option<R>, I::Error> {
        drive_passing(&mut self.it, &mut self.f, &MapWhilePass, state, turn)
    }

    ghost lawful = { lawful_parts map_while_made (lawful_map_while F.FnMut I.lawful) };
}

// What the closure makes of an item.
#[derive(Drop)]
struct MapWhilePass;

impl<X, B, E, F: FnMut(X) -> Result<Option<B>, E>> Pass<F, X, E> for MapWhilePass {
    type Kept = B;

    type Answer = Result<Option<B>, E>;

    ghost can_pass = { λ _ f x. takes_by_value F.FnMut f x };

    ghost call = { λ _ f x v g. call_by_value F.FnMut f x v g };

    ghost outcome = { λ _ x v. scan_outcome x v };

    #[inline(always)]
    fn pass(&self, state: &mut F, item: X) -> Outcome<B, E> {
        match state(item) {
            Ok(Some(y)) => Outcome::Kept(y),
            Ok(None) => Outcome::End,
            Err(e) => Outcome::Failure(e),
        }
    }
}
