// The adapter that swaps the ends.
ghost use Rattle.std.specs.Prelude.{Result, Option};
ghost use Rattle.fallible_contract.specs.Contract.{parts_as};
ghost use Rattle.fallible_contract.specs.Ends.{from_front, ends_of, ends_parts_as};
ghost use Rattle.fallible_contract.specs.Laws.Contract.{lawful_parts};
ghost use Rattle.fallible_contract.specs.Laws.Ends.{lawful_ends_parts, lawful_ends_swapped};
ghost use Rattle.fallible_core.specs.Ends.Rev.{rev_contract, rev_made, rev_parts};

use crate::traits::FallibleIterator;
use crate::traits::double_ended::DoubleEndedFallibleIterator;
use fallible_contract::folds::Turn;

/// The source with its ends swapped: a draw from the front is a draw of the source from the back, and the other way round.
#[derive(Clone, Debug, Drop)]
pub struct Rev<I> {
    pub(crate) it: I,
}

impl<I: DoubleEndedFallibleIterator> FallibleIterator for Rev<I> {
    type Item = I::Item;

    type Error = I::Error;

    ghost contract = { parts_as rev_parts (rev_contract I.contract I.ends) };

    /// Draws the source once from the back.
    fn next(&mut self) -> Result<Option<I::Item>, I::Error> {
        self.it.next_back()
    }

    fn size_hint(&self) -> (usize, Option<usize>) {
        self.it.size_hint()
    }

    fn drive<C, R, K: Turn<C, I::Item, R>>(
        &mut self,
        state: &mut C,
        turn: &K,
    ) -> Result<Option<R>, I::Error> {
        self.it.drive_back(state, turn)
    }

    ghost lawful = { lawful_parts rev_made I.lawful_ends.back };
}

impl<I: DoubleEndedFallibleIterator> DoubleEndedFallibleIterator for Rev<I> {
    ghost ends = { ends_parts_as rev_parts (ends_of (from_front I.contract I.ends)) };

    /// Draws the source once from the front.
    fn next_back(&mut self) -> Result<Option<I::Item>, I::Error> {
        self.it.next()
    }

    fn drive_back<C, R, K: Turn<C, I::Item, R>>(
        &mut self,
        state: &mut C,
        turn: &K,
    ) -> Result<Option<R>, I::Error> {
        self.it.drive(state, turn)
    }

    ghost lawful_ends = { lawful_ends_parts rev_made (lawful_ends_swapped I.lawful_ends) };
}
