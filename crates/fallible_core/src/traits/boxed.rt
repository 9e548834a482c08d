// A fallible iterator in a `Box` behaves as the iterator itself.
ghost use Rattle.std.specs.Prelude.{Result, Option};
ghost use Rattle.fallible_contract.specs.Ends.{from_back, ends_of};
ghost use Rattle.fallible_core.specs.Borrowed.{boxed};
ghost use Rattle.fallible_core.specs.Laws.Borrowed.{lawful_boxed, lawful_ends_boxed};

use crate::traits::FallibleIterator;
use crate::traits::double_ended::DoubleEndedFallibleIterator;
use fallible_contract::folds::Turn;
use fallible_contract::goals::Goal;

impl<I: FallibleIterator> FallibleIterator for Box<I> {
    type Item = I::Item;

    type Error = I::Error;

    ghost contract = { boxed I.contract };

    fn next(&mut self) -> Result<Option<I::Item>, I::Error> {
        (**self).next()
    }

    fn size_hint(&self) -> (usize, Option<usize>) {
        (**self).size_hint()
    }

    fn drive<C, R, K: Turn<C, I::Item, R>>(
        &mut self,
        state: &mut C,
        turn: &K,
    ) -> Result<Option<R>, I::Error> {
        (**self).drive(state, turn)
    }

    fn drive_to(&mut self, goal: &mut Goal<I::Item>) -> Result<Option<I::Item>, I::Error>
    where
        I::Item: Drop,
    {
        (**self).drive_to(goal)
    }

    ghost lawful = { lawful_boxed I.lawful };
}

impl<I: DoubleEndedFallibleIterator> DoubleEndedFallibleIterator for Box<I> {
    ghost ends = { ends_of (boxed (from_back I.contract I.ends)) };

    fn next_back(&mut self) -> Result<Option<I::Item>, I::Error> {
        (**self).next_back()
    }

    fn drive_back<C, R, K: Turn<C, I::Item, R>>(
        &mut self,
        state: &mut C,
        turn: &K,
    ) -> Result<Option<R>, I::Error> {
        (**self).drive_back(state, turn)
    }

    ghost lawful_ends = { lawful_ends_boxed I.lawful_ends };
}
