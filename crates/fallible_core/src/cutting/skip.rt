// The adapter that skips the first items.
ghost use Rattle.std.specs.Prelude.{Result, Option};
ghost use Rattle.fallible_contract.specs.Contract.{parts_as};
ghost use Rattle.fallible_contract.specs.Laws.Contract.{lawful_parts};
ghost use Rattle.fallible_core.specs.Cutting.Skip.{skip_contract, skip_made, skip_parts};
ghost use Rattle.fallible_core.specs.Laws.Cutting.Skip.{lawful_skip};

use crate::cutting::by_number::next_past;
use crate::traits::FallibleIterator;
use fallible_contract::folds::{NthTurn, Turn};
use fallible_contract::hints::less;
use std::ops::ControlFlow;

/// What the source yields without its first n items. Failures and `Ok(None)` stay, and don't count.
#[derive(Clone, Debug, Drop)]
pub struct Skip<I> {
    pub(crate) it: I,
    // how many items are still to be skipped
    pub(crate) to_skip: usize,
}

impl<I: FallibleIterator> FallibleIterator for Skip<I>
where
    I::Item: Drop,
{
    type Item = I::Item;

    type Error = I::Error;

    ghost contract = { parts_as skip_parts (skip_contract I.contract) };

    /// Draws the items that are still to be skipped, and then once more. A failure or an `Ok(None)` among them is returned, and the rest of them is skipped from the next call on.
    fn next(&mut self) -> Result<Option<I::Item>, I::Error> {
        next_past(&mut self.it, &mut self.to_skip)
    }

    fn size_hint(&self) -> (usize, Option<usize>) {
        less(self.it.size_hint(), self.to_skip)
    }

    /// One fold of the source up to the first item that stays, and after that item another one of the rest.
    fn drive<C, R, K: Turn<C, I::Item, R>>(
        &mut self,
        state: &mut C,
        turn: &K,
    ) -> Result<Option<R>, I::Error> {
        match self.it.drive(&mut self.to_skip, &NthTurn) {
            Ok(Some(x)) => match turn.turn(state, x) {
                ControlFlow::Continue(()) => self.it.drive(state, turn),
                ControlFlow::Break(stop) => Ok(Some(stop)),
            },
            Ok(None) => Ok(None),
            Err(e) => Err(e),
        }
    }

    ghost lawful = { lawful_parts skip_made (lawful_skip I.lawful) };
}
