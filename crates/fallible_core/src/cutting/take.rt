// The adapter that ends after a number of items.
ghost use Rattle.std.specs.Prelude.{Result, Option};
ghost use Rattle.fallible_contract.specs.Contract.{parts_as};
ghost use Rattle.fallible_contract.specs.Laws.Contract.{lawful_parts};
ghost use Rattle.fallible_core.specs.Cutting.Take.{take_contract, take_made, take_parts};
ghost use Rattle.fallible_core.specs.Laws.Cutting.Take.{lawful_take};

use crate::traits::FallibleIterator;
use fallible_contract::hints::up_to;

/// What the source yields up to its n-th item. Then each call returns `Ok(None)`. Failures and `Ok(None)` of the source pass, and don't count.
#[derive(Clone, Debug, Drop)]
pub struct Take<I> {
    pub(crate) it: I,
    // how many items are still to be taken
    pub(crate) to_take: usize,
}

impl<I: FallibleIterator> FallibleIterator for Take<I> {
    type Item = I::Item;

    type Error = I::Error;

    ghost contract = { parts_as take_parts (take_contract I.contract) };

    /// Draws once, and nothing if no item is left to take.
    fn next(&mut self) -> Result<Option<I::Item>, I::Error> {
        if self.to_take == 0 {
            return Ok(None);
        }
        match self.it.next()? {
            Some(x) => {
                self.to_take -= 1;
                Ok(Some(x))
            }
            None => Ok(None),
        }
    }

    fn size_hint(&self) -> (usize, Option<usize>) {
        up_to(self.it.size_hint(), self.to_take)
    }

    ghost lawful = { lawful_parts take_made (lawful_take I.lawful) };
}
