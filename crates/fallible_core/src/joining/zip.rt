// The adapter that pairs the items of two sources.
ghost use Rattle.std.specs.Prelude.{◌≡◌, Result, Option};
ghost use Rattle.fallible_contract.specs.Contract.{parts_as};
ghost use Rattle.fallible_contract.specs.Laws.Contract.{lawful_parts};
ghost use Rattle.fallible_core.specs.Joining.Zip.{zip_contract, zip_made, zip_parts};
ghost use Rattle.fallible_core.specs.Laws.Joining.Zip.{lawful_zip};

use crate::traits::FallibleIterator;
use fallible_contract::hints::smaller;

/// The pairs of the left's items and the right's, position by position. A failure of either side is yielded. Otherwise an `Ok(None)` of either side is returned. An item beside a failure or an `Ok(None)` is lost.
#[derive(Clone, Debug, Drop)]
pub struct Zip<T, U> {
    pub(crate) left: T,
    pub(crate) right: U,
}

impl<T: FallibleIterator, U: FallibleIterator<Error = T::Error>> FallibleIterator for Zip<T, U>
where
    T::Item: Drop,
    U::Item: Drop,
{
    type Item = (T::Item, U::Item);

    type Error = T::Error;

    ghost contract = { parts_as zip_parts (zip_contract T.contract U.contract) };

    /// Draws the left once, and then, unless that failed, the right once.
    fn next(&mut self) -> Result<Option<(T::Item, U::Item)>, T::Error> {
        let left = self.left.next()?;
        let right = self.right.next()?;
        match (left, right) {
            (Some(x), Some(y)) => Ok(Some((x, y))),
            (Some(_), None) => Ok(None),
            (None, _) => Ok(None),
        }
    }

    fn size_hint(&self) -> (usize, Option<usize>) {
        smaller(self.left.size_hint(), self.right.size_hint())
    }

    ghost lawful = { lawful_parts zip_made (lawful_zip T.lawful U.lawful) };
}
