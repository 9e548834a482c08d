// The source of one failure.
ghost use Rattle.std.specs.Prelude.{Some, Ok, Err, Result, Option};
ghost use Rattle.fallible_contract.specs.Contract.{parts_as};
ghost use Rattle.fallible_contract.specs.Ends.{ends_of, ends_parts_as};
ghost use Rattle.fallible_contract.specs.Laws.Contract.{lawful_parts};
ghost use Rattle.fallible_contract.specs.Laws.Ends.{lawful_ends_alike, lawful_ends_parts};
ghost use Rattle.fallible_iterator.specs.Sources.OnceErr.{once_err_contract, once_err_made, once_err_parts};
ghost use Rattle.fallible_iterator.specs.Laws.Sources.OnceErr.{lawful_once_err};

use fallible_core::{DoubleEndedFallibleIterator, FallibleIterator};
use std::marker::PhantomData;

/// One failure. Then each call returns `Ok(None)`.
#[derive(Clone, Debug, Drop)]
pub struct OnceErr<T, E> {
    pub(crate) item_type: PhantomData<T>,
    pub(crate) error: Option<E>,
}

impl<T, E: Drop> FallibleIterator for OnceErr<T, E> {
    type Item = T;

    type Error = E;

    ghost contract = { parts_as once_err_parts once_err_contract };

    fn next(&mut self) -> Result<Option<T>, E> {
        match self.error.take() {
            Some(e) => Err(e),
            None => Ok(None),
        }
    }

    fn size_hint(&self) -> (usize, Option<usize>) {
        (0, Some(0))
    }

    ghost lawful = { lawful_parts once_err_made lawful_once_err };
}

impl<T, E: Drop> DoubleEndedFallibleIterator for OnceErr<T, E> {
    ghost ends = { ends_parts_as once_err_parts (ends_of once_err_contract) };

    fn next_back(&mut self) -> Result<Option<T>, E> {
        self.next()
    }

    ghost lawful_ends = { lawful_ends_parts once_err_made (lawful_ends_alike lawful_once_err) };
}
