// The source of one item.
ghost use Rattle.std.specs.Prelude.{Some, Ok, Result, Option};
ghost use Rattle.fallible_contract.specs.Contract.{parts_as};
ghost use Rattle.fallible_contract.specs.Ends.{ends_of, ends_parts_as};
ghost use Rattle.fallible_contract.specs.Laws.Contract.{lawful_parts};
ghost use Rattle.fallible_contract.specs.Laws.Ends.{lawful_ends_alike, lawful_ends_parts};
ghost use Rattle.fallible_iterator.specs.Sources.Once.{once_contract, once_made, once_parts};
ghost use Rattle.fallible_iterator.specs.Laws.Sources.Once.{lawful_once};

use fallible_core::{DoubleEndedFallibleIterator, FallibleIterator};
use std::marker::PhantomData;

/// One item. Then each call returns `Ok(None)`.
#[derive(Clone, Debug, Drop)]
pub struct Once<T, E> {
    pub(crate) value: Option<T>,
    pub(crate) error_type: PhantomData<E>,
}

impl<T: Drop, E> FallibleIterator for Once<T, E> {
    type Item = T;

    type Error = E;

    ghost contract = { parts_as once_parts once_contract };

    fn next(&mut self) -> Result<Option<T>, E> {
        Ok(self.value.take())
    }

    fn size_hint(&self) -> (usize, Option<usize>) {
        match &self.value {
            Some(_) => (1, Some(1)),
            None => (0, Some(0)),
        }
    }

    ghost lawful = { lawful_parts once_made lawful_once };
}

impl<T: Drop, E> DoubleEndedFallibleIterator for Once<T, E> {
    ghost ends = { ends_parts_as once_parts (ends_of once_contract) };

    fn next_back(&mut self) -> Result<Option<T>, E> {
        self.next()
    }

    ghost lawful_ends = { lawful_ends_parts once_made (lawful_ends_alike lawful_once) };
}
