// The source of nothing.
ghost use Rattle.std.proofs.Common.{refl};
ghost use Rattle.std.specs.Prelude.{Some, Ok, Result, Option};
ghost use Rattle.fallible_contract.specs.Ends.{ends_of};
ghost use Rattle.fallible_contract.specs.Laws.Ends.{lawful_ends_alike};
ghost use Rattle.fallible_iterator.specs.Sources.Empty.{empty_contract};
ghost use Rattle.fallible_iterator.specs.Laws.Sources.Empty.{lawful_empty};

use fallible_core::{DoubleEndedFallibleIterator, FallibleIterator};
use std::marker::PhantomData;

/// Yields nothing: each call returns `Ok(None)`.
#[derive(Clone, Debug, Drop)]
pub struct Empty<T, E> {
    pub(crate) item_type: PhantomData<T>,
    pub(crate) error_type: PhantomData<E>,
}

impl<T, E> FallibleIterator for Empty<T, E> {
    type Item = T;

    type Error = E;

    ghost contract = { empty_contract };

    fn next(&mut self) -> Result<Option<T>, E> {
        Ok(None)
    }

    fn size_hint(&self) -> (usize, Option<usize>) {
        (0, Some(0))
    }

    ghost lawful = { lawful_empty (λ s t. refl) };
}

impl<T, E> DoubleEndedFallibleIterator for Empty<T, E> {
    ghost ends = { ends_of empty_contract };

    fn next_back(&mut self) -> Result<Option<T>, E> {
        Ok(None)
    }

    ghost lawful_ends = { lawful_ends_alike (lawful_empty (λ s t. refl)) };
}
