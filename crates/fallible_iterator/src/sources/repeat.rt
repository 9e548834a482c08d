// The source of clones as items.
ghost use Rattle.std.specs.Prelude.{Some, Ok, Err, Result, Option};
ghost use Rattle.fallible_contract.specs.Contract.{parts_as};
ghost use Rattle.fallible_contract.specs.Laws.Contract.{lawful_parts};
ghost use Rattle.fallible_iterator.specs.Sources.Repeat.{repeat_contract, repeat_made, repeat_parts};
ghost use Rattle.fallible_iterator.specs.Laws.Sources.Repeat.{lawful_repeat};

use fallible_core::FallibleIterator;
use std::alloc::AllocError;
use std::marker::PhantomData;

/// A clone of one value as each item. The value stays.
///
/// Memory: if a clone can't be allocated, the failure converted from `AllocError` is yielded.
#[derive(Clone, Debug, Drop)]
pub struct Repeat<T, E> {
    pub(crate) value: T,
    pub(crate) error_type: PhantomData<E>,
}

impl<T: Clone, E: From<AllocError>> FallibleIterator for Repeat<T, E> {
    type Item = T;

    type Error = E;

    ghost contract = { parts_as repeat_parts
        (repeat_contract T.is_clone T.is_infallible E.from_gives) };

    /// Clones the value once.
    fn next(&mut self) -> Result<Option<T>, E> {
        match self.value.clone() {
            Ok(x) => Ok(Some(x)),
            Err(refused) => Err(E::from(refused)),
        }
    }

    fn size_hint(&self) -> (usize, Option<usize>) {
        (usize::MAX, None)
    }

    ghost lawful = { lawful_parts repeat_made
        (lawful_repeat T.is_clone T.is_infallible E.from_gives) };
}
