// The source of clones as failures.
ghost use Rattle.std.specs.Prelude.{Some, Ok, Err, Result, Option};
ghost use Rattle.fallible_contract.specs.Contract.{parts_as};
ghost use Rattle.fallible_contract.specs.Laws.Contract.{lawful_parts};
ghost use Rattle.fallible_iterator.specs.Sources.RepeatErr.{repeat_err_contract, repeat_err_made, repeat_err_parts};
ghost use Rattle.fallible_iterator.specs.Laws.Sources.RepeatErr.{lawful_repeat_err};

use fallible_core::FallibleIterator;
use std::alloc::AllocError;
use std::marker::PhantomData;

/// A clone of one error as each failure. The error stays.
///
/// Memory: if a clone can't be allocated, the failure is the one converted from `AllocError`.
#[derive(Clone, Debug, Drop)]
pub struct RepeatErr<T, E> {
    pub(crate) item_type: PhantomData<T>,
    pub(crate) error: E,
}

impl<T, E: Clone + From<AllocError>> FallibleIterator for RepeatErr<T, E> {
    type Item = T;

    type Error = E;

    ghost contract = { parts_as repeat_err_parts
        (repeat_err_contract E.is_clone E.is_infallible E.from_gives) };

    /// Clones the error once.
    fn next(&mut self) -> Result<Option<T>, E> {
        match self.error.clone() {
            Ok(e) => Err(e),
            Err(refused) => Err(E::from(refused)),
        }
    }

    fn size_hint(&self) -> (usize, Option<usize>) {
        (0, Some(0))
    }

    ghost lawful = { lawful_parts repeat_err_made
        (lawful_repeat_err E.is_clone E.is_infallible E.from_gives) };
}
