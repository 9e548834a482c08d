// The adapter that yields what the inner iterators yield which a closure makes.
ghost use Rattle.std.specs.Prelude.{Option, Result};
ghost use Rattle.fallible_contract.specs.Contract.{parts_as};
ghost use Rattle.fallible_contract.specs.Laws.Contract.{lawful_parts};
ghost use Rattle.fallible_core.specs.Joining.FlatMap.{flat_map_contract, flat_map_made, flat_map_parts};
ghost use Rattle.fallible_core.specs.Laws.Joining.FlatMap.{lawful_flat_map};

use crate::joining::flatten::{drive_joined, next_joined};
use crate::one_to_one::Map;
use crate::traits::FallibleIterator;
use crate::traits::conversion::IntoFallibleIterator;
use fallible_contract::folds::Turn;
use std::marker::PhantomData;

/// What the inner iterators yield that the closure makes of the items, as `Flatten`. `J` is what a result of the closure becomes, and no caller writes it. If the closure fails, its failure is yielded, and that item is lost.
#[derive(Drop)]
#[derive_where(Clone; I, F, J)]
#[derive_where(Debug; I, J)]
pub struct FlatMap<I, U, F, J = <U as IntoFallibleIterator>::IntoFallibleIter> {
    pub(crate) it: Map<I, F>,
    pub(crate) in_hand: Option<J>,
    #[derive_where(skip)]
    pub(crate) made: PhantomData<U>,
}

impl<
    U: IntoFallibleIterator,
    I: FallibleIterator<Error = U::Error>,
    F: FnMut(I::Item) -> Result<U, U::Error>,
> FallibleIterator for FlatMap<I, U, F> {
    type Item = U::Item;

    type Error = U::Error;

    ghost contract = { parts_as flat_map_parts
        (flat_map_contract I.contract F.FnMut U.into_gives U.IntoFallibleIter.contract) };

    /// Draws as `Flatten` does, and calls the closure once on each item that it draws.
    fn next(&mut self) -> Result<Option<U::Item>, U::Error> {
        next_joined(&mut self.it, &mut self.in_hand)
    }

    fn size_hint(&self) -> (usize, Option<usize>) {
        (0, None)
    }

    /// The fold of the current inner iterator, and after its `Ok(None)`, in the same call, that of the source, of whose items the closure makes inner iterators.
    fn drive<C, R, K: Turn<C, U::Item, R>>(
        &mut self,
        state: &mut C,
        turn: &K,
    ) -> Result<Option<R>, U::Error> {
        drive_joined(&mut self.it, &mut self.in_hand, state, turn)
    }

    ghost lawful = { lawful_parts flat_map_made
        (lawful_flat_map F.FnMut I.lawful U.into_gives U.IntoFallibleIter.lawful) };
}
