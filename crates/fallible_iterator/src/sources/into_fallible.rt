// The fallible iterator of a std iterator over any values.
ghost use Rattle.std.specs.Prelude.{◌≡◌, Ok, List, Result, Option};
ghost use Rattle.fallible_contract.specs.Contract.{parts_as};
ghost use Rattle.fallible_contract.specs.Ends.{ends_parts_as};
ghost use Rattle.fallible_contract.specs.Lists.{Lists, RunsRead, RunsReadBack, items, reversed};
ghost use Rattle.fallible_contract.specs.Laws.Contract.{lawful_parts};
ghost use Rattle.fallible_contract.specs.Laws.Ends.{lawful_ends_parts};
ghost use Rattle.fallible_core.specs.Ends.Rev.{rev_parts};
ghost use Rattle.fallible_iterator.specs.Sources.IntoFallible.{into_fallible_contract, into_fallible_ends, never, into_fallible_made, into_fallible_parts};
ghost use Rattle.fallible_iterator.specs.Laws.Sources.Std.{lawful_std, lawful_ends_std};

use crate::sources::std_fold::{AsItem, drive_back_std, drive_std};
use fallible_contract::folds::Turn;
use fallible_core::{DoubleEndedFallibleIterator, FallibleIterator, Rev};
use std::convert::Infallible;

/// The fallible iterator of a std iterator over any values: each is an item, and `None` is `Ok(None)`. It never fails.
#[derive(Clone, Debug, Drop)]
pub struct IntoFallible<I> {
    pub(crate) it: I,
}

impl<T, I: std::iter::Iterator<Item = T>> FallibleIterator for IntoFallible<I> {
    type Item = T;

    type Error = Infallible;

    ghost contract = { parts_as into_fallible_parts
        (into_fallible_contract I.can_next I.next_gives I.remaining) };

    /// Draws the std iterator once.
    fn next(&mut self) -> Result<Option<T>, Infallible> {
        Ok(self.it.next())
    }

    fn size_hint(&self) -> (usize, Option<usize>) {
        self.it.size_hint()
    }

    fn drive<C, R, K: Turn<C, T, R>>(
        &mut self,
        state: &mut C,
        turn: &K,
    ) -> Result<Option<R>, Infallible> {
        drive_std(&mut self.it, &AsItem, state, turn)
    }

    ghost lawful = { lawful_parts into_fallible_made
        (lawful_std (λ x. x) never I.can_next I.next_gives I.remaining) };
}

impl<T, I: std::iter::DoubleEndedIterator<Item = T>> DoubleEndedFallibleIterator
    for IntoFallible<I> {
    ghost ends = { ends_parts_as into_fallible_parts
        (into_fallible_ends I.can_next I.can_next_back I.next_gives I.next_back_gives
        I.remaining) };

    /// Draws the std iterator once from the back.
    fn next_back(&mut self) -> Result<Option<T>, Infallible> {
        Ok(self.it.next_back())
    }

    fn drive_back<C, R, K: Turn<C, T, R>>(
        &mut self,
        state: &mut C,
        turn: &K,
    ) -> Result<Option<R>, Infallible> {
        drive_back_std(&mut self.it, &AsItem, state, turn)
    }

    ghost lawful_ends = { lawful_ends_parts into_fallible_made
        (lawful_ends_std (λ x. x) never I.can_next I.can_next_back I.next_gives I.next_back_gives
        I.remaining) };
}

// `rev` of the trait, which also says what a double-ended std iterator lists from the back.
impl<T, I: std::iter::DoubleEndedIterator<Item = T>> IntoFallible<I> {
    /// Swaps the two ends: a draw from the front of the adapter is a draw from the back of the source, and the other way round.
    ///
    /// Creating it draws nothing. Each call draws once, from the other end. It fails as that draw does. After a failure and after `Ok(None)` the next call draws again.
    ///
    /// Requires: nothing. `next` requires that `next` and `next_back` may be called on the source.
    ///
    /// ```
    /// let mut it = IntoFallible::from(1..4u32).rev();
    /// assert_eq!(rt;
    ///     [it.next(), it.next(), it.next()],
    ///     [Ok(Some(3)), Ok(Some(2)), Ok(Some(1))]
    /// );
    /// ```
    pub fn rev(self) -> Rev<IntoFallible<I>>
        ensures parts { rev_parts result ≡ self }
        ensures lists { (l : List (Result T Infallible))
            → Lists ⟦<IntoFallible<I> as DoubleEndedFallibleIterator>⟧.ends.steps self l
            → Lists ⟦<Rev<IntoFallible<I>> as FallibleIterator>⟧.contract.steps result l }
        ensures lists_back { (l : List T)
            → RunsReadBack I.next_back_gives (λ x. x) (into_fallible_parts self) l
            → Lists ⟦<Rev<IntoFallible<I>> as FallibleIterator>⟧.contract.steps result
            (reversed (items l)) }
    {
        FallibleIterator::rev(self)
    }
}

impl<T, I: std::iter::Iterator<Item = T>> From<I> for IntoFallible<I> {
    ghost from_gives = { λ it s. into_fallible_parts s ≡ it };

    /// Returns the fallible iterator that yields the elements of a std iterator, as `into_fallible`.
    ///
    /// Creating it draws nothing. `next` draws the std iterator once. It never fails. After `Ok(None)` the next call draws the std iterator again.
    ///
    /// ```
    /// let mut it = IntoFallible::from(0..2u32);
    /// assert_eq!(rt;
    ///     [it.next(), it.next(), it.next()],
    ///     [Ok(Some(0)), Ok(Some(1)), Ok(None)]
    /// );
    /// ```
    fn from(it: I) -> IntoFallible<I>
        ensures parts { into_fallible_parts result ≡ it }
        ensures lists { (l : List T) → RunsRead I.next_gives (λ x. x) it l
            → Lists (parts_as into_fallible_parts
            (into_fallible_contract I.can_next I.next_gives I.remaining)).steps result
            (items l) }
    {
        IntoFallible { it }
    }
}
