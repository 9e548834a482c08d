// The fallible iterator of a std iterator over results.
ghost use Rattle.std.specs.Prelude.{◌≡◌, Some, Ok, Err, List, Result, Option};
ghost use Rattle.fallible_contract.specs.Contract.{parts_as};
ghost use Rattle.fallible_contract.specs.Ends.{ends_parts_as};
ghost use Rattle.fallible_contract.specs.Lists.{Lists, RunsReadBack, results, items, reversed};
ghost use Rattle.fallible_contract.specs.Laws.Contract.{lawful_parts};
ghost use Rattle.fallible_contract.specs.Laws.Ends.{lawful_ends_parts};
ghost use Rattle.fallible_core.specs.Ends.Rev.{rev_parts};
ghost use Rattle.fallible_iterator.specs.Sources.Convert.{convert_contract, convert_ends, convert_made, convert_parts};
ghost use Rattle.fallible_iterator.specs.Sources.Std.{std_element};
ghost use Rattle.fallible_iterator.specs.Laws.Sources.Std.{lawful_std, lawful_ends_std};

use crate::sources::std_fold::{AsResult, drive_back_std, drive_std};
use fallible_contract::folds::Turn;
use fallible_core::{DoubleEndedFallibleIterator, FallibleIterator, Rev};

/// The fallible iterator of a std iterator over results: each `Ok` is an item, each `Err` a failure, and `None` is `Ok(None)`.
#[derive(Clone, Debug, Drop)]
pub struct Convert<I> {
    pub(crate) it: I,
}

impl<T, E, I: std::iter::Iterator<Item = Result<T, E>>> FallibleIterator for Convert<I> {
    type Item = T;

    type Error = E;

    ghost contract = { parts_as convert_parts
        (convert_contract I.can_next I.next_gives I.remaining) };

    /// Draws the std iterator once.
    fn next(&mut self) -> Result<Option<T>, E> {
        transpose(self.it.next())
    }

    fn size_hint(&self) -> (usize, Option<usize>) {
        self.it.size_hint()
    }

    fn drive<C, R, K: Turn<C, T, R>>(&mut self, state: &mut C, turn: &K) -> Result<Option<R>, E> {
        drive_std(&mut self.it, &AsResult, state, turn)
    }

    ghost lawful = { lawful_parts convert_made
        (lawful_std Ok Err I.can_next I.next_gives I.remaining) };
}

impl<T, E, I: std::iter::DoubleEndedIterator<Item = Result<T, E>>> DoubleEndedFallibleIterator
    for Convert<I> {
    ghost ends = { ends_parts_as convert_parts
        (convert_ends I.can_next I.can_next_back I.next_gives I.next_back_gives I.remaining) };

    /// Draws the std iterator once from the back.
    fn next_back(&mut self) -> Result<Option<T>, E> {
        transpose(self.it.next_back())
    }

    fn drive_back<C, R, K: Turn<C, T, R>>(
        &mut self,
        state: &mut C,
        turn: &K,
    ) -> Result<Option<R>, E> {
        drive_back_std(&mut self.it, &AsResult, state, turn)
    }

    ghost lawful_ends = { lawful_ends_parts convert_made
        (lawful_ends_std Ok Err I.can_next I.can_next_back I.next_gives I.next_back_gives
        I.remaining) };
}

// `rev` of the trait, which also says what a double-ended std iterator lists from the back.
impl<T, E, I: std::iter::DoubleEndedIterator<Item = Result<T, E>>> Convert<I> {
    /// Swaps the two ends: a draw from the front of the adapter is a draw from the back of the source, and the other way round.
    ///
    /// Creating it draws nothing. Each call draws once, from the other end. It fails as that draw does. After a failure and after `Ok(None)` the next call draws again.
    ///
    /// Requires: nothing. `next` requires that `next` and `next_back` may be called on the source.
    ///
    /// ```
    /// let readings = [Ok::<u32, u8>(150), Ok(7), Err(9)];
    /// let mut it = convert(readings.into_iter()).rev();
    /// let drawn = [it.next(), it.next(), it.next(), it.next()];
    /// assert_eq!(rt; drawn, [Err(9), Ok(Some(7)), Ok(Some(150)), Ok(None)]);
    /// ```
    pub fn rev(self) -> Rev<Convert<I>>
        ensures parts { rev_parts result ≡ self }
        ensures lists { (l : List (Result T E))
            → Lists ⟦<Convert<I> as DoubleEndedFallibleIterator>⟧.ends.steps self l
            → Lists ⟦<Rev<Convert<I>> as FallibleIterator>⟧.contract.steps result l }
        ensures results_back { (l : List (Result T E))
            → RunsReadBack I.next_back_gives (λ y. y) (convert_parts self) l
            → Lists ⟦<Rev<Convert<I>> as FallibleIterator>⟧.contract.steps result
            (reversed (results l)) }
        ensures items_back { (l : List T)
            → RunsReadBack I.next_back_gives Ok (convert_parts self) l
            → Lists ⟦<Rev<Convert<I>> as FallibleIterator>⟧.contract.steps result
            (reversed (items l)) }
    {
        FallibleIterator::rev(self)
    }
}

// What an element of the std iterator becomes: `Ok` an item, `Err` a failure, `None` an `Ok(None)`.
fn transpose<T, E>(element: Option<Result<T, E>>) -> Result<Option<T>, E>
    ensures { element ≡ std_element Ok Err result }
{
    match element {
        Some(Ok(x)) => Ok(Some(x)),
        Some(Err(e)) => Err(e),
        None => Ok(None),
    }
}
