// What each adapter with two ends lists, of what its sources list.
ghost use Rattle.std.specs.Prelude.{Result, Option, Bool, reverse};
ghost use Rattle.fallible_contract.specs.Closures.{call_by_value, call_by_reference};
ghost use Rattle.fallible_contract.specs.BothEnds.{ListsBothEnds};
ghost use Rattle.fallible_core.specs.OneToOne.Map.{mapped, map_outcome, map_parts};
ghost use Rattle.fallible_core.specs.OneToOne.Inspect.{inspected, inspect_outcome, inspect_parts};
ghost use Rattle.fallible_core.specs.OneToOne.Cloned.{cloned_parts};
ghost use Rattle.fallible_core.specs.OneToOne.MapErr.{map_err_parts};
ghost use Rattle.fallible_core.specs.Filtering.Filter.{filtered, tested_outcome, filter_parts};
ghost use Rattle.fallible_core.specs.Filtering.FilterMap.{filter_mapped, filter_map_outcome, filter_map_parts};
ghost use Rattle.fallible_core.specs.Joining.Chain.{chain_parts};
ghost use Rattle.fallible_core.specs.Ends.Rev.{rev_parts};
ghost use Rattle.fallible_core.specs.Peeking.Peekable.{peekable_parts};
ghost use Rattle.fallible_iterator.specs.Listing.{ListsByClosure, ListsFailures, ListsClones, ListsBothSides, ListsChanged, ListsHeld};
ghost use Rattle.fallible_iterator.specs.Laws.Listing.{map_listed, inspect_listed, filter_listed, filter_map_listed, failures_listed_by_closure, clones_listed, both_sides_listed, reversed_listed, held_listed, borrowed_listed, boxed_listed};

use super::Listed;
use fallible_core::ends::Rev;
use fallible_core::filtering::{Filter, FilterMap};
use fallible_core::joining::Chain;
use fallible_core::one_to_one::{Cloned, Inspect, Map, MapErr};
use fallible_core::peeking::Peekable;
use fallible_core::traits::double_ended::DoubleEndedFallibleIterator;
use std::alloc::AllocError;

/// What its closure returns for each item of its source's list, in the item's place.
impl<I: DoubleEndedFallibleIterator, B, F: FnMut(I::Item) -> Result<B, I::Error>> Listed
    for Map<I, F> {
    ghost lists = { ListsByClosure map_parts (call_by_value F.FnMut) map_outcome mapped
        (ListsBothEnds I.contract.steps I.ends.steps) };

    ghost listed = { map_listed F.FnMut I.contract.steps I.ends.steps };

    fn lists_as_defined(&self) {}
}

/// The items of its source's list, with the closure's failure in the place of each one on which it failed.
impl<I: DoubleEndedFallibleIterator, F: FnMut(&I::Item) -> Result<(), I::Error>> Listed
    for Inspect<I, F>
where
    I::Item: Drop,
{
    ghost lists = { ListsByClosure inspect_parts (call_by_reference F.FnMut) inspect_outcome
        inspected (ListsBothEnds I.contract.steps I.ends.steps) };

    ghost listed = { inspect_listed F.FnMut I.contract.steps I.ends.steps };

    fn lists_as_defined(&self) {}
}

/// Its source's list without the rejected items, with the predicate's failure in the place of each item on which it failed.
impl<I: DoubleEndedFallibleIterator, F: FnMut(&I::Item) -> Result<bool, I::Error>> Listed
    for Filter<I, F>
where
    I::Item: Drop,
{
    ghost lists = { ListsByClosure filter_parts (call_by_reference F.FnMut) tested_outcome
        filtered (ListsBothEnds I.contract.steps I.ends.steps) };

    ghost listed = { filter_listed F.FnMut I.contract.steps I.ends.steps };

    fn lists_as_defined(&self) {}
}

/// Its source's list without the items for which its closure returns `None`, with the closure's value or failure in each other item's place.
impl<I: DoubleEndedFallibleIterator, B, F: FnMut(I::Item) -> Result<Option<B>, I::Error>> Listed
    for FilterMap<I, F> {
    ghost lists = { ListsByClosure filter_map_parts (call_by_value F.FnMut) filter_map_outcome
        filter_mapped (ListsBothEnds I.contract.steps I.ends.steps) };

    ghost listed = { filter_map_listed F.FnMut I.contract.steps I.ends.steps };

    fn lists_as_defined(&self) {}
}

/// A clone in each item's place, if no clone fails and each item has one clone alone; if a clone equals its original, what the items point to.
impl<'a, T: Clone + 'a, I: DoubleEndedFallibleIterator<Item = &'a T>> Listed for Cloned<I>
where
    I::Error: From<AllocError>,
{
    ghost lists = { ListsClones cloned_parts T.is_clone T.is_infallible
        (ListsBothEnds I.contract.steps I.ends.steps) };

    ghost listed = { clones_listed T.is_clone T.is_infallible I.Error.from_gives
        I.contract.steps I.ends.steps };

    fn lists_as_defined(&self) {}
}

/// What its closure returns for each failure of its source's list, in the failure's place.
impl<I: DoubleEndedFallibleIterator, B, F: FnMut(I::Error) -> B> Listed for MapErr<I, F> {
    ghost lists = { ListsFailures map_err_parts (call_by_value F.FnMut)
        (ListsBothEnds I.contract.steps I.ends.steps) };

    ghost listed = { failures_listed_by_closure map_err_parts I.contract.steps I.ends.steps
        (call_by_value F.FnMut) };

    fn lists_as_defined(&self) {}
}

/// What its first lists and then what its second lists; if one side alone is still drawn, what that side lists, since the other is drawn no more.
impl<
    T: DoubleEndedFallibleIterator,
    U: DoubleEndedFallibleIterator<Item = T::Item, Error = T::Error>,
> Listed for Chain<T, U> {
    ghost lists = { ListsBothSides chain_parts (ListsBothEnds T.contract.steps T.ends.steps)
        (ListsBothEnds U.contract.steps U.ends.steps) };

    ghost listed = { both_sides_listed chain_parts T.contract.steps T.ends.steps
        U.contract.steps U.ends.steps };

    fn lists_as_defined(&self) {}
}

/// The reverse of what its source lists.
impl<I: DoubleEndedFallibleIterator> Listed for Rev<I> {
    ghost lists = { ListsChanged rev_parts reverse (ListsBothEnds I.contract.steps I.ends.steps) };

    ghost listed = { reversed_listed rev_parts I.contract.steps I.ends.steps };

    fn lists_as_defined(&self) {}
}

/// What is buffered and then what its source lists; with a buffered `Ok(None)` nothing, if its source lists nothing.
impl<I: DoubleEndedFallibleIterator> Listed for Peekable<I>
where
    I::Item: Drop,
{
    ghost lists = { ListsHeld peekable_parts (ListsBothEnds I.contract.steps I.ends.steps) };

    ghost listed = { held_listed I.contract I.ends };

    fn lists_as_defined(&self) {}
}

/// What the value lists that it points to.
impl<I: DoubleEndedFallibleIterator> Listed for &mut I {
    ghost lists = { λ s l. ListsBothEnds I.contract.steps I.ends.steps s.now l };

    ghost listed = { borrowed_listed I.contract I.ends };

    fn lists_as_defined(&self) {}
}

/// What the value lists that it points to.
impl<I: DoubleEndedFallibleIterator> Listed for Box<I> {
    ghost lists = { λ s l. ListsBothEnds I.contract.steps I.ends.steps s.value l };

    ghost listed = { boxed_listed I.contract I.ends };

    fn lists_as_defined(&self) {}
}
