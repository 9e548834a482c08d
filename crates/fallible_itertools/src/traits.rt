//! The extension trait of every fallible iterator.
ghost use Rattle.std.specs.HashMap as hash;
ghost use Rattle.std.specs.HashMap.{get, spare};
ghost use Rattle.std.specs.HashSet.{IsEmpty};
ghost use Rattle.std.specs.Set.{ClonesAreEqual};
ghost use Rattle.std.specs.VecDeque.{deque_capacity, deque_items, deque_len};
ghost use Rattle.std.specs.Prelude.{◌≡◌, ℕ, ◌+◌, ◌≤◌, List, None, Result, [], ◌-◌, ◌^◌, ◌⊎◌, true, Option, Ok, Err, false, Bool, Some, IfOk, ⊤, ◌<◌, length, vec_items};
ghost use Rattle.std.specs.Cmp.{IsStrictWeakOrder, IsTotalOrder};
ghost use Rattle.std.specs.Fn.{ComparesAs, ComputesKey};
ghost use Rattle.std.specs.Iterator.{IsFinite};
ghost use Rattle.std.specs.declared.cmp.Ordering.{Ordering};
ghost use Rattle.std.specs.declared.cmp.Ordering.TheVariants.{Greater, Less};
ghost use Rattle.fallible_iterator.specs.BothEnds.{failures_listed};
ghost use Rattle.fallible_iterator.specs.Clauses.{OverList, OverListWith, OverBoth};
ghost use Rattle.fallible_iterator.specs.Closures.{IsCallable, call_by_reference, takes_by_reference, call_by_value, takes_by_value};
ghost use Rattle.fallible_iterator.specs.Collecting.{Collects};
ghost use Rattle.fallible_iterator.specs.Comparing.{OneIsFinite, read_as, reads_eq};
ghost use Rattle.fallible_iterator.specs.Contract.{seen_as, parts_as, AtMost, Stays};
ghost use Rattle.fallible_iterator.specs.Fault.TheVariants.{Source};
ghost use Rattle.fallible_iterator.specs.Failing.{failures_mapped};
ghost use Rattle.fallible_iterator.specs.Folds as fold;
ghost use Rattle.fallible_iterator.specs.Lists as list;
ghost use Rattle.fallible_iterator.specs.Making.{ListsMade};
ghost use Rattle.fallible_iterator.specs.Refusing.{ListsUntilRefused};
ghost use Rattle.fallible_iterator.specs.OneToOne.Enumerate.{IsNumberable, enumerate_contract, enumerate_parts};
ghost use Rattle.fallible_iterator.specs.OneToOne.Map.{map_contract};
ghost use Rattle.fallible_iterator.specs.Picking.{call_at_two, takes_at_two};
ghost use Rattle.fallible_iterator.specs.Searching as search;
ghost use Rattle.fallible_itertools.specs.AllUnique.{AllUniqueAs, AllUniqueDrains, rest_repeated};
ghost use Rattle.fallible_itertools.specs.Begun.{BothBegun};
ghost use Rattle.fallible_itertools_adapters.specs.Chunks.{MadeGroup, chunk_by_contract, chunk_by_parts, chunk_by_plan, chunk_by_stops, chunked, chunked_by, chunks_contract, chunks_parts, puts_by_key, takes_key};
ghost use Rattle.fallible_itertools_adapters.specs.Coalesce as coalesce;
ghost use Rattle.fallible_itertools.specs.Equal as comparing;
ghost use Rattle.fallible_itertools.specs.Find as trying;
ghost use Rattle.fallible_itertools.specs.Contents.{ContentsOf};
ghost use Rattle.fallible_itertools_adapters.specs.Copied.{copied_contract, copied_parts};
ghost use Rattle.fallible_itertools.specs.Keyed.{AddsValue, FoldedByKeyAs, FoldsByKey, GroupRefuses, IsCountsOf, IsGroupMapOf, IsKeyFoldOf, checked_folds, keyed, keyed_contract, last_value};
ghost use Rattle.fallible_itertools_adapters.specs.Coalesce.{count_plan, count_stops, dedup_by_contract, dedup_by_parts, dedup_by_plan, dedup_by_with_count_contract, dedup_by_with_count_parts, dedup_contract, dedup_parts, dedup_stops, dedup_with_count_contract, dedup_with_count_parts, deduped, deduped_by, deduped_by_with_count, deduped_with_count, same_call, same_takes};
ghost use Rattle.fallible_itertools_adapters.specs.Unique.{duplicates_came, duplicates_contract, duplicates_of, duplicates_parts, duplicates_source, unique_contract, unique_of, unique_parts, unique_seen, unique_source};
ghost use Rattle.fallible_itertools.specs.Equal.{contained, equal_flow, equal_to_first, equal_value, first_or_both, rest_contained, rest_unequal, wanted_flow};
ghost use Rattle.fallible_itertools_adapters.specs.Failing.{err_into_contract, err_into_parts, fuse_at_failure_contract, fuse_at_failure_parts, inspect_err_contract, inspect_err_parts, or_else_contract, or_else_parts, recovered, seen_call, stop_after_contract, stop_after_items, stop_after_parts, stopped_after, up_to_failure};
ghost use Rattle.fallible_itertools.specs.Find.{AtMostOneDrains, at_most_one_of, find_flow, find_position_pick, first_kept, found_or_first, found_or_last, last_kept, position_found, wanting_one};
ghost use Rattle.fallible_itertools_joins.specs.Interleave as interleave;
ghost use Rattle.fallible_itertools_adapters.specs.Intersperse.{intersperse_contract, intersperse_parts, intersperse_plan, interspersed, interspersed_by};
ghost use Rattle.fallible_itertools_adapters.specs.Intersperse as intersperse_with;
ghost use Rattle.fallible_iterator.specs.Sources.FromFn.{call_of_none};
ghost use Rattle.fallible_itertools.specs.Join.{JoinedAs};
ghost use Rattle.fallible_itertools_joins.specs.Merge.{merge_contract, merge_parts, merged_in_order};
ghost use Rattle.fallible_itertools_joins.specs.Merge as merge_by;
ghost use Rattle.fallible_itertools.specs.MinMax.{MinMaxCall, MinMaxDrains, MinMaxKeyCall, MinMaxKeyDrains, PlaceDrains, minmaxed, minmaxed_by, minmaxed_by_key, or_less, position_greatest, position_least, takes_beside};
ghost use Rattle.fallible_itertools_joins.specs.Zip as pad_using;
ghost use Rattle.fallible_itertools_adapters.specs.Staging.{MayMeet, calls_nothing, passes, plan_can};
ghost use Rattle.fallible_itertools_adapters.specs.Positions.{positioned, positions_contract, positions_parts, positions_source, positions_where, with_position_contract, with_position_parts};
ghost use Rattle.fallible_itertools.specs.Partition.{CollectedUntilAs, CollectsUntil, EitherRefused, MadeOfEithers, PartitionedFailuresAs, parted_step, rest_failure, without_source};
ghost use Rattle.fallible_itertools.specs.IsSorted.{in_order, in_order_by, in_order_by_key, item_flow, key_flow, pair_step};
ghost use Rattle.fallible_itertools.specs.FoldWhile.{WhileCall, FoldWhileDrains, folded_while, rest_while};
ghost use Rattle.fallible_itertools.specs.Sorted.{CollectsInPlace, CollectsSorted, HasItems, HasItemsInOrder, HasItemsInOrderByCalls, HasItemsInOrderByComparisons, HasItemsInOrderByKey, HasItemsInOrderByTest, IsSmallestOf, IsSortedByCalls, IsSortedByComparisons, IsSortedByKeyOf, IsSortedByTest, IsSortedOf, SmallestRefuses};
ghost use Rattle.fallible_itertools.specs.Tail.{IsTailOf, TailRefuses};
ghost use Rattle.fallible_itertools.specs.Stepping.{CallableStepping, ConsumedBy, Consumes, at_once, by_call, stop_or, stop_or_kept, whether_stopped};
ghost use Rattle.fallible_itertools_joins.specs.Sides as sides;
ghost use Rattle.fallible_itertools_adapters.specs.TakeWhileInclusive as inclusive;
ghost use Rattle.fallible_itertools.specs.CheckedSum.{TotalDrains, totalled};
ghost use Rattle.fallible_itertools_adapters.specs.Tuples.{HasSecondCloned, tuple_windows_contract, tuple_windows_parts, tupled, tuples_contract, tuples_parts, windowed};
ghost use Rattle.fallible_itertools_adapters.specs.Unique as unique_by;
ghost use Rattle.fallible_itertools_adapters.specs.UnlessRefused.{ListsUnlessRefused};
ghost use Rattle.fallible_itertools.specs.Total.{AddedDrains, added};
ghost use Rattle.fallible_itertools.specs.WithIndex.{failures_mapped_from, index_call, index_takes, with_index_contract, with_index_parts};
ghost use Rattle.fallible_itertools.specs.declared.find.NotOne.TheVariants.{More};
ghost use Rattle.fallible_itertools.specs.declared.fold_while.FoldWhile.TheVariants.{Done};
ghost use Rattle.fallible_itertools.specs.declared.minmax.MinMaxResult.TheVariants.{NoElements};

use crate::all_unique::{AllUniqueTurn, unique_or_fault};
use crate::checked_sum::{CheckedTotal, ProductTurn, SumTurn, total_or_none};
use crate::equal::{
    CmpTurn, ContainsTurn, EqTurn, EqualTurn, compare_by, first_or_both, whether_stopped,
};
use crate::find::{FindFirstTurn, FindLastTurn, FindPositionTurn, NotOne, converted};
use crate::fold_while::{FoldWhile, FoldWhileTurn, while_or_stop};
use crate::gathering::gathered;
use crate::is_sorted::{IsSortedByKeyTurn, IsSortedByTurn, IsSortedTurn};
use crate::join::JoinTurn;
use crate::keyed::{GroupMap, Keyed, Tally};
use crate::minmax::{
    MinMaxResult, MinMaxTurn, find_both_by, find_both_by_key, first_is_less, lesser_first,
    place_alone,
};
use crate::partition::{Either, Parted, with_failure, without_fault};
use crate::with_index::MapErrWithIndex;
use crate::{sorted, tail};
use fallible_iterator::extending::{
    CollectTurn, FindTest, FindTurn, ForEachTurn, PositionTurn, ReadEq, Reading, answer_or,
    answer_or_none, found, ordered,
};
use fallible_iterator::{Collect, FallibleIterator, Fault, IntoFallibleIterator};
use fallible_itertools_adapters::{
    ChunkBy, Chunks, Coalesce, Copied, Dedup, DedupBy, DedupByKey, DedupByWithCount,
    DedupWithCount, Duplicates, ErrInto, FuseAtFailure, InspectErr, Intersperse, IntersperseWith,
    OrElse, Positions, StopAfter, TakeWhileInclusive, TupleWindows, Tuples, Unique, UniqueBy,
    WithPosition,
};
use fallible_itertools_joins::{
    Interleave, Merge, MergeBy, MergeJoinBy, PadUsing, ZipEq, ZipLongest,
};
use std::alloc::{AllocError, Global};
use std::cmp::Ordering;
use std::collections::{HashMap, HashSet, VecDeque};
use std::fmt::Display;
use std::hash::Hash;

/// More calls on every fallible iterator.
///
/// Proof: no clause says what a call that consumes the iterator leaves.
pub trait FallibleItertools: FallibleIterator {
    // ---- adapters that buffer

    /// Merges adjacent items for which the closure returns `Ok(one)`. For two that stay apart it hands both back, as `Err((first, second))`.
    ///
    /// Creating it draws nothing. The item merged so far is buffered until the closure keeps two apart, or a stop comes: `Ok(None)` or a failure. `next` draws up to that, and calls the closure on the buffered item and each further one. The buffered item is yielded first. The stop is what the next call returns, without a draw. If the closure fails, its failure is yielded, and the two items that it was called on are lost. After a stop nothing is buffered, so items before and after it stay apart.
    ///
    /// Requires: the closure may be called on what is buffered and each item that may come. `next` requires what that of `dedup` requires.
    ///
    /// ```
    /// let readings = [Ok::<u32, u8>(100), Ok(50), Ok(7), Ok(8)];
    /// let mut it = convert(readings.into_iter()).coalesce(|first, second| {
    ///     Ok(if second < first {
    ///         Ok(first)
    ///     } else {
    ///         Err((first, second))
    ///     })
    /// });
    /// let drawn = [it.next(), it.next(), it.next()];
    /// assert_eq!(rt; drawn, [Ok(Some(100)), Ok(None), Ok(None)]);
    /// ```
    final fn coalesce<F>(self, f: F) -> Coalesce<Self, F>
    where
        Self::Item: Drop,
        Self::Error: Drop,
        F: FnMut(
            Self::Item,
            Self::Item,
        ) -> Result<Result<Self::Item, (Self::Item, Self::Item)>, Self::Error>,
        requires callable { plan_can (coalesce.coalesce_call F.FnMut) coalesce.coalesce_plan dedup_stops
            (coalesce.coalesce_takes F.FnMut) (MayMeet Self.contract self) (None, f) }
        ensures parts { coalesce.coalesce_parts result ≡ (self, ((None, f), None)) }
        ensures lists { (h : Self.Item → Self.Item → coalesce.OneOrBoth Self.Item Self.Error)
            (l : List (Result Self.Item Self.Error))
            → list.ActsWith (fold.call_with F.FnMut) f h → list.Lists Self.contract.steps self l
            → list.Lists (seen_as coalesce.coalesce_parts
            (coalesce.coalesce_contract F.FnMut Self.contract)).steps result
            (coalesce.coalesced h l) }
    {
        Coalesce::new(self, f)
    }

    /// Yields the first of adjacent items with equal keys. The closure returns the key, and is called once on each item.
    ///
    /// Laziness, draws and behaviour at a stop: as `dedup`. If the closure fails, its failure is a stop too: the buffered item is yielded first. The item that it was called on is lost, and no other.
    ///
    /// Requires: the closure may be called on a reference to each item that may come. `next` requires what that of `dedup` requires.
    ///
    /// ```
    /// let readings = [Ok::<u32, u8>(150), Ok(157), Err(9), Ok(158), Ok(7)];
    /// let mut it = convert(readings.into_iter()).dedup_by_key(|reading| Ok(*reading / 10));
    /// let drawn = [it.next(), it.next(), it.next(), it.next()];
    /// assert_eq!(rt; drawn, [Ok(Some(150)), Err(9), Ok(Some(158)), Ok(Some(7))]);
    /// ```
    final fn dedup_by_key<K, F>(self, f: F) -> DedupByKey<Self, K, F>
    where
        Self::Item: Drop,
        Self::Error: Drop,
        K: PartialEq + Drop,
        F: FnMut(&Self::Item) -> Result<K, Self::Error>,
        requires callable { IsCallable (call_by_reference F.FnMut) (takes_by_reference F.FnMut)
            (Self.contract.may_give self) f }
        ensures parts { coalesce.dedup_by_key_parts result ≡ (self, ((None, f), None)) }
        ensures callable { plan_can (call_by_reference F.FnMut) (coalesce.dedup_key_plan K.eq)
            coalesce.dedup_key_stops (takes_by_reference F.FnMut) (MayMeet Self.contract self)
            (None, f) }
        ensures lists { (h : Self.Item → Result K Self.Error)
            (l : List (Result Self.Item Self.Error)) → list.Acts (call_by_reference F.FnMut) f h
            → list.Lists Self.contract.steps self l
            → list.Lists (seen_as coalesce.dedup_by_key_parts
            (coalesce.dedup_by_key_contract K.eq F.FnMut Self.contract)).steps result
            (coalesce.deduped_by_key K.eq h l) }
    {
        DedupByKey::new(self, f)
    }

    /// Yields the first of adjacent items that the closure finds the same. The closure is called on references to the buffered item and the next one.
    ///
    /// Laziness, draws and behaviour at a stop: as `dedup`. If the closure fails, its failure is a stop too: the buffered item is yielded first. The item that was drawn last is lost, and no other.
    ///
    /// Requires: the closure may be called on references to what is buffered and each item that may come. `next` requires what that of `dedup` requires.
    ///
    /// ```
    /// let readings = [Ok::<u32, u8>(150), Ok(157), Ok(7)];
    /// let mut it = convert(readings.into_iter()).dedup_by(|first, second| Ok(
    ///     *first / 10 == *second / 10,
    /// ));
    /// let drawn = [it.next(), it.next(), it.next()];
    /// assert_eq!(rt; drawn, [Ok(Some(150)), Ok(Some(7)), Ok(None)]);
    /// ```
    final fn dedup_by<F>(self, same: F) -> DedupBy<Self, F>
    where
        Self::Item: Drop,
        Self::Error: Drop,
        F: FnMut(&Self::Item, &Self::Item) -> Result<bool, Self::Error>,
        requires callable { plan_can (same_call F.FnMut) dedup_by_plan dedup_stops
            (same_takes F.FnMut) (MayMeet Self.contract self) (None, same) }
        ensures parts { dedup_by_parts result ≡ (self, ((None, same), None)) }
        ensures lists { (h : Self.Item → Self.Item → Result Bool Self.Error)
            (l : List (Result Self.Item Self.Error))
            → list.ActsWith (call_at_two F.FnMut) same h → list.Lists Self.contract.steps self l
            → list.Lists (seen_as dedup_by_parts (dedup_by_contract F.FnMut Self.contract)).steps
            result (deduped_by h l) }
    {
        DedupBy::new(self, same)
    }

    /// Yields the first of adjacent equal items.
    ///
    /// Creating it draws nothing. The first of equal items is buffered until an item that differs comes, or a stop: `Ok(None)` or a failure. `next` draws up to that. The buffered item is yielded first. The stop is what the next call returns, without a draw. After a stop nothing is buffered, so equal items before and after it are both yielded.
    ///
    /// Requires: nothing. `next` requires that it may be called on the source, and that the source is finite, since one call may leave many items out.
    ///
    /// ```
    /// let readings = [Ok::<u32, u8>(7), Ok(7), Ok(150), Ok(7)];
    /// let mut it = convert(readings.into_iter()).dedup();
    /// let drawn = [it.next(), it.next(), it.next(), it.next()];
    /// assert_eq!(rt; drawn, [Ok(Some(7)), Ok(Some(150)), Ok(Some(7)), Ok(None)]);
    /// ```
    final fn dedup(self) -> Dedup<Self>
    where
        Self::Item: PartialEq + Drop,
        Self::Error: Drop,
        ensures parts { dedup_parts result ≡ (self, ((None, tt), None)) }
        ensures lists { (l : List (Result Self.Item Self.Error))
            → list.Lists Self.contract.steps self l
            → list.Lists (seen_as dedup_parts (dedup_contract Self.Item.eq Self.contract)).steps
            result (deduped Self.Item.eq l) }
    {
        Dedup::new(self)
    }

    /// Yields the first of adjacent equal items, each as `(count, item)`: beside how many they are. A count stays at `usize::MAX`.
    ///
    /// Laziness, draws and behaviour at a stop: as `dedup`. So equal items before and after a stop are counted apart.
    ///
    /// Requires: what `dedup` does, and so does `next`.
    ///
    /// ```
    /// let readings = [Ok::<u32, u8>(7), Ok(7), Ok(150), Err(9), Ok(150)];
    /// let mut it = convert(readings.into_iter()).dedup_with_count();
    /// let drawn = [it.next(), it.next(), it.next(), it.next()];
    /// assert_eq!(rt;
    ///     drawn,
    ///     [Ok(Some((2, 7))), Ok(Some((1, 150))), Err(9), Ok(Some((1, 150)))]
    /// );
    /// ```
    final fn dedup_with_count(self) -> DedupWithCount<Self>
    where
        Self::Item: PartialEq + Drop,
        Self::Error: Drop,
        ensures parts { dedup_with_count_parts result ≡ (self, ((None, tt), None)) }
        ensures lists { (l : List (Result Self.Item Self.Error))
            → list.Lists Self.contract.steps self l
            → list.Lists (seen_as dedup_with_count_parts
            (dedup_with_count_contract Self.Item.eq Self.contract)).steps result
            (deduped_with_count Self.Item.eq l) }
    {
        DedupWithCount::new(self)
    }

    /// Yields the first of adjacent items that the closure finds the same, each as `(count, item)`: beside how many they are. The closure is called on references to the buffered item and the next one. A count stays at `usize::MAX`.
    ///
    /// Laziness, draws and behaviour at a stop: as `dedup_by`. An item on which the closure fails isn't counted.
    ///
    /// Requires: what `dedup_by` does, and so does `next`.
    ///
    /// ```
    /// let readings = [Ok::<u32, u8>(150), Ok(157), Ok(7)];
    /// let mut it = convert(readings.into_iter()).dedup_by_with_count(|first, second| Ok(
    ///     *first / 10 == *second / 10,
    /// ));
    /// let drawn = [it.next(), it.next(), it.next()];
    /// assert_eq!(rt; drawn, [Ok(Some((2, 150))), Ok(Some((1, 7))), Ok(None)]);
    /// ```
    final fn dedup_by_with_count<F>(self, same: F) -> DedupByWithCount<Self, F>
    where
        Self::Item: Drop,
        Self::Error: Drop,
        F: FnMut(&Self::Item, &Self::Item) -> Result<bool, Self::Error>,
        requires callable { plan_can (same_call F.FnMut) count_plan count_stops
            (same_takes F.FnMut) (MayMeet Self.contract self) (None, same) }
        ensures parts { dedup_by_with_count_parts result ≡ (self, ((None, same), None)) }
        ensures lists { (h : Self.Item → Self.Item → Result Bool Self.Error)
            (l : List (Result Self.Item Self.Error))
            → list.ActsWith (call_at_two F.FnMut) same h → list.Lists Self.contract.steps self l
            → list.Lists (seen_as dedup_by_with_count_parts
            (dedup_by_with_count_contract F.FnMut Self.contract)).steps result
            (deduped_by_with_count h l) }
    {
        DedupByWithCount::new(self, same)
    }

    /// Yields each item with its [`Position`](crate::Position): `First`, `Middle`, `Last` or `Only`.
    ///
    /// Creating it draws nothing. An item is buffered until another item comes, or a stop: `Ok(None)` or a failure. `next` draws once if an item is buffered, and otherwise twice, or up to a stop. The buffered item is yielded first, and is the `Last` one before a stop. The stop is what the next call returns, without a draw. After a stop nothing is buffered, and the next item is `First` or `Only`.
    ///
    /// Requires: nothing. `next` requires that it may be called on the source.
    ///
    /// ```
    /// let letters = [Ok::<char, u8>('a'), Ok('b'), Ok('c')];
    /// let mut it = convert(letters.into_iter()).with_position();
    /// assert_eq!(rt; it.next(), Ok(Some((Position::First, 'a'))));
    /// assert_eq!(rt; it.next(), Ok(Some((Position::Middle, 'b'))));
    /// assert_eq!(rt; it.next(), Ok(Some((Position::Last, 'c'))));
    /// assert_eq!(rt; it.next(), Ok(None));
    /// ```
    final fn with_position(self) -> WithPosition<Self>
    where
        Self::Item: Drop,
        Self::Error: Drop,
        ensures parts { with_position_parts result ≡ (self, ((None, tt), None)) }
        ensures lists { (l : List (Result Self.Item Self.Error))
            → list.Lists Self.contract.steps self l
            → list.Lists (seen_as with_position_parts (with_position_contract Self.contract)).steps
            result (positioned l) }
    {
        WithPosition::new(self)
    }

    /// Yields each two adjacent items as a pair. The later one of a pair is a clone.
    ///
    /// Creating it draws nothing. `next` draws once, and twice for the first pair. It fails as the source does. Each pair is of two adjacent items. The last item stays buffered at a failure and at an `Ok(None)`, so the next pair begins with it.
    ///
    /// Requires: nothing. `next` requires that it may be called on the source.
    ///
    /// Memory: if a clone can't be allocated, the failure converted from `AllocError` is yielded in place of that pair, and the next pair begins with the later item.
    ///
    /// Proof: where a clone may fail, pairs of an item and a clone of the next one are listed up to the first allocation failure.
    ///
    /// ```
    /// let readings = [Ok::<u32, AllocError>(150), Ok(7), Ok(700)];
    /// let mut it = convert(readings.into_iter()).tuple_windows();
    /// let drawn = [it.next(), it.next(), it.next()];
    /// assert_eq!(rt; drawn, [Ok(Some((150, 7))), Ok(Some((7, 700))), Ok(None)]);
    /// ```
    final fn tuple_windows(self) -> TupleWindows<Self>
    where
        Self::Item: Clone + Drop,
        Self::Error: From<AllocError>,
        ensures parts { tuple_windows_parts result ≡ (self, None) }
        ensures lists { (l : List (Result Self.Item Self.Error))
            → list.Lists Self.contract.steps self l
            → ((x y : Self.Item) → Self.Item.is_clone x y → y ≡ x)
            → ((x : Self.Item) → Self.Item.is_infallible x)
            → list.Lists (seen_as tuple_windows_parts (tuple_windows_contract Self.Item.is_clone
            Self.Item.is_infallible Self.Error.from_gives Self.contract)).steps result
            (windowed l) }
        ensures until_refused { (l : List (Result Self.Item Self.Error))
            → list.Lists Self.contract.steps self l
            → ListsUntilRefused (HasSecondCloned Self.Item.is_clone)
            (seen_as tuple_windows_parts (tuple_windows_contract Self.Item.is_clone
            Self.Item.is_infallible Self.Error.from_gives Self.contract)).steps
            Self.Error.from_gives result (windowed l) }
    {
        TupleWindows::new(self)
    }

    /// Yields the items two by two, as pairs. The last of an odd number of items is in no pair.
    ///
    /// Creating it draws nothing. `next` draws once or twice. It fails as the source does. The first item of a pair stays buffered at a failure and at an `Ok(None)`: so a pair may stand on both sides of a failure, and an item that is left over is in a pair if the source goes on.
    ///
    /// Requires: nothing. `next` requires that it may be called on the source.
    ///
    /// ```
    /// let readings = [Ok::<u32, u8>(150), Err(9), Ok(7), Ok(700)];
    /// let mut it = convert(readings.into_iter()).tuples();
    /// let drawn = [it.next(), it.next(), it.next()];
    /// assert_eq!(rt; drawn, [Err(9), Ok(Some((150, 7))), Ok(None)]);
    /// ```
    final fn tuples(self) -> Tuples<Self>
    where
        Self::Item: Drop,
        ensures parts { tuples_parts result ≡ (self, None) }
        ensures lists { (l : List (Result Self.Item Self.Error))
            → list.Lists Self.contract.steps self l
            → list.Lists (seen_as tuples_parts (tuples_contract Self.contract)).steps result
            (tupled l) }
    {
        Tuples::new(self)
    }

    // ---- searches, sums and folds

    /// Calls the closure on each item, through a borrow. The closure fails with an error of its own.
    ///
    /// It draws up to `Ok(None)`, the first failure or an item on which the closure fails. It fails with the iterator's failure, converted, or with the closure's error. Nothing is drawn after that, and the iterator may be used again.
    ///
    /// Precondition: the iterator is finite.
    ///
    /// Requires: `next` may be called, and the closure may be called on each item that may come.
    ///
    /// ```
    /// let mut it = convert([Ok::<u32, &str>(7), Ok(150), Ok(8)].into_iter());
    /// let tried: Result<(), &str> = it.try_for_each(|reading: u32| {
    ///     if reading > 100 {
    ///         Err("too large")
    ///     } else {
    ///         Ok(())
    ///     }
    /// });
    /// assert_eq!(rt; tried, Err("too large"));
    /// assert_eq!(rt; it.next(), Ok(Some(8)));
    /// ```
    final fn try_for_each<E, F>(&mut self, f: F) -> Result<(), E>
    where
        E: From<Self::Error>,
        F: FnMut(Self::Item) -> Result<(), E>,
        requires can_next { Self.contract.can_next self.old }
        requires finite { Self.contract.is_finite self.old }
        requires callable { fold.HoldsAtEachTurn Self.contract.steps
            (search.WentOn (call_by_value F.FnMut) search.for_each_pick) (takes_by_value F.FnMut) self.old f }
        ensures searched { (g : F) × search.SearchDrains (call_by_value F.FnMut) search.for_each_pick
            (trying.Converted E.from_gives Self.contract.steps) tt self.old f result self.new g }
        ensures value { (convert : Self.Error → E) → list.Converts E.from_gives convert
            → OverListWith (list.Acts (call_by_value F.FnMut) f) Self.contract.steps self.old
            (λ h l. result ≡ trying.try_each_done convert h l) }
        ensures rest { OverListWith (list.Acts (call_by_value F.FnMut) f) Self.contract.steps self.old
            (λ h l. (e : E) → result ≡ Err e
            → list.Lists Self.contract.steps self.new (trying.rest_try_each h l)) }
        ensures stays { Stays Self.contract self.old self.new }
    {
        let mut f = f;
        answer_or(converted(self.drive(&mut f, &ForEachTurn)), ())
    }

    /// Returns the first item on which the predicate returns true. The predicate fails with an error of its own.
    ///
    /// It draws up to the first item on which the predicate returns true or fails, the first failure or `Ok(None)`. It fails with the iterator's failure, converted, or with the predicate's error. Nothing is drawn after that, and the iterator may be used again.
    ///
    /// Precondition: the iterator is finite.
    ///
    /// Requires: `next` may be called, and the predicate may be called on each item that may come until it decides.
    ///
    /// ```
    /// let mut it = convert([Ok::<u32, &str>(0), Ok(7), Ok(150)].into_iter());
    /// let mut find = || -> Result<Option<u32>, &str> {
    ///     it.try_find(|reading: &u32| {
    ///         if *reading > 100 {
    ///             Err("too large")
    ///         } else {
    ///             Ok(*reading == 7)
    ///         }
    ///     })
    /// };
    /// assert_eq!(rt;
    ///     [find(), find(), find()],
    ///     [Ok(Some(7)), Err("too large"), Ok(None)]
    /// );
    /// ```
    final fn try_find<E, F>(&mut self, f: F) -> Result<Option<Self::Item>, E>
    where
        Self::Item: Drop,
        E: From<Self::Error>,
        F: FnMut(&Self::Item) -> Result<bool, E>,
        requires can_next { Self.contract.can_next self.old }
        requires finite { Self.contract.is_finite self.old }
        requires callable { fold.HoldsAtEachTurn Self.contract.steps
            (search.WentOn (call_by_reference F.FnMut) search.find_pick) (takes_by_reference F.FnMut) self.old f }
        ensures searched { (g : F) × search.SearchDrains (call_by_reference F.FnMut) search.find_pick
            (trying.Converted E.from_gives Self.contract.steps) None self.old f result self.new g }
        ensures value { (convert : Self.Error → E) → list.Converts E.from_gives convert
            → OverListWith (list.Acts (call_by_reference F.FnMut) f) Self.contract.steps self.old
            (λ h l. result ≡ trying.try_found convert h l) }
        ensures rest { OverListWith (list.Acts (call_by_reference F.FnMut) f) Self.contract.steps self.old
            (λ h l. ¬ (result ≡ Ok None)
            → list.Lists Self.contract.steps self.new (trying.rest_try_true h l)) }
        ensures stays { Stays Self.contract self.old self.new }
    {
        let mut f = f;
        found(converted(self.drive(&mut f, &FindTurn { test: &FindTest })))
    }

    /// Returns the position of the first item on which the predicate returns true. The predicate fails with an error of its own.
    ///
    /// Draws, errors and what is left: as `try_find`.
    ///
    /// Precondition: at most `usize::MAX` items are left, so that each position fits.
    ///
    /// Requires: what `try_find` requires.
    ///
    /// ```
    /// let mut it = convert([Ok::<u32, &str>(0), Ok(7), Ok(150)].into_iter());
    /// let mut place = || -> Result<Option<usize>, &str> {
    ///     it.try_position(|reading: u32| {
    ///         if reading > 100 {
    ///             Err("too large")
    ///         } else {
    ///             Ok(reading == 7)
    ///         }
    ///     })
    /// };
    /// assert_eq!(rt;
    ///     [place(), place(), place()],
    ///     [Ok(Some(1)), Err("too large"), Ok(None)]
    /// );
    /// ```
    final fn try_position<E, F>(&mut self, f: F) -> Result<Option<usize>, E>
    where
        E: From<Self::Error>,
        F: FnMut(Self::Item) -> Result<bool, E>,
        requires can_next { Self.contract.can_next self.old }
        requires fits { AtMost Self.contract self.old (2 ^ 64 - 1) }
        requires callable { fold.HoldsAtEachTurn Self.contract.steps
            (search.WentOn (call_by_value F.FnMut) search.position_pick) (takes_by_value F.FnMut) self.old f }
        ensures searched { (g : F) × search.SearchDrains (call_by_value F.FnMut) search.position_pick
            (trying.Converted E.from_gives Self.contract.steps) None self.old f result self.new g }
        ensures value { (convert : Self.Error → E) → list.Converts E.from_gives convert
            → OverListWith (list.Acts (call_by_value F.FnMut) f) Self.contract.steps self.old
            (λ h l. result ≡ trying.try_position_in convert h l) }
        ensures rest { OverListWith (list.Acts (call_by_value F.FnMut) f) Self.contract.steps self.old
            (λ h l. ¬ (result ≡ Ok None)
            → list.Lists Self.contract.steps self.new (trying.rest_try_true h l)) }
        ensures stays { Stays Self.contract self.old self.new }
    {
        answer_or_none(converted(self.drive(&mut (0, f), &PositionTurn)))
    }

    /// Returns whether an item equals the wanted one.
    ///
    /// It draws up to the first item that equals it, the first failure or `Ok(None)`. It fails with that failure. Nothing is drawn after that, and the iterator may be used again.
    ///
    /// Precondition: the iterator is finite.
    ///
    /// Requires: `next` may be called.
    ///
    /// ```
    /// let mut it = convert([Ok::<u32, u8>(150), Ok(7), Ok(700), Err(9)].into_iter());
    /// assert_eq!(rt; it.contains(&7), Ok(true));
    /// assert_eq!(rt; it.contains(&7), Err(9));
    /// assert_eq!(rt; it.contains(&7), Ok(false));
    /// ```
    final fn contains(&mut self, wanted: &Self::Item) -> Result<bool, Self::Error>
    where
        Self::Item: PartialEq + Drop,
        requires can_next { Self.contract.can_next self.old }
        requires finite { Self.contract.is_finite self.old }
        ensures searched { Consumes (calls_nothing {F = Unit {0}}) (at_once (wanted_flow Self.Item.eq wanted.now))
            Self.contract.steps (λ answer _. whether_stopped true answer) self.old tt tt result self.new
            tt }
        ensures value { OverList Self.contract.steps self.old
            (λ l. result ≡ contained Self.Item.eq wanted.now l) }
        ensures rest { OverList Self.contract.steps self.old
            (λ l. ¬ (result ≡ Ok false)
            → list.Lists Self.contract.steps self.new (rest_contained Self.Item.eq wanted.now l)) }
        ensures stays { Stays Self.contract self.old self.new }
    {
        whether_stopped(self.drive(&mut ((), ()), &ContainsTurn { wanted }), true)
    }

    /// Returns whether the first item equals each later one; true if there is no item.
    ///
    /// It draws up to an item that the first one doesn't equal, the first failure or `Ok(None)`. It fails with that failure. Nothing is drawn after that, and the iterator may be used again.
    ///
    /// Precondition: the iterator is finite.
    ///
    /// Requires: `next` may be called.
    ///
    /// ```
    /// let mut it = convert([Ok::<u32, u8>(7), Ok(7), Ok(150), Ok(8)].into_iter());
    /// assert_eq!(rt; it.all_equal(), Ok(false));
    /// assert_eq!(rt; it.all_equal(), Ok(true));
    /// ```
    final fn all_equal(&mut self) -> Result<bool, Self::Error>
    where
        Self::Item: PartialEq + Drop,
        requires can_next { Self.contract.can_next self.old }
        requires finite { Self.contract.is_finite self.old }
        ensures searched { Consumes (calls_nothing {F = Unit {0}}) (at_once (equal_flow Self.Item.eq)) Self.contract.steps
            (λ answer _. whether_stopped false answer) self.old None tt result self.new tt }
        ensures value { OverList Self.contract.steps self.old
            (λ l. result ≡ equal_to_first Self.Item.eq l) }
        ensures rest { OverList Self.contract.steps self.old
            (λ l. ¬ (result ≡ Ok true)
            → list.Lists Self.contract.steps self.new (rest_unequal Self.Item.eq l)) }
        ensures stays { Stays Self.contract self.old self.new }
    {
        whether_stopped(self.drive(&mut (None, ()), &EqualTurn), false)
    }

    /// Returns whether no two items are equal; true if there is no item.
    ///
    /// It draws up to an item that equals one before it, the first failure or `Ok(None)`. It fails with that failure. Nothing is drawn after that, and the iterator may be used again. It forgets what came before then. A set has each item that was drawn.
    ///
    /// Precondition: the iterator is finite.
    ///
    /// Requires: `next` may be called.
    ///
    /// Memory: that failure is a `Fault::Source`. It also stops at an item that no item before equals, if room for it can't be allocated. Then it fails with `Fault::Memory`.
    ///
    /// Proof: at that failure the clause `searched` says that a set of just the items before has no room that is spare.
    ///
    /// ```
    /// let mut it = convert([Ok::<u32, u8>(7), Ok(150), Ok(7), Ok(8)].into_iter());
    /// assert!(rt; !it.all_unique(rt.alloc())?);
    /// assert!(rt; it.all_unique(rt.alloc())?);
    /// ```
    final fn all_unique(&mut self, alloc: Global) -> Result<bool, Fault<Self::Error>>
    where
        Self::Item: Eq + Hash + Drop,
        requires can_next { Self.contract.can_next self.old }
        requires finite { Self.contract.is_finite self.old }
        ensures searched { AllUniqueDrains Self.Item.eq Self.contract.steps self.old result self.new }
        ensures value { OverList Self.contract.steps self.old
            (λ l. AllUniqueAs Self.Item.eq l result) }
        ensures rest { OverList Self.contract.steps self.old
            (λ l. result ≡ Ok false
            → list.Lists Self.contract.steps self.new (rest_repeated Self.Item.eq l)) }
        ensures rest_failed { OverList Self.contract.steps self.old
            (λ l. (e : Self.Error) → result ≡ Err (Source e)
            → list.Lists Self.contract.steps self.new (rest_repeated Self.Item.eq l)) }
        ensures stays { Stays Self.contract self.old self.new }
    {
        let mut seen = HashSet::new(alloc);
        let answer = self.drive(&mut seen, &AllUniqueTurn);
        unique_or_fault(answer)
    }

    /// Returns the first item, if it equals each later one: `Ok(Ok(item))`. Of items that aren't all equal it returns the first one and the first that it doesn't equal, `Ok(Err(Some((item, other))))`, and of no items `Ok(Err(None))`.
    ///
    /// Draws, errors and what is left: as `all_equal`.
    ///
    /// Precondition: the iterator is finite.
    ///
    /// Requires: `next` may be called.
    ///
    /// ```
    /// let mut it = convert([Ok::<u32, u8>(7), Ok(7), Ok(150), Ok(8)].into_iter());
    /// assert_eq!(rt; it.all_equal_value(), Ok(Err(Some((7, 150)))));
    /// assert_eq!(rt; it.all_equal_value(), Ok(Ok(8)));
    /// assert_eq!(rt; it.all_equal_value(), Ok(Err(None)));
    /// ```
    final fn all_equal_value(
        &mut self,
    ) -> Result<Result<Self::Item, Option<(Self::Item, Self::Item)>>, Self::Error>
    where
        Self::Item: PartialEq + Drop,
        requires can_next { Self.contract.can_next self.old }
        requires finite { Self.contract.is_finite self.old }
        ensures searched { Consumes (calls_nothing {F = Unit {0}}) (at_once (equal_flow Self.Item.eq)) Self.contract.steps
            first_or_both self.old None tt result self.new tt }
        ensures value { OverList Self.contract.steps self.old
            (λ l. result ≡ equal_value Self.Item.eq l) }
        ensures rest_unequal { OverList Self.contract.steps self.old
            (λ l. (x y : Self.Item) → result ≡ Ok (Err (Some (x, y)))
            → list.Lists Self.contract.steps self.new (rest_unequal Self.Item.eq l)) }
        ensures rest_failed { OverList Self.contract.steps self.old
            (λ l. (e : Self.Error) → result ≡ Err e
            → list.Lists Self.contract.steps self.new (rest_unequal Self.Item.eq l)) }
        ensures stays { Stays Self.contract self.old self.new }
    {
        let mut state = (None, ());
        let answer = self.drive(&mut state, &EqualTurn);
        let (first, _) = state;
        first_or_both(answer, first)
    }

    /// Returns the first item on which the predicate returns true, beside how many items come before it; `Ok(None)` if there is none.
    ///
    /// It draws up to the first item on which the predicate returns true or fails, the first failure or `Ok(None)`. It fails with the first failure, of this iterator or of the predicate. Nothing is drawn after that, and the iterator may be used again.
    ///
    /// Precondition: at most `usize::MAX` items are left, so that each position fits.
    ///
    /// Requires: `next` may be called, and the predicate may be called on each item that may come until it decides.
    ///
    /// ```
    /// let mut it = convert([Ok::<u32, u8>(7), Ok(150), Ok(8)].into_iter());
    /// let found = it.find_position(|reading| Ok(*reading > 100));
    /// assert_eq!(rt; (found, it.next()), (Ok(Some((1, 150))), Ok(Some(8))));
    /// ```
    final fn find_position<F>(&mut self, f: F) -> Result<Option<(usize, Self::Item)>, Self::Error>
    where
        Self::Item: Drop,
        F: FnMut(&Self::Item) -> Result<bool, Self::Error>,
        requires can_next { Self.contract.can_next self.old }
        requires fits { AtMost Self.contract self.old (2 ^ 64 - 1) }
        requires callable { search.CallableInSearch (call_by_reference F.FnMut) find_position_pick
            Self.contract.steps (takes_by_reference F.FnMut) self.old f }
        ensures searched { (g : F) × search.SearchDrains (call_by_reference F.FnMut) find_position_pick
            Self.contract.steps None self.old f result self.new g }
        ensures value { OverListWith (list.Acts (call_by_reference F.FnMut) f) Self.contract.steps self.old
            (λ h l. result ≡ position_found h l) }
        ensures rest { OverListWith (list.Acts (call_by_reference F.FnMut) f) Self.contract.steps self.old
            (λ h l. ¬ (result ≡ Ok None)
            → list.Lists Self.contract.steps self.new (list.rest_true h l)) }
        ensures stays { Stays Self.contract self.old self.new }
    {
        answer_or_none(self.drive(&mut (0, f), &FindPositionTurn))
    }

    /// Returns the first item on which the predicate returns true, or the last item if there is none; `Ok(None)` if there is no item.
    ///
    /// It draws up to the first item on which the predicate returns true or fails, the first failure or `Ok(None)`. It calls the predicate on each item drawn, in order. Nothing is drawn after that. It fails with the first failure, of this iterator or of the predicate. It consumes the iterator.
    ///
    /// Precondition: the iterator is finite.
    ///
    /// Requires: `next` may be called, and the predicate may be called on each item that may come until it decides.
    ///
    /// ```
    /// let readings = [Ok::<u32, u8>(7), Ok(150), Ok(8)];
    /// let it = convert(readings.into_iter());
    /// assert_eq!(rt;
    ///     it.find_or_last(|reading| Ok(*reading > 100)),
    ///     Ok(Some(150))
    /// );
    ///
    /// let low = [Ok::<u32, u8>(7), Ok(8)];
    /// let it = convert(low.into_iter());
    /// assert_eq!(rt; it.find_or_last(|reading| Ok(*reading > 100)), Ok(Some(8)));
    /// ```
    final fn find_or_last<F>(mut self, f: F) -> Result<Option<Self::Item>, Self::Error>
    where
        Self::Item: Drop,
        F: FnMut(&Self::Item) -> Result<bool, Self::Error>,
        requires can_next { Self.contract.can_next self }
        requires finite { Self.contract.is_finite self }
        requires callable { CallableStepping (call_by_reference F.FnMut) (by_call (find_flow last_kept))
            Self.contract.steps (takes_by_reference F.FnMut) self None f }
        ensures found { ConsumedBy (call_by_reference F.FnMut) (by_call (find_flow last_kept))
            Self.contract.steps stop_or_kept self None f result }
        ensures value { OverListWith (list.Acts (call_by_reference F.FnMut) f) Self.contract.steps self
            (λ h l. result ≡ found_or_last h l) }
    {
        let mut state = (None, f);
        let answer = self.drive(&mut state, &FindLastTurn);
        let (last, _) = state;
        answer_or(answer, last)
    }

    /// Returns the first item on which the predicate returns true, or the first item of all if there is none; `Ok(None)` if there is no item.
    ///
    /// Draws, errors and precondition: as `find_or_last`. It consumes the iterator too.
    ///
    /// ```
    /// let readings = [Ok::<u32, u8>(7), Ok(150), Ok(8)];
    /// let it = convert(readings.into_iter());
    /// assert_eq!(rt;
    ///     it.find_or_first(|reading| Ok(*reading > 100)),
    ///     Ok(Some(150))
    /// );
    ///
    /// let low = [Ok::<u32, u8>(7), Ok(8)];
    /// let it = convert(low.into_iter());
    /// assert_eq!(rt; it.find_or_first(|reading| Ok(*reading > 100)), Ok(Some(7)));
    /// ```
    final fn find_or_first<F>(mut self, f: F) -> Result<Option<Self::Item>, Self::Error>
    where
        Self::Item: Drop,
        F: FnMut(&Self::Item) -> Result<bool, Self::Error>,
        requires can_next { Self.contract.can_next self }
        requires finite { Self.contract.is_finite self }
        requires callable { CallableStepping (call_by_reference F.FnMut) (by_call (find_flow first_kept))
            Self.contract.steps (takes_by_reference F.FnMut) self None f }
        ensures found { ConsumedBy (call_by_reference F.FnMut) (by_call (find_flow first_kept))
            Self.contract.steps stop_or_kept self None f result }
        ensures value { OverListWith (list.Acts (call_by_reference F.FnMut) f) Self.contract.steps self
            (λ h l. result ≡ found_or_first h l) }
    {
        let mut state = (None, f);
        let answer = self.drive(&mut state, &FindFirstTurn);
        let (first, _) = state;
        answer_or(answer, first)
    }

    /// Returns the sum of the items, 0 for none. If it overflows at one of them, it returns `Ok(None)`.
    ///
    /// It draws up to the first item at which the sum overflows, the first failure or `Ok(None)`. Nothing is drawn after that, so an overflow is returned also where a failure would come later. It fails with the first failure. It consumes the iterator.
    ///
    /// Precondition: the iterator is finite.
    ///
    /// Requires: `next` may be called.
    ///
    /// ```
    /// let readings = [Ok::<u8, u8>(150), Ok(7)];
    /// assert_eq!(rt; convert(readings.into_iter()).checked_sum(), Ok(Some(157)));
    ///
    /// let large = [Ok::<u8, u8>(150), Ok(150)];
    /// assert_eq!(rt; convert(large.into_iter()).checked_sum(), Ok(None));
    /// ```
    final fn checked_sum(mut self) -> Result<Option<Self::Item>, Self::Error>
    where
        Self::Item: CheckedTotal,
        requires can_next { Self.contract.can_next self }
        requires finite { Self.contract.is_finite self }
        ensures sum { TotalDrains Self.Item.plus Self.contract.steps Self.Item.zero self result }
        ensures value { OverList Self.contract.steps self
            (λ l. result ≡ totalled Self.Item.plus Self.Item.zero l) }
    {
        let mut sum = Self::Item::zero();
        let answer = self.drive(&mut sum, &SumTurn);
        total_or_none(answer, sum)
    }

    /// Returns the product of the items, 1 for none. If it overflows at one of them, it returns `Ok(None)`, also where a 0 would come later.
    ///
    /// Draws, errors and precondition: as `checked_sum`. It consumes the iterator too.
    ///
    /// ```
    /// let sides = [Ok::<u8, u8>(3), Ok(7)];
    /// assert_eq!(rt; convert(sides.into_iter()).checked_product(), Ok(Some(21)));
    ///
    /// let large = [Ok::<u8, u8>(150), Ok(2), Ok(0)];
    /// assert_eq!(rt; convert(large.into_iter()).checked_product(), Ok(None));
    /// ```
    final fn checked_product(mut self) -> Result<Option<Self::Item>, Self::Error>
    where
        Self::Item: CheckedTotal,
        requires can_next { Self.contract.can_next self }
        requires finite { Self.contract.is_finite self }
        ensures product { TotalDrains Self.Item.times Self.contract.steps Self.Item.one self
            result }
        ensures value { OverList Self.contract.steps self
            (λ l. result ≡ totalled Self.Item.times Self.Item.one l) }
    {
        let mut product = Self::Item::one();
        let answer = self.drive(&mut product, &ProductTurn);
        total_or_none(answer, product)
    }

    /// Returns the sum of the items, added in order. Of no items it returns 0, of floats -0.0.
    ///
    /// In Rattle it is of floats; `checked_sum` is of integers. In Rust it is of all that std's `sum` is of, and overflows as that does.
    ///
    /// It draws up to `Ok(None)` or the first failure. It fails with that failure. It consumes the iterator.
    ///
    /// Precondition: the iterator is finite.
    ///
    /// Requires: `next` may be called.
    ///
    /// ```
    /// let prices = [Ok::<f64, u8>(1.5), Ok(0.25), Ok(2.0)];
    /// assert_eq!(rt; convert(prices.into_iter()).sum::<f64>(), Ok(3.75));
    /// ```
    final fn sum<S>(mut self) -> Result<S, Self::Error>
    where
        Self: FallibleIterator<Item = S>,
        S: crate::Total,
        requires can_next { Self.contract.can_next self }
        requires finite { Self.contract.is_finite self }
        ensures sum { AddedDrains S.plus Self.contract.steps S.zero self result }
        ensures value { OverList Self.contract.steps self (λ l. result ≡ added S.plus S.zero l) }
    {
        let mut sum = S::zero();
        let answer = self.drive(&mut sum, &crate::total::AddTurn);
        crate::total::total_or_failure(answer, sum)
    }

    /// Returns the product of the items, multiplied in order. Of no items it returns 1.
    ///
    /// Types, draws, errors and precondition: as `sum`. It consumes the iterator too.
    ///
    /// ```
    /// let rates = [Ok::<f64, u8>(1.5), Ok(0.5), Ok(2.0)];
    /// assert_eq!(rt; convert(rates.into_iter()).product::<f64>(), Ok(1.5));
    /// ```
    final fn product<S>(mut self) -> Result<S, Self::Error>
    where
        Self: FallibleIterator<Item = S>,
        S: crate::Total,
        requires can_next { Self.contract.can_next self }
        requires finite { Self.contract.is_finite self }
        ensures product { AddedDrains S.times Self.contract.steps S.one self result }
        ensures value { OverList Self.contract.steps self (λ l. result ≡ added S.times S.one l) }
    {
        let mut product = S::one();
        let answer = self.drive(&mut product, &crate::total::MultiplyTurn);
        crate::total::total_or_failure(answer, product)
    }

    /// Folds the items, until the closure returns `Done`. It returns that `Done`, or `Continue` of the last value at `Ok(None)`.
    ///
    /// It draws up to the item on which the closure returns `Done` or fails, the first failure or `Ok(None)`. It fails with the first failure, of this iterator or of the closure. Nothing is drawn after that, and the iterator may be used again.
    ///
    /// Precondition: the iterator is finite.
    ///
    /// Requires: `next` may be called, and the closure may be called on the value so far and each item that may come.
    ///
    /// ```
    /// let mut it = convert([Ok::<u32, u8>(150), Ok(7), Ok(0), Ok(8)].into_iter());
    /// let sum = it.fold_while(0, |sum: u32, reading: u32| {
    ///     Ok(if reading == 0 {
    ///         FoldWhile::Done(sum)
    ///     } else {
    ///         FoldWhile::Continue(sum.wrapping_add(reading))
    ///     })
    /// });
    /// assert_eq!(rt; sum, Ok(FoldWhile::Done(157)));
    /// assert_eq!(rt; it.next(), Ok(Some(8)));
    /// ```
    final fn fold_while<B, F>(&mut self, init: B, f: F) -> Result<FoldWhile<B>, Self::Error>
    where
        B: Drop,
        F: FnMut(B, Self::Item) -> Result<FoldWhile<B>, Self::Error>,
        requires can_next { Self.contract.can_next self.old }
        requires finite { Self.contract.is_finite self.old }
        requires callable { fold.CallableInFold Self.contract.steps
            (WhileCall (fold.call_with F.FnMut)) (fold.takes_with F.FnMut) self.old f init }
        ensures folded { FoldWhileDrains (fold.call_with F.FnMut) Self.contract.steps self.old init
            f result self.new }
        ensures value { OverListWith (list.ActsWith (fold.call_with F.FnMut) f) Self.contract.steps
            self.old (λ h l. result ≡ folded_while h init l) }
        ensures rest_done { OverListWith (list.ActsWith (fold.call_with F.FnMut) f)
            Self.contract.steps self.old (λ h l. (b : B) → result ≡ Ok (Done b)
            → list.Lists Self.contract.steps self.new (rest_while h init l)) }
        ensures rest_failed { OverListWith (list.ActsWith (fold.call_with F.FnMut) f)
            Self.contract.steps self.old (λ h l. (e : Self.Error) → result ≡ Err e
            → list.Lists Self.contract.steps self.new (rest_while h init l)) }
        ensures stays { Stays Self.contract self.old self.new }
    {
        let mut state = (Some(init), f);
        let answer = self.drive(&mut state, &FoldWhileTurn);
        let (value, _) = state;
        while_or_stop(answer, value)
    }

    /// Returns whether the keys that the closure makes of the items never go down. A key that can't be compared with the one before it goes down.
    ///
    /// It draws up to the first item whose key goes down or on which the closure fails, the first failure or `Ok(None)`. Nothing is drawn after that. It fails with the first failure, of this iterator or of the closure. It consumes the iterator.
    ///
    /// Precondition: the iterator is finite.
    ///
    /// Requires: `next` may be called, and the closure may be called on each item that may come.
    ///
    /// ```
    /// let readings = [Ok::<u32, u8>(150), Ok(7), Ok(8)];
    /// let it = convert(readings.into_iter());
    /// assert_eq!(rt;
    ///     it.is_sorted_by_key(|reading: u32| Ok(reading % 10)),
    ///     Ok(true)
    /// );
    /// ```
    final fn is_sorted_by_key<K, F>(mut self, f: F) -> Result<bool, Self::Error>
    where
        K: PartialOrd + Drop,
        F: FnMut(Self::Item) -> Result<K, Self::Error>,
        requires can_next { Self.contract.can_next self }
        requires finite { Self.contract.is_finite self }
        requires callable { CallableStepping (call_by_value F.FnMut) (by_call (key_flow K.partial_cmp))
            Self.contract.steps (takes_by_value F.FnMut) self None f }
        ensures sorted { ConsumedBy (call_by_value F.FnMut) (by_call (key_flow K.partial_cmp))
            Self.contract.steps (stop_or true) self None f result }
        ensures value { (order : K → K → Option Ordering) → order ≡ K.partial_cmp
            → OverListWith (list.Acts (call_by_value F.FnMut) f) Self.contract.steps self
            (λ h l. result ≡ in_order_by_key order h l) }
    {
        let mut state = (None, f);
        answer_or(self.drive(&mut state, &IsSortedByKeyTurn), true)
    }

    /// Returns whether the closure returns true for each two adjacent items. It is called on references to an item and the next one.
    ///
    /// It draws up to the first item for which the closure returns false or fails, the first failure or `Ok(None)`. Nothing is drawn after that. It fails with the first failure, of this iterator or of the closure. It consumes the iterator.
    ///
    /// Precondition: the iterator is finite.
    ///
    /// Requires: `next` may be called, and the closure may be called on each two items that may come one after the other, as long as it returns true.
    ///
    /// ```
    /// let readings = [Ok::<u32, u8>(150), Ok(7), Ok(8)];
    /// let it = convert(readings.into_iter());
    /// assert_eq!(rt; it.is_sorted_by(|x: &u32, y: &u32| Ok(x > y)), Ok(false));
    /// ```
    final fn is_sorted_by<F>(mut self, f: F) -> Result<bool, Self::Error>
    where
        Self::Item: Drop,
        F: FnMut(&Self::Item, &Self::Item) -> Result<bool, Self::Error>,
        requires can_next { Self.contract.can_next self }
        requires finite { Self.contract.is_finite self }
        requires callable { CallableStepping (same_call F.FnMut) pair_step Self.contract.steps
            (same_takes F.FnMut) self None f }
        ensures sorted { ConsumedBy (same_call F.FnMut) pair_step Self.contract.steps (stop_or true) self
            None f result }
        ensures value { OverListWith (list.ActsWith (call_at_two F.FnMut) f) Self.contract.steps self
            (λ h l. result ≡ in_order_by h l) }
    {
        let mut state = (None, f);
        answer_or(self.drive(&mut state, &IsSortedByTurn), true)
    }

    /// Returns whether no item is less than the one before it. An item that can't be compared with the one before it counts as less.
    ///
    /// It draws up to the first item that is less, the first failure or `Ok(None)`. Nothing is drawn after that. It fails with that failure. It consumes the iterator.
    ///
    /// Precondition: the iterator is finite.
    ///
    /// Requires: `next` may be called.
    ///
    /// ```
    /// let readings = [Ok::<u32, u8>(7), Ok(7), Ok(150)];
    /// assert_eq!(rt; convert(readings.into_iter()).is_sorted(), Ok(true));
    ///
    /// let falling = [Ok::<u32, u8>(150), Ok(7)];
    /// assert_eq!(rt; convert(falling.into_iter()).is_sorted(), Ok(false));
    /// ```
    final fn is_sorted(mut self) -> Result<bool, Self::Error>
    where
        Self::Item: PartialOrd + Drop,
        requires can_next { Self.contract.can_next self }
        requires finite { Self.contract.is_finite self }
        ensures sorted { ConsumedBy (calls_nothing {F = Unit {0}}) (at_once (item_flow Self.Item.partial_cmp)) Self.contract.steps
            (stop_or true) self None tt result }
        ensures value { (order : Self.Item → Self.Item → Option Ordering)
            → order ≡ Self.Item.partial_cmp
            → OverList Self.contract.steps self (λ l. result ≡ in_order order l) }
    {
        answer_or(self.drive(&mut (None, ()), &IsSortedTurn), true)
    }

    // ---- adapters that let results pass

    /// Yields a copy of what each item points to.
    ///
    /// Creating it draws nothing. `next` draws once. It fails as the source does. After a failure and after `Ok(None)` the next call draws again. It is double-ended if the source is.
    ///
    /// Requires: nothing.
    ///
    /// ```
    /// let readings = [150, 7];
    /// let mut it = convert(readings.iter().map(Ok::<&u32, u8>)).copied();
    /// let drawn = [it.next(), it.next(), it.next()];
    /// assert_eq!(rt; drawn, [Ok(Some(150)), Ok(Some(7)), Ok(None)]);
    /// ```
    final fn copied<'a, T: 'a>(self) -> Copied<Self>
    where
        Self: FallibleIterator<Item = &'a T>,
        T: Copy,
        ensures parts { copied_parts result ≡ (self, tt) }
        ensures lists { OverList Self.contract.steps self
            (λ l. list.Lists (parts_as copied_parts (copied_contract Self.contract)).steps
            result (list.pointed_to l)) }
    {
        Copied::new(self)
    }

    /// Yields the items up to the first one that the predicate rejects, and that one too. Then it is exhausted.
    ///
    /// Creating it draws nothing and calls nothing. Up to the rejected item `next` draws once. It fails as the source does. If the predicate fails, its failure is yielded, and the item is lost. Neither that nor an `Ok(None)` of the source exhausts it. After the rejected item it draws nothing, and each call returns `Ok(None)`.
    ///
    /// Requires: the predicate may be called on each item that may come, in each state that such calls bring it to. `next` requires that it may be called on the source, and `Item: Drop`.
    ///
    /// ```
    /// let readings = [Ok::<u32, u8>(150), Ok(7), Ok(700)];
    /// let mut it = convert(readings.into_iter()).take_while_inclusive(|reading| Ok(*reading > 100));
    /// let drawn = [it.next(), it.next(), it.next()];
    /// assert_eq!(rt; drawn, [Ok(Some(150)), Ok(Some(7)), Ok(None)]);
    /// ```
    final fn take_while_inclusive<P>(self, predicate: P) -> TakeWhileInclusive<Self, P>
    where
        P: FnMut(&Self::Item) -> Result<bool, Self::Error>,
        requires { IsCallable (call_by_reference P.FnMut) (takes_by_reference P.FnMut)
            (Self.contract.may_give self) predicate }
        ensures parts { inclusive.inclusive_parts result ≡ (self, ((tt, predicate), None)) }
        ensures callable { plan_can (call_by_reference P.FnMut) inclusive.inclusive_plan passes
            (takes_by_reference P.FnMut) (MayMeet Self.contract self) (tt, predicate) }
        ensures lists { OverListWith (list.Acts (call_by_reference P.FnMut) predicate) Self.contract.steps
            self (λ h l. list.Lists (seen_as inclusive.inclusive_parts
            (inclusive.inclusive_contract P.FnMut Self.contract)).steps
            result (inclusive.taken_while_inclusive h l)) }
        ensures for_good { OverListWith (list.Acts (call_by_reference P.FnMut) predicate)
            Self.contract.steps self (λ h l. list.all_of h l ≡ Ok false
            → list.ListsForGood (seen_as inclusive.inclusive_parts
            (inclusive.inclusive_contract P.FnMut Self.contract)).steps
            result (inclusive.taken_while_inclusive h l)) }
    {
        TakeWhileInclusive::new(self, predicate)
    }

    // ---- adapters that act on failures

    /// Calls the closure on a reference to each failure, and then yields the failure.
    ///
    /// Creating it draws nothing. `next` draws once, and calls the closure once if a failure came. It fails as the source does. After a failure and after `Ok(None)` the next call draws again. It is double-ended if the source is.
    ///
    /// Requires: the closure may be called on a reference to each failure that may come.
    ///
    /// ```
    /// let readings = [Ok::<u32, u8>(150), Err(9), Ok(7)];
    /// let mut noted = None;
    /// let mut it = convert(readings.into_iter()).inspect_err(|code| noted = Some(*code));
    /// let drawn = [it.next(), it.next(), it.next()];
    /// assert_eq!(rt; drawn, [Ok(Some(150)), Err(9), Ok(Some(7))]);
    /// assert_eq!(rt; noted, Some(9));
    /// ```
    final fn inspect_err<F>(self, f: F) -> InspectErr<Self, F>
    where
        F: FnMut(&Self::Error),
        requires { IsCallable (call_by_reference F.FnMut) (takes_by_reference F.FnMut)
            (Self.contract.may_fail self) f }
        ensures parts { inspect_err_parts result ≡ (self, f) }
        ensures callable { IsCallable (seen_call F.FnMut) (takes_by_reference F.FnMut)
            (Self.contract.may_fail self) f }
        ensures lists { OverList Self.contract.steps self
            (λ l. list.Lists (parts_as inspect_err_parts
            (inspect_err_contract Self.contract F.FnMut)).steps result l) }
    {
        InspectErr::new(self, f)
    }

    /// Replaces each failure by what the closure returns for its index and it. The index is how many items and failures came before it, so the failure of the first line has the index 0.
    ///
    /// Creating it draws nothing. `next` draws once, and calls the closure once if a failure came. It fails where the source does, with what the closure returns. After a failure and after `Ok(None)` the next call draws again, and the count goes on; an `Ok(None)` doesn't count. An index is at most `usize::MAX`, and stays that.
    ///
    /// Requires: the closure may be called on each failure that may come, with each index.
    ///
    /// ```
    /// let cells = [Ok::<u32, &str>(150), Err("no number"), Ok(7), Err("too large")];
    /// let mut it = convert(cells.into_iter()).map_err_with_index(|index, why| (index, why));
    /// let drawn = [it.next(), it.next(), it.next(), it.next(), it.next()];
    /// assert_eq!(rt;
    ///     drawn,
    ///     [Ok(Some(150)), Err((1, "no number")), Ok(Some(7)), Err((3, "too large")), Ok(None)]
    /// );
    /// ```
    final fn map_err_with_index<B, F>(self, f: F) -> MapErrWithIndex<Self, F>
    where
        F: FnMut(usize, Self::Error) -> B,
        requires { IsCallable (index_call F.FnMut) (index_takes F.FnMut)
            (λ p. Self.contract.may_fail self p.1) f }
        ensures parts { with_index_parts result ≡ ((self, 0), f) }
        ensures lists { OverListWith (list.ActsWith (fold.call_with F.FnMut) f) Self.contract.steps
            self (λ h l. list.Lists (parts_as with_index_parts
            (with_index_contract Self.contract F.FnMut)).steps
            result (failures_mapped_from h 0 l)) }
    {
        MapErrWithIndex::new(self, f)
    }

    /// Converts each failure by `From`. So `chain`, `zip` and `merge` take two sources with two error types and no closure.
    ///
    /// Creating it draws nothing. `next` draws once, and converts a failure. It fails where the source does, with what the failure is converted to. After a failure and after `Ok(None)` the next call draws again. It is double-ended if the source is.
    ///
    /// Requires: nothing.
    ///
    /// ```
    /// let readings = convert([Ok::<u32, u8>(150), Err(9)].into_iter());
    /// let totals = convert([Ok::<u32, u16>(157), Err(700)].into_iter());
    /// let mut it = readings.err_into::<u32>().chain(totals.err_into());
    /// let drawn = [it.next(), it.next(), it.next(), it.next()];
    /// assert_eq!(rt; drawn, [Ok(Some(150)), Err(9), Ok(Some(157)), Err(700)]);
    /// ```
    final fn err_into<E>(self) -> ErrInto<Self, E>
    where
        E: From<Self::Error>,
        ensures parts { err_into_parts result ≡ (self, tt) }
        ensures lists { (convert : Self.Error → E) → list.Converts E.from_gives convert
            → OverList Self.contract.steps self
            (λ l. list.Lists (parts_as err_into_parts
            (err_into_contract E.from_gives Self.contract)).steps result
            (failures_mapped convert l)) }
    {
        ErrInto::new(self)
    }

    /// Replaces each failure by what the closure returns for it: an item, nothing or another failure.
    ///
    /// Creating it draws nothing. `next` draws up to an item, an `Ok(None)`, or a failure for which the closure returns an item or fails. It calls the closure once on each failure. It fails with the closure's failures alone. After a failure and after `Ok(None)` the next call draws again. It is double-ended if the source is. In Rust `or_else(|_| Ok(None))` over a source that fails for ever never returns from `next`. `take(n).stop_after(m)` before it bounds items and failures together, also over a reader.
    ///
    /// Requires: the closure may be called on each failure that may come. `next` requires that it may be called on the source, that the source is finite, and that its items and failures together have a bound, since one call may leave many failures out. `take(n)` before it bounds the items alone. `convert(rows.iterator().take(n))` takes n answers of `rows`, items and failures together.
    ///
    /// ```
    /// let readings = [Ok::<u32, u8>(150), Err(1), Err(2), Err(9)];
    /// let mut it = convert(readings.into_iter()).or_else(|code| match code {
    ///     1 => Ok(Some(0)),
    ///     2 => Ok(None),
    ///     _ => Err("broken"),
    /// });
    /// let drawn = [it.next(), it.next(), it.next(), it.next()];
    /// assert_eq!(rt;
    ///     drawn,
    ///     [Ok(Some(150)), Ok(Some(0)), Err("broken"), Ok(None)]
    /// );
    /// ```
    final fn or_else<E, F>(self, f: F) -> OrElse<Self, F>
    where
        F: FnMut(Self::Error) -> Result<Option<Self::Item>, E>,
        requires { IsCallable (call_by_value F.FnMut) (takes_by_value F.FnMut)
            (Self.contract.may_fail self) f }
        ensures parts { or_else_parts result ≡ (self, f) }
        ensures lists { OverListWith (list.Acts (call_by_value F.FnMut) f) Self.contract.steps self
            (λ h l. list.Lists (parts_as or_else_parts
            (or_else_contract Self.contract F.FnMut)).steps result (recovered h l)) }
    {
        OrElse::new(self, f)
    }

    /// Yields what the source yields up to its first failure, and that one too. Then it is exhausted.
    ///
    /// Creating it draws nothing. Up to the failure `next` draws once. It fails as the source does. Items and `Ok(None)` of the source pass. After the failure it draws nothing, and each call returns `Ok(None)`.
    ///
    /// Requires: nothing, so the source may be endless. `next` requires that it may be called on the source.
    ///
    /// ```
    /// let mut it = convert([Ok::<u32, u8>(150), Err(1), Ok(7)].into_iter()).fuse_at_failure();
    /// let drawn = [it.next(), it.next(), it.next()];
    /// assert_eq!(rt; drawn, [Ok(Some(150)), Err(1), Ok(None)]);
    /// ```
    final fn fuse_at_failure(self) -> FuseAtFailure<Self>
        ensures parts { fuse_at_failure_parts result ≡ (self, false) }
        ensures lists { OverList Self.contract.steps self
            (λ l. list.Lists (seen_as fuse_at_failure_parts
            (fuse_at_failure_contract Self.contract)).steps result (up_to_failure l)) }
        ensures for_good { (l : List (Result Self.Item Self.Error)) (e : Self.Error)
            → list.Lists Self.contract.steps self l → list.counted l ≡ Err e
            → list.ListsForGood (seen_as fuse_at_failure_parts
            (fuse_at_failure_contract Self.contract)).steps result (up_to_failure l) }
    {
        FuseAtFailure::new(self)
    }

    /// Yields what the source yields up to its n-th failure, and that one too. Then it is exhausted.
    ///
    /// Creating it draws nothing. Up to the n-th failure `next` draws once. It fails as the source does. Items and `Ok(None)` of the source pass, and don't count. After the n-th failure it draws nothing, and each call returns `Ok(None)`. With n = 0 it never draws, and with n = 1 it ends after the first failure.
    ///
    /// Precondition: the source is finite.
    ///
    /// Requires: `next` requires that it may be called on the source.
    ///
    /// Proof: what it yields has a bound, items and failures together, as `or_else` requires: `rows.take(1000).stop_after(100).or_else(..)`.
    ///
    /// ```
    /// let readings = [Ok::<u32, u8>(150), Err(1), Ok(7), Err(2), Ok(700)];
    /// let mut it = convert(readings.into_iter()).stop_after(2);
    /// let drawn = [it.next(), it.next(), it.next(), it.next(), it.next()];
    /// assert_eq!(rt;
    ///     drawn,
    ///     [Ok(Some(150)), Err(1), Ok(Some(7)), Err(2), Ok(None)]
    /// );
    /// ```
    final fn stop_after(self, n: usize) -> StopAfter<Self>
    where
        requires finite { Self.contract.is_finite self }
        ensures parts { stop_after_parts result ≡ (self, (n, stop_after_items result)) }
        ensures bound { AtMost Self.contract self (stop_after_items result) }
        ensures lists { OverList Self.contract.steps self
            (λ l. list.Lists (seen_as stop_after_parts
            (stop_after_contract Self.contract)).steps result (stopped_after n l)) }
        ensures for_good { (l : List (Result Self.Item Self.Error)) → list.Lists Self.contract.steps self l
            → n ≤ length (failures_listed l) → list.ListsForGood (seen_as stop_after_parts
            (stop_after_contract Self.contract)).steps result (stopped_after n l) }
    {
        let items = self.number();
        StopAfter::new(self, n, items)
    }

    // ---- adapters that join

    /// Merges the items of two sources by their order. Of an item of this iterator and the next one of `other`, the lesser goes first, and of equal ones this side's. If the two can't be compared, `other`'s goes first. If one side returns `Ok(None)`, the other's item is yielded. Two sorted sources make a sorted one.
    ///
    /// Laziness, draws, buffered items, errors and folds: as `merge_by`, with no closure that may fail. Bounds of both sides, added up, bound it.
    ///
    /// Requires: nothing. `next` requires that it may be called on both sides, and `Item: Drop`.
    ///
    /// ```
    /// let left = convert([Ok::<u32, u8>(1), Ok(4)].into_iter());
    /// let right = convert([Ok(2), Ok(3)].into_iter());
    /// let mut it = left.merge(right);
    /// let drawn = [it.next(), it.next(), it.next(), it.next(), it.next()];
    /// assert_eq!(rt;
    ///     drawn,
    ///     [Ok(Some(1)), Ok(Some(2)), Ok(Some(3)), Ok(Some(4)), Ok(None)]
    /// );
    /// ```
    final fn merge<I>(self, other: I) -> Merge<Self, I::IntoFallibleIter>
    where
        I: IntoFallibleIterator<Item = Self::Item, Error = Self::Error>,
        Self::Item: PartialOrd + Drop,
        ensures begun { BothBegun self I.into_gives other ((None, None), tt) (merge_parts result) }
        ensures bounded { (a b k : ℕ) → Self.contract.bound self a
            → I.IntoFallibleIter.contract.bound
            (sides.right_source (merge_parts result)) b → a + b ≤ k
            → AtMost (seen_as merge_parts (merge_contract Self.Item.partial_cmp
            (sides.fused_contract Self.contract)
            (sides.fused_contract I.IntoFallibleIter.contract))) result k }
        ensures lists { OverBoth Self.contract.steps self I.into_gives other
            I.IntoFallibleIter.contract.steps
            (λ a b. list.Lists (seen_as merge_parts (merge_contract Self.Item.partial_cmp
            (sides.fused_contract Self.contract)
            (sides.fused_contract I.IntoFallibleIter.contract))).steps result
            (merged_in_order Self.Item.partial_cmp a b)) }
        ensures for_good { OverBoth Self.contract.steps self I.into_gives other
            I.IntoFallibleIter.contract.steps
            (λ a b. list.ListsForGood (seen_as merge_parts (merge_contract Self.Item.partial_cmp
            (sides.fused_contract Self.contract)
            (sides.fused_contract I.IntoFallibleIter.contract))).steps result
            (merged_in_order Self.Item.partial_cmp a b)) }
    {
        Merge::new(self.fuse(), other.into_fallible_iter().fuse())
    }

    /// Merges the items of two sources. Of an item of this iterator and the next one of `other`, the closure returns whether the former goes first. If one side returns `Ok(None)`, the other's item is yielded without a call of the closure.
    ///
    /// Creating it draws nothing. It buffers at most one item of each side. `next` draws this side once if nothing of it is buffered. Then, unless that failed, it draws `other` once if nothing of `other` is buffered. Each side is fused: once it returned `Ok(None)` it isn't drawn again. It fails as either side does, and loses nothing that is buffered. If the closure fails, its failure is yielded, and the two items that it was called on are lost. Its folds draw as `next` does. Bounds of both sides, added up, bound it.
    ///
    /// Requires: the closure may be called on references to two items, one that may come of each side. `next` requires that it may be called on both sides, and `Item: Drop`.
    ///
    /// ```
    /// let left = convert([Ok::<u32, u8>(4), Ok(1)].into_iter());
    /// let right = convert([Ok(3)].into_iter());
    /// let mut it = left.merge_by(right, |x, y| Ok(*x >= *y));
    /// let drawn = [it.next(), it.next(), it.next(), it.next()];
    /// assert_eq!(rt; drawn, [Ok(Some(4)), Ok(Some(3)), Ok(Some(1)), Ok(None)]);
    /// ```
    final fn merge_by<I, F>(self, other: I, f: F) -> MergeBy<Self, I::IntoFallibleIter, F>
    where
        I: IntoFallibleIterator<Item = Self::Item, Error = Self::Error>,
        F: FnMut(&Self::Item, &Self::Item) -> Result<bool, Self::Error>,
        requires { (right : I.IntoFallibleIter) → I.into_gives other right
            → IsCallable (sides.call_on_two (call_at_two F.FnMut))
            (λ g z. takes_at_two F.FnMut g z.0 z.1) (λ z. Self.contract.may_give self z.0
            × I.IntoFallibleIter.contract.may_give right z.1) f }
        ensures begun { BothBegun self I.into_gives other ((None, None), f)
            (merge_by.merge_by_parts result) }
        ensures closure { sides.asked_closure (merge_by.merge_by_parts result) ≡ f }
        ensures bounded { (a b k : ℕ) → Self.contract.bound self a
            → I.IntoFallibleIter.contract.bound
            (sides.right_source (merge_by.merge_by_parts result)) b → a + b ≤ k
            → AtMost (seen_as merge_by.merge_by_parts (merge_by.merge_by_contract
            (sides.fused_contract Self.contract)
            (sides.fused_contract I.IntoFallibleIter.contract) F.FnMut)) result k }
        ensures lists { (h : Self.Item → Self.Item → Result Bool Self.Error)
            → list.ActsWith (call_at_two F.FnMut) f h
            → OverBoth Self.contract.steps self I.into_gives other
            I.IntoFallibleIter.contract.steps
            (λ a b. list.Lists (seen_as merge_by.merge_by_parts
            (merge_by.merge_by_contract (sides.fused_contract Self.contract)
            (sides.fused_contract I.IntoFallibleIter.contract) F.FnMut)).steps result
            (merge_by.merged h a b)) }
        ensures for_good { (h : Self.Item → Self.Item → Result Bool Self.Error)
            → list.ActsWith (call_at_two F.FnMut) f h
            → OverBoth Self.contract.steps self I.into_gives other
            I.IntoFallibleIter.contract.steps
            (λ a b. list.ListsForGood (seen_as merge_by.merge_by_parts
            (merge_by.merge_by_contract (sides.fused_contract Self.contract)
            (sides.fused_contract I.IntoFallibleIter.contract) F.FnMut)).steps result
            (merge_by.merged h a b)) }
    {
        MergeBy::new(self.fuse(), other.into_fallible_iter().fuse(), f)
    }

    /// Joins the items of both sides in order, as a closure compares an item of each: `Less` yields this side's alone (`Left`), `Greater` the other's alone (`Right`), and `Equal` both together (`Both`). Once one side returned `Ok(None)`, the items of the other come alone, without a call.
    ///
    /// Creating it draws nothing. `next` draws this side once if no item of it is buffered. Then, unless that failed, it draws `other` once if no item of that is buffered. Of two items it calls the closure once, and buffers the one that isn't yielded. Each side is fused: once it returned `Ok(None)` it isn't drawn again. It fails as this iterator does, or else as `other` does, or else as the closure does. A failure of a side loses nothing: what is buffered stays, and the item of this side beside a failure of `other` is buffered. If the closure fails, its failure is yielded, and the two items that it was called on are lost. Its folds draw as `next` does. Bounds of both sides, added up, bound it.
    ///
    /// Requires: the closure may be called on references to two items, one that may come of each side. `next` requires that it may be called on both sides, and `Item: Drop` of both.
    ///
    /// ```
    /// let ours = convert([Ok::<u32, u8>(1), Ok(3)].into_iter());
    /// let theirs = convert([Ok(3), Ok(4)].into_iter());
    /// let mut it = ours.merge_join_by(theirs, |x, y| Ok(x.cmp(y)));
    /// assert_eq!(rt; it.next(), Ok(Some(EitherOrBoth::Left(1))));
    /// assert_eq!(rt; it.next(), Ok(Some(EitherOrBoth::Both(3, 3))));
    /// assert_eq!(rt; it.next(), Ok(Some(EitherOrBoth::Right(4))));
    /// assert_eq!(rt; it.next(), Ok(None));
    /// ```
    final fn merge_join_by<I, F>(self, other: I, f: F) -> MergeJoinBy<Self, I::IntoFallibleIter, F>
    where
        I: IntoFallibleIterator<Error = Self::Error>,
        F: FnMut(&Self::Item, &I::Item) -> Result<Ordering, Self::Error>,
        requires { (right : I.IntoFallibleIter) → I.into_gives other right
            → IsCallable (sides.call_on_two (merge_by.call_at_both F.FnMut))
            (λ g z. merge_by.takes_at_both F.FnMut g z.0 z.1) (λ z. Self.contract.may_give self z.0
            × I.IntoFallibleIter.contract.may_give right z.1) f }
        ensures begun { BothBegun self I.into_gives other ((None, None), f)
            (merge_by.merge_join_by_parts result) }
        ensures closure { sides.asked_closure (merge_by.merge_join_by_parts result) ≡ f }
        ensures bounded { (a b k : ℕ) → Self.contract.bound self a
            → I.IntoFallibleIter.contract.bound
            (sides.right_source (merge_by.merge_join_by_parts result)) b → a + b ≤ k
            → AtMost (seen_as merge_by.merge_join_by_parts (merge_by.merge_join_by_contract
            (sides.fused_contract Self.contract)
            (sides.fused_contract I.IntoFallibleIter.contract) F.FnMut)) result k }
        ensures lists { (h : Self.Item → I.Item → Result Ordering Self.Error)
            → list.ActsWith (merge_by.call_at_both F.FnMut) f h
            → OverBoth Self.contract.steps self I.into_gives other
            I.IntoFallibleIter.contract.steps
            (λ a b. list.Lists (seen_as merge_by.merge_join_by_parts
            (merge_by.merge_join_by_contract (sides.fused_contract Self.contract)
            (sides.fused_contract I.IntoFallibleIter.contract) F.FnMut)).steps result
            (merge_by.merge_joined h a b)) }
        ensures for_good { (h : Self.Item → I.Item → Result Ordering Self.Error)
            → list.ActsWith (merge_by.call_at_both F.FnMut) f h
            → OverBoth Self.contract.steps self I.into_gives other
            I.IntoFallibleIter.contract.steps
            (λ a b. list.ListsForGood (seen_as merge_by.merge_join_by_parts
            (merge_by.merge_join_by_contract (sides.fused_contract Self.contract)
            (sides.fused_contract I.IntoFallibleIter.contract) F.FnMut)).steps result
            (merge_by.merge_joined h a b)) }
    {
        MergeJoinBy::new(self.fuse(), other.into_fallible_iter().fuse(), f)
    }

    /// Pairs the items of both sides by their positions, up to `Ok(None)` of both. If one side returns `Ok(None)` where the other has an item, that item stands alone.
    ///
    /// Creating it draws nothing. `next` draws this side once if no item of it is buffered. Then, unless that failed, it draws `other` once, also after an `Ok(None)` of this side. Each side is fused: once it returned `Ok(None)` it isn't drawn again. It fails as this iterator does, or else as `other` does. A failure of `other` loses nothing: the item of this side is buffered, and the next call draws `other` alone. Its folds draw as `next` does. Bounds of both sides, added up, bound it.
    ///
    /// Requires: nothing. `next` requires that it may be called on both sides, and `Item: Drop`.
    ///
    /// ```
    /// let letters = convert([Ok::<char, u8>('a'), Ok('b')].into_iter());
    /// let numbers = convert([Ok(1)].into_iter());
    /// let mut it = letters.zip_longest(numbers);
    /// assert_eq!(rt; it.next(), Ok(Some(EitherOrBoth::Both('a', 1))));
    /// assert_eq!(rt; it.next(), Ok(Some(EitherOrBoth::Left('b'))));
    /// assert_eq!(rt; it.next(), Ok(None));
    /// ```
    final fn zip_longest<I>(self, other: I) -> ZipLongest<Self, I::IntoFallibleIter>
    where
        I: IntoFallibleIterator<Error = Self::Error>,
        ensures begun { BothBegun self I.into_gives other None
            (pad_using.zip_longest_parts result) }
        ensures bounded { (a b k : ℕ) → Self.contract.bound self a
            → I.IntoFallibleIter.contract.bound
            (sides.right_source (pad_using.zip_longest_parts result)) b → a + b ≤ k
            → AtMost (seen_as pad_using.zip_longest_parts
            (pad_using.zip_longest_contract (sides.fused_contract Self.contract)
            (sides.fused_contract I.IntoFallibleIter.contract))) result k }
        ensures lists { OverBoth Self.contract.steps self I.into_gives other
            I.IntoFallibleIter.contract.steps
            (λ a b. list.Lists (seen_as pad_using.zip_longest_parts
            (pad_using.zip_longest_contract (sides.fused_contract Self.contract)
            (sides.fused_contract I.IntoFallibleIter.contract))).steps result
            (pad_using.zipped_longest a b)) }
        ensures for_good { OverBoth Self.contract.steps self I.into_gives other
            I.IntoFallibleIter.contract.steps
            (λ a b. list.ListsForGood (seen_as pad_using.zip_longest_parts
            (pad_using.zip_longest_contract (sides.fused_contract Self.contract)
            (sides.fused_contract I.IntoFallibleIter.contract))).steps result
            (pad_using.zipped_longest a b)) }
    {
        ZipLongest::new(self.fuse(), other.into_fallible_iter().fuse())
    }

    /// Pairs the items of both sides by their positions, up to `Ok(None)` of both, and fails where one side has more items than the other. `unequal` makes that failure.
    ///
    /// Creating it draws nothing. `next` draws this side once if no item of it is buffered. Then, unless that failed, it draws `other` once, also after an `Ok(None)` of this side. Each side is fused: once it returned `Ok(None)` it isn't drawn again. It fails as this iterator does, or else as `other` does. A failure of `other` loses nothing: the item of this side is buffered, and the next call draws `other` alone. If one side alone has an item, that item is lost, and what one call of `unequal` returns is the failure. Calls after that go on so, one item each. Its folds draw as `next` does. Bounds of both sides, added up, bound it.
    ///
    /// Requires: `unequal` may be called, in each state that its calls bring it to. `next` requires that it may be called on both sides, and `Item: Drop` of both.
    ///
    /// ```
    /// let letters = convert([Ok::<char, u8>('a'), Ok('b')].into_iter());
    /// let numbers = convert([Ok(1)].into_iter());
    /// let mut it = letters.zip_eq(numbers, || 9);
    /// assert_eq!(rt; it.next(), Ok(Some(('a', 1))));
    /// assert_eq!(rt; it.next(), Err(9));
    /// assert_eq!(rt; it.next(), Ok(None));
    /// ```
    final fn zip_eq<I, F>(self, other: I, unequal: F) -> ZipEq<Self, I::IntoFallibleIter, F>
    where
        I: IntoFallibleIterator<Error = Self::Error>,
        F: FnMut() -> Self::Error,
        requires { IsCallable (call_of_none F.FnMut) (λ g _. F.pre g) (λ _. ⊤) unequal }
        ensures begun { BothBegun self I.into_gives other (None, unequal)
            (pad_using.zip_eq_parts result) }
        ensures closure { sides.asked_closure (pad_using.zip_eq_parts result) ≡ unequal }
        ensures bounded { (a b k : ℕ) → Self.contract.bound self a
            → I.IntoFallibleIter.contract.bound
            (sides.right_source (pad_using.zip_eq_parts result)) b → a + b ≤ k
            → AtMost (seen_as pad_using.zip_eq_parts (pad_using.zip_eq_contract
            (sides.fused_contract Self.contract)
            (sides.fused_contract I.IntoFallibleIter.contract) F.FnMut)) result k }
        ensures lists { (e : Self.Error) → list.Acts (call_of_none F.FnMut) unequal (λ _. e)
            → OverBoth Self.contract.steps self I.into_gives other
            I.IntoFallibleIter.contract.steps
            (λ a b. list.Lists (seen_as pad_using.zip_eq_parts (pad_using.zip_eq_contract
            (sides.fused_contract Self.contract)
            (sides.fused_contract I.IntoFallibleIter.contract) F.FnMut)).steps result
            (pad_using.zipped_equal e a b)) }
        ensures for_good { (e : Self.Error) → list.Acts (call_of_none F.FnMut) unequal (λ _. e)
            → OverBoth Self.contract.steps self I.into_gives other
            I.IntoFallibleIter.contract.steps
            (λ a b. list.ListsForGood (seen_as pad_using.zip_eq_parts (pad_using.zip_eq_contract
            (sides.fused_contract Self.contract)
            (sides.fused_contract I.IntoFallibleIter.contract) F.FnMut)).steps result
            (pad_using.zipped_equal e a b)) }
    {
        ZipEq::new(self.fuse(), other.into_fallible_iter().fuse(), unequal)
    }

    /// Yields the items of this iterator and of `other` in turn, this one's first. Once one side returned `Ok(None)`, it yields the rest of the other. A failure takes its side's turn, as an item does.
    ///
    /// Creating it draws nothing. It buffers nothing. `next` draws the side whose turn it is once, and if that returned `Ok(None)`, the other side once. Then it is the other side's turn, whatever was returned. Each side is fused: once it returned `Ok(None)` it isn't drawn again. It fails as the side does whose answer it returns, and loses nothing. Its folds draw as `next` does. Bounds of both sides, added up, bound it.
    ///
    /// Requires: nothing. `next` requires that it may be called on both sides.
    ///
    /// ```
    /// let left = convert([Ok::<u32, u8>(1), Err(9)].into_iter());
    /// let right = convert([Ok(10), Ok(20), Ok(30)].into_iter());
    /// let mut it = left.interleave(right);
    /// let drawn = [it.next(), it.next(), it.next(), it.next(), it.next()];
    /// assert_eq!(rt; drawn, [Ok(Some(1)), Ok(Some(10)), Err(9), Ok(Some(20)), Ok(Some(30))]);
    /// assert_eq!(rt; it.next(), Ok(None));
    /// ```
    final fn interleave<I>(self, other: I) -> Interleave<Self, I::IntoFallibleIter>
    where
        I: IntoFallibleIterator<Item = Self::Item, Error = Self::Error>,
        ensures left { interleave.interleave_left result ≡ self }
        ensures left_ended { interleave.interleave_left_ended result ≡ false }
        ensures right { I.into_gives other (interleave.interleave_right result) }
        ensures right_ended { interleave.interleave_right_ended result ≡ false }
        ensures right_next { interleave.interleave_right_next result ≡ false }
        ensures bounded { (a b k : ℕ) → Self.contract.bound self a
            → I.IntoFallibleIter.contract.bound (interleave.interleave_right result) b → a + b ≤ k
            → AtMost (seen_as interleave.interleave_parts
            (interleave.interleave_contract (sides.fused_contract Self.contract)
            (sides.fused_contract I.IntoFallibleIter.contract))) result k }
        ensures lists { OverBoth Self.contract.steps self I.into_gives other
            I.IntoFallibleIter.contract.steps
            (λ a b. list.Lists (seen_as interleave.interleave_parts
            (interleave.interleave_contract (sides.fused_contract Self.contract)
            (sides.fused_contract I.IntoFallibleIter.contract))).steps result
            (interleave.interleaved a b)) }
        ensures for_good { OverBoth Self.contract.steps self I.into_gives other
            I.IntoFallibleIter.contract.steps
            (λ a b. list.ListsForGood (seen_as interleave.interleave_parts
            (interleave.interleave_contract (sides.fused_contract Self.contract)
            (sides.fused_contract I.IntoFallibleIter.contract))).steps result
            (interleave.interleaved a b)) }
    {
        Interleave::new(self.fuse(), other.into_fallible_iter().fuse())
    }

    /// Yields the items, and if these are fewer than n, then what the closure returns for each index of those that are missing: from the number of items up to n - 1.
    ///
    /// Creating it draws nothing and calls nothing. `next` draws once, and the iterator is fused: once it returned `Ok(None)` it isn't drawn again. From then on `next` calls the closure once, until n items were yielded, and then it returns `Ok(None)`. A failure of the iterator is returned when it is met, and counts as no item. If the closure fails, its failure is yielded in the place of that item, and the next call goes on with the next index. The iterator's bound and n, added up, bound it.
    ///
    /// Requires: the closure may be called on each index below n, in each state that its calls bring it to. `next` requires that it may be called on the iterator.
    ///
    /// ```
    /// let readings = [Ok::<usize, u8>(150), Err(9), Ok(7)];
    /// let mut it = convert(readings.into_iter()).pad_using(3, Ok);
    /// let drawn = [it.next(), it.next(), it.next(), it.next(), it.next()];
    /// assert_eq!(rt; drawn, [Ok(Some(150)), Err(9), Ok(Some(7)), Ok(Some(2)), Ok(None)]);
    /// ```
    final fn pad_using<F>(self, n: usize, f: F) -> PadUsing<Self, F>
    where
        F: FnMut(usize) -> Result<Self::Item, Self::Error>,
        requires { IsCallable (call_by_value F.FnMut) (takes_by_value F.FnMut) (λ i. i < n) f }
        ensures source { pad_using.pad_using_source result ≡ self }
        ensures ended { pad_using.pad_using_ended result ≡ false }
        ensures indices { pad_using.pad_using_indices result ≡ (0, n) }
        ensures closure { pad_using.pad_using_closure result ≡ f }
        ensures callable { IsCallable (call_by_value F.FnMut) (takes_by_value F.FnMut)
            ((pad_using.index_contract {E = Self.Error}).may_give
            (pad_using.pad_using_indices result)) f }
        ensures bounded { (a k : ℕ) → Self.contract.bound self a → a + n ≤ k
            → AtMost (seen_as pad_using.pad_using_parts
            (pad_using.pad_using_contract (sides.fused_contract Self.contract) F.FnMut)) result k }
        ensures lists { OverListWith (list.Acts (call_by_value F.FnMut) f) Self.contract.steps self
            (λ h l. list.Lists (seen_as pad_using.pad_using_parts
            (pad_using.pad_using_contract
            (sides.fused_contract Self.contract) F.FnMut)).steps result
            (pad_using.padded n h l)) }
        ensures for_good { OverListWith (list.Acts (call_by_value F.FnMut) f) Self.contract.steps self
            (λ h l. list.ListsForGood (seen_as pad_using.pad_using_parts
            (pad_using.pad_using_contract
            (sides.fused_contract Self.contract) F.FnMut)).steps result
            (pad_using.padded n h l)) }
    {
        PadUsing::new(self.fuse(), n, f)
    }

    // ---- extremes, counts, comparisons

    /// Returns the only item: `Ok(Ok(None))` if none comes, and `Ok(Err(two))` with the first two if more than one comes.
    ///
    /// It draws at most twice: up to `Ok(None)`, a failure or the second item. It fails with that failure, and drops an item that came before it. Nothing is drawn after that, and the iterator may be used again.
    ///
    /// Requires: `next` may be called.
    ///
    /// ```
    /// let one = [Ok::<u32, u8>(150)];
    /// assert_eq!(rt; convert(one.into_iter()).at_most_one(), Ok(Ok(Some(150))));
    ///
    /// let more = [Ok::<u32, u8>(150), Ok(7), Err(9)];
    /// assert_eq!(rt; convert(more.into_iter()).at_most_one(), Ok(Err((150, 7))));
    /// ```
    final fn at_most_one(
        &mut self,
    ) -> Result<Result<Option<Self::Item>, (Self::Item, Self::Item)>, Self::Error>
    where
        Self::Item: Drop,
        requires { Self.contract.can_next self.old }
        ensures drawn { AtMostOneDrains Self.contract.steps self.old result self.new }
        ensures value { OverList Self.contract.steps self.old (λ l. result ≡ at_most_one_of l) }
        ensures rest_two { OverList Self.contract.steps self.old
            (λ l. (p : Self.Item × Self.Item) → result ≡ Ok (Err p)
            → list.Lists Self.contract.steps self.new (list.rest_nth 1 l)) }
        ensures rest_failure { OverList Self.contract.steps self.old
            (λ l. (e : Self.Error) → result ≡ Err e
            → list.Lists Self.contract.steps self.new (list.rest_nth 1 l)) }
        ensures stays { Stays Self.contract self.old self.new }
    {
        let first = match self.draw() {
            Ok(Some(first)) => first,
            Ok(None) => return Ok(Ok(None)),
            Err(e) => return Err(e),
        };
        match self.draw() {
            Ok(Some(second)) => Ok(Err((first, second))),
            Ok(None) => Ok(Ok(Some(first))),
            Err(e) => Err(e),
        }
    }

    /// Returns the only item, if exactly one comes. Otherwise it returns an `Ok(Err(_))`: a `NotOne` that says that none came, or hands back the first two.
    ///
    /// Draws, errors, precondition and what is left: as `at_most_one`.
    ///
    /// ```
    /// let one = [Ok::<u32, u8>(150)];
    /// assert_eq!(rt; convert(one.into_iter()).exactly_one(), Ok(Ok(150)));
    ///
    /// let more = [Ok::<u32, u8>(150), Ok(7), Err(9)];
    /// assert_eq!(rt;
    ///     convert(more.into_iter()).exactly_one(),
    ///     Ok(Err(NotOne::More(150, 7)))
    /// );
    /// ```
    final fn exactly_one(&mut self) -> Result<Result<Self::Item, NotOne<Self::Item>>, Self::Error>
    where
        Self::Item: Drop,
        requires { Self.contract.can_next self.old }
        ensures drawn { (r : Result (Result (Option Self.Item) (Self.Item × Self.Item)) Self.Error)
            × AtMostOneDrains Self.contract.steps self.old r self.new × (result ≡ wanting_one r) }
        ensures value { OverList Self.contract.steps self.old
            (λ l. result ≡ wanting_one (at_most_one_of l)) }
        ensures rest_two { OverList Self.contract.steps self.old
            (λ l. (x y : Self.Item) → result ≡ Ok (Err (More x y))
            → list.Lists Self.contract.steps self.new (list.rest_nth 1 l)) }
        ensures rest_failure { OverList Self.contract.steps self.old
            (λ l. (e : Self.Error) → result ≡ Err e
            → list.Lists Self.contract.steps self.new (list.rest_nth 1 l)) }
        ensures stays { Stays Self.contract self.old self.new }
    {
        match self.at_most_one() {
            Ok(Ok(Some(only))) => Ok(Ok(only)),
            Ok(Ok(None)) => Ok(Err(NotOne::NoItem)),
            Ok(Err((first, second))) => Ok(Err(NotOne::More(first, second))),
            Err(e) => Err(e),
        }
    }

    /// Returns how many items come before the greatest one, of equal ones before the last; `Ok(None)` if no item comes.
    ///
    /// Draws and errors: as `fold`. It consumes the iterator too.
    ///
    /// Precondition: the iterator is finite, and at most `usize::MAX` items are left, so that each position fits.
    ///
    /// Requires: `next` may be called.
    ///
    /// ```
    /// let readings = [Ok::<u32, u8>(150), Ok(7), Ok(150), Ok(8)];
    /// assert_eq!(rt; convert(readings.into_iter()).position_max(), Ok(Some(2)));
    /// ```
    final fn position_max(self) -> Result<Option<usize>, Self::Error>
    where
        Self::Item: Ord + Drop,
        requires can_next { Self.contract.can_next self }
        requires finite { Self.contract.is_finite self }
        requires fits { AtMost Self.contract self (2 ^ 64 - 1) }
        ensures picked { PlaceDrains Greater Self.Item.cmp Self.contract self result }
        ensures value { OverList Self.contract.steps self
            (λ l. result ≡ position_greatest Self.Item.cmp l) }
    {
        let compare = |best: &(usize, Self::Item), x: &(usize, Self::Item)| -> Result<
            Ordering,
            Self::Error,
        >
            ensures { result ≡ Ok (Self.Item.cmp best.now.1 x.now.1) }
        { Ok(best.1.cmp(&x.1)) };
        place_alone(self.enumerate().max_by(compare))
    }

    /// Returns how many items come before the least one, of equal ones before the first; `Ok(None)` if no item comes.
    ///
    /// Draws, errors and precondition: as `position_max`. It consumes the iterator too.
    ///
    /// ```
    /// let readings = [Ok::<u32, u8>(150), Ok(7), Ok(8), Ok(7)];
    /// assert_eq!(rt; convert(readings.into_iter()).position_min(), Ok(Some(1)));
    /// ```
    final fn position_min(self) -> Result<Option<usize>, Self::Error>
    where
        Self::Item: Ord + Drop,
        requires can_next { Self.contract.can_next self }
        requires finite { Self.contract.is_finite self }
        requires fits { AtMost Self.contract self (2 ^ 64 - 1) }
        ensures picked { PlaceDrains Less (λ x y. or_less (Self.Item.cmp x y)) Self.contract self
            result }
        ensures value { OverList Self.contract.steps self
            (λ l. result ≡ position_least Self.Item.cmp l) }
    {
        let compare = |best: &(usize, Self::Item), x: &(usize, Self::Item)| -> Result<
            Ordering,
            Self::Error,
        >
            ensures { result ≡ Ok (or_less (Self.Item.cmp best.now.1 x.now.1)) }
        { Ok(first_is_less(best.1.cmp(&x.1))) };
        place_alone(self.enumerate().min_by(compare))
    }

    /// Returns the first of the least items and the last of the greatest, in one pass. For one item it returns `OneElement`, for none `NoElements`.
    ///
    /// It draws up to `Ok(None)` or the first failure. It fails with that failure. It consumes the iterator.
    ///
    /// Precondition: the iterator is finite.
    ///
    /// Requires: `next` may be called.
    ///
    /// ```
    /// let readings = [Ok::<u32, u8>(150), Ok(7), Ok(700)];
    /// assert_eq!(rt;
    ///     convert(readings.into_iter()).minmax(),
    ///     Ok(MinMaxResult::MinMax(7, 700))
    /// );
    /// ```
    final fn minmax(mut self) -> Result<MinMaxResult<Self::Item>, Self::Error>
    where
        Self::Item: Ord + Drop,
        requires can_next { Self.contract.can_next self }
        requires finite { Self.contract.is_finite self }
        ensures minmaxed { MinMaxDrains Self.Item.cmp Self.contract.steps self result }
        ensures value { OverList Self.contract.steps self
            (λ l. result ≡ minmaxed Self.Item.cmp l) }
    {
        let first = match self.draw() {
            Ok(Some(first)) => first,
            Ok(None) => return Ok(MinMaxResult::NoElements),
            Err(e) => return Err(e),
        };
        let second = match self.draw() {
            Ok(Some(second)) => second,
            Ok(None) => return Ok(MinMaxResult::OneElement(first)),
            Err(e) => return Err(e),
        };
        let mut both = lesser_first(first.cmp(&second), first, second);
        match self.drive(&mut both, &MinMaxTurn) {
            Ok(None) => Ok(MinMaxResult::MinMax(both.0, both.1)),
            Ok(Some(never)) => match never {},
            Err(e) => Err(e),
        }
    }

    /// Returns the first of the least items and the last of the greatest by the closure, in one pass. For one item it returns `OneElement`, for none `NoElements`.
    ///
    /// The closure is called on the first item and the second. From then on it is called on the least item so far and the next one. If the least isn't greater, it is called on the greatest so far and that item. An item takes the place of the least if the least is greater, and otherwise that of the greatest, unless the greatest is greater.
    ///
    /// It draws up to the first item on which the closure fails, the first failure or `Ok(None)`. It fails with the first failure, of this iterator or of the closure. It consumes the iterator.
    ///
    /// Precondition: the iterator is finite.
    ///
    /// Requires: `next` may be called, and the closure may be called on what is kept so far and each item that may come.
    ///
    /// ```
    /// let pairs = [Ok::<(u32, char), u8>((3, 'a')), Ok((1, 'b')), Ok((3, 'c')), Ok((1, 'd'))];
    /// let ends = convert(pairs.into_iter()).minmax_by(|x, y| Ok(x.0.cmp(&y.0)));
    /// assert_eq!(rt; ends, Ok(MinMaxResult::MinMax((1, 'b'), (3, 'c'))));
    /// ```
    final fn minmax_by<F>(self, f: F) -> Result<MinMaxResult<Self::Item>, Self::Error>
    where
        Self::Item: Drop,
        F: FnMut(&Self::Item, &Self::Item) -> Result<Ordering, Self::Error>,
        requires can_next { Self.contract.can_next self }
        requires finite { Self.contract.is_finite self }
        requires callable { fold.CallableInFold Self.contract.steps
            (MinMaxCall (call_at_two F.FnMut))
            (takes_beside (call_at_two F.FnMut) (takes_at_two F.FnMut)) self f NoElements }
        ensures folded { (left : Self)
            × fold.FoldDrains Self.contract.steps (MinMaxCall (call_at_two F.FnMut)) (λ e d. d ≡ e)
            self NoElements f result left }
        ensures value { OverListWith (list.ActsWith (call_at_two F.FnMut) f) Self.contract.steps self
            (λ h l. result ≡ minmaxed_by h l) }
        ensures order { (cmp : Self.Item → Self.Item → Ordering) → IsTotalOrder cmp
            → list.ActsWith (call_at_two F.FnMut) f (λ x y. Ok (cmp x y))
            → OverList Self.contract.steps self (λ l. result ≡ minmaxed cmp l) }
    {
        find_both_by(self, f)
    }

    /// Returns the first of the items with the least key and the last of those with the greatest, in one pass. For one item it returns `OneElement`, for none `NoElements`. The closure is called once on each item, in order, and returns its key.
    ///
    /// It draws up to the first item on which the closure fails, the first failure or `Ok(None)`. It fails with the first failure, of this iterator or of the closure. It consumes the iterator.
    ///
    /// Precondition: the iterator is finite.
    ///
    /// Requires: `next` may be called, and the closure may be called on each item that may come.
    ///
    /// ```
    /// let words = [Ok::<&str, u8>("to"), Ok("the"), Ok("sea"), Ok("at")];
    /// assert_eq!(rt;
    ///     convert(words.into_iter()).minmax_by_key(|word| Ok(word.len())),
    ///     Ok(MinMaxResult::MinMax("to", "sea"))
    /// );
    /// ```
    final fn minmax_by_key<K, F>(self, f: F) -> Result<MinMaxResult<Self::Item>, Self::Error>
    where
        Self::Item: Drop,
        K: Ord + Drop,
        F: FnMut(&Self::Item) -> Result<K, Self::Error>,
        requires can_next { Self.contract.can_next self }
        requires finite { Self.contract.is_finite self }
        requires callable { fold.CallableInFold Self.contract.steps
            (MinMaxKeyCall K.cmp (call_by_reference F.FnMut))
            (λ g c x. takes_by_reference F.FnMut g x) self f NoElements }
        ensures folded { MinMaxKeyDrains K.cmp (call_by_reference F.FnMut) Self.contract.steps self f
            result }
        ensures value { OverListWith (list.Acts (call_by_reference F.FnMut) f) Self.contract.steps self
            (λ h l. result ≡ minmaxed_by_key K.cmp h l) }
    {
        find_both_by_key(self, f)
    }

    /// Returns how often each item comes, as a map. A key is the first of equal items, its value the number of items equal to it.
    ///
    /// It draws up to `Ok(None)` or the first failure. It fails with that failure. It consumes the iterator.
    ///
    /// Precondition: at most `usize::MAX` items are left, so that each number fits.
    ///
    /// Requires: `next` may be called.
    ///
    /// Memory: that failure is a `Fault::Source`. It also stops at an item that the map rejects: no item before equals it, and an allocation failed. Then it fails with `Fault::Memory`.
    ///
    /// ```
    /// let readings = [Ok::<u32, u8>(7), Ok(150), Ok(7)];
    /// let counts = convert(readings.into_iter()).counts(rt.alloc())?;
    /// assert_eq!(rt;
    ///     (counts.get(&7), counts.get(&150), counts.get(&8)),
    ///     (Some(&2), Some(&1), None)
    /// );
    /// ```
    final fn counts(self, alloc: Global) -> Result<HashMap<Self::Item, usize>, Fault<Self::Error>>
    where
        Self::Item: Eq + Hash + Drop,
        requires can_next { Self.contract.can_next self }
        requires fits { AtMost Self.contract self (2 ^ 64 - 1) }
        ensures collects { Collects Self.contract.steps (IsCountsOf Self.Item.eq) ⊥
            (λ m x. (get Self.Item.eq m x ≡ None) × (spare m ≡ 0)) self result }
        ensures value { OverList Self.contract.steps self
            (λ l. list.CollectedAs (IsCountsOf Self.Item.eq) l result) }
        ensures contents { OverList Self.contract.steps self
            (λ l. ContentsOf (IsCountsOf Self.Item.eq) l result) }
    {
        match self.collect::<Tally<Self::Item>>(alloc) {
            Ok(made) => Ok(made.counts),
            Err(fault) => Err(fault),
        }
    }

    /// Returns how often each key comes that the closure makes of the items, as a map. A key of the map is the first of equal ones.
    ///
    /// Draws and errors: as `counts` of `map`. The closure is called once on each item. If it fails, this stops and fails with that failure. It consumes the iterator.
    ///
    /// Precondition: at most `usize::MAX` items are left, so that each number fits.
    ///
    /// Requires: `next` may be called, and of the closure what `map` requires.
    ///
    /// Memory: that failure is a `Fault::Source` too. All else as `counts`.
    ///
    /// ```
    /// let readings = [Ok::<u32, u8>(150), Ok(7), Ok(157)];
    /// let counts = convert(readings.into_iter()).counts_by(rt.alloc(), |reading: u32| Ok(
    ///     reading / 100,
    /// ))?;
    /// assert_eq!(rt; (counts.get(&1), counts.get(&0)), (Some(&2), Some(&1)));
    /// ```
    final fn counts_by<K, F>(
        self,
        alloc: Global,
        f: F,
    ) -> Result<HashMap<K, usize>, Fault<Self::Error>>
    where
        K: Eq + Hash + Drop,
        F: FnMut(Self::Item) -> Result<K, Self::Error>,
        requires can_next { Self.contract.can_next self }
        requires fits { AtMost Self.contract self (2 ^ 64 - 1) }
        requires callable { IsCallable (call_by_value F.FnMut) (takes_by_value F.FnMut)
            (Self.contract.may_give self) f }
        ensures collects { Collects (map_contract Self.contract F.FnMut).steps
            (IsCountsOf K.eq) ⊥ (λ m x. (get K.eq m x ≡ None) × (spare m ≡ 0)) (self, f) result }
        ensures value { OverListWith (list.Acts (call_by_value F.FnMut) f) Self.contract.steps self
            (λ h l. list.CollectedAs (IsCountsOf K.eq) (list.mapped h l) result) }
        ensures contents { OverListWith (list.Acts (call_by_value F.FnMut) f) Self.contract.steps self
            (λ h l. ContentsOf (IsCountsOf K.eq) (list.mapped h l) result) }
    {
        self.map(f).counts(alloc)
    }

    /// Returns the pairs' values by their keys, as a map. A key is the first of equal keys, its value a `Vec` of the values of the pairs with an equal key, in order.
    ///
    /// It draws up to `Ok(None)` or the first failure. It fails with that failure. It consumes the iterator.
    ///
    /// Precondition: the iterator is finite.
    ///
    /// Requires: `next` may be called.
    ///
    /// Memory: that failure is a `Fault::Source`. It also stops at a pair that the map rejects, since an allocation failed, for a new key or for the full `Vec` of an equal one. Then it fails with `Fault::Memory`.
    ///
    /// ```
    /// let pairs = [Ok::<(char, u32), u8>(('a', 1)), Ok(('b', 2)), Ok(('a', 3))];
    /// let groups = convert(pairs.into_iter()).into_group_map(rt.alloc())?;
    /// assert_eq!(rt; groups.get(&'a'), Some(&vec![in rt.alloc(); 1, 3]?));
    /// assert_eq!(rt; groups.get(&'b'), Some(&vec![in rt.alloc(); 2]?));
    /// ```
    final fn into_group_map<K, V>(
        self,
        alloc: Global,
    ) -> Result<HashMap<K, Vec<V>>, Fault<Self::Error>>
    where
        Self: FallibleIterator<Item = (K, V)>,
        K: Eq + Hash + Drop,
        V: Drop,
        requires can_next { Self.contract.can_next self }
        requires finite { Self.contract.is_finite self }
        ensures collects { Collects Self.contract.steps (IsGroupMapOf K.eq) ⊥
            (GroupRefuses K.eq) self result }
        ensures value { OverList Self.contract.steps self
            (λ l. list.CollectedAs (IsGroupMapOf K.eq) l result) }
        ensures contents { OverList Self.contract.steps self
            (λ l. ContentsOf (IsGroupMapOf K.eq) l result) }
    {
        match self.collect::<GroupMap<K, V>>(alloc) {
            Ok(made) => Ok(made.groups),
            Err(fault) => Err(fault),
        }
    }

    /// Returns a collection of the items before the first failure, and that failure if one came.
    ///
    /// It draws up to `Ok(None)` or the first failure. Nothing is drawn after that, and the iterator may be used again: a second call collects what comes after the failure. Of equal items it keeps what `collect` keeps.
    ///
    /// Precondition: the iterator is finite.
    ///
    /// Requires: `next` may be called.
    ///
    /// Memory: it fails with an `AllocError` where `collect` fails with `Fault::Memory`: at the creation of the collection, or at an item that the collection rejects. Then that item and the collection are lost.
    ///
    /// ```
    /// let readings = [Ok::<u32, u8>(150), Ok(7), Err(9), Ok(700)];
    /// let mut it = convert(readings.into_iter());
    /// let (before, failure): (Vec<u32>, Option<u8>) = it.collect_until_failure(rt.alloc())?;
    /// assert_eq!(rt; before, vec![in rt.alloc(); 150, 7]?);
    /// assert_eq!(rt; failure, Some(9));
    /// assert_eq!(rt; it.next(), Ok(Some(700)));
    /// ```
    final fn collect_until_failure<C: Collect<Self::Item>>(
        &mut self,
        alloc: Global,
    ) -> Result<(C, Option<Self::Error>), AllocError>
    where
        requires can_next { Self.contract.can_next self.old }
        requires finite { Self.contract.is_finite self.old }
        ensures collects { CollectsUntil Self.contract.steps C.made C.empty_refuses C.push_refuses
            self.old result self.new }
        ensures value { OverList Self.contract.steps self.old
            (λ l. CollectedUntilAs C.made l result) }
        ensures rest { OverList Self.contract.steps self.old
            (λ l. (c : C) (e : Self.Error) → result ≡ Ok (c, Some e)
            → list.Lists Self.contract.steps self.new (rest_failure l)) }
        ensures stays { Stays Self.contract self.old self.new }
    {
        let mut made = match C::empty(alloc) {
            Ok(made) => made,
            Err(refused) => return Err(refused),
        };
        let answer = self.drive(&mut made, &CollectTurn);
        with_failure(answer, made)
    }

    /// Returns the items by the keys that the closure makes of them, as a map. A key of the map is the first of equal ones, its value a `Vec` of the items with an equal key, in order.
    ///
    /// Draws and errors: as `into_group_map`. The closure is called once on each item, through a reference. If it fails, this stops and fails with that failure. It consumes the iterator.
    ///
    /// Precondition: the iterator is finite.
    ///
    /// Requires: `next` may be called, and the closure may be called on each item that may come, in each state that such calls bring it to.
    ///
    /// Memory: that failure is a `Fault::Source` too. All else as `into_group_map`.
    ///
    /// ```
    /// let readings = [Ok::<u32, u8>(150), Ok(7), Ok(157)];
    /// let groups = convert(readings.into_iter()).into_group_map_by(rt.alloc(), |reading: &u32| Ok(
    ///     *reading / 100,
    /// ))?;
    /// assert_eq!(rt; groups.get(&1), Some(&vec![in rt.alloc(); 150, 157]?));
    /// ```
    final fn into_group_map_by<K, F>(
        self,
        alloc: Global,
        f: F,
    ) -> Result<HashMap<K, Vec<Self::Item>>, Fault<Self::Error>>
    where
        Self::Item: Drop,
        K: Eq + Hash + Drop,
        F: FnMut(&Self::Item) -> Result<K, Self::Error>,
        requires can_next { Self.contract.can_next self }
        requires finite { Self.contract.is_finite self }
        requires callable { IsCallable (call_by_reference F.FnMut) (takes_by_reference F.FnMut)
            (Self.contract.may_give self) f }
        ensures collects { Collects (keyed_contract Self.contract F.FnMut).steps
            (IsGroupMapOf K.eq) ⊥ (GroupRefuses K.eq) (self, f) result }
        ensures value { OverListWith (list.Acts (call_by_reference F.FnMut) f) Self.contract.steps self
            (λ h l. list.CollectedAs (IsGroupMapOf K.eq) (keyed h l) result) }
        ensures contents { OverListWith (list.Acts (call_by_reference F.FnMut) f) Self.contract.steps self
            (λ h l. ContentsOf (IsGroupMapOf K.eq) (keyed h l) result) }
    {
        Keyed { it: self, f }.into_group_map(alloc)
    }

    /// Returns for each key that the first closure makes of the items what the second folds its items to, as a map. A key of the map is the first of equal ones, its value the fold of the items with an equal key, in order, from `init` on.
    ///
    /// It draws up to `Ok(None)` or the first failure, of this iterator or of a closure. It fails with that failure. On each item the first closure is called, through a reference, and then the second, on the value so far of the item's key. It consumes the iterator.
    ///
    /// Rattle copies values. In Rust `init` is cloned once for each key, and at most once more; of a type that drops nothing, as a number, the value so far is cloned at each item.
    ///
    /// Precondition: the iterator is finite.
    ///
    /// Requires: `next` may be called, the first closure may be called on each item that may come, in each state that such calls bring it to, and the second on the value so far of its key and each item that may come.
    ///
    /// Memory: that failure is a `Fault::Source`. It also stops at an item that the map rejects: no item before has an equal key, and an allocation failed. Then it fails with `Fault::Memory`.
    ///
    /// ```
    /// let readings = [Ok::<u32, u8>(150), Ok(7), Ok(157)];
    /// let sums = convert(readings.into_iter()).fold_by_key(
    ///     rt.alloc(),
    ///     |reading: &u32| Ok(*reading / 100),
    ///     0,
    ///     |sum: u32, reading: u32| Ok(sum.wrapping_add(reading)),
    /// )?;
    /// assert_eq!(rt; (sums.get(&1), sums.get(&0)), (Some(&307), Some(&7)));
    /// ```
    final fn fold_by_key<K, B, F, G>(
        self,
        alloc: Global,
        key: F,
        init: B,
        f: G,
    ) -> Result<HashMap<K, B>, Fault<Self::Error>>
    where
        Self::Item: Drop,
        K: Eq + Hash + Drop,
        B: Copy + Drop,
        F: FnMut(&Self::Item) -> Result<K, Self::Error>,
        G: FnMut(B, Self::Item) -> Result<B, Self::Error>,
        requires can_next { Self.contract.can_next self }
        requires finite { Self.contract.is_finite self }
        requires callable { IsCallable (call_by_reference F.FnMut) (takes_by_reference F.FnMut)
            (Self.contract.may_give self) key }
        requires callable_fold { fold.HoldsAtEachTurn (keyed_contract Self.contract F.FnMut).steps
            (AddsValue (fold.call_with G.FnMut) K.eq init)
            (λ p x. fold.takes_with G.FnMut p.1 (last_value K.eq init p.0 x.0) x.1)
            (self, key) ([], f) }
        ensures folded { FoldsByKey (fold.call_with G.FnMut) K.eq init
            (keyed_contract Self.contract F.FnMut).steps (self, key) f result }
        ensures value { OverListWith (list.Acts (call_by_reference F.FnMut) key) Self.contract.steps
            self (λ k l. (h : B → Self.Item → Result B Self.Error)
            → list.ActsWith (fold.call_with G.FnMut) f h
            → FoldedByKeyAs K.eq h init (keyed k l) result) }
        ensures contents { OverListWith (list.Acts (call_by_reference F.FnMut) key)
            Self.contract.steps self (λ k l. (h : B → Self.Item → Result B Self.Error)
            → list.ActsWith (fold.call_with G.FnMut) f h
            → ContentsOf (IsKeyFoldOf K.eq h init)
            (checked_folds K.eq h init [] (keyed k l)) result) }
    {
        let mut it = Keyed { it: self, f: key };
        let mut state = (HashMap::new(alloc), f);
        let answer = it.drive(&mut state, &crate::keyed::FoldByKeyTurn { init });
        let (folds, _) = state;
        match answer {
            Ok(None) => Ok(folds),
            Ok(Some(fault)) => Err(fault),
            Err(e) => Err(Fault::Source(e)),
        }
    }

    /// Returns two collections of what the closure returns for the items: of the values of each `Either::Left`, and of those of each `Either::Right`, in order. Of equal values they keep what `collect` keeps.
    ///
    /// Draws and errors: as `collect` of `map`. The closure is called once on each item. If it fails, this stops and fails with that failure. It consumes the iterator.
    ///
    /// Precondition: the iterator is finite.
    ///
    /// Requires: `next` may be called, and of the closure what `map` requires.
    ///
    /// Memory: that failure is a `Fault::Source` too.
    ///
    /// ```
    /// let readings = [Ok::<u32, u8>(150), Ok(7), Ok(700)];
    /// let (low, above): (Vec<u32>, Vec<u32>) = convert(readings.into_iter()).partition_map(
    ///     rt.alloc(),
    ///     |reading: u32| {
    ///         Ok(match reading.checked_sub(100) {
    ///             Some(above) => Either::Right(above),
    ///             None => Either::Left(reading),
    ///         })
    ///     },
    /// )?;
    /// assert_eq!(rt; low, vec![in rt.alloc(); 7]?);
    /// assert_eq!(rt; above, vec![in rt.alloc(); 50, 600]?);
    /// ```
    final fn partition_map<L, R, F, A, B>(
        self,
        alloc: Global,
        f: F,
    ) -> Result<(L, R), Fault<Self::Error>>
    where
        L: Collect<A>,
        R: Collect<B>,
        F: FnMut(Self::Item) -> Result<Either<A, B>, Self::Error>,
        A: Drop,
        B: Drop,
        requires can_next { Self.contract.can_next self }
        requires finite { Self.contract.is_finite self }
        requires callable { IsCallable (call_by_value F.FnMut) (takes_by_value F.FnMut)
            (Self.contract.may_give self) f }
        ensures collects { Collects (map_contract Self.contract F.FnMut).steps
            (MadeOfEithers L.made R.made) (L.empty_refuses ⊎ R.empty_refuses)
            (EitherRefused L.push_refuses R.push_refuses) (self, f) result }
        ensures value { OverListWith (list.Acts (call_by_value F.FnMut) f) Self.contract.steps self
            (λ h l. list.CollectedAs (MadeOfEithers L.made R.made) (list.mapped h l) result) }
        ensures contents { OverListWith (list.Acts (call_by_value F.FnMut) f) Self.contract.steps self
            (λ h l. ContentsOf (MadeOfEithers L.made R.made) (list.mapped h l) result) }
    {
        self.map(f).collect(alloc)
    }

    /// Returns two collections: of the items, and of the failures, each in order. Of equal values they keep what `collect` keeps.
    ///
    /// It draws up to `Ok(None)`; a failure doesn't stop it. It consumes the iterator. In Rust it never returns over a source that fails for ever; `take(n).stop_after(m)` before it bounds items and failures together.
    ///
    /// Precondition: the iterator is finite.
    ///
    /// Requires: `next` may be called, and the items and failures that remain have a bound, both together, as `or_else` requires. `take(n)` before it bounds the items alone.
    ///
    /// Memory: it stops at an item or a failure that its collection rejects, and fails with the `AllocError`.
    ///
    /// ```
    /// let readings = [Ok::<u32, u8>(150), Err(9), Ok(7), Err(8)];
    /// let (items, failures): (Vec<u32>, Vec<u8>) = convert(readings.into_iter()).partition_failures(
    ///     rt.alloc(),
    /// )?;
    /// assert_eq!(rt; items, vec![in rt.alloc(); 150, 7]?);
    /// assert_eq!(rt; failures, vec![in rt.alloc(); 9, 8]?);
    /// ```
    final fn partition_failures<C: Collect<Self::Item>, D: Collect<Self::Error>>(
        self,
        alloc: Global,
    ) -> Result<(C, D), AllocError>
    where
        Self::Item: Drop,
        Self::Error: Drop,
        requires can_next { Self.contract.can_next self }
        requires bounded { IsFinite (Self.contract.remaining self) }
        ensures collects { Collects (parted_step Self.contract.steps)
            (MadeOfEithers C.made D.made) (C.empty_refuses ⊎ D.empty_refuses)
            (EitherRefused C.push_refuses D.push_refuses) self (without_source result) }
        ensures value { OverList Self.contract.steps self
            (λ l. PartitionedFailuresAs C.made D.made l result) }
    {
        without_fault(Parted { it: self }.collect(alloc))
    }

    /// Returns the items in a `Vec`, in order. Equal items keep their order.
    ///
    /// It draws up to `Ok(None)` or the first failure. It fails with that failure. After `Ok(None)` it sorts. It consumes the iterator.
    ///
    /// Precondition: the iterator is finite.
    ///
    /// Requires: `next` may be called.
    ///
    /// Memory: that failure is a `Fault::Source`. It also stops at an item that the collection rejects. It fails with `Fault::Memory` if an allocation failed, for the last item drawn or for sorting more than 20 items.
    ///
    /// ```
    /// let readings = [Ok::<u32, u8>(150), Ok(7), Ok(700)];
    /// let sorted = convert(readings.into_iter()).sorted(rt.alloc())?;
    /// assert_eq!(rt; sorted, vec![in rt.alloc(); 7, 150, 700]?);
    /// ```
    final fn sorted(self, alloc: Global) -> Result<Vec<Self::Item>, Fault<Self::Error>>
    where
        Self::Item: Ord + Drop,
        requires can_next { Self.contract.can_next self }
        requires finite { Self.contract.is_finite self }
        ensures collects { CollectsSorted Self.contract.steps (IsSortedOf Self.Item.cmp) self
            result }
        ensures value { OverList Self.contract.steps self
            (λ l. list.CollectedAs (IsSortedOf Self.Item.cmp) l result) }
        ensures contents { OverList Self.contract.steps self
            (λ l. ContentsOf (IsSortedOf Self.Item.cmp) l result) }
    {
        sorted::sorted_items(self.collect(alloc))
    }

    /// Returns the items in a `Vec`, in the order that the closure returns for each two. Items that it finds equal keep their order. If it compares as no order does, it returns the items in any order, each of them once; in Rust it may panic.
    ///
    /// Draws and errors: as `sorted`. The closure doesn't fail. It is called after the last draw. It consumes the iterator.
    ///
    /// Precondition: the iterator is finite.
    ///
    /// Requires: `next` may be called, and the closure may be called on references to any two items at any time.
    ///
    /// Proof: the `Vec` is known to be in order by a strict weak order as which the closure compares.
    ///
    /// ```
    /// let readings = [Ok::<u32, u8>(150), Ok(7), Ok(700)];
    /// let falling = convert(readings.into_iter()).sorted_by(
    ///     rt.alloc(),
    ///     |x: &u32, y: &u32| y.cmp(x),
    /// )?;
    /// assert_eq!(rt; falling, vec![in rt.alloc(); 700, 150, 7]?);
    /// ```
    final fn sorted_by<F>(self, alloc: Global, f: F) -> Result<Vec<Self::Item>, Fault<Self::Error>>
    where
        Self::Item: Drop,
        F: FnMut(&Self::Item, &Self::Item) -> Ordering,
        requires can_next { Self.contract.can_next self }
        requires finite { Self.contract.is_finite self }
        requires callable { F.IsAlwaysCallable f }
        ensures collects { CollectsSorted Self.contract.steps (IsSortedByComparisons F.FnMut f)
            self result }
        ensures value { (lt : Self.Item → Self.Item → Bool) → IsStrictWeakOrder lt
            → ComparesAs F.FnMut lt f
            → OverList Self.contract.steps self
            (λ l. list.CollectedAs (IsSortedByTest lt) l result) }
        ensures contents { (lt : Self.Item → Self.Item → Bool) → IsStrictWeakOrder lt
            → ComparesAs F.FnMut lt f
            → OverList Self.contract.steps self
            (λ l. IfOk result (list.MadeOf (IsSortedByTest lt) (list.collected l))) }
        ensures items { OverList Self.contract.steps self
            (λ l. list.CollectedAs HasItems l result) }
        ensures failure { OverList Self.contract.steps self
            (λ l. (e : Self.Error) → result ≡ Err (Source e) → list.collected l ≡ Err e) }
    {
        sorted::sorted_items_by(self.collect(alloc), f)
    }

    /// Returns the items in a `Vec`, in the order of the keys that the closure returns for them. Items with equal keys keep their order. If the closure returns other keys for an item from call to call, it returns the items in any order, each of them once.
    ///
    /// Draws and errors: as `sorted`. The closure doesn't fail; a key that may fail is made by `map` before. The closure is called after the last draw, on an item as often as its key is compared. It consumes the iterator.
    ///
    /// Precondition: the iterator is finite.
    ///
    /// Requires: `next` may be called, and the closure may be called on a reference to any item at any time.
    ///
    /// ```
    /// let words = [Ok::<&str, u8>("the"), Ok("sea"), Ok("is")];
    /// let sorted = convert(words.into_iter()).sorted_by_key(rt.alloc(), |word: &&str| word.len())?;
    /// assert_eq!(rt; sorted, vec![in rt.alloc(); "is", "the", "sea"]?);
    /// ```
    final fn sorted_by_key<K, F>(
        self,
        alloc: Global,
        f: F,
    ) -> Result<Vec<Self::Item>, Fault<Self::Error>>
    where
        Self::Item: Drop,
        K: Ord + Drop,
        F: FnMut(&Self::Item) -> K,
        requires can_next { Self.contract.can_next self }
        requires finite { Self.contract.is_finite self }
        requires callable { F.IsAlwaysCallable f }
        ensures collects { CollectsSorted Self.contract.steps (IsSortedByCalls F.FnMut K.cmp f)
            self result }
        ensures value { (key : Self.Item → K) → ComputesKey F.FnMut key f
            → OverList Self.contract.steps self
            (λ l. list.CollectedAs (IsSortedByKeyOf key K.cmp) l result) }
        ensures contents { (key : Self.Item → K) → ComputesKey F.FnMut key f
            → OverList Self.contract.steps self
            (λ l. IfOk result (list.MadeOf (IsSortedByKeyOf key K.cmp) (list.collected l))) }
        ensures items { OverList Self.contract.steps self
            (λ l. list.CollectedAs HasItems l result) }
        ensures failure { OverList Self.contract.steps self
            (λ l. (e : Self.Error) → result ≡ Err (Source e) → list.collected l ≡ Err e) }
    {
        sorted::sorted_items_by_key(self.collect(alloc), f)
    }

    /// Returns the items in a `Vec`, in order. Equal items may come in any order. Sorting takes no memory beyond the `Vec`.
    ///
    /// It draws up to `Ok(None)` or the first failure. It fails with that failure. After `Ok(None)` it sorts. It consumes the iterator.
    ///
    /// Precondition: the iterator is finite.
    ///
    /// Requires: `next` may be called.
    ///
    /// Memory: that failure is a `Fault::Source`. It also stops at an item that the collection rejects, and fails with `Fault::Memory`. Sorting never fails.
    ///
    /// ```
    /// let readings = [Ok::<u32, u8>(150), Ok(7), Ok(700)];
    /// let sorted = convert(readings.into_iter()).sorted_unstable(rt.alloc())?;
    /// assert_eq!(rt; sorted, vec![in rt.alloc(); 7, 150, 700]?);
    /// ```
    final fn sorted_unstable(self, alloc: Global) -> Result<Vec<Self::Item>, Fault<Self::Error>>
    where
        Self::Item: Ord + Drop,
        requires can_next { Self.contract.can_next self }
        requires finite { Self.contract.is_finite self }
        ensures collects { CollectsInPlace Self.contract.steps (HasItemsInOrder Self.Item.cmp) self
            result }
        ensures value { OverList Self.contract.steps self
            (λ l. list.CollectedAs (HasItemsInOrder Self.Item.cmp) l result) }
        ensures contents { OverList Self.contract.steps self
            (λ l. ContentsOf (HasItemsInOrder Self.Item.cmp) l result) }
    {
        sorted::items_in_order(self.collect(alloc))
    }

    /// Returns the items in a `Vec`, in the order that the closure returns for each two. Items that it finds equal may come in any order. If it compares as no order does, it returns the items in any order, each of them once; in Rust it may panic.
    ///
    /// Draws, errors and memory: as `sorted_unstable`. The closure doesn't fail. It is called after the last draw. It consumes the iterator.
    ///
    /// Precondition: the iterator is finite.
    ///
    /// Requires: `next` may be called, and the closure may be called on references to any two items at any time.
    ///
    /// Proof: the `Vec` is known to be in order by a strict weak order as which the closure compares.
    ///
    /// ```
    /// let readings = [Ok::<u32, u8>(150), Ok(7), Ok(700)];
    /// let falling = convert(readings.into_iter()).sorted_unstable_by(
    ///     rt.alloc(),
    ///     |x: &u32, y: &u32| y.cmp(x),
    /// )?;
    /// assert_eq!(rt; falling, vec![in rt.alloc(); 700, 150, 7]?);
    /// ```
    final fn sorted_unstable_by<F>(
        self,
        alloc: Global,
        f: F,
    ) -> Result<Vec<Self::Item>, Fault<Self::Error>>
    where
        Self::Item: Drop,
        F: FnMut(&Self::Item, &Self::Item) -> Ordering,
        requires can_next { Self.contract.can_next self }
        requires finite { Self.contract.is_finite self }
        requires callable { F.IsAlwaysCallable f }
        ensures collects { CollectsInPlace Self.contract.steps
            (HasItemsInOrderByComparisons F.FnMut f) self result }
        ensures value { (lt : Self.Item → Self.Item → Bool) → IsStrictWeakOrder lt
            → ComparesAs F.FnMut lt f
            → OverList Self.contract.steps self
            (λ l. list.CollectedAs (HasItemsInOrderByTest lt) l result) }
        ensures contents { (lt : Self.Item → Self.Item → Bool) → IsStrictWeakOrder lt
            → ComparesAs F.FnMut lt f
            → OverList Self.contract.steps self
            (λ l. IfOk result (list.MadeOf (HasItemsInOrderByTest lt) (list.collected l))) }
        ensures items { OverList Self.contract.steps self
            (λ l. list.CollectedAs HasItems l result) }
        ensures failure { OverList Self.contract.steps self
            (λ l. (e : Self.Error) → result ≡ Err (Source e) → list.collected l ≡ Err e) }
    {
        sorted::items_in_order_by(self.collect(alloc), f)
    }

    /// Returns the items in a `Vec`, in the order of the keys that the closure returns for them. Items with equal keys may come in any order. If the closure returns other keys for an item from call to call, it returns the items in any order, each of them once; in Rust it may panic.
    ///
    /// Draws, errors and memory: as `sorted_unstable`. The closure doesn't fail; a key that may fail is made by `map` before. The closure is called after the last draw, on an item as often as its key is compared. It consumes the iterator.
    ///
    /// Precondition: the iterator is finite.
    ///
    /// Requires: `next` may be called, and the closure may be called on a reference to any item at any time.
    ///
    /// ```
    /// let words = [Ok::<&str, u8>("the"), Ok("is"), Ok("calm")];
    /// let sorted = convert(words.into_iter()).sorted_unstable_by_key(
    ///     rt.alloc(),
    ///     |word: &&str| word.len(),
    /// )?;
    /// assert_eq!(rt; sorted, vec![in rt.alloc(); "is", "the", "calm"]?);
    /// ```
    final fn sorted_unstable_by_key<K, F>(
        self,
        alloc: Global,
        f: F,
    ) -> Result<Vec<Self::Item>, Fault<Self::Error>>
    where
        Self::Item: Drop,
        K: Ord + Drop,
        F: FnMut(&Self::Item) -> K,
        requires can_next { Self.contract.can_next self }
        requires finite { Self.contract.is_finite self }
        requires callable { F.IsAlwaysCallable f }
        ensures collects { CollectsInPlace Self.contract.steps
            (HasItemsInOrderByCalls F.FnMut K.cmp f) self result }
        ensures value { (key : Self.Item → K) → ComputesKey F.FnMut key f
            → OverList Self.contract.steps self
            (λ l. list.CollectedAs (HasItemsInOrderByKey key K.cmp) l result) }
        ensures contents { (key : Self.Item → K) → ComputesKey F.FnMut key f
            → OverList Self.contract.steps self
            (λ l. IfOk result (list.MadeOf (HasItemsInOrderByKey key K.cmp) (list.collected l))) }
        ensures items { OverList Self.contract.steps self
            (λ l. list.CollectedAs HasItems l result) }
        ensures failure { OverList Self.contract.steps self
            (λ l. (e : Self.Error) → result ≡ Err (Source e) → list.collected l ≡ Err e) }
    {
        sorted::items_in_order_by_key(self.collect(alloc), f)
    }

    /// Returns the items as `Display` shows them, with the separator between each two.
    ///
    /// It draws up to `Ok(None)` or the first failure. It fails with that failure. It consumes the iterator.
    ///
    /// In Rust it panics if the `Display` of an item fails.
    ///
    /// Precondition: the iterator is finite.
    ///
    /// Requires: `next` may be called.
    ///
    /// Memory: that failure is a `Fault::Source`. It also stops at an item that can't be appended, since an allocation failed or its `Display` did. Then it fails with `Fault::Memory`.
    ///
    /// Proof: the text is known of items whose type says how they are shown.
    ///
    /// ```
    /// let readings = [Ok::<u32, u8>(150), Ok(7), Ok(700)];
    /// let text = convert(readings.into_iter()).join(rt.alloc(), ", ")?;
    /// assert_eq!(rt; text.as_str(), "150, 7, 700");
    /// ```
    final fn join(mut self, alloc: Global, separator: &str) -> Result<String, Fault<Self::Error>>
    where
        Self::Item: Display + Drop,
        requires can_next { Self.contract.can_next self }
        requires finite { Self.contract.is_finite self }
        ensures collects { Collects Self.contract.steps
            (JoinedAs Self.Item.output separator.now) ⊥ (λ _ _. ⊤) self result }
        ensures value { OverList Self.contract.steps self
            (λ l. list.CollectedAs (JoinedAs Self.Item.output separator.now) l result) }
        ensures contents { OverList Self.contract.steps self
            (λ l. ContentsOf (JoinedAs Self.Item.output separator.now) l result) }
    {
        let mut state = (false, String::new(alloc));
        let answer = self.drive(&mut state, &JoinTurn { separator });
        gathered(answer, state.1)
    }

    /// Returns the `k` least items in a `Vec`, in order, or all if fewer come. Equal items keep their order, and the first of them are kept. It keeps at most twice `k` items at a time.
    ///
    /// It draws up to `Ok(None)` or the first failure, also if `k` is 0. It fails with that failure, and what was kept is dropped. It consumes the iterator.
    ///
    /// An item that isn't less than the last of `k` kept ones costs one comparison. Another one is kept too. What is kept is sorted and cut to `k` when there are twice as many, so n items take no more than some n log `k` comparisons.
    ///
    /// Precondition: the iterator is finite.
    ///
    /// Requires: `next` may be called.
    ///
    /// Memory: that failure is a `Fault::Source`. It also stops at an item for which an allocation failed, before `k` items were kept. Then it fails with `Fault::Memory`. An allocation that fails later it does without, and moves each item to its place by itself.
    ///
    /// ```
    /// let readings = [Ok::<u32, u8>(150), Ok(7), Ok(700), Ok(50)];
    /// let smallest = convert(readings.into_iter()).k_smallest(rt.alloc(), 2)?;
    /// assert_eq!(rt; smallest, vec![in rt.alloc(); 7, 50]?);
    /// ```
    final fn k_smallest(
        mut self,
        alloc: Global,
        k: usize,
    ) -> Result<Vec<Self::Item>, Fault<Self::Error>>
    where
        Self::Item: Ord + Drop,
        requires can_next { Self.contract.can_next self }
        requires finite { Self.contract.is_finite self }
        ensures collects { Collects Self.contract.steps (IsSmallestOf Self.Item.cmp k) ⊥
            (SmallestRefuses k) self result }
        ensures value { OverList Self.contract.steps self
            (λ l. list.CollectedAs (IsSmallestOf Self.Item.cmp k) l result) }
        ensures contents { OverList Self.contract.steps self
            (λ l. ContentsOf (IsSmallestOf Self.Item.cmp k) l result) }
    {
        let mut kept = Vec::new(alloc);
        match self.drive(&mut kept, &sorted::SmallestTurn { k }) {
            Ok(None) => {
                sorted::cut(&mut kept, k);
                Ok(kept)
            }
            Ok(Some(refused)) => Err(Fault::Memory(refused)),
            Err(e) => Err(Fault::Source(e)),
        }
    }

    /// Returns the last `n` items in a queue, in order, or all if fewer come. It keeps at most `n` items at a time.
    ///
    /// It draws up to `Ok(None)` or the first failure, also if `n` is 0. It fails with that failure, and what was kept is dropped. It consumes the iterator.
    ///
    /// Precondition: the iterator is finite.
    ///
    /// Requires: `next` may be called.
    ///
    /// Memory: that failure is a `Fault::Source`. It also stops at an item for which an allocation failed, before `n` items were kept. Then it fails with `Fault::Memory`.
    ///
    /// ```
    /// let readings = [Ok::<u32, u8>(150), Ok(7), Ok(700)];
    /// let last = convert(readings.into_iter()).tail(rt.alloc(), 2)?;
    /// assert_eq!(rt; (last.front(), last.back()), (Some(&7), Some(&700)));
    /// ```
    final fn tail(
        mut self,
        alloc: Global,
        n: usize,
    ) -> Result<VecDeque<Self::Item>, Fault<Self::Error>>
    where
        Self::Item: Drop,
        requires can_next { Self.contract.can_next self }
        requires finite { Self.contract.is_finite self }
        ensures collects { Collects Self.contract.steps (IsTailOf deque_items n) ⊥
            (TailRefuses deque_len deque_capacity n) self result }
        ensures value { OverList Self.contract.steps self
            (λ l. list.CollectedAs (IsTailOf deque_items n) l result) }
        ensures contents { OverList Self.contract.steps self
            (λ l. ContentsOf (IsTailOf deque_items n) l result) }
    {
        let mut kept = VecDeque::new(alloc);
        let answer = self.drive(&mut kept, &tail::TailTurn { n });
        gathered(answer, kept)
    }

    /// Compares two iterators by the closure, which is called on the two items of each round. The first two that aren't equal decide. If there are none, the side that ends alone is less.
    ///
    /// It draws in rounds, this iterator and then the other, until a failure, an `Ok(None)` or two items that decide. If this one returned `Ok(None)`, the other is still drawn in that round; if this one failed, it is not. It fails with the first failure: in each round one of this iterator comes before one of the other, and that before one of the closure. It consumes both.
    ///
    /// Precondition: one of the two is finite.
    ///
    /// Requires: `next` may be called on both sides, and the closure may be called on each two items that may come in one round.
    ///
    /// ```
    /// let left = convert([Ok::<u32, u8>(11), Ok(12)].into_iter());
    /// let right = convert([Ok(21), Ok(13)].into_iter());
    /// let order = left.cmp_by(right, |x, y| Ok((x % 10).cmp(&(y % 10))));
    /// assert_eq!(rt; order, Ok(Ordering::Less));
    /// ```
    final fn cmp_by<I, F>(self, other: I, f: F) -> Result<Ordering, Self::Error>
    where
        I: IntoFallibleIterator<Error = Self::Error>,
        I::Item: Drop,
        Self::Item: Drop,
        F: FnMut(Self::Item, I::Item) -> Result<Ordering, Self::Error>,
        requires can_next { Self.contract.can_next self }
        requires right { (right : I.IntoFallibleIter) → I.into_gives other right
            → I.IntoFallibleIter.contract.can_next right }
        requires finite { OneIsFinite Self.contract I.into_gives I.IntoFallibleIter.contract
            self other }
        requires callable { (right : I.IntoFallibleIter) → I.into_gives other right
            → comparing.CallableInRounds Self.contract.steps I.IntoFallibleIter.contract.steps
            (fold.goes_on (comparing.IsCmpTurn (fold.call_with F.FnMut)))
            (λ g p. fold.takes_with F.FnMut g p.0 p.1) self right f }
        ensures compared { comparing.ComparedByWith (comparing.IsCmpTurn (fold.call_with F.FnMut))
            I.into_gives Self.contract.steps I.IntoFallibleIter.contract.steps self other f
            (read_as (λ o. Some o) result) }
        ensures value { (h : Self.Item → I.Item → Result Ordering Self.Error)
            → list.ActsWith (fold.call_with F.FnMut) f h
            → OverBoth Self.contract.steps self I.into_gives other
            I.IntoFallibleIter.contract.steps
            (λ a b. read_as (λ o. Some o) result ≡ comparing.ordered_by h a b) }
    {
        let answer = compare_by(self, other.into_fallible_iter(), f, &CmpTurn);
        ordered(answer)
    }

    /// Returns whether the closure finds the two items of each round equal, and both end together.
    ///
    /// Draws, errors and precondition: as `cmp_by`.
    ///
    /// ```
    /// let left = convert([Ok::<u32, u8>(11), Ok(12)].into_iter());
    /// let right = convert([Ok(21), Ok(2)].into_iter());
    /// assert_eq!(rt; left.eq_by(right, |x, y| Ok(x % 10 == y % 10)), Ok(true));
    /// ```
    final fn eq_by<I, F>(self, other: I, f: F) -> Result<bool, Self::Error>
    where
        I: IntoFallibleIterator<Error = Self::Error>,
        I::Item: Drop,
        Self::Item: Drop,
        F: FnMut(Self::Item, I::Item) -> Result<bool, Self::Error>,
        requires can_next { Self.contract.can_next self }
        requires right { (right : I.IntoFallibleIter) → I.into_gives other right
            → I.IntoFallibleIter.contract.can_next right }
        requires finite { OneIsFinite Self.contract I.into_gives I.IntoFallibleIter.contract
            self other }
        requires callable { (right : I.IntoFallibleIter) → I.into_gives other right
            → comparing.CallableInRounds Self.contract.steps I.IntoFallibleIter.contract.steps
            (fold.goes_on (comparing.IsEqTurn (fold.call_with F.FnMut)))
            (λ g p. fold.takes_with F.FnMut g p.0 p.1) self right f }
        ensures compared { (answer : Result (Option Ordering) Self.Error)
            × comparing.ComparedByWith (comparing.IsEqTurn (fold.call_with F.FnMut)) I.into_gives
            Self.contract.steps I.IntoFallibleIter.contract.steps self other f answer
            × (result ≡ read_as reads_eq answer) }
        ensures value { (h : Self.Item → I.Item → Result Bool Self.Error)
            → list.ActsWith (fold.call_with F.FnMut) f h
            → OverBoth Self.contract.steps self I.into_gives other
            I.IntoFallibleIter.contract.steps (λ a b. result ≡ comparing.equal_by h a b) }
    {
        let answer = compare_by(self, other.into_fallible_iter(), f, &EqTurn);
        ReadEq::read(answer)
    }

    /// Yields the items in batches of n. A batch before an `Ok(None)` or a failure may have fewer.
    ///
    /// Creating it draws nothing and allocates nothing. `next` draws until the batch has n items, or a stop comes: `Ok(None)` or a failure. A buffered batch is yielded first. The stop is what the next call returns, without a draw. The first batch, and one after a whole one, has room for n items at once, or for 1024 if n is more. One after a batch that a stop cut grows.
    ///
    /// It fails as the source does. After a failure and after `Ok(None)` the next call draws again.
    ///
    /// In Rust it panics if n is 0.
    ///
    /// Requires: n is not 0. `next` requires that it may be called on the source, and `Item: Drop`. It requires no bound: one call draws at most n times.
    ///
    /// Memory: if an allocation fails, for the first item of a batch or for one for which the batch has no room, the failure converted from `AllocError` is a stop too: that item is lost, and no other.
    ///
    /// ```
    /// let readings = [Ok::<u32, AllocError>(150), Ok(7), Ok(700)];
    /// let mut it = convert(readings.into_iter()).chunks(rt.alloc(), 2);
    /// assert_eq!(rt; it.next(), Ok(Some(vec![in rt.alloc(); 150, 7]?)));
    /// assert_eq!(rt; it.next(), Ok(Some(vec![in rt.alloc(); 700]?)));
    /// assert_eq!(rt; it.next(), Ok(None));
    /// ```
    final fn chunks(self, alloc: Global, n: usize) -> Chunks<Self>
    where
        Self::Item: Drop,
        Self::Error: Drop + From<AllocError>,
        requires { 0 < n }
        ensures parts { chunks_parts result ≡ (self, (((n, None), true), None)) }
        ensures lists { (l : List (Result Self.Item Self.Error))
            → list.Lists Self.contract.steps self l
            → ListsMade (λ xs v. vec_items v ≡ xs)
            (seen_as chunks_parts (chunks_contract Self.Error.from_gives Self.contract)).steps
            Self.Error.from_gives result (chunked n l) }
    {
        Chunks::new(self, alloc, n)
    }

    /// Yields groups of adjacent items with equal keys, each with its key.
    ///
    /// Creating it draws nothing, calls nothing and allocates nothing. `next` draws until an item has another key than the buffered group, or a stop comes: `Ok(None)` or a failure. It calls the closure once on each item. A buffered group is yielded first. The stop is what the next call returns, without a draw. After a stop a new group begins. A new group has room at once for as many items as the one that it follows has, or for 1024 if that has more.
    ///
    /// It fails as the source does. The closure's failure is a stop too. Then the item is lost, and no other. After a failure and after `Ok(None)` the next call draws again.
    ///
    /// Requires: the closure may be called on a reference to each item that may come, in each state that such calls bring it to. `next` requires that it may be called on the source, that the source is finite, and `Item: Drop`.
    ///
    /// Memory: if an allocation fails, the failure converted from `AllocError` is a stop too, at which the item is lost, and no other.
    ///
    /// ```
    /// let readings = [Ok::<u32, AllocError>(150), Ok(157), Ok(7)];
    /// let mut it = convert(readings.into_iter()).chunk_by(rt.alloc(), |reading| Ok(*reading / 10));
    /// assert_eq!(rt; it.next(), Ok(Some((15, vec![in rt.alloc(); 150, 157]?))));
    /// assert_eq!(rt; it.next(), Ok(Some((0, vec![in rt.alloc(); 7]?))));
    /// assert_eq!(rt; it.next(), Ok(None));
    /// ```
    final fn chunk_by<K, F>(self, alloc: Global, key: F) -> ChunkBy<Self, K, F>
    where
        K: PartialEq + Drop,
        F: FnMut(&Self::Item) -> Result<K, Self::Error>,
        Self::Item: Drop,
        Self::Error: Drop + From<AllocError>,
        requires callable { IsCallable (call_by_reference F.FnMut) (takes_by_reference F.FnMut)
            (Self.contract.may_give self) key }
        ensures parts { chunk_by_parts result ≡ (self, ((None, key), None)) }
        ensures callable { plan_can (puts_by_key Self.Error.from_gives K.eq F.FnMut)
            (chunk_by_plan K.eq) chunk_by_stops (takes_key F.FnMut) (MayMeet Self.contract self)
            (None, key) }
        ensures lists { (h : Self.Item → Result K Self.Error)
            → (l : List (Result Self.Item Self.Error))
            → list.Acts (call_by_reference F.FnMut) key h
            → list.Lists Self.contract.steps self l
            → ListsMade MadeGroup (seen_as chunk_by_parts
            (chunk_by_contract Self.Error.from_gives K.eq F.FnMut Self.contract)).steps
            Self.Error.from_gives result (chunked_by K.eq h l) }
    {
        ChunkBy::new(self, alloc, key)
    }

    /// Yields the items, with a clone of the separator between each two adjacent ones.
    ///
    /// Creating it draws nothing. If an item is buffered, `next` yields it and draws nothing; otherwise it draws once. An item after the first is buffered, and a clone of the separator is yielded before it. It fails as the source does. After a failure or an `Ok(None)` the next item still has a separator before it.
    ///
    /// Requires: nothing. `next` requires that it may be called on the source.
    ///
    /// Memory: if a clone can't be allocated, the failure converted from `AllocError` is yielded. The item is buffered then too, so none is lost.
    ///
    /// Proof: where a clone may fail, clones of the list are listed up to the first allocation failure, if a value is a clone of itself.
    ///
    /// ```
    /// let readings = [Ok::<u32, AllocError>(150), Ok(7)];
    /// let mut it = convert(readings.into_iter()).intersperse(0);
    /// let drawn = [it.next(), it.next(), it.next(), it.next()];
    /// assert_eq!(rt; drawn, [Ok(Some(150)), Ok(Some(0)), Ok(Some(7)), Ok(None)]);
    /// ```
    final fn intersperse(self, separator: Self::Item) -> Intersperse<Self>
    where
        Self::Item: Clone + Drop,
        Self::Error: From<AllocError>,
        ensures parts { intersperse_parts result ≡ (self, ((false, separator), None)) }
        ensures lists { (l : List (Result Self.Item Self.Error))
            → list.Lists Self.contract.steps self l
            → ((copy : Self.Item) → Self.Item.is_clone separator copy → copy ≡ separator)
            → Self.Item.is_infallible separator
            → list.Lists (seen_as intersperse_parts (intersperse_contract Self.Item.is_clone
            Self.Item.is_infallible Self.Error.from_gives Self.contract)).steps result
            (interspersed separator l) }
        ensures until_refused { (l : List (Result Self.Item Self.Error))
            → list.Lists Self.contract.steps self l
            → ((x : Self.Item) → Self.Item.is_clone x x)
            → ListsUntilRefused Self.Item.is_clone
            (seen_as intersperse_parts (intersperse_contract Self.Item.is_clone
            Self.Item.is_infallible Self.Error.from_gives Self.contract)).steps
            Self.Error.from_gives result (interspersed separator l) }
    {
        Intersperse::new(self, separator)
    }

    /// Yields the items, with what the closure returns between each two adjacent ones.
    ///
    /// Creating it draws nothing and calls nothing. If an item is buffered, `next` yields it and draws nothing; otherwise it draws once. An item after the first is buffered, the closure is called once, and what it returns is yielded before the item. It fails as the source does. If the closure fails, that failure is returned in the separator's place. The item is buffered then too, so none is lost. After a failure or an `Ok(None)` the next item still has a separator before it.
    ///
    /// Requires: the closure may be called in each state that such calls bring it to. `next` requires that, and that it may be called on the source.
    ///
    /// Proof: if the closure's state shows what its calls return, that is listed between the items.
    ///
    /// ```
    /// let readings = [Ok::<u32, u8>(150), Ok(7), Ok(700)];
    /// let mut number = 0u32;
    /// let mut it = convert(readings.into_iter()).intersperse_with(|| {
    ///     number = number.wrapping_add(1);
    ///     Ok(number)
    /// });
    /// let drawn = [it.next(), it.next(), it.next(), it.next(), it.next()];
    /// assert_eq!(rt;
    ///     drawn,
    ///     [
    ///         Ok(Some(150)),
    ///         Ok(Some(1)),
    ///         Ok(Some(7)),
    ///         Ok(Some(2)),
    ///         Ok(Some(700))
    ///     ]
    /// );
    /// ```
    final fn intersperse_with<F>(self, f: F) -> IntersperseWith<Self, F>
    where
        Self::Item: Drop,
        F: FnMut() -> Result<Self::Item, Self::Error>,
        requires callable { IsCallable (call_of_none F.FnMut) (λ g _. F.pre g) (λ _. ⊤) f }
        ensures parts { intersperse_with.intersperse_with_parts result
            ≡ (self, ((false, f), None)) }
        ensures callable { plan_can (call_of_none F.FnMut) intersperse_plan passes
            (intersperse_with.takes_none F.FnMut) (MayMeet Self.contract self) (false, f) }
        ensures lists { (separator : Self.Item) → (l : List (Result Self.Item Self.Error))
            → list.Lists Self.contract.steps self l
            → list.Acts (call_of_none F.FnMut) f (λ _. Ok separator)
            → list.Lists (seen_as intersperse_with.intersperse_with_parts
            (intersperse_with.intersperse_with_contract F.FnMut Self.contract)).steps result
            (interspersed separator l) }
        ensures shown { (shows : F → ℕ → Result Self.Item Self.Error)
            → (h : ℕ → Result Self.Item Self.Error) → (l : List (Result Self.Item Self.Error))
            → list.Lists Self.contract.steps self l
            → intersperse_with.CallsMakeShown (call_of_none F.FnMut) shows
            → ((n : ℕ) → shows f n ≡ h n)
            → list.Lists (seen_as intersperse_with.intersperse_with_parts
            (intersperse_with.intersperse_with_contract F.FnMut Self.contract)).steps result
            (interspersed_by h l) }
    {
        IntersperseWith::new(self, f)
    }

    /// Yields the position of each item for which the closure returns true: how many items come before it. Failures and `Ok(None)` don't count.
    ///
    /// Creating it draws nothing and calls nothing. `next` draws up to an item for which the closure returns true or fails, a failure or an `Ok(None)`. It fails as the source does. If the closure fails, its failure is yielded; the item is lost, and counts. After a failure or an `Ok(None)` the count goes on.
    ///
    /// Precondition: at most `usize::MAX` items are still to come, so that each position fits.
    ///
    /// Requires: nothing else. `next` requires that it may be called on the source, that the source is finite, since one call may leave many items out, and that the closure may be called on each item that may come.
    ///
    /// ```
    /// let readings = [Ok::<u32, u8>(150), Ok(7), Err(9), Ok(700)];
    /// let mut it = convert(readings.into_iter()).positions(|reading| Ok(reading > 100));
    /// let drawn = [it.next(), it.next(), it.next(), it.next()];
    /// assert_eq!(rt; drawn, [Ok(Some(0)), Err(9), Ok(Some(2)), Ok(None)]);
    /// ```
    final fn positions<F>(self, f: F) -> Positions<Self, F>
    where
        Self::Item: Drop,
        F: FnMut(Self::Item) -> Result<bool, Self::Error>,
        requires { AtMost Self.contract self (2 ^ 64 - 1) }
        ensures parts { positions_parts result ≡ (positions_source result, f) }
        ensures numbers { enumerate_parts (positions_source result) ≡ (self, 0) }
        ensures numberable { Self.contract.can_next self → IsNumberable Self.contract self 0 }
        ensures lists { OverListWith (list.Acts (call_by_value F.FnMut) f) Self.contract.steps self
            (λ h l. list.Lists (parts_as positions_parts (positions_contract
            (parts_as enumerate_parts (enumerate_contract Self.contract)) F.FnMut)).steps result
            (positions_where h l)) }
    {
        Positions::new(self.enumerate(), f)
    }

    /// Yields each item that equals none before it: of equal items the first.
    ///
    /// Creating it draws nothing and allocates nothing. `next` draws up to an item that equals none that was yielded, a failure or an `Ok(None)`. A set has a clone of each item that was yielded. It fails as the source does, and a failure parts nothing. After a failure or an `Ok(None)` the set stays.
    ///
    /// Requires: nothing. `next` requires that it may be called on the source, and that the source is finite, since one call may leave many items out.
    ///
    /// Memory: if the clone or the room for it can't be allocated, the failure converted from `AllocError` is yielded. Then the item is lost, and no other: a later one that equals it is yielded.
    ///
    /// ```
    /// let readings = [Ok::<u32, AllocError>(7), Ok(150), Ok(7)];
    /// let mut it = convert(readings.into_iter()).unique(rt.alloc());
    /// let drawn = [it.next(), it.next(), it.next()];
    /// assert_eq!(rt; drawn, [Ok(Some(7)), Ok(Some(150)), Ok(None)]);
    /// ```
    final fn unique(self, alloc: Global) -> Unique<Self>
    where
        Self::Item: Clone + Drop + Eq + Hash,
        Self::Error: From<AllocError>,
        ensures parts { unique_source result ≡ self }
        ensures empty { IsEmpty (unique_seen result) }
        ensures lists { (l : List (Result Self.Item Self.Error))
            → list.Lists Self.contract.steps self l
            → ClonesAreEqual Self.Item.eq Self.Item.is_clone
            → ListsUntilRefused (λ x y. y ≡ x) (seen_as unique_parts
            (unique_contract Self.Item.eq Self.Item.is_clone Self.Item.is_infallible
            Self.Error.from_gives Self.contract)).steps Self.Error.from_gives result
            (unique_of Self.Item.eq l) }
    {
        Unique::new(self, alloc)
    }

    /// Yields each item whose key equals none before it: the first item of each key. The closure makes the key of a reference to the item.
    ///
    /// Creating it draws nothing, calls nothing and allocates nothing. `next` draws up to an item whose key equals that of none that was yielded, a failure or an `Ok(None)`. It calls the closure once on each item that it draws. A set has the keys of the items that were yielded; nothing is cloned. It fails as the source does, and as the closure does. A failure parts nothing. After a failure or an `Ok(None)` the set stays.
    ///
    /// If the closure fails, its failure is yielded, the item is lost, and no other.
    ///
    /// Requires: the closure may be called on a reference to each item that may come. `next` requires what that of `unique` requires.
    ///
    /// Memory: if the room for a key can't be allocated, the failure converted from `AllocError` is yielded. Then the item and its key are lost, and no other: a later item with an equal key is yielded.
    ///
    /// ```
    /// let readings = [Ok::<u32, AllocError>(7), Ok(150), Ok(17)];
    /// let mut it = convert(readings.into_iter())
    ///     .unique_by(rt.alloc(), |reading| Ok(*reading % 10));
    /// let drawn = [it.next(), it.next(), it.next()];
    /// assert_eq!(rt; drawn, [Ok(Some(7)), Ok(Some(150)), Ok(None)]);
    /// ```
    final fn unique_by<K, F>(self, alloc: Global, f: F) -> UniqueBy<Self, K, F>
    where
        Self::Item: Drop,
        Self::Error: From<AllocError>,
        K: Eq + Hash + Drop,
        F: FnMut(&Self::Item) -> Result<K, Self::Error>,
        requires callable { IsCallable (call_by_reference F.FnMut) (takes_by_reference F.FnMut)
            (Self.contract.may_give self) f }
        ensures parts { unique_by.unique_by_source result ≡ self }
        ensures empty { IsEmpty (unique_by.unique_by_keys result) }
        ensures closure { unique_by.unique_by_closure result ≡ f }
        ensures lists { OverListWith (list.Acts (call_by_reference F.FnMut) f) Self.contract.steps
            self (λ h l. ListsUntilRefused (λ x y. y ≡ x) (seen_as unique_by.unique_by_parts
            (unique_by.unique_by_contract K.eq Self.Error.from_gives Self.contract F.FnMut)).steps
            Self.Error.from_gives result (unique_by.unique_by_key K.eq h l)) }
    {
        UniqueBy::new(self, alloc, f)
    }

    /// Yields each item that equals exactly one before it: of equal items the second.
    ///
    /// Creating it draws nothing and allocates nothing. `next` draws up to an item that equals exactly one before it, a failure or an `Ok(None)`. A map has the first of equal items, whether or not a second came; nothing is cloned. It fails as the source does, and a failure parts nothing. After a failure or an `Ok(None)` the map stays.
    ///
    /// Requires: nothing. `next` requires that it may be called on the source, and that the source is finite, since one call may leave many items out.
    ///
    /// Memory: if the room for an item that equals none before it can't be allocated, the failure converted from `AllocError` is yielded. Then the item is lost, and no other: it doesn't count as one before the later items.
    ///
    /// ```
    /// let readings = [Ok::<u32, AllocError>(7), Ok(150), Ok(7), Ok(7)];
    /// let mut it = convert(readings.into_iter()).duplicates(rt.alloc());
    /// let drawn = [it.next(), it.next()];
    /// assert_eq!(rt; drawn, [Ok(Some(7)), Ok(None)]);
    /// ```
    final fn duplicates(self, alloc: Global) -> Duplicates<Self>
    where
        Self::Item: Drop + Eq + Hash,
        Self::Error: From<AllocError>,
        ensures parts { duplicates_source result ≡ self }
        ensures empty { hash.IsEmpty (duplicates_came result) }
        ensures lists { (l : List (Result Self.Item Self.Error))
            → list.Lists Self.contract.steps self l
            → ListsUnlessRefused (seen_as duplicates_parts
            (duplicates_contract Self.Item.eq Self.Error.from_gives Self.contract)).steps
            Self.Error.from_gives result (duplicates_of Self.Item.eq l) }
    {
        Duplicates::new(self, alloc)
    }
}

impl<I: FallibleIterator> FallibleItertools for I {}
