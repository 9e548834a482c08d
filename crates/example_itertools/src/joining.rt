//! Callers of the adapters that join: each states what it computes, and the contracts of the calls prove it.
ghost use Rattle.std.specs.Ordering.{nat_cmp};
ghost use Rattle.std.specs.Prelude.{◌≡◌, ◌%◌, ◌/◌, List, Ok, Result, nat_eq, nat_le, Some};
ghost use Rattle.fallible_iterator.specs.Comparing.{by_cmp, read_as};
ghost use Rattle.fallible_iterator.specs.Lists.{Lists, ListsForGood, counted, last_of, nth_of, results};
ghost use Rattle.fallible_itertools.specs.Equal.{equal_by, ordered_by};
ghost use Rattle.fallible_itertools.specs.Coalesce.{deduped_by};
ghost use Rattle.fallible_itertools.specs.Interleave.{interleaved};
ghost use Rattle.fallible_itertools.specs.Merge.{merged, merged_in_order};
ghost use Rattle.fallible_itertools.specs.Zip.{padded, zipped_equal, zipped_longest};

use fallible_iterator::{FallibleIterator, convert};
use fallible_itertools::{FallibleItertools, Interleave};
use std::cmp::Ordering;

/// How many positions two columns have, each filled by one of them at least, or the first failure.
pub fn places_of_both(left: Vec<Result<u32, u8>>, right: Vec<Result<u32, u8>>) -> Result<usize, u8>
    ensures { result ≡ counted (zipped_longest (results left.items) (results right.items)) }
{
    convert(left.into_iter())
        .zip_longest(convert(right.into_iter()))
        .count()
}

/// How many readings a year has, where a 0 stands for each month that is missing at its end, or the first failure.
pub fn months(readings: Vec<Result<u32, u8>>) -> Result<usize, u8>
    ensures { result ≡ counted (padded 12 (λ _. Ok 0) (results readings.items)) }
{
    convert(readings.into_iter())
        .pad_using(12, |_: usize| Ok(0))
        .count()
}

/// How many readings two sorted columns have together, or the first failure.
pub fn readings_merged(left: Vec<Result<u32, u8>>, right: Vec<Result<u32, u8>>) -> Result<usize, u8>
    ensures { result ≡ counted
        (merged (λ x y. Ok (nat_le x y)) (results left.items) (results right.items)) }
{
    convert(left.into_iter())
        .merge_by(convert(right.into_iter()), |x, y| Ok(*x <= *y))
        .count()
}

/// How many readings of two sorted columns together are left without those in the same ten as the last one that was kept, or the first failure.
pub fn tens_merged(left: Vec<Result<u32, u8>>, right: Vec<Result<u32, u8>>) -> Result<usize, u8>
    ensures { result ≡ counted (deduped_by (λ x y. Ok (nat_eq (x / 10) (y / 10)))
        (merged (λ x y. Ok (nat_le x y)) (results left.items) (results right.items))) }
{
    convert(left.into_iter())
        .merge_by(convert(right.into_iter()), |x, y| Ok(*x <= *y))
        .dedup_by(|first, second| Ok(*first / 10 == *second / 10))
        .count()
}

/// The last reading of two sorted columns together, or the first failure.
pub fn last_of_both(
    left: Vec<Result<u32, u8>>,
    right: Vec<Result<u32, u8>>,
) -> Result<Option<u32>, u8>
    ensures { result ≡ last_of
        (merged_in_order (by_cmp nat_cmp) (results left.items) (results right.items)) }
{
    convert(left.into_iter())
        .merge(convert(right.into_iter()))
        .last()
}

/// How many pairs two columns make, or the first failure, which is 9 where one column is longer.
pub fn pairs_of_both(left: Vec<Result<u32, u8>>, right: Vec<Result<u32, u8>>) -> Result<usize, u8>
    ensures { result ≡ counted (zipped_equal 9 (results left.items) (results right.items)) }
{
    convert(left.into_iter())
        .zip_eq(convert(right.into_iter()), || 9)
        .count()
}

/// The reading at an index of two columns that are read in turn, or the first failure before it.
pub fn nth_in_turn(
    left: Vec<Result<u32, u8>>,
    right: Vec<Result<u32, u8>>,
    n: usize,
) -> Result<Option<u32>, u8>
    ensures { result ≡ nth_of n (interleaved (results left.items) (results right.items)) }
{
    convert(left.into_iter())
        .interleave(convert(right.into_iter()))
        .nth(n)
}

/// Two columns that are read in turn, and `Ok(None)` at each draw after the first one: a source for code that draws on.
pub fn in_turn_for_good<I: FallibleIterator, J: FallibleIterator<Item = I::Item, Error = I::Error>>(
    left: I,
    right: J,
) -> Interleave<I, J>
    ensures { (a b : List (Result I.Item I.Error)) → Lists I.contract.steps left a
        → Lists J.contract.steps right b
        → ListsForGood ⟦<Interleave<I, J> as FallibleIterator>⟧.contract.steps result
        (interleaved a b) }
{
    left.interleave(right)
}

/// Whether two columns have the same last digits, position by position, or the first failure.
pub fn same_last_digits(left: Vec<Result<u32, u8>>, right: Vec<Result<u32, u8>>) -> Result<bool, u8>
    ensures { result ≡ equal_by (λ x y. Ok (nat_eq (x % 10) (y % 10)))
        (results left.items) (results right.items) }
{
    convert(left.into_iter()).eq_by(convert(right.into_iter()), |x, y| Ok(x % 10 == y % 10))
}

/// How two columns compare by their last digits, position by position, or the first failure.
pub fn order_of_last_digits(
    left: Vec<Result<u32, u8>>,
    right: Vec<Result<u32, u8>>,
) -> Result<Ordering, u8>
    ensures { read_as (λ o. Some o) result ≡ ordered_by (λ x y. Ok (nat_cmp (x % 10) (y % 10)))
        (results left.items) (results right.items) }
{
    convert(left.into_iter()).cmp_by(
        convert(right.into_iter()),
        |x, y| Ok((x % 10).cmp(&(y % 10))),
    )
}
