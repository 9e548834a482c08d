//! Callers of what is in `fallible_itertools` about extremes, counts, comparisons and the second end, with what they compute.
ghost use Rattle.std.specs.Prelude.{◌≡◌, ◌+◌, ◌-◌, ◌^◌, ◌%◌, if◌then◌else◌, Ok, nat_eq, nat_lt, codes, List, Result, Option, None, Err, ℕ, is_some};
ghost use Rattle.std.specs.Ordering.{nat_cmp};
ghost use Rattle.fallible_iterator.specs.Clauses.{OverList};
ghost use Rattle.fallible_iterator.specs.Lists.{CollectedAs, filtered, found, mapped, nth_of, results, reversed, taken, on_value, Lists};
ghost use Rattle.fallible_itertools.specs.Keyed.{FoldedByKeyAs, IsCountsOf, IsGroupMapOf, keyed};
ghost use Rattle.fallible_itertools.specs.Find.{at_most_one_of, wanting_one, first_two};
ghost use Rattle.fallible_itertools.specs.MinMax.{minmaxed, least_and_greatest, minmaxed_by_key, position_greatest, position_least};
ghost use Rattle.fallible_itertools.specs.Partition.{MadeOfEithers};
ghost use Rattle.fallible_itertools.specs.Sorted.{HasItemsInOrder, HasItemsInOrderByKey, HasItemsInOrderByTest, IsSortedByKeyOf, IsSortedByTest, IsSortedOf};
ghost use Rattle.fallible_itertools.specs.declared.find.NotOne.{NotOne};
ghost use Rattle.fallible_itertools.specs.declared.partition.Either.TheVariants.{Left, Right};
ghost use Rattle.fallible_itertools.specs.FromBack.{last_position_in};
ghost use Rattle.fallible_itertools.specs.Join.{joined};
ghost use Rattle.std.specs.Fmt.{decimal};
ghost use Rattle.std.specs.String.{string_bytes};

use fallible_iterator::laws::{law_back_convert, law_listed_vec};
use fallible_iterator::{FallibleIterator, Fault, convert};
use fallible_itertools::{
    DoubleEndedFallibleItertools, Either, FallibleItertools, MinMaxResult, NotOne,
};
use std::alloc::Global;
use std::collections::HashMap;

/// The least and the greatest reading, as `minmax` finds them, by a closure that compares two.
pub fn span_by_order(readings: Vec<Result<u32, u8>>) -> Result<MinMaxResult<u32>, u8>
    ensures { result ≡ minmaxed nat_cmp (results readings.items) }
{
    convert(readings.into_iter()).minmax_by(|x: &u32, y: &u32| Ok(x.cmp(y)))
}

/// The first of the readings with the least last digit and the last of those with the greatest, or the first failure.
pub fn span_of_last_digits(readings: Vec<Result<u32, u8>>) -> Result<MinMaxResult<u32>, u8>
    ensures { result ≡ minmaxed_by_key nat_cmp (λ x. Ok (x % 10)) (results readings.items) }
{
    convert(readings.into_iter()).minmax_by_key(|reading: &u32| Ok(*reading % 10))
}

/// The least and the greatest reading, which are one and the same if there is one; `None` if there is none. Or the first failure.
pub fn bounds_of(readings: Vec<Result<u32, u8>>) -> Result<Option<(u32, u32)>, u8>
    ensures { result ≡ on_value (minmaxed nat_cmp (results readings.items))
        (λ found. Ok (least_and_greatest found)) }
{
    Ok(convert(readings.into_iter()).minmax()?.into_option())
}

/// How many readings come before the greatest, of equal ones before the last, or the first failure.
pub fn place_of_greatest(readings: Vec<Result<u32, u8>>) -> Result<Option<usize>, u8>
    ensures { result ≡ position_greatest nat_cmp (results readings.items) }
{
    convert(readings.into_iter()).position_max()
}

/// How many readings come before the least, of equal ones before the first, or the first failure.
pub fn place_of_least(readings: Vec<Result<u32, u8>>) -> Result<Option<usize>, u8>
    ensures { result ≡ position_least nat_cmp (results readings.items) }
{
    convert(readings.into_iter()).position_min()
}

/// The only reading above 100, if there is one, and otherwise the first two.
pub fn only_above_100(readings: Vec<Result<u32, u8>>) -> Result<Result<Option<u32>, (u32, u32)>, u8>
    ensures { result ≡ at_most_one_of (filtered (λ x. Ok (nat_lt 100 x))
        (results readings.items)) }
{
    convert(readings.into_iter())
        .filter(|reading| Ok(*reading > 100))
        .at_most_one()
}

/// The only one of the first ten items of any fallible iterator.
pub fn only_of_ten<I: FallibleIterator>(it: I) -> Result<Result<I::Item, NotOne<I::Item>>, I::Error>
where
    I::Item: Drop,
    requires { I.contract.can_next it }
    ensures { OverList I.contract.steps it
        (λ l. result ≡ wanting_one (at_most_one_of (taken 10 l))) }
{
    it.take(10).exactly_one()
}

/// The first two items, if there are two; `None` if there is one or none. Or the failure that comes before.
pub fn two_if_several<I: FallibleIterator<Item = u32>>(
    mut it: I,
) -> Result<Option<(u32, u32)>, I::Error>
where
    requires { I.contract.can_next it }
    ensures one { (l : List (Result ℕ I.Error)) (x : ℕ) → Lists I.contract.steps it l
        → wanting_one (at_most_one_of l) ≡ Ok (Ok x) → result ≡ Ok None }
    ensures not_one { (l : List (Result ℕ I.Error)) (not_one : NotOne ℕ)
        → Lists I.contract.steps it l
        → wanting_one (at_most_one_of l) ≡ Ok (Err not_one) → result ≡ Ok (first_two not_one) }
    ensures fails { (l : List (Result ℕ I.Error)) (e : I.Error) → Lists I.contract.steps it l
        → wanting_one (at_most_one_of l) ≡ Err e → result ≡ Err e }
{
    match it.exactly_one()? {
        Ok(_) => Ok(None),
        Err(not_one) => Ok(not_one.into_items()),
    }
}

/// Whether there is no only item because there are several.
pub fn is_ambiguous(not_one: &NotOne<u32>) -> bool
    ensures { result ≡ is_some (first_two not_one.now) }
{
    not_one.is_more()
}

/// How often each of the readings comes.
pub fn tally(
    alloc: Global,
    readings: Vec<Result<u32, u8>>,
) -> Result<HashMap<u32, usize>, Fault<u8>>
    ensures { CollectedAs (IsCountsOf nat_eq) (results readings.items) result }
{
    convert(readings.into_iter()).counts(alloc)
}

/// How often each last digit of the readings comes.
pub fn tally_last_digits(
    alloc: Global,
    readings: Vec<Result<u32, u8>>,
) -> Result<HashMap<u32, usize>, Fault<u8>>
    ensures { CollectedAs (IsCountsOf nat_eq) (mapped (λ x. Ok (x % 10)) (results readings.items))
        result }
{
    convert(readings.into_iter()).counts_by(alloc, |reading: u32| Ok(reading % 10))
}

/// The readings by their last digits: each digit beside its readings, in order.
pub fn by_last_digit(
    alloc: Global,
    readings: Vec<Result<u32, u8>>,
) -> Result<HashMap<u32, Vec<u32>>, Fault<u8>>
    ensures { CollectedAs (IsGroupMapOf nat_eq) (mapped (λ x. Ok (x % 10, x))
        (results readings.items)) result }
{
    convert(readings.into_iter())
        .map(|reading| Ok((reading % 10, reading)))
        .into_group_map(alloc)
}

/// The readings by their last digits, as `by_last_digit`, by a closure that makes the digit of a reading.
pub fn grouped_by_last_digit(
    alloc: Global,
    readings: Vec<Result<u32, u8>>,
) -> Result<HashMap<u32, Vec<u32>>, Fault<u8>>
    ensures { CollectedAs (IsGroupMapOf nat_eq) (keyed (λ x. Ok (x % 10)) (results readings.items))
        result }
{
    convert(readings.into_iter()).into_group_map_by(alloc, |reading: &u32| Ok(*reading % 10))
}

/// The sum of the readings of each last digit, which wraps.
pub fn sums_by_last_digit(
    alloc: Global,
    readings: Vec<Result<u32, u8>>,
) -> Result<HashMap<u32, u32>, Fault<u8>>
    ensures { FoldedByKeyAs nat_eq (λ sum x. Ok ((sum + x) % 2 ^ 32)) 0
        (keyed (λ x. Ok (x % 10)) (results readings.items)) result }
{
    convert(readings.into_iter()).fold_by_key(
        alloc,
        |reading: &u32| Ok(*reading % 10),
        0,
        |sum: u32, reading: u32| Ok(sum.wrapping_add(reading)),
    )
}

/// The readings up to 100, and how much the others are above 100.
pub fn up_to_100_and_above(
    alloc: Global,
    readings: Vec<Result<u32, u8>>,
) -> Result<(Vec<u32>, Vec<u32>), Fault<u8>>
    ensures { CollectedAs (MadeOfEithers (λ xs v. v.items ≡ xs) (λ xs v. v.items ≡ xs))
        (mapped (λ x. Ok (if nat_lt 100 x then Right (x - 100) else Left x))
        (results readings.items)) result }
{
    convert(readings.into_iter()).partition_map(alloc, |reading: u32| {
        Ok(if reading > 100 {
            Either::Right(reading - 100)
        } else {
            Either::Left(reading)
        })
    })
}

/// The readings in order, or the first failure.
pub fn readings_sorted(alloc: Global, readings: Vec<Result<u32, u8>>) -> Result<Vec<u32>, Fault<u8>>
    ensures { CollectedAs (IsSortedOf nat_cmp) (results readings.items) result }
{
    convert(readings.into_iter()).sorted(alloc)
}

/// The readings in the order of their last digits, or the first failure.
pub fn sorted_by_last_digit(
    alloc: Global,
    readings: Vec<Result<u32, u8>>,
) -> Result<Vec<u32>, Fault<u8>>
    ensures { CollectedAs (IsSortedByKeyOf (λ x. x % 10) nat_cmp) (results readings.items)
        result }
{
    convert(readings.into_iter()).sorted_by_key(alloc, |reading: &u32| *reading % 10)
}

/// The readings from the greatest down, or the first failure.
pub fn sorted_down(alloc: Global, readings: Vec<Result<u32, u8>>) -> Result<Vec<u32>, Fault<u8>>
    ensures { CollectedAs (IsSortedByTest (λ x y. nat_lt y x)) (results readings.items) result }
{
    convert(readings.into_iter()).sorted_by(alloc, |x: &u32, y: &u32| y.cmp(x))
}

/// The readings in order, sorted in place, or the first failure.
pub fn readings_in_order(
    alloc: Global,
    readings: Vec<Result<u32, u8>>,
) -> Result<Vec<u32>, Fault<u8>>
    ensures { CollectedAs (HasItemsInOrder nat_cmp) (results readings.items) result }
{
    convert(readings.into_iter()).sorted_unstable(alloc)
}

/// The readings in the order of their last digits, where those with the same one stand in any order, or the first failure. They are sorted in place.
pub fn by_last_digit_in_place(
    alloc: Global,
    readings: Vec<Result<u32, u8>>,
) -> Result<Vec<u32>, Fault<u8>>
    ensures { CollectedAs (HasItemsInOrderByKey (λ x. x % 10) nat_cmp) (results readings.items)
        result }
{
    convert(readings.into_iter()).sorted_unstable_by_key(alloc, |reading: &u32| *reading % 10)
}

/// The readings from the greatest down, or the first failure. They are sorted in place.
pub fn down_in_place(alloc: Global, readings: Vec<Result<u32, u8>>) -> Result<Vec<u32>, Fault<u8>>
    ensures { CollectedAs (HasItemsInOrderByTest (λ x y. nat_lt y x)) (results readings.items)
        result }
{
    convert(readings.into_iter()).sorted_unstable_by(alloc, |x: &u32, y: &u32| y.cmp(x))
}

/// The readings in one text, with a comma and a blank between each two, or the first failure.
pub fn listed_in_text(alloc: Global, readings: Vec<Result<u32, u8>>) -> Result<String, Fault<u8>>
    ensures { CollectedAs (λ xs text. string_bytes text ≡ joined decimal (codes ", ") xs)
        (results readings.items) result }
{
    convert(readings.into_iter()).join(alloc, ", ")
}

/// The reading with n readings after it.
pub fn nth_last(readings: Vec<Result<u32, u8>>, n: usize) -> Result<Option<u32>, u8>
    ensures { result ≡ nth_of n (reversed (results readings.items)) }
{
    law_back_convert::<u32, u8, std::vec::IntoIter<Result<u32, u8>, Global>>();
    convert(readings.into_iter()).nth_back(n)
}

/// The last reading above 100.
pub fn last_above_100(readings: Vec<Result<u32, u8>>) -> Result<Option<u32>, u8>
    ensures { result ≡ found (λ x. Ok (nat_lt 100 x)) (reversed (results readings.items)) }
{
    law_back_convert::<u32, u8, std::vec::IntoIter<Result<u32, u8>, Global>>();
    convert(readings.into_iter()).rfind(|reading| Ok(*reading > 100))
}

/// How many readings come before the last one above 100; `None` if there is no such reading. Or the failure that comes first: from the back up to that one, and then from the front.
pub fn place_of_last_above_100(readings: Vec<Result<u32, u8>>) -> Result<Option<usize>, u8>
    ensures { result ≡ last_position_in (λ x. Ok (nat_lt 100 x)) (results readings.items) }
{
    law_listed_vec::<u32, u8>();
    convert(readings.into_iter()).rposition(|reading| Ok(reading > 100))
}
