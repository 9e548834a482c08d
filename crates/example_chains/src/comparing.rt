//! How two chains compare, where one of them is known to end.
ghost use Rattle.std.specs.Prelude.{◌≡◌, ℕ, ◌+◌, ◌*◌, ◌%◌, ◌^◌, List, Result, Ok, Some, length, nat_lt, nat_eq};
ghost use Rattle.std.specs.Ordering.{nat_cmp};
ghost use Rattle.fallible_iterator.specs.Comparing.{by_cmp, by_eq, read_as, reads_eq, reads_ge, reads_gt, reads_le, reads_lt, reads_ne};
ghost use Rattle.fallible_iterator.specs.Contract.{parts_as};
ghost use Rattle.fallible_iterator.specs.Peeking.Peekable.{peekable_contract, peekable_parts};
ghost use Rattle.fallible_iterator.specs.Lists.{Lists, results, compared, mapped, filtered, repeated, skipped, taken};
ghost use Rattle.example_chains.specs.Rises.{risen};

use fallible_iterator::{FallibleIterator, Peekable, convert, repeat};
use std::alloc::AllocError;
use std::cmp::Ordering;

/// How the first ten readings of the left compare with those of the right after its first one, or the failure that comes first.
pub fn order_of_ten(
    left: Vec<Result<u32, u8>>,
    right: Vec<Result<u32, u8>>,
) -> Result<Option<Ordering>, u8>
    ensures { result ≡ compared (by_cmp nat_cmp) (taken 10 (results left.items))
        (skipped 1 (results right.items)) }
{
    convert(left.into_iter())
        .take(10)
        .partial_cmp(convert(right.into_iter()).skip(1))
}

/// Whether both sides have the same readings, or the failure that comes first.
pub fn same_readings(left: Vec<Result<u32, u8>>, right: Vec<Result<u32, u8>>) -> Result<bool, u8>
    ensures { result ≡ read_as reads_eq
        (compared (by_eq nat_eq) (results left.items) (results right.items)) }
{
    convert(left.into_iter()).eq(convert(right.into_iter()))
}

/// Whether the doubled readings of the left differ from the readings of the right, or the failure that comes first.
pub fn doubled_differ(left: Vec<Result<u32, u8>>, right: Vec<Result<u32, u8>>) -> Result<bool, u8>
    ensures { result ≡ read_as reads_ne (compared (by_eq nat_eq)
        (mapped (λ x. Ok (x * 2 % 2 ^ 32)) (results left.items)) (results right.items)) }
{
    convert(left.into_iter())
        .map(|reading: u32| Ok(reading.wrapping_mul(2)))
        .ne(convert(right.into_iter()))
}

/// Whether the first three readings above 100 of the left are less than those of the right, or the failure that comes first.
pub fn three_are_less(left: Vec<Result<u32, u8>>, right: Vec<Result<u32, u8>>) -> Result<bool, u8>
    ensures { result ≡ read_as reads_lt (compared (by_cmp nat_cmp)
        (taken 3 (filtered (λ x. Ok (nat_lt 100 x)) (results left.items)))
        (taken 3 (filtered (λ x. Ok (nat_lt 100 x)) (results right.items)))) }
{
    convert(left.into_iter())
        .filter(|reading| Ok(*reading > 100))
        .take(3)
        .lt(
            convert(right.into_iter())
                .filter(|reading| Ok(*reading > 100))
                .take(3),
        )
}

/// Whether the readings of the left are less than the doubled readings of the right or equal, or the failure that comes first.
pub fn up_to_doubled(left: Vec<Result<u32, u8>>, right: Vec<Result<u32, u8>>) -> Result<bool, u8>
    ensures { result ≡ read_as reads_le (compared (by_cmp nat_cmp)
        (results left.items) (mapped (λ x. Ok (x * 2 % 2 ^ 32)) (results right.items))) }
{
    convert(left.into_iter()).le(convert(right.into_iter()).map(|reading: u32| Ok(
        reading.wrapping_mul(2),
    )))
}

/// Whether the readings of the left are greater than the readings above 100 of the right, or the failure that comes first.
pub fn greater_than_above_100(
    left: Vec<Result<u32, u8>>,
    right: Vec<Result<u32, u8>>,
) -> Result<bool, u8>
    ensures { result ≡ read_as reads_gt (compared (by_cmp nat_cmp)
        (results left.items) (filtered (λ x. Ok (nat_lt 100 x)) (results right.items))) }
{
    convert(left.into_iter()).gt(convert(right.into_iter()).filter(|reading| Ok(*reading > 100)))
}

/// Whether the readings of the left after the first are greater than the first ten of the right or equal, or the failure that comes first.
pub fn at_least_ten(left: Vec<Result<u32, u8>>, right: Vec<Result<u32, u8>>) -> Result<bool, u8>
    ensures { result ≡ read_as reads_ge (compared (by_cmp nat_cmp)
        (skipped 1 (results left.items)) (taken 10 (results right.items))) }
{
    convert(left.into_iter())
        .skip(1)
        .ge(convert(right.into_iter()).take(10))
}

/// How the limit, repeated without end, compares with the readings: as with the first one that is not the limit, and greater if there is none. The readings end, so the comparison does.
pub fn limit_against(
    limit: u32,
    readings: Vec<Result<u32, AllocError>>,
) -> Result<Ordering, AllocError>
    ensures { read_as (λ o. Some o) result ≡ compared (by_cmp nat_cmp)
        (repeated (length readings.items + 1) limit) (results readings.items) }
{
    repeat(limit).cmp(convert(readings.into_iter()))
}

/// Whether two iterators yield equal items, of which the left is known to end.
pub fn same_as<I, J>(left: I, right: J) -> Result<bool, I::Error>
where
    I: FallibleIterator,
    I::Item: PartialEq + Drop,
    J: FallibleIterator<Item = I::Item, Error = I::Error>,
    requires left { I.contract.can_next left }
    requires right { J.contract.can_next right }
    requires finite { I.contract.is_finite left }
    ensures { (a b : List (Result I.Item I.Error)) → Lists I.contract.steps left a
        → Lists J.contract.steps right b
        → result ≡ read_as reads_eq (compared (by_eq I.Item.eq) a b) }
{
    left.eq(right)
}

/// How two iterators compare, of which the right is known to end.
pub fn order_to<I, J>(left: I, right: J) -> Result<Ordering, I::Error>
where
    I: FallibleIterator,
    I::Item: Ord + Drop,
    J: FallibleIterator<Item = I::Item, Error = I::Error>,
    requires left { I.contract.can_next left }
    requires right { J.contract.can_next right }
    requires finite { J.contract.is_finite right }
    ensures { (a b : List (Result I.Item I.Error)) → Lists I.contract.steps left a
        → Lists J.contract.steps right b
        → read_as (λ o. Some o) result ≡ compared (by_cmp I.Item.cmp) a b }
{
    left.cmp(right)
}

/// How often an item is greater than the one before it, modulo 2 ^ 64, or the first failure.
pub fn rises<J: FallibleIterator<Item = u32>>(it: J) -> Result<u64, J::Error>
where
    requires can_next { J.contract.can_next it }
    requires finite { J.contract.is_finite it }
    ensures { (l : List (Result ℕ J.Error)) → Lists J.contract.steps it l → result ≡ risen l }
{
    rises_ahead(it.peekable())
}

/// How often an item is greater than the one before it, modulo 2 ^ 64, or the first failure, of a source that looks ahead.
fn rises_ahead<J: FallibleIterator<Item = u32>>(mut ahead: Peekable<J>) -> Result<u64, J::Error>
where
    requires can_next { (peekable_contract J.contract).can_next (peekable_parts ahead) }
    requires finite { (peekable_contract J.contract).is_finite (peekable_parts ahead) }
    ensures { (l : List (Result ℕ J.Error))
        → Lists (parts_as peekable_parts (peekable_contract J.contract)).steps ahead l
        → result ≡ risen l }
{
    let mut left = ahead.number();
    let mut rises: u64 = 0;
    while let Some(item) = ahead.draw()? {
        left = left.one_less();
        if let Some(next) = ahead.peek_copied()? {
            if item < next {
                rises = rises.wrapping_add(1);
            }
        }
    }
    Ok(rises)
}
