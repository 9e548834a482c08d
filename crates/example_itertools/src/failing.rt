//! Callers of the adapters that act on failures.
ghost use Rattle.std.specs.Prelude.{◌≡◌, ℕ, ◌+◌, ◌-◌, ◌%◌, ◌^◌, Err, List, None, Ok, Result, Some, nat_lt};
ghost use Rattle.std.specs.Iterator.{UpTo};
ghost use Rattle.fallible_iterator.specs.Closures.{IsCallable, call_by_reference, takes_by_reference};
ghost use Rattle.fallible_iterator.specs.Contract.{AtMost};
ghost use Rattle.fallible_iterator.specs.Failing.{failures_mapped};
ghost use Rattle.fallible_iterator.specs.Lists.{Lists, ListsForGood, counted, filtered, folded, mapped, nth_of, on_value, results, taken};
ghost use Rattle.fallible_itertools.specs.Failing.{recovered, stopped_after, up_to_failure};
ghost use Rattle.fallible_itertools.specs.Partition.{CollectedUntilAs, PartitionedFailuresAs};
ghost use Rattle.example_itertools.specs.declared.failing.NoCount.{NoCount};
ghost use Rattle.example_itertools.specs.Rows.{below_hundred, row_more, with_row};

use fallible_iterator::{FallibleIterator, convert};
use fallible_itertools::{FallibleItertools, FuseAtFailure};
use std::alloc::{AllocError, Global};

/// A hundred rows are bad.
#[derive(Clone, Copy, Debug, Drop, PartialEq)]
pub struct TooManyBad;

/// Why there is no count.
#[derive(Clone, Copy, Debug, Drop, PartialEq)]
pub enum NoCount {
    /// A row is bad, with this code.
    Row(u8),
}

impl From<u8> for NoCount {
    ghost from_gives = { λ code why. why ≡ NoCount.Row code };

    /// `NoCount::Row`
    fn from(code: u8) -> NoCount {
        NoCount::Row(code)
    }
}

/// The sum of the good rows, modulo 2 ^ 64, and the number of bad ones. It stops at the hundredth bad one.
pub fn sum_good(rows: Vec<Result<u32, u8>>) -> Result<(u64, u32), TooManyBad>
    ensures { result ≡ folded (λ e. e) with_row (0, 0)
        (recovered (λ _. Ok (Some None)) (mapped (λ x. Ok (Some x)) (results rows.items))) }
{
    convert(rows.into_iter())
        .map(|good| Ok(Some(good)))
        .or_else(|_| Ok(Some(None)))
        .fold((0, 0), |tally: (u64, u32), row: Option<u32>| match row {
            Some(good) => Ok((tally.0.wrapping_add(u64::from(good)), tally.1)),
            None => if tally.1 < 99 {
                Ok((tally.0, tally.1 + 1))
            } else {
                Err(TooManyBad)
            },
        })
}

/// How many items a source has, its failures left out. Items and failures together are few enough for a `usize`.
pub fn count_good_of<I: FallibleIterator>(it: I) -> Result<usize, u8>
where
    I::Item: Drop,
    I::Error: Drop,
    requires can_next { I.contract.can_next it }
    requires fits { AtMost I.contract it (2 ^ 64 - 1) }
    requires left { UpTo (I.contract.remaining it) (2 ^ 64 - 1) }
    ensures { (l : List (Result I.Item I.Error)) → Lists I.contract.steps it l
        → result ≡ counted (recovered (λ _. Ok None) l) }
{
    it.or_else(|_: I::Error| Ok(None)).count()
}

/// The sum of the good ones among the first thousand rows, modulo 2 ^ 64. It stops at the hundredth bad one. The rows may come of a reader, which has no bound.
pub fn sum_of_thousand<I: FallibleIterator<Item = u32>>(rows: I) -> Result<u64, u8>
where
    I::Error: Drop,
    requires can_next { I.contract.can_next rows }
    ensures { (l : List (Result ℕ I.Error)) → Lists I.contract.steps rows l
        → result ≡ folded (λ e. e) (λ s x. Ok ((s + x) % 2 ^ 64)) 0
        (recovered (λ _. Ok None) (stopped_after 100 (taken 1000 l))) }
{
    rows.take(1000)
        .stop_after(100)
        .or_else(|_: I::Error| Ok(None))
        .fold(0, |sum: u64, row: u32| Ok(sum.wrapping_add(u64::from(row))))
}

/// How many of the first 1000 rows are good. It gives up at the hundredth bad one, and draws no more. No more items come than `usize::MAX`, by which a count fits.
pub fn good_of_thousand<I: FallibleIterator<Item = u32>>(rows: I) -> Result<usize, I::Error>
where
    I::Error: Drop,
    requires { I.contract.can_next rows }
    ensures { (l : List (Result ℕ I.Error)) → Lists I.contract.steps rows l
        → result ≡ counted (recovered (λ _. Ok None) (stopped_after 100 (taken 1000 l))) }
{
    rows.take(1000)
        .stop_after(100)
        .or_else(|_: I::Error| Ok(None))
        .take(usize::MAX)
        .count()
}

/// The sum of the good ones among the first `most` rows, modulo 2 ^ 64, and the number of bad ones among them. It gives up at the hundredth bad one, and draws no more. The rows may come of a reader, which has no bound.
pub fn tally_good<I: FallibleIterator<Item = u64>>(
    rows: I,
    most: usize,
) -> Result<(u64, u32), TooManyBad>
where
    I::Error: Drop,
    requires { I.contract.can_next rows }
    ensures { (l : List (Result ℕ I.Error)) → Lists I.contract.steps rows l
        → result ≡ on_value (folded (λ e. e) (λ tally row. Ok (row_more tally row)) (0, 0)
        (recovered (λ _. Ok (Some None))
        (stopped_after 100 (mapped (λ x. Ok (Some x)) (taken most l))))) below_hundred }
{
    let tally = rows
        .take(most)
        .map(|good: u64| Ok(Some(good)))
        .stop_after(100)
        .or_else(|_: I::Error| Ok(Some(None)))
        .fold(
            (0, 0),
            |tally: (u64, u32), row: Option<u64>| Ok(match row {
                Some(good) => (tally.0.wrapping_add(good), tally.1),
                None => (tally.0, tally.1.wrapping_add(1)),
            }),
        )?;
    if tally.1 < 100 {
        Ok(tally)
    } else {
        Err(TooManyBad)
    }
}

/// The rows up to the first bad one, and why it is bad: a source for code that draws on. The rows may come of a reader, which has no bound.
pub fn ending_at_bad<I: FallibleIterator>(rows: I) -> FuseAtFailure<I>
    ensures lists { (l : List (Result I.Item I.Error)) → Lists I.contract.steps rows l
        → Lists ⟦<FuseAtFailure<I> as FallibleIterator>⟧.contract.steps result
        (up_to_failure l) }
    ensures for_good { (l : List (Result I.Item I.Error)) (e : I.Error)
        → Lists I.contract.steps rows l → counted l ≡ Err e
        → ListsForGood ⟦<FuseAtFailure<I> as FallibleIterator>⟧.contract.steps result
        (up_to_failure l) }
{
    rows.fuse_at_failure()
}

/// The second row, or why one before it is bad. The rows may come of a reader, which has no bound.
pub fn second_row_up_to_bad<I: FallibleIterator<Item = u32>>(
    rows: I,
) -> Result<Option<u32>, I::Error>
where
    requires { I.contract.can_next rows }
    ensures { (l : List (Result ℕ I.Error)) → Lists I.contract.steps rows l
        → result ≡ nth_of 1 (up_to_failure l) }
{
    rows.fuse_at_failure().nth(1)
}

/// The readings above 100 before the first failure, and that failure, if one came.
pub fn above_100_before_failure(
    alloc: Global,
    readings: Vec<Result<u32, u8>>,
) -> Result<(Vec<u32>, Option<u8>), AllocError>
    ensures { CollectedUntilAs (λ xs v. v.items ≡ xs)
        (filtered (λ x. Ok (nat_lt 100 x)) (results readings.items)) result }
{
    convert(readings.into_iter())
        .filter(|reading| Ok(*reading > 100))
        .collect_until_failure(alloc)
}

/// The good rows and the codes of the bad ones, each in order.
pub fn good_and_bad(
    alloc: Global,
    rows: Vec<Result<u32, u8>>,
) -> Result<(Vec<u32>, Vec<u8>), AllocError>
    ensures { PartitionedFailuresAs (λ xs v. v.items ≡ xs) (λ es v. v.items ≡ es)
        (results rows.items) result }
{
    convert(rows.into_iter()).partition_failures(alloc)
}

/// How many rows there are, or why they aren't counted.
pub fn count_rows(rows: Vec<Result<u32, u8>>) -> Result<usize, NoCount>
    ensures { result ≡ counted (failures_mapped (λ code. NoCount.Row code) (results rows.items)) }
{
    convert(rows.into_iter()).err_into().count()
}

/// How many items there are, or the first failure, which `log` is called on.
pub fn count_logged<I: FallibleIterator, L: FnMut(&I::Error)>(
    it: I,
    log: L,
) -> Result<usize, I::Error>
where
    I::Item: Drop,
    requires can_next { I.contract.can_next it }
    requires fits { AtMost I.contract it (2 ^ 64 - 1) }
    requires callable { IsCallable (call_by_reference L.FnMut) (takes_by_reference L.FnMut)
        (I.contract.may_fail it) log }
    ensures { (l : List (Result I.Item I.Error)) → Lists I.contract.steps it l
        → result ≡ counted l }
{
    it.inspect_err(log).count()
}

/// How many rows there are, or the first failure, which `noted` holds then.
pub fn count_noting(rows: Vec<Result<u32, u8>>, noted: &mut Option<u8>) -> Result<usize, u8>
    ensures { result ≡ counted (results rows.items) }
{
    count_logged(convert(rows.into_iter()), |code| *noted = Some(*code))
}
