//! What searches find, and which item is the best.
ghost use Rattle.std.specs.Prelude.{◌≡◌, ◌+◌, ◌*◌, ◌%◌, ◌^◌, ℕ, Result, Ok, Err, IfOk, Option, map, nat_lt, ◌/◌, if◌then◌else◌, Some, None};
ghost use Rattle.std.specs.Ordering.{nat_cmp};
ghost use Rattle.fallible_iterator.specs.Fault.{Fault};
ghost use Rattle.fallible_iterator.specs.Lists.{results, any_of, collected, last_of, on_value, reduced, greatest, least, PartitionedAs, UnzippedAs, mapped, filtered, numbered, skipped, taken, find_mapped, each_done, best_by, best_by_key};
ghost use Rattle.std.specs.declared.cmp.Ordering.TheVariants.{Greater, Less};

use fallible_iterator::{FallibleIterator, Fault, convert};
use std::alloc::Global;

/// Whether a reading after the first is above 100, or the failure that comes first.
pub fn any_above_100(readings: Vec<Result<u32, u8>>) -> Result<bool, u8>
    ensures { result ≡ any_of (λ x. Ok (nat_lt 100 x)) (skipped 1 (results readings.items)) }
{
    convert(readings.into_iter())
        .skip(1)
        .any(|reading| Ok(reading > 100))
}

/// Half of the first reading above 100, or the failure that comes first; `None` if there is no such reading.
pub fn half_of_first_above_100(readings: Vec<Result<u32, u8>>) -> Result<Option<u32>, u8>
    ensures { result ≡ find_mapped (λ x. Ok (if nat_lt 100 x then Some (x / 2) else None))
        (results readings.items) }
{
    convert(readings.into_iter()).find_map(|reading: u32| Ok(if reading > 100 {
        Some(reading / 2)
    } else {
        None
    }))
}

/// Nothing, if no reading is above 100, and otherwise the failure that comes first: the code 7 for a reading above 100.
pub fn check_up_to_100(readings: Vec<Result<u32, u8>>) -> Result<(), u8>
    ensures { result ≡ each_done (λ x. if nat_lt 100 x then Err 7 else Ok tt)
        (results readings.items) }
{
    convert(readings.into_iter()).for_each(|reading: u32| if reading > 100 {
        Err(7)
    } else {
        Ok(())
    })
}

/// The sum of the readings modulo 2 ^ 32, or the first failure; `None` if there is no reading.
pub fn sum_if_any(readings: Vec<Result<u32, u8>>) -> Result<Option<u32>, u8>
    ensures { result ≡ reduced (λ s x. Ok ((s + x) % 2 ^ 32)) (results readings.items) }
{
    convert(readings.into_iter()).reduce(|sum, reading| Ok(sum.wrapping_add(reading)))
}

/// The greatest reading above 100, or the first failure.
pub fn greatest_above_100(readings: Vec<Result<u32, u8>>) -> Result<Option<u32>, u8>
    ensures { result ≡ greatest nat_cmp
        (filtered (λ x. Ok (nat_lt 100 x)) (results readings.items)) }
{
    convert(readings.into_iter())
        .filter(|reading| Ok(*reading > 100))
        .max()
}

/// The least double above 1000 of the readings after the first, or the first failure.
pub fn least_double_above_1000(readings: Vec<Result<u32, u8>>) -> Result<Option<u64>, u8>
    ensures { result ≡ least nat_cmp
        (filtered (λ x. Ok (nat_lt 1000 x))
        (mapped (λ x. Ok (x * 2)) (skipped 1 (results readings.items)))) }
{
    convert(readings.into_iter())
        .skip(1)
        .map(|reading| Ok(u64::from(reading) * 2))
        .filter(|double| Ok(*double > 1000))
        .min()
}

/// The last of the readings with the greatest last digit, or the first failure.
pub fn with_greatest_digit(readings: Vec<Result<u32, u8>>) -> Result<Option<u32>, u8>
    ensures { result ≡ best_by_key Greater nat_cmp (λ x. Ok (x % 10)) (results readings.items) }
{
    convert(readings.into_iter()).max_by_key(|reading: &u32| Ok(*reading % 10))
}

/// The last of the readings with the least last digit, or the first failure.
pub fn with_least_digit(readings: Vec<Result<u32, u8>>) -> Result<Option<u32>, u8>
    ensures { result ≡ best_by_key Less nat_cmp (λ x. Ok (x % 10)) (results readings.items) }
{
    convert(readings.into_iter()).min_by_key(|reading: &u32| Ok(*reading % 10))
}

/// The reading that `with_greatest_digit` finds, by a closure that compares two.
pub fn greatest_by_digits(readings: Vec<Result<u32, u8>>) -> Result<Option<u32>, u8>
    ensures { result ≡ best_by Greater (λ x y. Ok (nat_cmp (x % 10) (y % 10)))
        (results readings.items) }
{
    convert(readings.into_iter()).max_by(|x: &u32, y: &u32| Ok((*x % 10).cmp(&(*y % 10))))
}

/// The reading that `with_least_digit` finds, by a closure that compares two.
pub fn least_by_digits(readings: Vec<Result<u32, u8>>) -> Result<Option<u32>, u8>
    ensures { result ≡ best_by Less (λ x y. Ok (nat_cmp (x % 10) (y % 10)))
        (results readings.items) }
{
    convert(readings.into_iter()).min_by(|x: &u32, y: &u32| Ok((*x % 10).cmp(&(*y % 10))))
}

/// The last of the first ten readings that are above 100, if there is one, or the failure that comes first.
pub fn last_above_100(readings: Vec<Result<u32, u8>>) -> Result<Option<u32>, u8>
    ensures { result ≡ last_of
        (filtered (λ x. Ok (nat_lt 100 x)) (taken 10 (results readings.items))) }
{
    convert(readings.into_iter())
        .take(10)
        .filter(|reading| Ok(*reading > 100))
        .last()
}

/// The first ten readings, those above 100 and the others, unless an allocation fails.
pub fn partitioned_at_100(
    alloc: Global,
    readings: Vec<Result<u32, u8>>,
) -> Result<(Vec<u32>, Vec<u32>), Fault<u8>>
    ensures { PartitionedAs (λ xs v. v.items ≡ xs) (λ x. Ok (nat_lt 100 x))
        (taken 10 (results readings.items)) result }
{
    convert(readings.into_iter())
        .take(10)
        .partition(alloc, |reading| Ok(*reading > 100))
}

/// The places of the readings and the readings themselves, as two columns, unless an allocation fails.
pub fn two_columns(
    alloc: Global,
    readings: Vec<Result<u32, u8>>,
) -> Result<(Vec<usize>, Vec<u32>), Fault<u8>>
    ensures { UnzippedAs (λ xs v. v.items ≡ xs) (λ xs v. v.items ≡ xs)
        (numbered 0 (results readings.items)) result }
{
    convert(readings.into_iter()).enumerate().unzip(alloc)
}

/// The readings and their places, as two columns, or the first failure, unless an allocation fails.
pub fn columns_exchanged(
    alloc: Global,
    readings: Vec<Result<u32, u8>>,
) -> Result<(Vec<u32>, Vec<usize>), Fault<u8>>
    ensures column { IfOk result (λ both. Ok both.0.items ≡ on_value
        (collected (numbered 0 (results readings.items))) (λ pairs. Ok (map (λ p. p.1) pairs))) }
    ensures places { IfOk result (λ both. Ok both.1.items ≡ on_value
        (collected (numbered 0 (results readings.items))) (λ pairs. Ok (map (λ p. p.0) pairs))) }
    ensures failure { (e : ℕ) → result ≡ Err (Fault.Source e)
        → collected (numbered 0 (results readings.items)) ≡ Err e }
{
    let (places, column): (Vec<usize>, Vec<u32>) = convert(readings.into_iter())
        .enumerate()
        .unzip(alloc)?;
    Ok((column, places))
}
