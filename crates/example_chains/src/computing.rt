//! What chains of calls compute.
ghost use Rattle.std.specs.Prelude.{◌≡◌, ◌+◌, ◌*◌, ◌/◌, ◌%◌, ◌^◌, ◌<◌, [], ◌∷◌, List, Result, Ok, Err, Option, Some, None, nat_lt, if◌then◌else◌, ◌-◌, nat_eq, length};
ghost use Rattle.fallible_iterator.specs.Lists.{mapped_while, items, results, counted, folded, collected, CollectedAs, Lists, mapped, filtered, taken, numbered, skipped_while, taken_while, zipped, chained, inspected, found, stepped, filter_mapped};

use fallible_iterator::{FallibleIterator, Fault, convert, empty, once, once_err};
use std::alloc::Global;

/// How many of the numbers are above 100.
pub fn above_100(numbers: &[u32]) -> Result<usize, u8>
    ensures { result ≡ counted (filtered (λ x. Ok (nat_lt 100 x)) (items numbers.now)) }
{
    convert(numbers.iter().copied().map(Ok))
        .filter(|number| Ok(*number > 100))
        .count()
}

/// How many of the first ten readings are above 100, or the first failure before.
pub fn above_100_of_ten(readings: Vec<Result<u32, u8>>) -> Result<usize, u8>
    ensures { result ≡ counted
        (filtered (λ x. Ok (nat_lt 100 x)) (taken 10 (results readings.items))) }
{
    convert(readings.into_iter())
        .take(10)
        .filter(|reading| Ok(*reading > 100))
        .count()
}

/// The same count and the same failures. Each reading is only looked at.
pub fn inspected_up_to_100(readings: Vec<Result<u32, u8>>) -> Result<usize, u8>
    ensures { result ≡ counted
        (inspected (λ x. if nat_lt 100 x then Err 7 else Ok tt) (results readings.items)) }
{
    convert(readings.into_iter())
        .inspect(|reading: &u32| if *reading > 100 { Err(7) } else { Ok(()) })
        .count()
}

/// The sum of one item.
pub fn fold_of_one(item: u32) -> Result<u64, u8>
    ensures { result ≡ folded (λ e. e) (λ s x. Ok ((s + x) % 2 ^ 64)) 0 (Ok item ∷ []) }
{
    once::<u32, u8>(item).fold(
        0,
        |sum: u64, item: u32| Ok(sum.wrapping_add(u64::from(item))),
    )
}

/// The sum of no items.
pub fn fold_of_none() -> Result<u64, u8>
    ensures { result ≡ folded (λ e. e) (λ s x. Ok ((s + x) % 2 ^ 64)) 0 [] }
{
    empty::<u32, u8>().fold(
        0,
        |sum: u64, item: u32| Ok(sum.wrapping_add(u64::from(item))),
    )
}

/// The sum of the readings, modulo 2 ^ 64, or the first failure.
pub fn sum(readings: Vec<Result<u32, u8>>) -> Result<u64, u8>
    ensures { result ≡ folded (λ e. e) (λ s x. Ok ((s + x) % 2 ^ 64)) 0 (results readings.items) }
{
    convert(readings.into_iter()).fold(
        0,
        |sum: u64, reading: u32| Ok(sum.wrapping_add(u64::from(reading))),
    )
}

/// The sum of the doubled readings, or the first failure: the code 7 if the sum overflows.
pub fn checked_sum(readings: Vec<Result<u32, u8>>) -> Result<u64, u8>
    ensures { result ≡ folded (λ e. e)
        (λ s x. if nat_lt (s + x) (2 ^ 64) then Ok (s + x) else Err 7) 0
        (mapped (λ x. Ok (x * 2)) (results readings.items)) }
{
    convert(readings.into_iter())
        .map(|reading| Ok(u64::from(reading) * 2))
        .fold(0, |sum: u64, x: u64| sum.checked_add(x).ok_or(7))
}

/// The first reading above 100, or the failure that comes before: the code 7 if there is no such reading.
pub fn required_above_100(readings: Vec<Result<u32, u8>>) -> Result<Option<u32>, u8>
    ensures { result ≡ found (λ x. Ok (nat_lt 100 x))
        (chained (results readings.items) (Err 7 ∷ [])) }
{
    convert(readings.into_iter())
        .chain(once_err(7))
        .find(|reading| Ok(*reading > 100))
}

/// The sum of each tenth reading, from the first on, modulo 2 ^ 64, or the first failure.
pub fn sum_of_tenths(readings: Vec<Result<u32, u8>>) -> Result<u64, u8>
    ensures { result ≡ folded (λ e. e) (λ s x. Ok ((s + x) % 2 ^ 64)) 0
        (stepped 9 0 (results readings.items)) }
{
    convert(readings.into_iter()).step_by(10).fold(
        0,
        |sum: u64, reading: u32| Ok(sum.wrapping_add(u64::from(reading))),
    )
}

/// How much each reading above 100 is above it, unless an allocation fails.
pub fn excesses(alloc: Global, readings: Vec<Result<u32, u8>>) -> Result<Vec<u32>, Fault<u8>>
    ensures { CollectedAs (λ xs v. v.items ≡ xs)
        (filter_mapped (λ x. Ok (if nat_lt 100 x then Some (x - 100) else None))
        (results readings.items)) result }
{
    convert(readings.into_iter())
        .filter_map(|reading: u32| Ok(if reading > 100 {
            Some(reading - 100)
        } else {
            None
        }))
        .collect(alloc)
}

/// The halves of the readings up to the first one that is 0.
pub fn halves(alloc: Global, readings: Vec<Result<u32, u8>>) -> Result<Vec<u32>, Fault<u8>>
    ensures { CollectedAs (λ xs v. v.items ≡ xs)
        (mapped_while (λ x. Ok (if nat_lt 0 x then Some (x / 2) else None))
        (results readings.items))
        result }
{
    convert(readings.into_iter())
        .map_while(|reading: u32| Ok(if reading > 0 { Some(reading / 2) } else { None }))
        .collect(alloc)
}

/// At how many positions two columns have texts of the same length, or the first failure of the left. The texts of each column are borrowed for a time of its own.
pub fn same_lengths<'a, 'b>(
    left: Vec<Result<&'a [u8], u8>>,
    right: Vec<&'b [u8]>,
) -> Result<usize, u8>
    ensures { result ≡ counted (filtered (λ p. Ok (nat_eq (length p.0.now) (length p.1.now)))
        (zipped (results left.entry.items) (items right.entry.items))) }
{
    convert(left.into_iter())
        .zip(convert(right.into_iter().map(Ok)))
        .filter(|texts| Ok(texts.0.len() == texts.1.len()))
        .count()
}

/// The readings above 100 with their places, from the first one that is above 10 on and up to the first one that is 0.
pub fn places(alloc: Global, readings: Vec<Result<u32, u8>>) -> Result<Vec<(usize, u32)>, Fault<u8>>
    ensures { CollectedAs (λ xs v. v.items ≡ xs)
        (taken_while (λ p. Ok (nat_lt 0 p.1))
        (skipped_while (λ p. Ok (nat_lt p.1 11)) (numbered 0 (results readings.items)))) result }
{
    convert(readings.into_iter())
        .enumerate()
        .skip_while(|place| Ok(place.1 < 11))
        .take_while(|place| Ok(0 < place.1))
        .collect(alloc)
}

/// How many numbers two columns have together.
pub fn both_columns(left: &[u32], right: &[u32]) -> Result<usize, u8>
    ensures { result ≡ counted (chained (items left.now) (items right.now)) }
{
    convert(left.iter().copied().map(Ok))
        .chain(convert(right.iter().copied().map(Ok)))
        .count()
}
