//! Callers of the adapters that buffer: each states what it computes, and the contracts of the calls prove it.
ghost use Rattle.std.specs.Prelude.{◌≡◌, ℕ, ◌+◌, ◌-◌, ◌%◌, ◌/◌, ◌^◌, List, Option, Result, Ok, Err, if◌then◌else◌, nat_eq, nat_lt};
ghost use Rattle.fallible_iterator.specs.Contract.{AtMost};
ghost use Rattle.fallible_iterator.specs.Lists.{Lists, counted, filtered, folded, nth_of, results};
ghost use Rattle.fallible_itertools.specs.Coalesce.{coalesced, deduped, deduped_by, deduped_by_key, deduped_by_with_count, deduped_with_count};
ghost use Rattle.fallible_itertools.specs.Tuples.{tupled, windowed};
ghost use Rattle.fallible_itertools.specs.Positions.{positioned};
ghost use Rattle.example_itertools.specs.Places.{comes_before_another, is_above_both};

use fallible_iterator::{FallibleIterator, convert};
use fallible_itertools::{FallibleItertools, Position};
use std::alloc::AllocError;

/// How many items differ from the one before them, modulo 2 ^ 64, over any source that lists a list, also one that goes on after its `Ok(None)`.
pub fn changes_of<I: FallibleIterator<Item = u32>>(it: I) -> Result<u64, I::Error>
where
    I::Error: Drop,
    requires can_next { I.contract.can_next it }
    requires finite { I.contract.is_finite it }
    ensures { (l : List (Result ℕ I.Error)) → Lists I.contract.steps it l
        → result ≡ folded (λ e. e) (λ n _. Ok ((n + 1) % 2 ^ 64)) 0 (deduped nat_eq l) }
{
    it.dedup()
        .fold(0, |n: u64, _reading: u32| Ok(n.wrapping_add(1)))
}

/// The sum of the first of each ten that readings stay in, modulo 2 ^ 64, or the first failure.
pub fn first_of_each_ten(readings: Vec<Result<u32, u8>>) -> Result<u64, u8>
    ensures { result ≡ folded (λ e. e) (λ s x. Ok ((s + x) % 2 ^ 64)) 0
        (deduped_by_key nat_eq (λ x. Ok (x / 10)) (results readings.items)) }
{
    convert(readings.into_iter())
        .dedup_by_key(|reading| Ok(*reading / 10))
        .fold(
            0,
            |sum: u64, reading: u32| Ok(sum.wrapping_add(u64::from(reading))),
        )
}

/// How many readings are left without those in the same ten as the last one that was kept, or the first failure.
pub fn changes_of_tens(readings: Vec<Result<u32, u8>>) -> Result<usize, u8>
    ensures { result ≡ counted
        (deduped_by (λ x y. Ok (nat_eq (x / 10) (y / 10))) (results readings.items)) }
{
    convert(readings.into_iter())
        .dedup_by(|first, second| Ok(*first / 10 == *second / 10))
        .count()
}

/// The first reading with the number of readings that follow each other and are equal to it, itself counted, or the first failure.
pub fn first_run(readings: Vec<Result<u32, u8>>) -> Result<Option<(usize, u32)>, u8>
    ensures { result ≡ nth_of 0 (deduped_with_count nat_eq (results readings.items)) }
{
    let mut it = convert(readings.into_iter()).dedup_with_count();
    it.draw()
}

/// The first reading with the number of readings in the same ten as it that follow it at once, itself counted, or the first failure.
pub fn first_run_of_tens(readings: Vec<Result<u32, u8>>) -> Result<Option<(usize, u32)>, u8>
    ensures { result ≡ nth_of 0 (deduped_by_with_count
        (λ x y. Ok (nat_eq (x / 10) (y / 10))) (results readings.items)) }
{
    let mut it = convert(readings.into_iter()).dedup_by_with_count(|first, second| Ok(
        *first / 10 == *second / 10,
    ));
    it.draw()
}

/// How many readings are left if each that is below the one before it is merged with that, or the first failure.
pub fn peaks(readings: Vec<Result<u32, u8>>) -> Result<usize, u8>
    ensures { result ≡ counted (coalesced
        (λ x y. Ok (if nat_lt y x then Ok x else Err (x, y))) (results readings.items)) }
{
    convert(readings.into_iter())
        .coalesce(|first: u32, second: u32| {
            Ok(if second < first {
                Ok(first)
            } else {
                Err((first, second))
            })
        })
        .count()
}

/// How many readings another one comes after, so how many commas stand between them, or the first failure.
pub fn commas(readings: Vec<Result<u32, u8>>) -> Result<usize, u8>
    ensures { result ≡ counted (filtered (λ placed. Ok (comes_before_another placed.0))
        (positioned (results readings.items))) }
{
    convert(readings.into_iter())
        .with_position()
        .filter(|placed| Ok(has_comma(placed.0)))
        .count()
}

/// How many items are above the one before and the one after, or the first failure. Two windows of two are a window of three.
pub fn local_maxima<I: FallibleIterator<Item = u32>>(it: I) -> Result<usize, I::Error>
where
    I::Error: From<AllocError>,
    requires can_next { I.contract.can_next it }
    requires fits { AtMost I.contract it (2 ^ 64 - 1) }
    ensures { (l : List (Result ℕ I.Error)) → Lists I.contract.steps it l
        → result ≡ counted (filtered (λ w. Ok (is_above_both w)) (windowed (windowed l))) }
{
    it.tuple_windows()
        .tuple_windows()
        .filter(|((before, here), (_, after))| Ok(before < here && after < here))
        .count()
}

/// How many points there are, of which the x and then the y is listed, or the first failure.
pub fn points(coordinates: Vec<Result<u32, u8>>) -> Result<usize, u8>
    ensures { result ≡ counted (tupled (results coordinates.items)) }
{
    convert(coordinates.into_iter()).tuples().count()
}

/// The first item with its position, over any iterator, also over one that never ends, such as the rows of a reader: `next` draws twice at most.
pub fn first_placed<I: FallibleIterator>(it: I) -> Result<Option<(Position, I::Item)>, I::Error>
where
    I::Item: Drop,
    I::Error: Drop,
    requires { I.contract.can_next it }
    ensures { (l : List (Result I.Item I.Error)) → Lists I.contract.steps it l
        → result ≡ nth_of 0 (positioned l) }
{
    let mut it = it.with_position();
    it.draw()
}

// Whether a comma comes after the item.
fn has_comma(position: Position) -> bool
    ensures { result ≡ comes_before_another position }
{
    matches!(position, Position::First | Position::Middle)
}
