//! Callers of what allocates: each states the value up to an allocation failure, by one term.
ghost use Rattle.std.specs.Prelude.{◌≡◌, ℕ, ◌/◌, length, List, Result, Ok, max, nat_eq};
ghost use Rattle.fallible_iterator.specs.Lists.{counted, folded, mapped, results};
ghost use Rattle.fallible_iterator.specs.Making.{CollectedMade, ListsMade, SameOrRefused};
ghost use Rattle.fallible_itertools.specs.Chunks.{chunked, chunked_by};
ghost use Rattle.fallible_itertools.specs.Unique.{duplicates_of, unique_by_key, unique_of};
ghost use Rattle.example_itertools.specs.declared.batching.NoBatch.{NoBatch};
ghost use Rattle.std.specs.declared.alloc.AllocError.{AllocError};

use fallible_iterator::{FallibleIterator, Fault, convert};
use fallible_itertools::FallibleItertools;
use std::alloc::{AllocError, Global};

/// Why there is no batch.
#[derive(Debug, Drop, PartialEq)]
pub enum NoBatch {
    /// A reading failed, with this code.
    Failed(u8),
    /// An allocation failed.
    Memory,
}

impl From<AllocError> for NoBatch {
    ghost use Rattle.example_itertools.specs.declared.batching.NoBatch.TheVariants.{Memory};

    ghost from_gives = { λ refused why. why ≡ Memory };

    /// Returns `NoBatch::Memory`.
    fn from(_: AllocError) -> NoBatch {
        NoBatch::Memory
    }
}

/// The readings in batches of ten, or the first failure, up to an allocation failure.
pub fn batches_of_ten(
    alloc: Global,
    readings: Vec<Result<u32, NoBatch>>,
) -> Result<Vec<Vec<u32>>, Fault<NoBatch>>
    ensures { CollectedMade (λ xs batch. batch.items ≡ xs) (λ refused why. why ≡ NoBatch.Memory)
        (λ batches v. v.items ≡ batches) (chunked 10 (results readings.items)) result }
{
    convert(readings.into_iter())
        .chunks(alloc, 10)
        .collect(alloc)
}

/// How many readings each batch of ten has, or the first failure, up to an allocation failure.
pub fn lengths_of_batches(
    alloc: Global,
    readings: Vec<Result<u32, NoBatch>>,
) -> Result<Vec<usize>, Fault<NoBatch>>
    ensures { CollectedMade (λ n m. m ≡ n) (λ refused why. why ≡ NoBatch.Memory)
        (λ lengths v. v.items ≡ lengths)
        (mapped (λ xs. Ok (length xs)) (chunked 10 (results readings.items))) result }
{
    convert(readings.into_iter())
        .chunks(alloc, 10)
        .map(|batch: Vec<u32>| Ok(batch.len()))
        .collect(alloc)
}

/// How many groups of readings of the same hundreds there are, or the first failure, or an allocation failure.
pub fn groups_of_hundreds(
    alloc: Global,
    readings: Vec<Result<u32, NoBatch>>,
) -> Result<usize, NoBatch>
    ensures { SameOrRefused (λ refused why. why ≡ NoBatch.Memory)
        (counted (chunked_by nat_eq (λ x. Ok (x / 100)) (results readings.items))) result }
{
    convert(readings.into_iter())
        .chunk_by(alloc, |reading| Ok(*reading / 100))
        .count()
}

/// How many readings the largest of these groups has, or the first failure, or an allocation failure.
pub fn largest_group(alloc: Global, readings: Vec<Result<u32, NoBatch>>) -> Result<usize, NoBatch>
    ensures { SameOrRefused (λ refused why. why ≡ NoBatch.Memory)
        (folded (λ e. e) (λ most group. Ok (max most (length group.1))) 0
        (chunked_by nat_eq (λ x. Ok (x / 100)) (results readings.items))) result }
{
    convert(readings.into_iter())
        .chunk_by(alloc, |reading| Ok(*reading / 100))
        .fold(
            0,
            |most: usize, group: (u32, Vec<u32>)| Ok(most.max(group.1.len())),
        )
}

/// How many items the largest batch has, or the first failure, or an allocation failure; by a loop.
pub fn largest_batch<I>(mut batches: I) -> Result<usize, NoBatch>
where
    I: FallibleIterator<Item = Vec<u32>, Error = NoBatch>,
    requires can_next { I.contract.can_next batches }
    requires finite { I.contract.is_finite batches }
    ensures { (l : List (Result (List ℕ) NoBatch))
        → ListsMade (λ xs batch. batch.items ≡ xs) I.contract.steps
        (λ refused why. why ≡ NoBatch.Memory) batches l
        → SameOrRefused (λ refused why. why ≡ NoBatch.Memory)
        (folded (λ e. e) (λ most xs. Ok (max most (length xs))) 0 l) result }
{
    let mut left = batches.number();
    let mut most: usize = 0;
    while let Some(batch) = batches.draw()? {
        left = left.one_less();
        most = most.max(batch.len());
    }
    Ok(most)
}

/// The readings without those that equal one before them, or the first failure, up to an allocation failure.
pub fn unique_readings(
    alloc: Global,
    readings: Vec<Result<u32, NoBatch>>,
) -> Result<Vec<u32>, Fault<NoBatch>>
    ensures { CollectedMade (λ x y. y ≡ x) (λ refused why. why ≡ NoBatch.Memory)
        (λ xs v. v.items ≡ xs) (unique_of nat_eq (results readings.items)) result }
{
    convert(readings.into_iter()).unique(alloc).collect(alloc)
}

/// How many different readings there are, or the first failure, or an allocation failure.
pub fn different_readings(
    alloc: Global,
    readings: Vec<Result<u32, NoBatch>>,
) -> Result<usize, NoBatch>
    ensures { SameOrRefused (λ refused why. why ≡ NoBatch.Memory)
        (counted (unique_of nat_eq (results readings.items))) result }
{
    convert(readings.into_iter()).unique(alloc).count()
}

/// The readings that equal exactly one before them, or the first failure, up to an allocation failure.
pub fn repeated_readings(
    alloc: Global,
    readings: Vec<Result<u32, NoBatch>>,
) -> Result<Vec<u32>, Fault<NoBatch>>
    ensures { CollectedMade (λ x y. y ≡ x) (λ refused why. why ≡ NoBatch.Memory)
        (λ xs v. v.items ≡ xs) (duplicates_of nat_eq (results readings.items)) result }
{
    convert(readings.into_iter())
        .duplicates(alloc)
        .collect(alloc)
}

/// The first reading of each ten, or the first failure, up to an allocation failure.
pub fn first_readings_of_tens(
    alloc: Global,
    readings: Vec<Result<u32, NoBatch>>,
) -> Result<Vec<u32>, Fault<NoBatch>>
    ensures { CollectedMade (λ x y. y ≡ x) (λ refused why. why ≡ NoBatch.Memory)
        (λ xs v. v.items ≡ xs)
        (unique_by_key nat_eq (λ x. Ok (x / 10)) (results readings.items)) result }
{
    convert(readings.into_iter())
        .unique_by(alloc, |reading| Ok(*reading / 10))
        .collect(alloc)
}
