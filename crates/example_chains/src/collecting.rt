//! Collections: std's six, and one of one's own.
ghost use Rattle.std.specs.Prelude.{◌≡◌, ◌≤◌, ◌<◌, ◌*◌, ℕ, Ok, Err, IfOk, length, nat_eq};
ghost use Rattle.std.specs.Ordering.{nat_cmp};
ghost use Rattle.fallible_iterator.specs.Collecting.Keyed.{IsHashedMapOf, IsHashedSetOf, IsSortedMapOf, IsSortedSetOf};
ghost use Rattle.fallible_iterator.specs.Fault.{Fault};
ghost use Rattle.fallible_iterator.specs.Lists.{CollectedAs, collected, items, mapped, on_value, results};
ghost use Rattle.std.specs.declared.alloc.AllocError.{AllocError};

use fallible_iterator::{Collect, FallibleIterator, Fault, convert};
use std::alloc::{AllocError, Global};
use std::collections::{BTreeMap, BTreeSet, HashMap, HashSet, VecDeque};

/// The doubled numbers as a vector and as a deque, each unless an allocation fails.
pub fn doubled_vec_and_deque(
    alloc: Global,
    numbers: &[u32],
) -> (
    Result<Vec<u64>, Fault<u8>>,
    Result<VecDeque<u64>, Fault<u8>>,
)
    ensures vector { CollectedAs (λ xs c. c.items ≡ xs)
        (mapped (λ x. Ok (x * 2)) (items numbers.now)) result.0 }
    ensures deque { CollectedAs (λ xs c. c.items ≡ xs)
        (mapped (λ x. Ok (x * 2)) (items numbers.now)) result.1 }
{
    let vector = convert(numbers.iter().copied().map(Ok))
        .map(|number| Ok(u64::from(number) * 2))
        .collect(alloc);
    let deque = convert(numbers.iter().copied().map(Ok))
        .map(|number| Ok(u64::from(number) * 2))
        .collect(alloc);
    (vector, deque)
}

/// The doubled readings as a sorted set, unless an allocation fails.
pub fn doubled_sorted_set(
    alloc: Global,
    readings: Vec<Result<u32, u8>>,
) -> Result<BTreeSet<u64>, Fault<u8>>
    ensures { CollectedAs (λ xs c. IsSortedSetOf nat_cmp xs c)
        (mapped (λ x. Ok (x * 2)) (results readings.items)) result }
{
    convert(readings.into_iter())
        .map(|reading| Ok(u64::from(reading) * 2))
        .collect(alloc)
}

/// The doubled readings as a hashed set, unless an allocation fails.
pub fn doubled_hashed_set(
    alloc: Global,
    readings: Vec<Result<u32, u8>>,
) -> Result<HashSet<u64>, Fault<u8>>
    ensures { CollectedAs (λ xs c. IsHashedSetOf nat_eq xs c)
        (mapped (λ x. Ok (x * 2)) (results readings.items)) result }
{
    convert(readings.into_iter())
        .map(|reading| Ok(u64::from(reading) * 2))
        .collect(alloc)
}

/// The double of each reading, in a sorted map, unless an allocation fails.
pub fn doubled_sorted_map(
    alloc: Global,
    readings: Vec<Result<u32, u8>>,
) -> Result<BTreeMap<u32, u64>, Fault<u8>>
    ensures { CollectedAs (λ xs c. IsSortedMapOf nat_cmp xs c)
        (mapped (λ x. Ok (x, x * 2)) (results readings.items)) result }
{
    convert(readings.into_iter())
        .map(|reading| Ok((reading, u64::from(reading) * 2)))
        .collect(alloc)
}

/// The double of each reading, in a hashed map, unless an allocation fails.
pub fn doubled_hashed_map(
    alloc: Global,
    readings: Vec<Result<u32, u8>>,
) -> Result<HashMap<u32, u64>, Fault<u8>>
    ensures { CollectedAs (λ xs c. IsHashedMapOf nat_eq xs c)
        (mapped (λ x. Ok (x, x * 2)) (results readings.items)) result }
{
    convert(readings.into_iter())
        .map(|reading| Ok((reading, u64::from(reading) * 2)))
        .collect(alloc)
}

/// How many items came. It rejects each after the thousandth.
#[derive(Drop)]
pub struct Tally {
    count: u32,
}

impl<T: Drop> Collect<T> for Tally {
    ghost made = { λ items tally. tally.count ≡ length items };

    ghost empty_refuses = { ⊥ };

    ghost push_refuses = { λ tally _. 1000 ≤ tally.count };

    /// The tally of no items.
    fn empty(_alloc: Global) -> Result<Tally, AllocError> {
        Ok(Tally { count: 0 })
    }

    /// Adds one.
    fn push_one(&mut self, _item: T) -> Result<(), AllocError> {
        if self.count >= 1000 {
            return Err(AllocError);
        }
        self.count += 1;
        Ok(())
    }
}

/// How many readings there are, or the first failure. It fails with `Fault::Memory` only if there are more than 1000.
pub fn tallied(alloc: Global, readings: Vec<Result<u32, u8>>) -> Result<u32, Fault<u8>>
    ensures value { IfOk result (λ n. Ok n ≡ on_value
        (collected (results readings.items)) (λ xs. Ok (length xs))) }
    ensures failure { (e : ℕ) → result ≡ Err (Fault.Source e)
        → collected (results readings.items) ≡ Err e }
    ensures memory { (a : AllocError) → result ≡ Err (Fault.Memory a)
        → 1000 < length readings.items }
{
    let tally: Tally = convert(readings.into_iter()).collect(alloc)?;
    Ok(tally.count)
}
