//! Callers of what keeps the last items or the least, with what they compute.
ghost use Rattle.std.specs.Prelude.{Ok, nat_lt};
ghost use Rattle.std.specs.Ordering.{nat_cmp};
ghost use Rattle.std.specs.VecDeque.{deque_items};
ghost use Rattle.fallible_iterator.specs.Lists.{CollectedAs, filtered, results};
ghost use Rattle.fallible_itertools.specs.Sorted.{IsSmallestOf};
ghost use Rattle.fallible_itertools.specs.Tail.{IsTailOf};

use fallible_iterator::{FallibleIterator, Fault, convert};
use fallible_itertools::FallibleItertools;
use std::alloc::Global;
use std::collections::VecDeque;

/// The last ten readings, or the first failure.
pub fn last_ten(alloc: Global, readings: Vec<Result<u32, u8>>) -> Result<VecDeque<u32>, Fault<u8>>
    ensures { CollectedAs (IsTailOf deque_items 10) (results readings.items) result }
{
    convert(readings.into_iter()).tail(alloc, 10)
}

/// The three least readings above 100, in order, or the first failure.
pub fn three_least_above_100(
    alloc: Global,
    readings: Vec<Result<u32, u8>>,
) -> Result<Vec<u32>, Fault<u8>>
    ensures { CollectedAs (IsSmallestOf nat_cmp 3) (filtered (λ x. Ok (nat_lt 100 x))
        (results readings.items)) result }
{
    convert(readings.into_iter())
        .filter(|reading| Ok(*reading > 100))
        .k_smallest(alloc, 3)
}
