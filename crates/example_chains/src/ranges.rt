//! Ranges, drained.
ghost use Rattle.std.specs.Prelude.{◌≡◌, ◌+◌, ◌%◌, ◌^◌, Ok, eqb};
ghost use Rattle.std.specs.List.{range_with_len};
ghost use Rattle.fallible_iterator.specs.Lists.{items, results, folded, CollectedAs, taken, mapped, flattened, found, reversed};
ghost use Rattle.example_chains.specs.Runs.{below, numbers};

use fallible_iterator::{FallibleIterator, Fault, IteratorExt, convert};
use std::alloc::Global;
use std::convert::Infallible;

/// The sum of the numbers below `end`, modulo 2 ^ 64.
pub fn sum_below(end: u32) -> Result<u64, Infallible>
    ensures { result ≡ folded (λ e. e) (λ s x. Ok ((s + x) % 2 ^ 64)) 0
        (items (range_with_len 0 end)) }
{
    (0..end).into_fallible().fold(
        0,
        |sum: u64, number: u32| Ok(sum.wrapping_add(u64::from(number))),
    )
}

/// The greatest number below `end` that leaves 3 if it is divided by 10, if there is one.
pub fn greatest_with_three(end: u32) -> Result<Option<u32>, Infallible>
    ensures { result ≡ found (λ x. Ok (eqb (x % 10) 3)) (reversed (items (range_with_len 0 end))) }
{
    (0..end)
        .into_fallible()
        .rev()
        .find(|number: &u32| Ok(*number % 10 == 3))
}

/// The numbers below each bound, one run after the other, of which at most 1000 come, unless an allocation fails.
pub fn runs(
    alloc: Global,
    bounds: Vec<Result<u32, Infallible>>,
) -> Result<Vec<u32>, Fault<Infallible>>
    ensures { CollectedAs (λ xs v. v.items ≡ xs)
        (taken 1000 (flattened numbers (mapped (λ n. Ok (below n)) (results bounds.items))))
        result }
{
    convert(bounds.into_iter())
        .flat_map(|bound: u32| Ok((0..bound).into_fallible()))
        .take(1000)
        .collect(alloc)
}
