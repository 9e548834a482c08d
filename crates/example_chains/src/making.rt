//! What a closure yields, what draws leave, what is buffered, rounds, and runs one after the other.
ghost use Rattle.std.specs.Prelude.{◌≡◌, ℕ, ◌+◌, ◌-◌, ◌%◌, ◌^◌, ◌≤◌, length, drop, List, Option, Result, Ok, IfOk, nat_lt, Err};
ghost use Rattle.std.specs.Vec.Iter.{into_iter_items};
ghost use Rattle.fallible_iterator.specs.Showing.{TakesShown};
ghost use Rattle.fallible_iterator.specs.Lists.{Lists, counted, cycled, filtered, flattened, folded, items, mapped, results, taken, pointed_to};
ghost use Rattle.fallible_iterator.specs.Contract.{AtMost};
ghost use Rattle.example_chains.specs.Runs.{below, numbers};
ghost use Rattle.fallible_iterator.specs.Peeking.Peekable.{held_then, peekable_held, peekable_source};

use fallible_iterator::laws::{answers, law_cycle_taken, law_flat_map_finite, law_peekable};
use fallible_iterator::{FallibleIterator, IteratorExt, Peekable, convert, from_fn, repeat_err};
use std::alloc::{AllocError, Global};
use std::convert::Infallible;

/// How many of the first ten readings, which a closure returns one by one, are above 100.
pub fn given_above_100(readings: Vec<Result<u32, u8>>) -> Result<usize, u8>
    ensures { result ≡ counted
        (filtered (λ x. Ok (nat_lt 100 x)) (taken 10 (results readings.items))) }
{
    let mut left = readings.into_iter();
    let one = move || -> Result<Option<u32>, u8>
        ensures { TakesShown (into_iter_items left.entry) result (into_iter_items left.exit) }
    { left.next().transpose() };
    from_fn(one)
        .take(10)
        .filter(|reading| Ok(*reading > 100))
        .count()
}

/// How many readings come after the first two, which are dropped, or the first failure after them; or an allocation failure for those two. No clause says what it returns if there are fewer than two.
pub fn count_after_two_answers(
    alloc: Global,
    readings: Vec<Result<u32, u8>>,
) -> Result<Result<usize, u8>, AllocError>
    ensures { 2 ≤ length (results readings.items)
        → IfOk result (λ count. count ≡ counted (drop 2 (results readings.items))) }
{
    let mut it = convert(readings.into_iter());
    let _ = answers(alloc, &mut it, 2)?;
    Ok(it.count())
}

/// How many items a `Peekable` yields, with the one that it may have buffered.
pub fn count_with_held<I: FallibleIterator>(ahead: Peekable<I>) -> Result<usize, I::Error>
where
    I::Item: Drop,
    requires can_next { ⟦<Peekable<I> as FallibleIterator>⟧.contract.can_next ahead }
    requires fits { AtMost ⟦<Peekable<I> as FallibleIterator>⟧.contract ahead (2 ^ 64 - 1) }
    ensures { (l : List (Result I.Item I.Error)) → Lists I.contract.steps (peekable_source ahead) l
        → result ≡ counted (held_then (peekable_held ahead) l) }
{
    law_peekable::<I>();
    ahead.count()
}

/// The sum of the first n items of an iterator that starts anew at each `Ok(None)`, modulo 2 ^ 64.
pub fn sum_of_rounds<I: FallibleIterator<Item = u32> + Clone>(
    it: I,
    n: usize,
) -> Result<u64, I::Error>
where
    I::Error: From<AllocError>,
    requires clones { (c : I) → I.is_clone it c → I.contract.can_next c }
    ensures { (xs : List ℕ) → I.is_infallible it
        → ((c : I) → I.is_clone it c → Lists I.contract.steps c (items xs))
        → result ≡ folded (λ e. e) (λ s x. Ok ((s + x) % 2 ^ 64)) 0 (cycled n xs) }
{
    law_cycle_taken::<I>();
    it.cycle()?
        .take(n)
        .fold(0, |sum: u64, x: u32| Ok(sum.wrapping_add(u64::from(x))))
}

/// How many numbers below 100 come, once for each reading, modulo 2 ^ 64.
pub fn hundreds(readings: Vec<Result<u32, Infallible>>) -> Result<u64, Infallible>
    ensures { result ≡ folded (λ e. e) (λ s x. Ok ((s + 1) % 2 ^ 64)) 0
        (flattened numbers (mapped (λ x. Ok (below 100)) (results readings.items))) }
{
    let joined = convert(readings.into_iter()).flat_map(|_| Ok((0u32..100).into_fallible()));
    law_flat_map_finite(&joined, 100);
    joined.fold(0, |sum: u64, _| Ok(sum.wrapping_add(1)))
}

/// The sum of what the readings point to, which is cloned, modulo 2 ^ 64, or the first failure. An allocation failure of a clone would be one of the readings' own.
pub fn sum_of_clones(readings: Vec<Result<&u32, AllocError>>) -> Result<u64, AllocError>
    ensures { result ≡ folded (λ e. e) (λ s x. Ok ((s + x) % 2 ^ 64)) 0
        (pointed_to (results readings.entry.items)) }
{
    convert(readings.into_iter()).cloned().fold(
        0,
        |sum: u64, reading: u32| Ok(sum.wrapping_add(u64::from(reading))),
    )
}

/// What the first draw returns of a source that always fails: a clone of the failure, unless that fails to allocate.
pub fn failure_of<E: Clone + From<AllocError>>(error: E) -> Result<Option<u32>, E>
    ensures { E.is_infallible error → ((e : E) → E.is_clone error e → e ≡ error)
        → result ≡ Err error }
{
    repeat_err::<u32, E>(error).next()
}
