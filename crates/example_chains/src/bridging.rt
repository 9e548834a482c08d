//! Callers that pass a fallible iterator to std, and take it back.
ghost use Rattle.std.specs.Prelude.{◌≡◌, ℕ, ◌+◌, ◌-◌, ◌%◌, ◌^◌, ◌<◌, ◌≤◌, Ok, Err, Some, None, List, Option, Result, length, IfOk, MatchOption, filter, is_err, nat_lt, take, slice_index_or};
ghost use Rattle.std.specs.Iterator.{IsFinite};
ghost use Rattle.fallible_iterator.specs.Contract.{NeverFails};
ghost use Rattle.fallible_iterator.specs.Lists.{Lists, items, results, counted, mapped, filtered, taken, nth_of, rest_first, rest_nth};
ghost use Rattle.fallible_iterator.specs.Bridges.Unwrap.{unwrapped};
ghost use Rattle.std.specs.declared.convert.Infallible.{Infallible};

use fallible_iterator::laws::{law_back_convert, law_back_iterator, law_iterator};
use fallible_iterator::{Convert, FallibleIterator, IteratorExt, Take, convert};
use std::alloc::{AllocError, Global};
use std::fmt::Debug;

/// How many readings there are, failures among them, counted from the back.
pub fn elements_from_back(readings: Vec<Result<u32, u8>>) -> usize
    ensures { result ≡ length (results readings.items) }
{
    law_back_convert::<u32, u8, std::vec::IntoIter<Result<u32, u8>, Global>>();
    law_back_iterator::<Convert<std::vec::IntoIter<Result<u32, u8>, Global>>>();
    convert(readings.into_iter()).iterator().rev().count()
}

/// How many items and failures of any fallible iterator come up to its `Ok(None)`, but no more than ten, which std's `take` counts.
pub fn up_to_ten<I: FallibleIterator>(it: I) -> usize
where
    I::Item: Drop,
    I::Error: Drop,
    requires { I.contract.can_next it }
    ensures at_most { result ≤ 10 }
    ensures value { (l : List (Result I.Item I.Error)) → Lists I.contract.steps it l
        → result ≡ length (take 10 l) }
{
    it.iterator().take(10).count()
}

/// The last item after the second one of any fallible iterator, which std reads: `None` if nothing comes after it. Or the failure that comes before. No clause says what it returns if there are fewer than two.
pub fn last_after_two<I: FallibleIterator>(
    mut it: I,
) -> Result<Option<Result<I::Item, I::Error>>, I::Error>
where
    I::Item: Drop,
    I::Error: Drop,
    requires can_next { I.contract.can_next it }
    requires finite { IsFinite (I.contract.remaining it) }
    ensures value { (l : List (Result I.Item I.Error)) → Lists I.contract.steps it l
        → (x : I.Item) → nth_of 1 l ≡ Ok (Some x)
        → IfOk result (λ last. MatchOption last (length (rest_nth 1 l) ≡ 0)
        (λ y. y ≡ slice_index_or (rest_nth 1 l) (length (rest_nth 1 l) - 1) y)) }
    ensures fails { (l : List (Result I.Item I.Error)) → Lists I.contract.steps it l
        → (e : I.Error) → nth_of 1 l ≡ Err e → result ≡ Err e }
{
    it.nth(1)?;
    Ok(it.iterator().last())
}

/// How many of the readings are failures, modulo 2 ^ 32.
pub fn failures(readings: Vec<Result<u32, u8>>) -> u32
    ensures { result ≡ length (filter is_err (results readings.items)) % 2 ^ 32 }
{
    let mut failures: u32 = 0;
    for reading in convert(readings.into_iter()).iterator() {
        if reading.is_err() {
            failures = failures.wrapping_add(1);
        }
    }
    failures
}

/// The last item after the first of any fallible iterator that can't fail: `None` if nothing comes after it. No clause says what it returns if there is no first.
pub fn last_after_the_first<I: FallibleIterator>(mut it: I) -> Result<Option<I::Item>, I::Error>
where
    I::Item: Drop,
    I::Error: Debug,
    requires can_next { I.contract.can_next it }
    requires finite { IsFinite (I.contract.remaining it) }
    requires sure { NeverFails I.contract it }
    ensures value { (l : List (Result I.Item I.Error)) → Lists I.contract.steps it l
        → (x : I.Item) → nth_of 0 l ≡ Ok (Some x)
        → IfOk result (λ last. MatchOption last (length (unwrapped (rest_first l)) ≡ 0)
        (λ y. y ≡ slice_index_or (unwrapped (rest_first l))
        (length (unwrapped (rest_first l)) - 1) y)) }
{
    it.draw()?;
    Ok(it.unwrap().last())
}

/// The numbers, each one greater, modulo 2 ^ 32.
pub fn one_more(alloc: Global, numbers: Vec<u32>) -> Result<Vec<u32>, AllocError>
    ensures { IfOk result
        (λ made. made.items ≡ unwrapped {E = Infallible}
        (mapped (λ x. Ok ((x + 1) % 2 ^ 32)) (items numbers.items))) }
{
    numbers
        .into_iter()
        .into_fallible()
        .map(|number: u32| Ok(number.wrapping_add(1)))
        .unwrap()
        .collect(alloc)
}

/// How many numbers there are.
pub fn number_of(numbers: Vec<u32>) -> usize
    ensures { result ≡ length (unwrapped {E = Infallible} (items numbers.items)) }
{
    numbers.into_iter().into_fallible().unwrap().count()
}

/// How many of the first ten readings are above 100, on the way to std and back, up to the tenth taken by a fallible adapter.
pub fn there_and_back_of_ten(readings: Vec<Result<u32, u8>>) -> Result<usize, u8>
    ensures { result ≡ counted
        (filtered (λ x. Ok (nat_lt 100 x)) (taken 10 (results readings.items))) }
{
    law_iterator::<Take<Convert<std::vec::IntoIter<Result<u32, u8>, Global>>>>();
    convert(readings.into_iter())
        .take(10)
        .iterator()
        .transpose_into_fallible()
        .filter(|reading| Ok(*reading > 100))
        .count()
}
