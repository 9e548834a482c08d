//! Callers of `intersperse` and `intersperse_with`.
ghost use Rattle.std.specs.Prelude.{◌≡◌, ◌+◌, ◌*◌, ◌%◌, ◌^◌, Ok};
ghost use Rattle.fallible_iterator.specs.Lists.{counted, folded, results};
ghost use Rattle.fallible_itertools.specs.Intersperse.{interspersed, interspersed_by};

use fallible_iterator::{FallibleIterator, convert};
use fallible_itertools::FallibleItertools;
use std::alloc::AllocError;

/// How many readings there are with a zero between each two adjacent ones, or the first failure.
pub fn separated_by_zeros(readings: Vec<Result<u32, AllocError>>) -> Result<usize, AllocError>
    ensures { result ≡ counted (interspersed 0 (results readings.items)) }
{
    convert(readings.into_iter()).intersperse(0).count()
}

/// How many readings there are with a zero between each two adjacent ones, which a closure returns, or the first failure.
pub fn separated_by_returned_zeros(
    readings: Vec<Result<u32, AllocError>>,
) -> Result<usize, AllocError>
    ensures { result ≡ counted (interspersed 0 (results readings.items)) }
{
    convert(readings.into_iter())
        .intersperse_with(|| Ok(0))
        .count()
}

/// The number whose digits are these with 1, 2 and so on between each two adjacent ones, modulo 2 ^ 64, or the first failure.
pub fn separated_by_numbers(digits: Vec<Result<u32, AllocError>>) -> Result<u64, AllocError>
    ensures { result ≡ folded (λ e. e) (λ n d. Ok ((n * 10 % 2 ^ 64 + d) % 2 ^ 64)) 0
        (interspersed_by (λ k. Ok ((k + 1) % 2 ^ 32)) (results digits.items)) }
{
    let mut last: u32 = 0;
    convert(digits.into_iter())
        .intersperse_with(move || {
            last = last.wrapping_add(1);
            Ok(last)
        })
        .fold(
            0,
            |number: u64, digit: u32| Ok(number.wrapping_mul(10).wrapping_add(u64::from(digit))),
        )
}
