//! Sums and products.
ghost use lib.Ieee as Ieee;
ghost use lib.Ieee.{binary64};
ghost use Rattle.std.specs.Prelude.{from_bits, ◌≡◌, ℕ, ◌^◌, ℤ, pos, List, Result, Ok, Err, Some, None};
ghost use Rattle.fallible_iterator.specs.Clauses.{OverList};
ghost use Rattle.fallible_iterator.specs.Lists.{Lists, results, taken};
ghost use Rattle.fallible_itertools.specs.CheckedSum.{product_within, sum_below, totalled};
ghost use Rattle.fallible_itertools.specs.Total.{added};

use fallible_iterator::{FallibleIterator, convert};
use fallible_itertools::FallibleItertools;

/// The product of the first three items, or the first failure among them; `None` if it overflows.
pub fn product_of_three<I: FallibleIterator<Item = i64>>(it: I) -> Result<Option<i64>, I::Error>
where
    requires { I.contract.can_next it }
    ensures { (l : List (Result ℤ I.Error)) → Lists I.contract.steps it l
        → result ≡ totalled (product_within (2 ^ 63)) (pos 1) (taken 3 l) }
{
    it.take(3).checked_product()
}

/// The sum of the prices, in floats, or the first failure.
pub fn total_price(prices: Vec<Result<f64, u8>>) -> Result<f64, u8>
    ensures { result ≡ added (λ a b. Ieee.add binary64 a b) (Ieee.neg (from_bits binary64 0))
        (results prices.items) }
{
    convert(prices.into_iter()).sum::<f64>()
}

/// The product of the first three rates of any fallible iterator, in floats, or the first failure.
pub fn product_of_three_rates<I: FallibleIterator<Item = f64>>(it: I) -> Result<f64, I::Error>
where
    requires { I.contract.can_next it }
    ensures { OverList I.contract.steps it
        (λ l. result ≡ added (λ a b. Ieee.mul binary64 a b) (from_bits binary64 0x3ff0_0000_0000_0000)
        (taken 3 l)) }
{
    it.take(3).product()
}

/// The sum of the readings, or the first failure; a sum of 2 ^ 32 or more is the failure `too_large`.
pub fn sum_within(readings: Vec<Result<u32, u8>>, too_large: u8) -> Result<u32, u8>
    ensures sum { (n : ℕ) → totalled (sum_below (2 ^ 32)) 0 (results readings.items) ≡ Ok (Some n)
        → result ≡ Ok n }
    ensures too_large { totalled (sum_below (2 ^ 32)) 0 (results readings.items) ≡ Ok None
        → result ≡ Err too_large }
    ensures failed { (e : ℕ) → totalled (sum_below (2 ^ 32)) 0 (results readings.items) ≡ Err e
        → result ≡ Err e }
{
    let sum: Option<u32> = convert(readings.into_iter()).checked_sum()?;
    sum.ok_or(too_large)
}
