//! Chains that compute what other chains say.
ghost use Rattle.std.specs.Prelude.{◌≡◌, ◌*◌, Result, Ok, nat_lt};
ghost use Rattle.fallible_iterator.specs.Lists.{counted, filtered, mapped, results};

use fallible_iterator::{FallibleIterator, convert};

/// How many of the doubled readings are above 100, or the first failure. None is doubled but for the test.
pub fn doubled_and_above_100(readings: Vec<Result<u32, u8>>) -> Result<usize, u8>
    ensures { result ≡ counted
        (filtered (λ x. Ok (nat_lt 100 x)) (mapped (λ x. Ok (x * 2)) (results readings.items))) }
{
    convert(readings.into_iter())
        .filter(|reading| Ok(u64::from(*reading) * 2 > 100))
        .count()
}
