//! The front and the back of a list that a predicate accepts.
ghost use Rattle.std.specs.Prelude.{◌≡◌, Ok, Result, List, nat_lt};
ghost use Rattle.fallible_iterator.specs.Lists.{results, reversed, counted, taken_while};

use fallible_iterator::prelude::*;

/// How many readings stand in front of the first one up to 100, or the failure that comes before it. It draws nothing after either.
pub fn front_above_100(readings: Vec<Result<u32, u8>>) -> Result<usize, u8>
    ensures { result ≡ counted
        (taken_while (λ x. Ok (nat_lt 100 x)) (results readings.items)) }
{
    convert(readings.into_iter())
        .take_while(|reading| Ok(*reading > 100))
        .count()
}

/// How many readings come after the last one up to 100, or the failure that comes before it from the back. It draws nothing after either.
pub fn back_above_100(readings: Vec<Result<u32, u8>>) -> Result<usize, u8>
    ensures { result ≡ counted
        (taken_while (λ x. Ok (nat_lt 100 x)) (reversed (results readings.items))) }
{
    convert(readings.into_iter())
        .rev()
        .take_while(|reading| Ok(*reading > 100))
        .count()
}
