//! Callers that state what the laws of the list words say of their result.
ghost use Rattle.std.specs.Prelude.{◌≡◌, false, nat_eq, IfOk};
ghost use Rattle.fallible_iterator.specs.Lists.{CollectedAs, results};
ghost use Rattle.fallible_itertools.specs.Adjacent.{Adjacent};
ghost use Rattle.fallible_itertools.specs.Coalesce.{deduped};

use fallible_iterator::{FallibleIterator, Fault, convert};
use fallible_itertools::FallibleItertools;
use std::alloc::Global;

/// The readings without those that equal the one before them: none is equal to the next one.
pub fn without_repeats(alloc: Global, readings: Vec<Result<u32, u8>>) -> Result<Vec<u32>, Fault<u8>>
    ensures value { CollectedAs (λ xs c. c.items ≡ xs)
        (deduped nat_eq (results readings.items)) result }
    ensures differ { IfOk result (λ v. Adjacent (λ x y. nat_eq x y ≡ false) v.items) }
{
    convert(readings.into_iter()).dedup().collect(alloc)
}
