//! Over any source of numbers.
ghost use Rattle.std.specs.Prelude.{◌≡◌, ◌+◌, ◌%◌, ◌^◌, ℕ, List, Result, Ok, Some};
ghost use Rattle.fallible_iterator.specs.Lists.{Lists, CollectedAs, scanned};

use fallible_iterator::{FallibleIterator, Fault};
use std::alloc::Global;

/// The running sums of the items, modulo 2 ^ 64. It draws up to `Ok(None)` or the first failure, which is returned then, as an allocation failure is.
///
/// Requires that `next` may be called on the source, and that it is finite.
pub fn running_sums<I: FallibleIterator<Item = u32>>(
    alloc: Global,
    it: I,
) -> Result<Vec<u64>, Fault<I::Error>>
where
    requires can_next { I.contract.can_next it }
    requires finite { I.contract.is_finite it }
    ensures { (l : List (Result ℕ I.Error)) → Lists I.contract.steps it l
        → CollectedAs (λ xs v. v.items ≡ xs)
        (scanned (λ s x. (Ok (Some ((s + x) % 2 ^ 64)), (s + x) % 2 ^ 64)) 0 l) result }
{
    it.scan(0, |sum: &mut u64, item: u32| {
        *sum = sum.wrapping_add(u64::from(item));
        Ok(Some(*sum))
    })
    .collect(alloc)
}
