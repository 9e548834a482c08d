//! A source over a list of answers, which the tests draw from.
ghost use Rattle.std.specs.Prelude.{◌^◌, ◌-◌, IfOk};

use fallible_iterator::{Convert, DoubleEndedFallibleIterator, FallibleIterator, convert};
use std::alloc::{AllocError, Global};
use std::vec::IntoIter;

/// `convert` of the answers, `Ok` for an item and `Err` for a failure.
pub fn listed<T: Drop, E: Drop, const N: usize>(
    alloc: Global,
    answers: [Result<T, E>; N],
) -> Result<Convert<IntoIter<Result<T, E>>>, AllocError>
    ensures can_next { IfOk result
        ⟦<Convert<IntoIter<Result<T, E>>> as FallibleIterator>⟧.contract.can_next }
    ensures ends { IfOk result
        ⟦<Convert<IntoIter<Result<T, E>>> as DoubleEndedFallibleIterator>⟧.ends.can_next }
    ensures finite { IfOk result
        (λ s. ⟦<Convert<IntoIter<Result<T, E>>> as FallibleIterator>⟧.contract.bound s
        (2 ^ 64 - 1)) }
{
    Ok(convert(Vec::from_array(alloc, answers)?.into_iter()))
}
