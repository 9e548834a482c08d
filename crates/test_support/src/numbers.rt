//! A source over answers in a slice, which the tests draw from.
ghost use Rattle.std.specs.Prelude.{◌^◌, ◌-◌};

use fallible_iterator::{Convert, DoubleEndedFallibleIterator, FallibleIterator, convert};
use std::iter::Copied;
use std::slice::Iter;

/// `convert` of the answers, which are numbers and failures with a number.
pub fn numbers<'a>(answers: &'a [Result<u32, u32>]) -> Convert<Copied<Iter<'a, Result<u32, u32>>>>
    ensures can_next { ⟦<Convert<Copied<Iter<'a, Result<u32, u32>>>> as FallibleIterator>⟧.contract.can_next
        result }
    ensures ends { ⟦<Convert<Copied<Iter<'a, Result<u32, u32>>>> as DoubleEndedFallibleIterator>⟧.ends.can_next
        result }
    ensures finite { ⟦<Convert<Copied<Iter<'a, Result<u32, u32>>>> as FallibleIterator>⟧.contract.bound
        result (2 ^ 64 - 1) }
{
    convert(answers.iter().copied())
}
