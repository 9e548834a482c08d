//! What the next draws return.
ghost use Rattle.fallible_iterator.specs.Contract.{KeptByDraws};
ghost use Rattle.fallible_iterator.specs.Ends.{from_front};

use fallible_iterator::laws::{answers, answers_at};
use fallible_iterator::{Answer, DoubleEndedFallibleIterator, FallibleIterator, Side};
use std::fmt::Debug;
use std::test::Fail;

/// Draws as often as there are answers expected, and fails the test where others come.
pub fn expect_answers<I: FallibleIterator>(
    rt: &impl AllocGlobal,
    it: &mut I,
    expected: &[Answer<I::Item, I::Error>],
) -> Result<(), Fail>
where
    I::Item: Debug + Drop + PartialEq,
    I::Error: Debug + Drop + PartialEq,
    requires { I.contract.can_next it.old }
    ensures { KeptByDraws I.contract it.old it.new }
{
    let drawn = answers(rt.alloc(), it, expected.len())?;
    if drawn.as_slice() == expected {
        Ok(())
    } else {
        Err(Fail::new(format_args!("answered {drawn:?}, and not {expected:?}")))
    }
}

/// Draws from the ends named, one after another, and fails the test where other answers come than those expected.
pub fn expect_answers_at<I: DoubleEndedFallibleIterator>(
    rt: &impl AllocGlobal,
    it: &mut I,
    sides: &[Side],
    expected: &[Answer<I::Item, I::Error>],
) -> Result<(), Fail>
where
    I::Item: Debug + Drop + PartialEq,
    I::Error: Debug + Drop + PartialEq,
    requires { I.ends.can_next it.old }
    ensures { KeptByDraws (from_front I.contract I.ends) it.old it.new }
{
    let drawn = answers_at(rt.alloc(), it, sides)?;
    if drawn.as_slice() == expected {
        Ok(())
    } else {
        Err(Fail::new(format_args!("answered {drawn:?}, and not {expected:?}")))
    }
}
