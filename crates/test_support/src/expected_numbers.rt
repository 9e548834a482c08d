//! What draws of numbers return. It says what `answered` and `course` say, of one type of item and of failure: so a call passes on one bound in place of eight, and takes a third of the proof.
ghost use Rattle.fallible_iterator.specs.Contract.{KeptByDraws};
ghost use Rattle.fallible_iterator.specs.Ends.{from_front};

use crate::answered::{expect_answers, expect_answers_at};
use crate::course::{Hint, expect_course};
use fallible_iterator::{Answer, DoubleEndedFallibleIterator, FallibleIterator, Side};
use std::test::Fail;

/// Draws as often as there are answers expected, and fails the test where others come.
pub fn expect_numbers<I: FallibleIterator<Item = u32, Error = u32>>(
    rt: &HostRuntime,
    it: &mut I,
    expected: &[Answer<u32, u32>],
) -> Result<(), Fail>
where
    requires { I.contract.can_next it.old }
    ensures { KeptByDraws I.contract it.old it.new }
{
    expect_answers(rt, it, expected)
}

/// Compares the hint of each stretch, and then draws as often as it has answers. Fails the test where another hint or other answers come.
pub fn expect_hinted_numbers<I: FallibleIterator<Item = u32, Error = u32>>(
    rt: &HostRuntime,
    it: &mut I,
    expected: &[(Hint, &[Answer<u32, u32>])],
) -> Result<(), Fail>
where
    requires { I.contract.can_next it.old }
    ensures { KeptByDraws I.contract it.old it.new }
{
    expect_course(rt, it, expected)
}

/// Draws from the ends named, one after another, and fails the test where other answers come than those expected.
pub fn expect_numbers_at<I: DoubleEndedFallibleIterator<Item = u32, Error = u32>>(
    rt: &HostRuntime,
    it: &mut I,
    sides: &[Side],
    expected: &[Answer<u32, u32>],
) -> Result<(), Fail>
where
    requires { I.ends.can_next it.old }
    ensures { KeptByDraws (from_front I.contract I.ends) it.old it.new }
{
    expect_answers_at(rt, it, sides, expected)
}
