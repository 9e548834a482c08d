//! What the next draws return, with the hints before and between them.
ghost use Rattle.fallible_iterator.specs.Contract.{KeptByDraws};

use crate::answered::expect_answers;
use fallible_iterator::{Answer, FallibleIterator};
use std::fmt::Debug;
use std::test::Fail;

/// What is hinted.
pub type Hint = (usize, Option<usize>);

/// Compares the hint of each stretch, and then draws as often as it has answers. Fails the test where another hint or other answers come.
pub fn expect_course<I: FallibleIterator>(
    rt: &impl AllocGlobal,
    it: &mut I,
    expected: &[(Hint, &[Answer<I::Item, I::Error>])],
) -> Result<(), Fail>
where
    I::Item: Debug + Drop + PartialEq,
    I::Error: Debug + Drop + PartialEq,
    requires { I.contract.can_next it.old }
    ensures { KeptByDraws I.contract it.old it.new }
{
    for (hint, answers) in expected {
        let hinted = it.size_hint();
        if hinted != *hint {
            return Err(Fail::new(format_args!(
                "hinted {hinted:?}, and not {hint:?} before {answers:?}"
            )));
        }
        expect_answers(rt, it, answers)?;
    }
    Ok(())
}
