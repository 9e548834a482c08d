//! The count of a source, for an adapter that counts by it.
ghost use Rattle.std.specs.Prelude.{◌-◌, ◌^◌, Result};
ghost use Rattle.fallible_contract.specs.Contract.{AtMost};
ghost use Rattle.fallible_contract.specs.Folds.{CountDrainsOn};

use crate::traits::FallibleIterator;
use fallible_contract::goals::Goal;

/// The source's own count: it adds one to `number` for each item, also for those before a failure.
pub(crate) fn count_on<I: FallibleIterator>(it: &mut I, number: &mut usize) -> Result<(), I::Error>
where
    I::Item: Drop,
    requires can_next { I.contract.can_next it.old }
    requires fits { AtMost I.contract it.old (2 ^ 64 - 1 - number.old) }
    ensures { CountDrainsOn I.contract.steps it.old number.old result it.new number.new }
{
    let mut goal = Goal::Count(*number);
    let answer = it.drive_to(&mut goal);
    match goal {
        Goal::Count(counted) => *number = counted,
        _ => unreachable!(),
    }
    match answer {
        Ok(_) => Ok(()),
        Err(e) => Err(e),
    }
}
