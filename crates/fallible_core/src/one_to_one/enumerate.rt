// The adapter that numbers the items.
ghost use Rattle.std.specs.Prelude.{Some, Result, Option};
ghost use Rattle.fallible_contract.specs.Contract.{parts_as};
ghost use Rattle.fallible_contract.specs.Laws.Contract.{lawful_parts};
ghost use Rattle.fallible_core.specs.OneToOne.Enumerate.{enumerate_contract, enumerate_made, enumerate_parts, number_call, number_outcome, number_takes};
ghost use Rattle.fallible_core.specs.Laws.OneToOne.Enumerate.{lawful_enumerate};

use crate::goals::count_on;
use crate::passing::drive_passing;
use crate::traits::FallibleIterator;
use fallible_contract::folds::{LastTurn, NthTurn, Turn};
use fallible_contract::goals::Goal;
use fallible_contract::passing::{Outcome, Pass, passed};

/// Each item with the number of items before it. Failures and `Ok(None)` pass, and don't count.
#[derive(Clone, Debug, Drop)]
pub struct Enumerate<I> {
    pub(crate) it: I,
    pub(crate) count: usize,
}

impl<I: FallibleIterator> FallibleIterator for Enumerate<I>
where
    I::Item: Drop,
{
    type Item = (usize, I::Item);

    type Error = I::Error;

    ghost contract = { parts_as enumerate_parts (enumerate_contract I.contract) };

    /// Draws once, and counts an item.
    fn next(&mut self) -> Result<Option<(usize, I::Item)>, I::Error> {
        passed(self.it.next(), &mut self.count, &EnumeratePass)
    }

    fn size_hint(&self) -> (usize, Option<usize>) {
        self.it.size_hint()
    }

    /// The count goes on for each item that the source yields, also for the one where the turn stops.
    fn drive<C, R, K: Turn<C, (usize, I::Item), R>>(
        &mut self,
        state: &mut C,
        turn: &K,
    ) -> Result<Option<R>, I::Error> {
        drive_passing(&mut self.it, &mut self.count, &EnumeratePass, state, turn)
    }

    /// A count is the source's. Its own number goes up by as much, also before a failure. The others are one fold of the source, which counts each item.
    fn drive_to(
        &mut self,
        goal: &mut Goal<(usize, I::Item)>,
    ) -> Result<Option<(usize, I::Item)>, I::Error> {
        match goal {
            Goal::Count(number) => {
                let before = *number;
                let counted = count_on(&mut self.it, number);
                self.count += *number - before;
                match counted {
                    Ok(()) => Ok(None),
                    Err(e) => Err(e),
                }
            }
            Goal::Last(item) => match self.drive(item, &LastTurn) {
                Ok(None) => Ok(None),
                Ok(Some(never)) => match never {},
                Err(e) => Err(e),
            },
            Goal::Nth(left) => self.drive(left, &NthTurn),
        }
    }

    ghost lawful = { lawful_parts enumerate_made (lawful_enumerate I.lawful) };
}

// An item with its number. Its state is the number of the next item.
#[derive(Drop)]
struct EnumeratePass;

impl<X, E> Pass<usize, X, E> for EnumeratePass {
    type Kept = (usize, X);

    type Answer = usize;

    ghost can_pass = { λ _ n x. number_takes n x };

    ghost call = { λ _ n x v k. number_call n x v k };

    ghost outcome = { λ _ x v. number_outcome x v };

    #[inline(always)]
    fn pass(&self, state: &mut usize, item: X) -> Outcome<(usize, X), E> {
        let number = *state;
        *state += 1;
        Outcome::Kept((number, item))
    }
}
