// The adapter that keeps every k-th item.
ghost use Rattle.std.specs.Prelude.{Result, Option};
ghost use Rattle.fallible_contract.specs.Contract.{parts_as};
ghost use Rattle.fallible_contract.specs.Laws.Contract.{lawful_parts};
ghost use Rattle.fallible_core.specs.Cutting.StepBy.{step_by_contract, step_by_made, step_by_parts, count_call, count_outcome, count_takes};
ghost use Rattle.fallible_core.specs.Laws.Cutting.StepBy.{lawful_step_by};

use crate::cutting::by_number::next_past;
use crate::passing::drive_passing;
use crate::traits::FallibleIterator;
use fallible_contract::folds::Turn;
use fallible_contract::hints::kept;
use fallible_contract::passing::{Outcome, Pass};

/// The source's first item, and then every k-th one. Failures and `Ok(None)` stay, and don't count.
#[derive(Clone, Debug, Drop)]
pub struct StepBy<I> {
    pub(crate) it: I,
    // how many items are left out between two, which is one less than the step
    pub(crate) between: usize,
    // how many items are left out next
    pub(crate) to_skip: usize,
}

impl<I: FallibleIterator> FallibleIterator for StepBy<I>
where
    I::Item: Drop,
{
    type Item = I::Item;

    type Error = I::Error;

    ghost contract = { parts_as step_by_parts (step_by_contract I.contract) };

    /// Draws the items that are left out next, and then once more. A failure or an `Ok(None)` among them is returned, and the rest of them is left out from the next call on.
    fn next(&mut self) -> Result<Option<I::Item>, I::Error> {
        match next_past(&mut self.it, &mut self.to_skip) {
            Ok(Some(x)) => {
                self.to_skip = self.between;
                Ok(Some(x))
            }
            Ok(None) => Ok(None),
            Err(e) => Err(e),
        }
    }

    fn size_hint(&self) -> (usize, Option<usize>) {
        kept(self.it.size_hint(), self.between, self.to_skip)
    }

    /// One fold of the source, which counts down the items that are left out.
    fn drive<C, R, K: Turn<C, I::Item, R>>(
        &mut self,
        state: &mut C,
        turn: &K,
    ) -> Result<Option<R>, I::Error> {
        let adapter = StepByPass {
            between: self.between,
        };
        drive_passing(&mut self.it, &mut self.to_skip, &adapter, state, turn)
    }

    ghost lawful = { lawful_parts step_by_made (lawful_step_by I.lawful) };
}

// An item that is left out lowers what is left, and the one after them is kept. The state is how many are left out next.
#[derive(Drop)]
struct StepByPass {
    between: usize,
}

impl<X: Drop, E> Pass<usize, X, E> for StepByPass {
    type Kept = X;

    type Answer = usize;

    ghost can_pass = { λ _ n x. count_takes n x };

    ghost call = { λ k n x v m. count_call k.between n x v m };

    ghost outcome = { λ _ x v. count_outcome x v };

    #[inline(always)]
    fn pass(&self, state: &mut usize, item: X) -> Outcome<X, E> {
        if 0 < *state {
            *state -= 1;
            Outcome::LeftOut
        } else {
            *state = self.between;
            Outcome::Kept(item)
        }
    }
}
