// The adapter that starts anew at each `Ok(None)`.
ghost use Rattle.std.specs.Prelude.{Result, Option};
ghost use Rattle.fallible_contract.specs.Contract.{parts_as};
ghost use Rattle.fallible_contract.specs.Laws.Contract.{lawful_parts};
ghost use Rattle.fallible_core.specs.Joining.Cycle.{cycle_contract, cycle_made, cycle_parts};
ghost use Rattle.fallible_core.specs.Laws.Joining.Cycle.{lawful_cycle};

use crate::traits::FallibleIterator;
use std::alloc::AllocError;

/// What a run yields, and at its `Ok(None)` what a fresh clone of the kept source yields, and so on. The `Ok(None)` that closes a run isn't returned; an `Ok(None)` or a failure that a clone begins with is.
#[derive(Clone, Debug, Drop)]
pub struct Cycle<I> {
    // the current run
    pub(crate) it: I,
    // what each new run is a clone of
    pub(crate) kept: I,
}

impl<I: FallibleIterator + Clone> FallibleIterator for Cycle<I>
where
    I::Error: From<AllocError>,
{
    type Item = I::Item;

    type Error = I::Error;

    ghost contract = { parts_as cycle_parts
        (cycle_contract I.is_clone I.is_infallible I.Error.from_gives I.contract) };

    /// Draws the current run once. At `Ok(None)` it clones the kept source. The clone is the current run then, and is drawn once, whatever comes. The kept source stays in each case.
    ///
    /// Requires: `next` may be called on each clone of the kept source.
    ///
    /// Memory: if the clone can't be allocated, the call fails with the failure converted from `AllocError`, and the run stays as drawn past its `Ok(None)`.
    fn next(&mut self) -> Result<Option<I::Item>, I::Error> {
        match self.it.next() {
            Ok(Some(x)) => Ok(Some(x)),
            Ok(None) => match self.kept.clone() {
                Ok(run) => {
                    self.it = run;
                    self.it.next()
                }
                Err(refused) => Err(I::Error::from(refused)),
            },
            Err(e) => Err(e),
        }
    }

    fn size_hint(&self) -> (usize, Option<usize>) {
        let (low, _) = self.kept.size_hint();
        if low == 0 {
            (0, None)
        } else {
            (usize::MAX, None)
        }
    }

    ghost lawful = { lawful_parts cycle_made
        (lawful_cycle I.is_clone I.is_infallible I.Error.from_gives I.lawful) };
}
