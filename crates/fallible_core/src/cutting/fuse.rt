// The adapter that is exhausted at the first `Ok(None)`.
ghost use Rattle.std.specs.Prelude.{Result, Option};
ghost use Rattle.fallible_contract.specs.Contract.{parts_as};
ghost use Rattle.fallible_contract.specs.Laws.Contract.{lawful_parts};
ghost use Rattle.fallible_core.specs.Cutting.Fuse.{fuse_contract, fuse_made, fuse_parts};
ghost use Rattle.fallible_core.specs.Laws.Cutting.Fuse.{lawful_fuse};

use crate::traits::FallibleIterator;
use fallible_contract::folds::Turn;
use fallible_contract::goals::Goal;

/// What the source yields up to its first `Ok(None)`. From there on each call returns `Ok(None)`. A failure exhausts nothing.
#[derive(Clone, Debug, Drop)]
pub struct Fuse<I> {
    pub(crate) it: I,
    // whether the source returned `Ok(None)`
    pub(crate) ended: bool,
}

impl<I: FallibleIterator> FallibleIterator for Fuse<I> {
    type Item = I::Item;

    type Error = I::Error;

    ghost contract = { parts_as fuse_parts (fuse_contract I.contract) };

    /// Draws once, and nothing once the source returned `Ok(None)`.
    fn next(&mut self) -> Result<Option<I::Item>, I::Error> {
        if self.ended {
            return Ok(None);
        }
        match self.it.next()? {
            Some(x) => Ok(Some(x)),
            None => {
                self.ended = true;
                Ok(None)
            }
        }
    }

    fn size_hint(&self) -> (usize, Option<usize>) {
        if self.ended {
            (0, Some(0))
        } else {
            self.it.size_hint()
        }
    }

    fn drive<C, R, K: Turn<C, I::Item, R>>(
        &mut self,
        state: &mut C,
        turn: &K,
    ) -> Result<Option<R>, I::Error> {
        let Fuse { it, ended } = self;
        if *ended {
            return Ok(None);
        }
        match it.drive(state, turn) {
            Ok(Some(stop)) => Ok(Some(stop)),
            Ok(None) => {
                *ended = true;
                Ok(None)
            }
            Err(e) => Err(e),
        }
    }

    /// What the source makes of the goal, and nothing once it returned `Ok(None)`. That exhausts the adapter; a failure doesn't.
    fn drive_to(&mut self, goal: &mut Goal<I::Item>) -> Result<Option<I::Item>, I::Error>
    where
        I::Item: Drop,
    {
        let Fuse { it, ended } = self;
        if *ended {
            return Ok(None);
        }
        match it.drive_to(goal) {
            Ok(Some(x)) => Ok(Some(x)),
            Ok(None) => {
                *ended = true;
                Ok(None)
            }
            Err(e) => Err(e),
        }
    }

    ghost lawful = { lawful_parts fuse_made (lawful_fuse I.lawful) };
}
