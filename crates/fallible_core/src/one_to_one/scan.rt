// The adapter that calls a closure on a state and each item.
ghost use Rattle.std.specs.Prelude.{Some, Result, Option};
ghost use Rattle.fallible_contract.specs.Contract.{parts_as};
ghost use Rattle.fallible_contract.specs.Laws.Contract.{lawful_parts};
ghost use Rattle.fallible_core.specs.OneToOne.Scan.{scan_call, scan_takes, scan_outcome, scan_contract, scan_made, scan_parts};
ghost use Rattle.fallible_core.specs.Laws.OneToOne.Scan.{lawful_scan};

use crate::passing::drive_passing;
use crate::traits::FallibleIterator;
use fallible_contract::folds::Turn;
use fallible_contract::passing::{Outcome, Pass, passed};

/// What the closure returns for the state and each item. Where that is `None`, the adapter returns `Ok(None)`, and the next call draws again. If the closure fails, its failure is yielded, and the item is lost.
#[derive(Clone, Debug, Drop)]
pub struct Scan<I, St, F> {
    pub(crate) it: I,
    // the state, and the closure
    pub(crate) scanning: (St, F),
}

impl<
    I: FallibleIterator,
    St: Drop,
    B,
    F: FnMut(&mut St, I::Item) -> Result<Option<B>, I::Error>,
> FallibleIterator for Scan<I, St, F> {
    type Item = B;

    type Error = I::Error;

    ghost contract = { parts_as scan_parts (scan_contract I.contract F.FnMut) };

    /// Draws once, and calls the closure on an item.
    fn next(&mut self) -> Result<Option<B>, I::Error> {
        passed(self.it.next(), &mut self.scanning, &ScanPass)
    }

    fn size_hint(&self) -> (usize, Option<usize>) {
        (0, self.it.size_hint().1)
    }

    fn drive<C, R, K: Turn<C, B, R>>(
        &mut self,
        state: &mut C,
        turn: &K,
    ) -> Result<Option<R>, I::Error> {
        drive_passing(&mut self.it, &mut self.scanning, &ScanPass, state, turn)
    }

    ghost lawful = { lawful_parts scan_made (lawful_scan F.FnMut I.lawful) };
}

// What the closure makes of the state and an item.
#[derive(Drop)]
struct ScanPass;

impl<X, St, B, E, F: FnMut(&mut St, X) -> Result<Option<B>, E>> Pass<(St, F), X, E> for ScanPass {
    type Kept = B;

    type Answer = Result<Option<B>, E>;

    ghost can_pass = { λ _ p x. scan_takes F.FnMut p x };

    ghost call = { λ _ p x v q. scan_call F.FnMut p x v q };

    ghost outcome = { λ _ x v. scan_outcome x v };

    #[inline(always)]
    fn pass(&self, state: &mut (St, F), item: X) -> Outcome<B, E> {
        match (state.1)(&mut state.0, item) {
            Ok(Some(y)) => Outcome::Kept(y),
            Ok(None) => Outcome::End,
            Err(e) => Outcome::Failure(e),
        }
    }
}
