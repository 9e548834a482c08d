// The adapter that ends at the first item that a predicate rejects.
ghost use Rattle.std.specs.Prelude.{Result, Option};
ghost use Rattle.fallible_contract.specs.Contract.{parts_as};
ghost use Rattle.fallible_contract.specs.Closures.{call_by_reference, takes_by_reference};
ghost use Rattle.fallible_contract.specs.Laws.Contract.{lawful_parts};
ghost use Rattle.fallible_core.specs.Cutting.TakeWhile.{refusing_call, take_while_contract, take_while_outcome, take_while_made, take_while_parts};
ghost use Rattle.fallible_core.specs.Laws.Cutting.TakeWhile.{lawful_take_while};

use crate::passing::drive_passing;
use crate::traits::FallibleIterator;
use fallible_contract::folds::Turn;
use fallible_contract::passing::{Outcome, Pass, passed};

/// What the source yields up to the first item that the predicate rejects. That one is lost, and from there on each call returns `Ok(None)`. An item on which the predicate fails is lost, and its failure is yielded; neither it nor an `Ok(None)` of the source exhausts anything.
#[derive(Clone, Debug, Drop)]
pub struct TakeWhile<I, P> {
    pub(crate) it: I,
    // whether an item was rejected, and the predicate
    pub(crate) taking: (bool, P),
}

impl<I: FallibleIterator, P: FnMut(&I::Item) -> Result<bool, I::Error>> FallibleIterator
    for TakeWhile<I, P>
where
    I::Item: Drop,
{
    type Item = I::Item;

    type Error = I::Error;

    ghost contract = { parts_as take_while_parts (take_while_contract I.contract P.FnMut) };

    /// Draws once, and calls the predicate on an item; draws nothing once an item was rejected.
    fn next(&mut self) -> Result<Option<I::Item>, I::Error> {
        if self.taking.0 {
            return Ok(None);
        }
        passed(self.it.next(), &mut self.taking, &TakeWhilePass)
    }

    fn size_hint(&self) -> (usize, Option<usize>) {
        if self.taking.0 {
            (0, Some(0))
        } else {
            (0, self.it.size_hint().1)
        }
    }

    fn drive<C, R, K: Turn<C, I::Item, R>>(
        &mut self,
        state: &mut C,
        turn: &K,
    ) -> Result<Option<R>, I::Error> {
        if self.taking.0 {
            return Ok(None);
        }
        drive_passing(&mut self.it, &mut self.taking, &TakeWhilePass, state, turn)
    }

    ghost lawful = { lawful_parts take_while_made (lawful_take_while P.FnMut I.lawful) };
}

// An item that the predicate accepts; at one that it rejects the call returns `Ok(None)`. The flag beside the predicate says whether it rejected one.
#[derive(Drop)]
struct TakeWhilePass;

impl<X: Drop, E, P: FnMut(&X) -> Result<bool, E>> Pass<(bool, P), X, E> for TakeWhilePass {
    type Kept = X;

    type Answer = Result<bool, E>;

    ghost can_pass = { λ _ p x. takes_by_reference P.FnMut p.1 x };

    ghost call = { λ _ p x v q. refusing_call (call_by_reference P.FnMut) p x v q };

    ghost outcome = { λ _ x v. take_while_outcome x v };

    #[inline(always)]
    fn pass(&self, state: &mut (bool, P), item: X) -> Outcome<X, E> {
        match (state.1)(&item) {
            Ok(true) => Outcome::Kept(item),
            Ok(false) => {
                state.0 = true;
                Outcome::End
            }
            Err(e) => Outcome::Failure(e),
        }
    }
}
