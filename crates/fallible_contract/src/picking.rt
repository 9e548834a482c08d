//! The best of the items: the turns of the folds that keep the better of two.
ghost use Rattle.std.specs.Prelude.{◌≡◌};
ghost use Rattle.fallible_contract.specs.Closures.{call_by_reference, takes_by_reference};
ghost use Rattle.fallible_contract.specs.Folds.{IsFoldTurn};
ghost use Rattle.fallible_contract.specs.Picking.{same_order, call_at_two, takes_at_two, PickCall, takes_in_pick, KeyCall, item_of};
ghost use Rattle.std.specs.declared.cmp.Ordering.{Ordering};

use crate::folds::Turn;
use std::cmp::Ordering;
use std::ops::ControlFlow;

// Whether the best so far stays the best, if it compares so with the next item.
fn stays_best(keeps: Ordering, order: Ordering) -> bool
    ensures { result ≡ same_order keeps order }
{
    match keeps {
        Ordering::Less => matches!(order, Ordering::Less),
        Ordering::Equal => matches!(order, Ordering::Equal),
        Ordering::Greater => matches!(order, Ordering::Greater),
    }
}

/// The turn of a fold that keeps the best item by a closure that compares two. Its state is the best so far, if there is one, and the closure.
#[derive(Drop)]
pub struct BestTurn {
    /// how the best so far compares with an item that it stays before
    pub keeps: Ordering,
}

impl<A: Drop, E, F: FnMut(&A, &A) -> Result<Ordering, E>> Turn<(Option<A>, F), A, E> for BestTurn {
    ghost can_turn = { λ _ p x. takes_in_pick (takes_at_two F.FnMut) p.1 p.0 x };

    ghost turns = { λ k p x r q. IsFoldTurn (PickCall k.keeps (call_at_two F.FnMut)) p x r q };

    /// Takes the first item without a call; then it calls the closure once.
    #[inline(always)]
    fn turn(&self, state: &mut (Option<A>, F), item: A) -> ControlFlow<E, ()> {
        let best = match state.0.take() {
            Some(best) => match (state.1)(&best, &item) {
                Ok(order) => {
                    if stays_best(self.keeps, order) {
                        best
                    } else {
                        item
                    }
                }
                Err(e) => return ControlFlow::Break(e),
            },
            None => item,
        };
        state.0 = Some(best);
        ControlFlow::Continue(())
    }
}

/// The turn of a fold that keeps the item with the best key. Its state is that item with its key, if there is one, and the closure.
#[derive(Drop)]
pub struct BestKeyTurn {
    /// how the best key so far compares with a key that it stays before
    pub keeps: Ordering,
}

impl<A: Drop, E, K: Ord + Drop, F: FnMut(&A) -> Result<K, E>> Turn<(Option<(K, A)>, F), A, E>
    for BestKeyTurn {
    ghost can_turn = { λ _ p x. takes_by_reference F.FnMut p.1 x };

    ghost turns = { λ k p x r q. IsFoldTurn (KeyCall k.keeps K.cmp (call_by_reference F.FnMut)) p x r q };

    /// Calls the closure once for the key, and compares it with the best so far.
    #[inline(always)]
    fn turn(&self, state: &mut (Option<(K, A)>, F), item: A) -> ControlFlow<E, ()> {
        let key = match (state.1)(&item) {
            Ok(key) => key,
            Err(e) => return ControlFlow::Break(e),
        };
        let best = match state.0.take() {
            Some(best) => {
                if stays_best(self.keeps, best.0.cmp(&key)) {
                    best
                } else {
                    (key, item)
                }
            }
            None => (key, item),
        };
        state.0 = Some(best);
        ControlFlow::Continue(())
    }
}

/// The item of the pair, if there is one.
pub fn without_key<A, E, K: Drop>(best: Result<Option<(K, A)>, E>) -> Result<Option<A>, E>
    ensures { result ≡ item_of best }
{
    match best? {
        Some((_, x)) => Ok(Some(x)),
        None => Ok(None),
    }
}
