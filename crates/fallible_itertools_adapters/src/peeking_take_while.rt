//! The adapter that leaves the first rejected item in the iterator that it borrows.
ghost use Rattle.std.specs.Prelude.{◌≡◌, Some, Result, Option};
ghost use Rattle.fallible_iterator.specs.Borrowed.{borrowed};
ghost use Rattle.fallible_iterator.specs.Clauses.{OverListWith};
ghost use Rattle.fallible_iterator.specs.Closures.{IsCallable, call_by_reference, takes_by_reference};
ghost use Rattle.fallible_iterator.specs.Contract.{parts_as, seen_as};
ghost use Rattle.fallible_iterator.specs.Laws.Contract.{lawful_parts};
ghost use Rattle.fallible_iterator.specs.Lists.{Acts, Lists, taken_while};
ghost use Rattle.fallible_iterator.specs.Peeking.Peekable.{held_item, peekable_held};
ghost use Rattle.fallible_itertools_adapters.specs.PeekingTakeWhile.{AcceptsHeld, LooksAhead, borrowed_looks, peekable_looks, peeking_closure, peeking_contract, peeking_made, peeking_parts, peeking_source, peeking_step};
ghost use Rattle.fallible_itertools_adapters.specs.Laws.PeekingTakeWhile.{looks_ahead_borrowed_looking, lawful_peeking, looks_ahead_peekable_looking};

use fallible_iterator::{FallibleIterator, Peekable};

/// An iterator whose next item can be looked at, and stays next then: a `Peekable`, and a borrowed one.
pub trait PeekingNext: FallibleIterator {
    // Holds of a value, of its next item, and of what a look at that item leaves.
    ghost looks: { Self → Self.Item → Self → Type 0 };

    /// For types that look ahead: as `next`, but the closure is called on an item first. If the closure rejects the item, it stays next, and the call returns `Ok(None)`. A caller uses `peeking_take_while`.
    ///
    /// It draws once, or looks ahead if the item is rejected. It fails as `next` does. If the closure fails, its failure is returned, and the item is lost. The iterator may be used again.
    ///
    /// Requires: `next` may be called, and the closure may be called on each item that may come, in each state that such calls bring it to.
    fn next_accepted<F>(&mut self, accept: &mut F) -> Result<Option<Self::Item>, Self::Error>
    where
        F: FnMut(&Self::Item) -> Result<bool, Self::Error>,
        requires can_next { Self.contract.can_next self.old }
        requires callable { IsCallable (call_by_reference F.FnMut) (takes_by_reference F.FnMut)
            (Self.contract.may_give self.old) accept.old }
        ensures { peeking_step Self.contract.steps looks (call_by_reference F.FnMut)
            (self.old, accept.old) result (self.new, accept.new) };

    // What a look keeps, and that the item comes next as it would have come.
    ghost looking: { LooksAhead Self.contract looks };

    /// Yields the items up to the first one that the closure rejects, which stays next in this iterator.
    ///
    /// Creating it draws nothing and calls nothing. `next` draws once. It fails as this iterator does. If the closure fails, its failure is yielded, and the item is lost. A call at a rejected item returns `Ok(None)`, and the next call calls the closure on the same item again. A failure and an `Ok(None)` of this iterator pass, and exhaust nothing.
    ///
    /// This iterator goes on with what is left: the rejected item comes next, also for `peek`.
    ///
    /// Requires: the closure may be called on each item that may come, in each state that such calls bring it to.
    ///
    /// ```
    /// let mut it = convert([Ok::<u32, u8>(150), Ok(7), Ok(700)].into_iter()).peekable();
    /// let above = it.peeking_take_while(|reading| Ok(*reading > 100)).count();
    /// assert_eq!(rt; above, Ok(1));
    /// assert_eq!(rt; it.next(), Ok(Some(7)));
    /// ```
    final fn peeking_take_while<F>(&mut self, accept: F) -> PeekingTakeWhile<&mut Self, F>
    where
        F: FnMut(&Self::Item) -> Result<bool, Self::Error>,
        requires { IsCallable (call_by_reference F.FnMut) (takes_by_reference F.FnMut)
            (Self.contract.may_give self.old) accept }
        ensures source { (peeking_source result).now ≡ self.old }
        ensures same_reference { (peeking_source result).ghost_name ≡ self.entry.ghost_name }
        ensures closure { peeking_closure result ≡ accept }
        ensures lists { OverListWith (Acts (call_by_reference F.FnMut) accept) Self.contract.steps self.old
            (λ h l. Lists (seen_as peeking_parts (peeking_contract (borrowed Self.contract)
            (borrowed_looks looks) F.FnMut)).steps result (taken_while h l)) }
    {
        PeekingTakeWhile { it: self, accept }
    }
}

impl<I: FallibleIterator> PeekingNext for Peekable<I>
where
    I::Item: Drop,
{
    ghost looks = { peekable_looks I.contract.steps };

    fn next_accepted<F>(&mut self, accept: &mut F) -> Result<Option<I::Item>, I::Error>
    where
        F: FnMut(&I::Item) -> Result<bool, I::Error>,
    {
        match self.fill() {
            Ok(()) => {}
            Err(e) => return Err(e),
        }
        match none_held_or_accepts(&*self, accept) {
            Ok(true) => self.next(),
            Ok(false) => Ok(None),
            Err(e) => match self.next() {
                Ok(_) => Err(e),
                Err(_) => unreachable!(),
            },
        }
    }

    ghost looking = { looks_ahead_peekable_looking I.lawful };
}

// What the closure returns on the buffered item, and true if none is buffered.
fn none_held_or_accepts<I: FallibleIterator, F: FnMut(&I::Item) -> Result<bool, I::Error>>(
    it: &Peekable<I>,
    accept: &mut F,
) -> Result<bool, I::Error>
where
    I::Item: Drop,
    requires { (x : I.Item) → held_item (peekable_held it.now) ≡ Some x
        → takes_by_reference F.FnMut accept.old x }
    ensures { AcceptsHeld (call_by_reference F.FnMut) (held_item (peekable_held it.now))
        accept.old result accept.new }
{
    match it.held() {
        Some(item) => accept(item),
        None => Ok(true),
    }
}

impl<P: PeekingNext> PeekingNext for &mut P {
    ghost looks = { borrowed_looks P.looks };

    fn next_accepted<F>(&mut self, accept: &mut F) -> Result<Option<P::Item>, P::Error>
    where
        F: FnMut(&P::Item) -> Result<bool, P::Error>,
    {
        (**self).next_accepted(accept)
    }

    ghost looking = { looks_ahead_borrowed_looking P.looking };
}

/// The items of what looks ahead up to the first one that the closure rejects, which stays next. A call there returns `Ok(None)`, and the next call calls the closure on the same item again. An item on which the closure fails is lost, and its failure is yielded.
#[derive(Clone, Debug, Drop)]
pub struct PeekingTakeWhile<P, F> {
    pub(crate) it: P,
    pub(crate) accept: F,
}

impl<P: PeekingNext, F: FnMut(&P::Item) -> Result<bool, P::Error>> FallibleIterator
    for PeekingTakeWhile<P, F> {
    type Item = P::Item;

    type Error = P::Error;

    ghost contract = { parts_as peeking_parts (peeking_contract P.contract P.looks F.FnMut) };

    /// Draws once, and calls the closure on an item; a rejected item stays next. Folds are made of such draws: a fold of the source would drop the rejected item.
    fn next(&mut self) -> Result<Option<P::Item>, P::Error> {
        self.it.next_accepted(&mut self.accept)
    }

    fn size_hint(&self) -> (usize, Option<usize>) {
        (0, self.it.size_hint().1)
    }

    ghost lawful = { lawful_parts peeking_made (lawful_peeking F.FnMut P.lawful P.looking) };
}
