// The adapters that yield items two by two: each item once, or each beside the next.
ghost use Rattle.std.specs.Prelude.{◌≡◌, ⊤, Option, Result, None};
ghost use Rattle.fallible_iterator.specs.Contract.{parts_as};
ghost use Rattle.fallible_iterator.specs.Passing.{IfItem, passing_step};
ghost use Rattle.fallible_iterator.specs.Laws.Contract.{lawful_parts};
ghost use Rattle.fallible_itertools_adapters.specs.Tuples.{LeavesOneOut, PassedOrLeftOut, items_before_pair, tuple_windows_contract, tuple_windows_made, tuple_windows_parts, tuples_asks, tuples_contract, tuples_made, tuples_parts, window_at, windows_asks};
ghost use Rattle.fallible_itertools_adapters.specs.Laws.Tuples.{lawful_tuple_windows, lawful_tuples};

use fallible_iterator::extending::{Outcome, Pass, drive_passing, kept};
use fallible_iterator::{FallibleIterator, Turn};
use std::alloc::AllocError;

/// The items two by two, as pairs: each item stands in one pair. The first of a pair is buffered until the second comes, over failures and `Ok(None)` too.
#[derive(Clone, Debug, Drop)]
pub struct Tuples<I: FallibleIterator> {
    pub(crate) it: I,
    // the first item of a pair
    pub(crate) held: Option<I::Item>,
}

impl<I: FallibleIterator> Tuples<I> {
    /// Creates it. It draws nothing.
    #[inline(always)]
    pub fn new(it: I) -> Tuples<I>
        ensures { tuples_parts result ≡ (it, None) }
    {
        Tuples { it, held: None }
    }
}

impl<I: FallibleIterator> FallibleIterator for Tuples<I>
where
    I::Item: Drop,
{
    type Item = (I::Item, I::Item);

    type Error = I::Error;

    ghost contract = { parts_as tuples_parts (tuples_contract I.contract) };

    /// Draws once if an item is buffered, and otherwise until a second item, a failure or an `Ok(None)` comes.
    fn next(&mut self) -> Result<Option<(I::Item, I::Item)>, I::Error> {
        next_of_two(&mut self.it, &mut self.held, &TuplePass)
    }

    fn size_hint(&self) -> (usize, Option<usize>) {
        let first = if self.held.is_some() { 0 } else { 1 };
        kept(self.it.size_hint(), 1, first)
    }

    fn drive<C, R, K: Turn<C, (I::Item, I::Item), R>>(
        &mut self,
        state: &mut C,
        turn: &K,
    ) -> Result<Option<R>, I::Error> {
        drive_passing(&mut self.it, &mut self.held, &TuplePass, state, turn)
    }

    ghost lawful = { lawful_parts tuples_made (lawful_tuples I.lawful) };
}

// An item is held, or yielded beside the one that is.
#[derive(Drop)]
struct TuplePass;

impl<X: Drop, E> Pass<Option<X>, X, E> for TuplePass {
    type Kept = (X, X);

    type Answer = Outcome<(X, X), E>;

    ghost can_pass = { λ _ p x. ⊤ };

    ghost call = { λ _ p x o q. tuples_asks p x o q };

    ghost outcome = { λ _ _ o. o };

    #[inline(always)]
    fn pass(&self, held: &mut Option<X>, item: X) -> Outcome<(X, X), E> {
        match held.take() {
            Some(first) => Outcome::Kept((first, item)),
            None => {
                *held = Some(item);
                Outcome::LeftOut
            }
        }
    }
}

/// Each two adjacent items, as pairs. The last item is buffered, and the pair has a clone of it.
#[derive(Clone, Debug, Drop)]
pub struct TupleWindows<I: FallibleIterator> {
    pub(crate) it: I,
    // the last item
    pub(crate) held: Option<I::Item>,
}

impl<I: FallibleIterator> TupleWindows<I> {
    /// Creates it. It draws nothing.
    #[inline(always)]
    pub fn new(it: I) -> TupleWindows<I>
        ensures { tuple_windows_parts result ≡ (it, None) }
    {
        TupleWindows { it, held: None }
    }
}

impl<I: FallibleIterator> FallibleIterator for TupleWindows<I>
where
    I::Item: Clone + Drop,
    I::Error: From<AllocError>,
{
    type Item = (I::Item, I::Item);

    type Error = I::Error;

    ghost contract = { parts_as tuple_windows_parts
        (tuple_windows_contract I.Item.is_clone I.Item.is_infallible I.Error.from_gives
        I.contract) };

    /// Draws once if an item is buffered, and otherwise until a second item, a failure or an `Ok(None)` comes.
    fn next(&mut self) -> Result<Option<(I::Item, I::Item)>, I::Error> {
        next_of_two(&mut self.it, &mut self.held, &WindowPass)
    }

    fn size_hint(&self) -> (usize, Option<usize>) {
        let (low, high) = self.it.size_hint();
        if self.held.is_some() {
            (low, high)
        } else {
            (
                low.saturating_sub(1),
                high.map(|high| high.saturating_sub(1)),
            )
        }
    }

    fn drive<C, R, K: Turn<C, (I::Item, I::Item), R>>(
        &mut self,
        state: &mut C,
        turn: &K,
    ) -> Result<Option<R>, I::Error> {
        drive_passing(&mut self.it, &mut self.held, &WindowPass, state, turn)
    }

    ghost lawful = { lawful_parts tuple_windows_made
        (lawful_tuple_windows I.Item.is_clone I.Item.is_infallible I.Error.from_gives I.lawful) };
}

// An item after the one before it.
#[derive(Drop)]
struct WindowPass;

impl<X: Clone + Drop, E: From<AllocError>> Pass<Option<X>, X, E> for WindowPass {
    type Kept = (X, X);

    type Answer = Outcome<(X, X), E>;

    ghost can_pass = { λ _ p x. ⊤ };

    ghost call = { λ _ p x o q. windows_asks X.is_clone X.is_infallible E.from_gives p x o q };

    ghost outcome = { λ _ _ o. o };

    #[inline(always)]
    fn pass(&self, held: &mut Option<X>, item: X) -> Outcome<(X, X), E> {
        match held.take() {
            Some(before) => pair(held, before, item),
            None => {
                *held = Some(item);
                Outcome::LeftOut
            }
        }
    }
}

// One answer of what leaves out at most one item before another.
fn next_of_two<I: FallibleIterator, P, G: Pass<P, I::Item, I::Error>>(
    it: &mut I,
    held: &mut P,
    adapter: &G,
) -> Result<Option<G::Kept>, I::Error>
where
    requires can_next { I.contract.can_next it.old }
    requires takes { (p : P) (x : I.Item) → G.can_pass adapter.now p x }
    requires leaves { LeavesOneOut (G.call adapter.now) (G.outcome adapter.now) }
    ensures { passing_step I.contract.steps (G.call adapter.now) (G.outcome adapter.now)
        (it.old, held.old) result (it.new, held.new) }
{
    match answer_of(it.draw(), held, adapter) {
        Some(answer) => answer,
        None => match answer_of(it.next(), held, adapter) {
            Some(answer) => answer,
            None => unreachable!(),
        },
    }
}

// What comes of one answer of the source: nothing of an item that is left out.
#[inline(always)]
fn answer_of<P, X, E, G: Pass<P, X, E>>(
    drawn: Result<Option<X>, E>,
    held: &mut P,
    adapter: &G,
) -> Option<Result<Option<G::Kept>, E>>
    requires { IfItem (G.can_pass adapter.now held.old) drawn }
    ensures { PassedOrLeftOut (G.call adapter.now) (G.outcome adapter.now) held.old drawn result
        held.new }
{
    match drawn {
        Ok(Some(x)) => match adapter.pass(held, x) {
            Outcome::Kept(y) => Some(Ok(Some(y))),
            Outcome::LeftOut => None,
            Outcome::Failure(e) => Some(Err(e)),
            Outcome::End => Some(Ok(None)),
        },
        Ok(None) => Some(Ok(None)),
        Err(e) => Some(Err(e)),
    }
}

// Both items, the later one as a clone. The later one is buffered then, also if its clone fails.
fn pair<X: Clone + Drop, E: From<AllocError>>(
    holds: &mut Option<X>,
    y: X,
    x: X,
) -> Outcome<(X, X), E>
    ensures { window_at X.is_clone X.is_infallible E.from_gives y x result holds.new }
{
    match x.clone() {
        Ok(copy) => {
            *holds = Some(x);
            Outcome::Kept((y, copy))
        }
        Err(refused) => {
            *holds = Some(x);
            Outcome::Failure(E::from(refused))
        }
    }
}
