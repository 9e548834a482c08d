//! The adapter that numbers what its source yields, and tells each failure's number.
ghost use Rattle.std.specs.Prelude.{Result, Option, ⊤, ◌≡◌};
ghost use Rattle.fallible_iterator.specs.Contract.{parts_as};
ghost use Rattle.fallible_iterator.specs.Laws.Contract.{lawful_parts};
ghost use Rattle.fallible_itertools.specs.WithIndex.{count_call, count_outcome, index_call, index_takes, pair_call, with_index_contract, with_index_made, with_index_parts};
ghost use Rattle.fallible_itertools.specs.Laws.WithIndex.{lawful_with_index};

use fallible_iterator::extending::{Fail, Outcome, Pass, drive_passing, failed, passed};
use fallible_iterator::{FallibleIterator, Turn};

/// The source with each failure replaced by what the closure returns for it and its index: how many items and failures came before it, or `usize::MAX` if they are more. Items and `Ok(None)` pass.
#[derive(Clone, Debug, Drop)]
pub struct MapErrWithIndex<I, F> {
    pub(crate) it: I,
    // the index of what comes next
    pub(crate) index: usize,
    pub(crate) f: F,
}

impl<I, F> MapErrWithIndex<I, F> {
    /// Creates it. It draws nothing.
    #[inline(always)]
    pub fn new(it: I, f: F) -> MapErrWithIndex<I, F>
        ensures { with_index_parts result ≡ ((it, 0), f) }
    {
        MapErrWithIndex { it, index: 0, f }
    }
}

impl<I: FallibleIterator, B, F: FnMut(usize, I::Error) -> B> FallibleIterator
    for MapErrWithIndex<I, F> {
    type Item = I::Item;

    type Error = B;

    ghost contract = { parts_as with_index_parts (with_index_contract I.contract F.FnMut) };

    /// Draws once, counts an item or a failure, and calls the closure if a failure came.
    fn next(&mut self) -> Result<Option<I::Item>, B> {
        let drawn = passed(self.it.next(), &mut self.index, &CountPass);
        let beside = failed(drawn, &mut self.index, &PairFail);
        failed(beside, &mut self.f, &IndexFail)
    }

    fn size_hint(&self) -> (usize, Option<usize>) {
        self.it.size_hint()
    }

    /// The source's fold, which counts each item that the source yields, and the closure's call on the failure that it met.
    fn drive<C, R, K: Turn<C, I::Item, R>>(
        &mut self,
        state: &mut C,
        turn: &K,
    ) -> Result<Option<R>, B> {
        let met = drive_passing(&mut self.it, &mut self.index, &CountPass, state, turn);
        let beside = failed(met, &mut self.index, &PairFail);
        failed(beside, &mut self.f, &IndexFail)
    }

    ghost lawful = { lawful_parts with_index_made (lawful_with_index F.FnMut I.lawful) };
}

// An item as it is, counted. Its state is the index of what comes next.
#[derive(Drop)]
struct CountPass;

impl<X, E> Pass<usize, X, E> for CountPass {
    type Kept = X;

    type Answer = ();

    ghost can_pass = { λ _ n x. ⊤ };

    ghost call = { λ _ n x v k. count_call n x v k };

    ghost outcome = { λ _ x v. count_outcome x v };

    #[inline(always)]
    fn pass(&self, state: &mut usize, item: X) -> Outcome<X, E> {
        *state = (*state).saturating_add(1);
        Outcome::Kept(item)
    }
}

// A failure beside its index, counted.
#[derive(Drop)]
struct PairFail;

impl<D> Fail<usize, D> for PairFail {
    type Failure = (usize, D);

    ghost can_fail = { λ _ n d. ⊤ };

    ghost call = { λ _ n d e k. pair_call n d e k };

    #[inline(always)]
    fn fail(&self, state: &mut usize, failure: D) -> (usize, D) {
        let index = *state;
        *state = index.saturating_add(1);
        (index, failure)
    }
}

// What the closure returns for a failure beside its index.
#[derive(Drop)]
struct IndexFail;

impl<D, E, F: FnMut(usize, D) -> E> Fail<F, (usize, D)> for IndexFail {
    type Failure = E;

    ghost can_fail = { λ _ f p. index_takes F.FnMut f p };

    ghost call = { λ _ f p e g. index_call F.FnMut f p e g };

    #[inline(always)]
    fn fail(&self, state: &mut F, failure: (usize, D)) -> E {
        state(failure.0, failure.1)
    }
}
