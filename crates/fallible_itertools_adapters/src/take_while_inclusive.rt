//! The adapter that ends after the first item that a predicate rejects.
ghost use Rattle.std.specs.Prelude.{Result, Option, None, ◌≡◌};
ghost use Rattle.fallible_iterator.specs.Closures.{call_by_reference};
ghost use Rattle.fallible_iterator.specs.Contract.{parts_as};
ghost use Rattle.fallible_iterator.specs.Laws.Contract.{lawful_parts};
ghost use Rattle.fallible_itertools_adapters.specs.Laws.TakeWhileInclusive.{is_stage_inclusive, lawful_inclusive};
ghost use Rattle.fallible_itertools_adapters.specs.TakeWhileInclusive.{inclusive_contract, inclusive_made, inclusive_parts, inclusive_rule};

use crate::staging::{
    AnswerAndDue, Emitted, Stage, Stop, drive_stage, next_stage, one, one_then, stop_answer,
};
use fallible_iterator::{FallibleIterator, Turn};

/// What the source returns up to the first item that the predicate rejects, and that one too. Then each call returns `Ok(None)`. An item on which the predicate fails is lost, and its failure is yielded; neither it nor an `Ok(None)` of the source exhausts anything.
#[derive(Clone, Debug, Drop)]
pub struct TakeWhileInclusive<I, P> {
    pub(crate) it: I,
    // the predicate, and once an item was rejected, ends without draws
    pub(crate) stage: (((), P), Option<()>),
}

impl<I, P> TakeWhileInclusive<I, P> {
    /// Creates it. It draws nothing.
    #[inline(always)]
    pub fn new(it: I, predicate: P) -> TakeWhileInclusive<I, P>
        ensures { inclusive_parts result ≡ (it, ((tt, predicate), None)) }
    {
        TakeWhileInclusive {
            it,
            stage: (((), predicate), None),
        }
    }
}

impl<I: FallibleIterator, P: FnMut(&I::Item) -> Result<bool, I::Error>> FallibleIterator
    for TakeWhileInclusive<I, P>
where
    I::Item: Drop,
{
    type Item = I::Item;

    type Error = I::Error;

    ghost contract = { parts_as inclusive_parts (inclusive_contract P.FnMut I.contract) };

    /// Draws once, and calls the predicate on an item; draws nothing once an item was rejected.
    fn next(&mut self) -> Result<Option<I::Item>, I::Error> {
        next_stage(&mut self.it, &mut self.stage, &InclusiveStage)
    }

    fn size_hint(&self) -> (usize, Option<usize>) {
        if self.stage.1.is_some() {
            (0, Some(0))
        } else {
            let (low, high) = self.it.size_hint();
            (low.min(1), high)
        }
    }

    /// The source's fold, which stops after the rejected item.
    fn drive<C, R, K: Turn<C, I::Item, R>>(
        &mut self,
        state: &mut C,
        turn: &K,
    ) -> Result<Option<R>, I::Error> {
        drive_stage(&mut self.it, &mut self.stage, &InclusiveStage, state, turn)
    }

    ghost lawful = { lawful_parts inclusive_made (lawful_inclusive P.FnMut I.lawful) };
}

// Nothing is drawn after an item that the predicate rejects.
#[derive(Drop)]
struct InclusiveStage;

impl<X: Drop, E, P: FnMut(&X) -> Result<bool, E>> Stage<((), P), X, E> for InclusiveStage {
    type Kept = X;

    type Due = ();

    ghost rule = { inclusive_rule P.FnMut };

    #[inline(always)]
    fn on_item(&self, p: &mut ((), P), item: X) -> Emitted<X, (), E> {
        match (p.1)(&item) {
            Ok(true) => one(Ok(Some(item))),
            Ok(false) => one_then(Ok(Some(item)), ()),
            Err(e) => one(Err(e)),
        }
    }

    #[inline(always)]
    fn on_stop(&self, _p: &mut ((), P), stop: Stop<E>) -> Emitted<X, (), E>
        ensures { (inclusive_rule P.FnMut).stops _p.old stop result _p.new }
    {
        one(stop_answer(stop))
    }

    #[inline(always)]
    fn answer_due(&self, due: ()) -> AnswerAndDue<X, (), E> {
        (Ok(None), Some(due))
    }

    ghost is_stage = { is_stage_inclusive (call_by_reference P.FnMut) };
}
