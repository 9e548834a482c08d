// The adapters that put a separator between each two adjacent items.
ghost use Rattle.std.specs.Prelude.{◌≡◌, ◌^◌, ◌-◌, min, Option, Result, Some, None, false};
ghost use Rattle.fallible_iterator.specs.Contract.{parts_as};
ghost use Rattle.fallible_iterator.specs.Lists.{result_answer};
ghost use Rattle.fallible_iterator.specs.Sources.FromFn.{call_of_none};
ghost use Rattle.fallible_iterator.specs.Laws.Contract.{lawful_parts};
ghost use Rattle.fallible_itertools_adapters.specs.Intersperse.{fitting, intersperse_contract, intersperse_hint, intersperse_made, intersperse_parts, intersperse_with_contract, intersperse_with_made, intersperse_with_parts, interspersed_items, separator_cloned, intersperse_rule, intersperse_with_rule};
ghost use Rattle.fallible_itertools_adapters.specs.Laws.Intersperse.{is_stage_intersperse, lawful_intersperse, lawful_intersperse_with};

use crate::staging::{
    AnswerAndDue, Emitted, Stage, Stop, drive_stage, next_stage, one, one_then, stop_answer,
};
use fallible_iterator::{FallibleIterator, Turn};
use std::alloc::AllocError;

/// The items of the source with a clone of the separator between each two adjacent ones. An item that was drawn is buffered while the separator before it is yielded.
#[derive(Clone, Debug, Drop)]
pub struct Intersperse<I: FallibleIterator> {
    pub(crate) it: I,
    // whether an item came and the separator, and the buffered item
    pub(crate) stage: ((bool, I::Item), Option<I::Item>),
}

impl<I: FallibleIterator> Intersperse<I> {
    /// Creates it. It draws nothing.
    #[inline(always)]
    pub fn new(it: I, separator: I::Item) -> Intersperse<I>
        ensures { intersperse_parts result ≡ (it, ((false, separator), None)) }
    {
        Intersperse {
            it,
            stage: ((false, separator), None),
        }
    }
}

impl<I: FallibleIterator> FallibleIterator for Intersperse<I>
where
    I::Item: Clone + Drop,
    I::Error: From<AllocError>,
{
    type Item = I::Item;

    type Error = I::Error;

    ghost contract = { parts_as intersperse_parts
        (intersperse_contract I.Item.is_clone I.Item.is_infallible I.Error.from_gives
        I.contract) };

    /// Yields the buffered item without a draw, and draws once if none is buffered.
    fn next(&mut self) -> Result<Option<I::Item>, I::Error> {
        next_stage(&mut self.it, &mut self.stage, &SeparatorClone)
    }

    /// The turn on the buffered item, and then the source's fold, whose turn is one on what stands before the item and one on the item.
    fn drive<C, R, K: Turn<C, I::Item, R>>(
        &mut self,
        state: &mut C,
        turn: &K,
    ) -> Result<Option<R>, I::Error> {
        drive_stage(&mut self.it, &mut self.stage, &SeparatorClone, state, turn)
    }

    fn size_hint(&self) -> (usize, Option<usize>) {
        hint_parting(self.it.size_hint(), &self.stage)
    }

    ghost lawful = { lawful_parts intersperse_made
        (lawful_intersperse I.Item.is_clone I.Item.is_infallible I.Error.from_gives I.lawful) };
}

// Each separator is a clone of the first.
#[derive(Drop)]
struct SeparatorClone;

impl<X: Clone + Drop, E: From<AllocError>> Stage<(bool, X), X, E> for SeparatorClone {
    type Kept = X;

    type Due = X;

    ghost rule = { intersperse_rule (separator_cloned X.is_clone X.is_infallible E.from_gives) };

    #[inline(always)]
    fn on_item(&self, p: &mut (bool, X), item: X) -> Emitted<X, X, E> {
        if p.0 {
            match p.1.clone() {
                Ok(copy) => separated(Ok(copy), item),
                Err(refused) => separated(Err(E::from(refused)), item),
            }
        } else {
            p.0 = true;
            one(Ok(Some(item)))
        }
    }

    #[inline(always)]
    fn on_stop(&self, _p: &mut (bool, X), stop: Stop<E>) -> Emitted<X, X, E>
        ensures { (intersperse_rule (separator_cloned X.is_clone X.is_infallible E.from_gives)).stops _p.old stop result _p.new }
    {
        one(stop_answer(stop))
    }

    #[inline(always)]
    fn answer_due(&self, due: X) -> AnswerAndDue<X, X, E> {
        (Ok(Some(due)), None)
    }

    ghost is_stage = { is_stage_intersperse
        (separator_cloned X.is_clone X.is_infallible E.from_gives) };
}

/// The separator, or what making it failed with, and then the item.
#[inline(always)]
pub(crate) fn separated<X, E>(separator: Result<X, E>, item: X) -> Emitted<X, X, E>
    ensures { result ≡ Some (result_answer separator, Some item) }
{
    match separator {
        Ok(separator) => one_then(Ok(Some(separator)), item),
        Err(e) => one_then(Err(e), item),
    }
}

/// How many items come of as many of the source as the hint says.
pub(crate) fn hint_parting<Z, X>(
    hint: (usize, Option<usize>),
    stage: &((bool, Z), Option<X>),
) -> (usize, Option<usize>)
    ensures { result ≡ intersperse_hint stage.now.0.0 stage.now.1 hint }
{
    let (low, high) = hint;
    (
        items_at_least(low, stage),
        high.and_then(|high| items_at_most(high, stage)),
    )
}

// How many items come of so many items of the source, at most `usize::MAX`.
fn items_at_least<Z, X>(low: usize, stage: &((bool, Z), Option<X>)) -> usize
    ensures { result ≡ min (interspersed_items stage.now.0.0 stage.now.1 low) (2 ^ 64 - 1) }
{
    let separators = if stage.0.0 {
        low
    } else {
        low.saturating_sub(1)
    };
    let items = low.saturating_add(separators);
    if stage.1.is_some() {
        items.saturating_add(1)
    } else {
        items
    }
}

// How many items come of so many items of the source, if that fits.
fn items_at_most<Z, X>(high: usize, stage: &((bool, Z), Option<X>)) -> Option<usize>
    ensures { result ≡ fitting (interspersed_items stage.now.0.0 stage.now.1 high) }
{
    let separators = if stage.0.0 {
        high
    } else {
        high.saturating_sub(1)
    };
    let held = if stage.1.is_some() { 1 } else { 0 };
    high.checked_add(separators)?.checked_add(held)
}

/// The items of the source with what the closure returns between each two adjacent ones. An item that was drawn is buffered while the separator before it is yielded.
#[derive(Clone, Debug, Drop)]
pub struct IntersperseWith<I: FallibleIterator, F> {
    pub(crate) it: I,
    // whether an item came and the closure, and the buffered item
    pub(crate) stage: ((bool, F), Option<I::Item>),
}

impl<I: FallibleIterator, F> IntersperseWith<I, F> {
    /// Creates it. It draws nothing.
    #[inline(always)]
    pub fn new(it: I, f: F) -> IntersperseWith<I, F>
        ensures { intersperse_with_parts result ≡ (it, ((false, f), None)) }
    {
        IntersperseWith {
            it,
            stage: ((false, f), None),
        }
    }
}

impl<I: FallibleIterator, F: FnMut() -> Result<I::Item, I::Error>> FallibleIterator
    for IntersperseWith<I, F>
where
    I::Item: Drop,
{
    type Item = I::Item;

    type Error = I::Error;

    ghost contract = { parts_as intersperse_with_parts
        (intersperse_with_contract F.FnMut I.contract) };

    /// Yields the buffered item without a draw, and draws once if none is buffered. If what it draws is an item after the first, it calls the closure once.
    fn next(&mut self) -> Result<Option<I::Item>, I::Error> {
        next_stage(&mut self.it, &mut self.stage, &SeparatorCall)
    }

    /// The turn on the buffered item, and then the source's fold, whose turn is one on what stands before the item and one on the item.
    fn drive<C, R, K: Turn<C, I::Item, R>>(
        &mut self,
        state: &mut C,
        turn: &K,
    ) -> Result<Option<R>, I::Error> {
        drive_stage(&mut self.it, &mut self.stage, &SeparatorCall, state, turn)
    }

    fn size_hint(&self) -> (usize, Option<usize>) {
        hint_parting(self.it.size_hint(), &self.stage)
    }

    ghost lawful = { lawful_parts intersperse_with_made
        (lawful_intersperse_with F.FnMut I.lawful) };
}

// Each separator is what one call of the closure returns.
#[derive(Drop)]
struct SeparatorCall;

impl<X, E, F: FnMut() -> Result<X, E>> Stage<(bool, F), X, E> for SeparatorCall {
    type Kept = X;

    type Due = X;

    ghost rule = { intersperse_with_rule F.FnMut };

    #[inline(always)]
    fn on_item(&self, p: &mut (bool, F), item: X) -> Emitted<X, X, E> {
        if p.0 {
            separated((p.1)(), item)
        } else {
            p.0 = true;
            one(Ok(Some(item)))
        }
    }

    #[inline(always)]
    fn on_stop(&self, _p: &mut (bool, F), stop: Stop<E>) -> Emitted<X, X, E>
        ensures { (intersperse_with_rule F.FnMut).stops _p.old stop result _p.new }
    {
        one(stop_answer(stop))
    }

    #[inline(always)]
    fn answer_due(&self, due: X) -> AnswerAndDue<X, X, E> {
        (Ok(Some(due)), None)
    }

    ghost is_stage = { is_stage_intersperse (call_of_none F.FnMut) };
}
