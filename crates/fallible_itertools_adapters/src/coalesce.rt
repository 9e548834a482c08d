// The adapters that merge adjacent items, or yield the first of those that are the same.
ghost use Rattle.std.specs.Prelude.{Option, Result, None, ◌≡◌};
ghost use Rattle.fallible_iterator.specs.Closures.{call_by_reference};
ghost use Rattle.fallible_iterator.specs.Contract.{parts_as};
ghost use Rattle.fallible_iterator.specs.Laws.Contract.{lawful_parts};
ghost use Rattle.fallible_itertools_adapters.specs.Coalesce.{are_equal, coalesce_call, coalesce_contract, coalesce_made, coalesce_parts, coalesced_by, counted_by, dedup_by_contract, dedup_by_key_contract, dedup_by_key_made, dedup_by_key_parts, dedup_by_made, dedup_by_parts, dedup_by_with_count_contract, dedup_by_with_count_made, dedup_by_with_count_parts, dedup_contract, dedup_made, dedup_parts, dedup_with_count_contract, dedup_with_count_made, dedup_with_count_parts, keyed_by, keyed_item, same_by, same_call, coalesce_rule, dedup_by_key_rule, dedup_by_rule, dedup_by_with_count_rule, dedup_rule, dedup_with_count_rule};
ghost use Rattle.fallible_itertools_adapters.specs.Staging.{IsTransition, calls_function};
ghost use Rattle.fallible_itertools_adapters.specs.Laws.Coalesce.{is_stage_coalesce, is_stage_count, is_stage_dedup, is_stage_dedup_by, is_stage_dedup_key, lawful_coalesce, lawful_dedup, lawful_dedup_by, lawful_dedup_by_key, lawful_dedup_by_with_count, lawful_dedup_with_count};

use crate::staging::{
    AnswerAndDue, Emitted, Stage, Stop, drawn_until, drive_stage, hint_with_held, let_go,
    next_until, one, put_due, stop_answer,
};
use fallible_iterator::{FallibleIterator, Turn};

/// Adjacent items, merged where the closure makes one of two. The item merged so far is buffered until the closure keeps two apart, or a stop comes: `Ok(None)` or a failure, which the next call returns.
#[derive(Clone, Debug, Drop)]
pub struct Coalesce<I: FallibleIterator, F> {
    pub(crate) it: I,
    // the buffered item, and the closure; and the stop that is due: `Ok(None)`, or a failure
    pub(crate) stage: ((Option<I::Item>, F), Option<Stop<I::Error>>),
}

impl<I: FallibleIterator, F> Coalesce<I, F> {
    /// Creates it. It draws nothing.
    #[inline(always)]
    pub fn new(it: I, f: F) -> Coalesce<I, F>
        ensures { coalesce_parts result ≡ (it, ((None, f), None)) }
    {
        Coalesce {
            it,
            stage: ((None, f), None),
        }
    }
}

impl<
    I: FallibleIterator,
    F: FnMut(I::Item, I::Item) -> Result<Result<I::Item, (I::Item, I::Item)>, I::Error>,
> FallibleIterator for Coalesce<I, F>
where
    I::Item: Drop,
    I::Error: Drop,
{
    type Item = I::Item;

    type Error = I::Error;

    ghost contract = { parts_as coalesce_parts (coalesce_contract F.FnMut I.contract) };

    /// Returns the stop that is due, without a draw. Otherwise it draws until the closure keeps two items apart, or a stop comes.
    fn next(&mut self) -> Result<Option<I::Item>, I::Error> {
        next_until(&mut self.it, &mut self.stage, &CoalesceStage)
    }

    fn size_hint(&self) -> (usize, Option<usize>) {
        hint_with_held(&self.it, &self.stage.1, &self.stage.0.0)
    }

    fn drive<C, R, K: Turn<C, I::Item, R>>(
        &mut self,
        state: &mut C,
        turn: &K,
    ) -> Result<Option<R>, I::Error> {
        drive_stage(&mut self.it, &mut self.stage, &CoalesceStage, state, turn)
    }

    ghost lawful = { lawful_parts coalesce_made (lawful_coalesce F.FnMut I.lawful) };
}

// What the closure makes of the buffered item and the next one.
#[derive(Drop)]
struct CoalesceStage;

impl<X: Drop, E, F: FnMut(X, X) -> Result<Result<X, (X, X)>, E>> Stage<(Option<X>, F), X, E>
    for CoalesceStage {
    type Kept = X;

    type Due = Stop<E>;

    ghost rule = { coalesce_rule F.FnMut };

    #[inline(always)]
    fn on_item(&self, p: &mut (Option<X>, F), item: X) -> Emitted<X, Stop<E>, E> {
        match p.0.take() {
            None => {
                p.0 = Some(item);
                None
            }
            Some(first) => {
                let (kept, emitted) = by_answer((p.1)(first, item));
                p.0 = kept;
                emitted
            }
        }
    }

    #[inline(always)]
    fn on_stop(&self, p: &mut (Option<X>, F), stop: Stop<E>) -> Emitted<X, Stop<E>, E>
        ensures { (coalesce_rule F.FnMut).stops p.old stop result p.new }
    {
        let_go(p.0.take(), stop)
    }

    #[inline(always)]
    fn answer_due(&self, due: Stop<E>) -> AnswerAndDue<X, Stop<E>, E> {
        (stop_answer(due), None)
    }

    ghost is_stage = { is_stage_coalesce (coalesce_call F.FnMut) };
}

// What is buffered of the two items then, and what is emitted.
#[inline(always)]
fn by_answer<X, E>(answer: Result<Result<X, (X, X)>, E>) -> (Option<X>, Emitted<X, Stop<E>, E>)
    ensures { IsTransition (coalesced_by answer) result.1 result.0 }
{
    match answer {
        Ok(Ok(both)) => (Some(both), None),
        Ok(Err((first, second))) => (Some(second), one(Ok(Some(first)))),
        Err(e) => (None, one(Err(e))),
    }
}

/// The first of adjacent equal items. It is buffered until an item that differs comes, or a stop: `Ok(None)` or a failure, which the next call returns.
#[derive(Clone, Debug, Drop)]
pub struct Dedup<I: FallibleIterator> {
    pub(crate) it: I,
    // the first of equal items, which wasn't yielded yet; and the stop that is due: `Ok(None)`, or a failure
    pub(crate) stage: ((Option<I::Item>, ()), Option<Stop<I::Error>>),
}

impl<I: FallibleIterator> Dedup<I> {
    /// Creates it. It draws nothing.
    #[inline(always)]
    pub fn new(it: I) -> Dedup<I>
        ensures { dedup_parts result ≡ (it, ((None, tt), None)) }
    {
        Dedup {
            it,
            stage: ((None, ()), None),
        }
    }
}

impl<I: FallibleIterator> FallibleIterator for Dedup<I>
where
    I::Item: PartialEq + Drop,
    I::Error: Drop,
{
    type Item = I::Item;

    type Error = I::Error;

    ghost contract = { parts_as dedup_parts (dedup_contract I.Item.eq I.contract) };

    /// Returns the stop that is due, without a draw. Otherwise it draws until an item differs from the buffered one, or a stop comes.
    fn next(&mut self) -> Result<Option<I::Item>, I::Error> {
        match self.stage.1.take() {
            Some(stop) => stop_answer(stop),
            None => {
                // in a local, so that a compiler keeps it in a register
                let mut held = (self.stage.0.0.take(), ());
                let (answer, due) = drawn_until(&mut self.it, &mut held, &DedupStage);
                self.stage.0.0 = held.0;
                put_due(&mut self.stage.1, due);
                answer
            }
        }
    }

    fn size_hint(&self) -> (usize, Option<usize>) {
        hint_with_held(&self.it, &self.stage.1, &self.stage.0.0)
    }

    fn drive<C, R, K: Turn<C, I::Item, R>>(
        &mut self,
        state: &mut C,
        turn: &K,
    ) -> Result<Option<R>, I::Error> {
        drive_stage(&mut self.it, &mut self.stage, &DedupStage, state, turn)
    }

    ghost lawful = { lawful_parts dedup_made (lawful_dedup I.Item.eq I.lawful) };
}

// What becomes of an item after the buffered one.
#[derive(Drop)]
struct DedupStage;

impl<X: PartialEq + Drop, E> Stage<(Option<X>, ()), X, E> for DedupStage {
    type Kept = X;

    type Due = Stop<E>;

    ghost rule = { dedup_rule X.eq };

    #[inline(always)]
    fn on_item(&self, p: &mut (Option<X>, ()), item: X) -> Emitted<X, Stop<E>, E> {
        let (kept, emitted) = match p.0.take() {
            None => (item, None),
            Some(first) => {
                if first == item {
                    (first, None)
                } else {
                    (item, one(Ok(Some(first))))
                }
            }
        };
        p.0 = Some(kept);
        emitted
    }

    #[inline(always)]
    fn on_stop(&self, p: &mut (Option<X>, ()), stop: Stop<E>) -> Emitted<X, Stop<E>, E>
        ensures { (dedup_rule X.eq).stops p.old stop result p.new }
    {
        let_go(p.0.take(), stop)
    }

    #[inline(always)]
    fn answer_due(&self, due: Stop<E>) -> AnswerAndDue<X, Stop<E>, E> {
        (stop_answer(due), None)
    }

    ghost is_stage = { is_stage_dedup X.eq };
}

/// The first of adjacent items that the closure finds the same. It is buffered until an item that differs comes, or a stop: `Ok(None)` or a failure, which the next call returns. The closure's failure is a stop.
#[derive(Clone, Debug, Drop)]
pub struct DedupBy<I: FallibleIterator, F> {
    pub(crate) it: I,
    // the first of items that are the same, which wasn't yielded yet, and the closure; and the stop that is due: `Ok(None)`, or a failure
    pub(crate) stage: ((Option<I::Item>, F), Option<Stop<I::Error>>),
}

impl<I: FallibleIterator, F> DedupBy<I, F> {
    /// Creates it. It draws nothing.
    #[inline(always)]
    pub fn new(it: I, same: F) -> DedupBy<I, F>
        ensures { dedup_by_parts result ≡ (it, ((None, same), None)) }
    {
        DedupBy {
            it,
            stage: ((None, same), None),
        }
    }
}

impl<I: FallibleIterator, F: FnMut(&I::Item, &I::Item) -> Result<bool, I::Error>> FallibleIterator
    for DedupBy<I, F>
where
    I::Item: Drop,
    I::Error: Drop,
{
    type Item = I::Item;

    type Error = I::Error;

    ghost contract = { parts_as dedup_by_parts (dedup_by_contract F.FnMut I.contract) };

    /// Returns the stop that is due, without a draw. Otherwise it draws until an item differs from the buffered one, or a stop comes.
    fn next(&mut self) -> Result<Option<I::Item>, I::Error> {
        next_until(&mut self.it, &mut self.stage, &SameStage)
    }

    fn size_hint(&self) -> (usize, Option<usize>) {
        hint_with_held(&self.it, &self.stage.1, &self.stage.0.0)
    }

    fn drive<C, R, K: Turn<C, I::Item, R>>(
        &mut self,
        state: &mut C,
        turn: &K,
    ) -> Result<Option<R>, I::Error> {
        drive_stage(&mut self.it, &mut self.stage, &SameStage, state, turn)
    }

    ghost lawful = { lawful_parts dedup_by_made (lawful_dedup_by F.FnMut I.lawful) };
}

// What becomes of an item after the buffered one, by what the closure returns on the two.
#[derive(Drop)]
struct SameStage;

impl<X: Drop, E, F: FnMut(&X, &X) -> Result<bool, E>> Stage<(Option<X>, F), X, E> for SameStage {
    type Kept = X;

    type Due = Stop<E>;

    ghost rule = { dedup_by_rule F.FnMut };

    #[inline(always)]
    fn on_item(&self, p: &mut (Option<X>, F), item: X) -> Emitted<X, Stop<E>, E> {
        match p.0.take() {
            None => {
                p.0 = Some(item);
                None
            }
            Some(first) => {
                let same = (p.1)(&first, &item);
                let (kept, emitted) = by_same(first, item, same);
                p.0 = kept;
                emitted
            }
        }
    }

    #[inline(always)]
    fn on_stop(&self, p: &mut (Option<X>, F), stop: Stop<E>) -> Emitted<X, Stop<E>, E>
        ensures { (dedup_by_rule F.FnMut).stops p.old stop result p.new }
    {
        let_go(p.0.take(), stop)
    }

    #[inline(always)]
    fn answer_due(&self, due: Stop<E>) -> AnswerAndDue<X, Stop<E>, E> {
        (stop_answer(due), None)
    }

    ghost is_stage = { is_stage_dedup_by (same_call F.FnMut) };
}

// What is buffered of the two items then, and what is emitted.
#[inline(always)]
fn by_same<X: Drop, E>(
    first: X,
    item: X,
    same: Result<bool, E>,
) -> (Option<X>, Emitted<X, Stop<E>, E>)
    ensures { IsTransition (same_by first item same) result.1 result.0 }
{
    match same {
        Ok(true) => (Some(first), None),
        Ok(false) => (Some(item), one(Ok(Some(first)))),
        Err(e) => (None, let_go(Some(first), Some(e))),
    }
}

/// The first of adjacent items with equal keys. It is buffered, with its key, until an item with another key comes, or a stop, which the next call returns.
#[derive(Clone, Debug, Drop)]
pub struct DedupByKey<I: FallibleIterator, K, F> {
    pub(crate) it: I,
    // the buffered item with its key, and the closure; and the stop that is due: `Ok(None)`, or a failure
    pub(crate) stage: ((Option<(K, I::Item)>, F), Option<Stop<I::Error>>),
}

impl<I: FallibleIterator, K, F> DedupByKey<I, K, F> {
    /// Creates it. It draws nothing.
    #[inline(always)]
    pub fn new(it: I, f: F) -> DedupByKey<I, K, F>
        ensures { dedup_by_key_parts result ≡ (it, ((None, f), None)) }
    {
        DedupByKey {
            it,
            stage: ((None, f), None),
        }
    }
}

impl<
    I: FallibleIterator,
    K: PartialEq + Drop,
    F: FnMut(&I::Item) -> Result<K, I::Error>,
> FallibleIterator for DedupByKey<I, K, F>
where
    I::Item: Drop,
    I::Error: Drop,
{
    type Item = I::Item;

    type Error = I::Error;

    ghost contract = { parts_as dedup_by_key_parts (dedup_by_key_contract K.eq F.FnMut I.contract) };

    /// Returns the stop that is due, without a draw. Otherwise it draws until an item has another key than the buffered one, or a stop comes.
    fn next(&mut self) -> Result<Option<I::Item>, I::Error> {
        next_until(&mut self.it, &mut self.stage, &KeyStage)
    }

    fn size_hint(&self) -> (usize, Option<usize>) {
        hint_with_held(&self.it, &self.stage.1, &self.stage.0.0)
    }

    fn drive<C, R, T: Turn<C, I::Item, R>>(
        &mut self,
        state: &mut C,
        turn: &T,
    ) -> Result<Option<R>, I::Error> {
        drive_stage(&mut self.it, &mut self.stage, &KeyStage, state, turn)
    }

    ghost lawful = { lawful_parts dedup_by_key_made (lawful_dedup_by_key K.eq F.FnMut I.lawful) };
}

// What becomes of an item by its key.
#[derive(Drop)]
struct KeyStage;

impl<X: Drop, E, K: PartialEq + Drop, F: FnMut(&X) -> Result<K, E>> Stage<(Option<(K, X)>, F), X, E>
    for KeyStage {
    type Kept = X;

    type Due = Stop<E>;

    ghost rule = { dedup_by_key_rule K.eq F.FnMut };

    #[inline(always)]
    fn on_item(&self, p: &mut (Option<(K, X)>, F), item: X) -> Emitted<X, Stop<E>, E> {
        let key = (p.1)(&item);
        let (kept, emitted) = by_key(p.0.take(), item, key);
        p.0 = kept;
        emitted
    }

    #[inline(always)]
    fn on_stop(&self, p: &mut (Option<(K, X)>, F), stop: Stop<E>) -> Emitted<X, Stop<E>, E>
        ensures { (dedup_by_key_rule K.eq F.FnMut).stops p.old stop result p.new }
    {
        let_go(item_of(p.0.take()), stop)
    }

    #[inline(always)]
    fn answer_due(&self, due: Stop<E>) -> AnswerAndDue<X, Stop<E>, E> {
        (stop_answer(due), None)
    }

    ghost is_stage = { is_stage_dedup_key K.eq (call_by_reference F.FnMut) };
}

// The item without its key.
#[inline(always)]
fn item_of<X, K: Drop>(held: Option<(K, X)>) -> Option<X>
    ensures { result ≡ keyed_item held }
{
    match held {
        Some((_key, item)) => Some(item),
        None => None,
    }
}

// What is buffered then, and what is emitted, by the key of the next item.
#[inline(always)]
fn by_key<X: Drop, E, K: PartialEq + Drop>(
    held: Option<(K, X)>,
    item: X,
    key: Result<K, E>,
) -> (Option<(K, X)>, Emitted<X, Stop<E>, E>)
    ensures { IsTransition (keyed_by K.eq held item key) result.1 result.0 }
{
    match (key, held) {
        (Err(e), held) => (None, let_go(item_of(held), Some(e))),
        (Ok(key), None) => (Some((key, item)), None),
        (Ok(key), Some((first_key, first))) => {
            if first_key == key {
                (Some((first_key, first)), None)
            } else {
                (Some((key, item)), one(Ok(Some(first))))
            }
        }
    }
}

/// The first of adjacent equal items beside their number. It is buffered until an item that differs comes, or a stop: `Ok(None)` or a failure, which the next call returns.
#[derive(Clone, Debug, Drop)]
pub struct DedupWithCount<I: FallibleIterator> {
    pub(crate) it: I,
    // the number of equal items so far and the first of them, which wasn't yielded yet; and the stop that is due: `Ok(None)`, or a failure
    pub(crate) stage: ((Option<(usize, I::Item)>, ()), Option<Stop<I::Error>>),
}

impl<I: FallibleIterator> DedupWithCount<I> {
    /// Creates it. It draws nothing.
    #[inline(always)]
    pub fn new(it: I) -> DedupWithCount<I>
        ensures { dedup_with_count_parts result ≡ (it, ((None, tt), None)) }
    {
        DedupWithCount {
            it,
            stage: ((None, ()), None),
        }
    }
}

impl<I: FallibleIterator> FallibleIterator for DedupWithCount<I>
where
    I::Item: PartialEq + Drop,
    I::Error: Drop,
{
    type Item = (usize, I::Item);

    type Error = I::Error;

    ghost contract = { parts_as dedup_with_count_parts (dedup_with_count_contract I.Item.eq I.contract) };

    /// Returns the stop that is due, without a draw. Otherwise it draws until an item differs from the buffered one, or a stop comes.
    fn next(&mut self) -> Result<Option<(usize, I::Item)>, I::Error> {
        match self.stage.1.take() {
            Some(stop) => stop_answer(stop),
            None => {
                // in a local, so that a compiler keeps it in registers
                let mut held = (self.stage.0.0.take(), ());
                let (answer, due) = drawn_until(&mut self.it, &mut held, &EqualCount);
                self.stage.0.0 = held.0;
                put_due(&mut self.stage.1, due);
                answer
            }
        }
    }

    fn size_hint(&self) -> (usize, Option<usize>) {
        hint_with_held(&self.it, &self.stage.1, &self.stage.0.0)
    }

    fn drive<C, R, K: Turn<C, (usize, I::Item), R>>(
        &mut self,
        state: &mut C,
        turn: &K,
    ) -> Result<Option<R>, I::Error> {
        drive_stage(&mut self.it, &mut self.stage, &EqualCount, state, turn)
    }

    ghost lawful = { lawful_parts dedup_with_count_made
        (lawful_dedup_with_count I.Item.eq I.lawful) };
}

// An item that equals the buffered one is counted.
#[derive(Drop)]
struct EqualCount;

impl<X: PartialEq + Drop, E> Stage<(Option<(usize, X)>, ()), X, E> for EqualCount {
    type Kept = (usize, X);

    type Due = Stop<E>;

    ghost rule = { dedup_with_count_rule X.eq };

    #[inline(always)]
    fn on_item(
        &self,
        p: &mut (Option<(usize, X)>, ()),
        item: X,
    ) -> Emitted<(usize, X), Stop<E>, E> {
        let (kept, emitted) = match p.0.take() {
            None => ((1, item), None),
            Some((count, first)) => {
                if first == item {
                    ((count.saturating_add(1), first), None)
                } else {
                    ((1, item), one(Ok(Some((count, first)))))
                }
            }
        };
        p.0 = Some(kept);
        emitted
    }

    #[inline(always)]
    fn on_stop(
        &self,
        p: &mut (Option<(usize, X)>, ()),
        stop: Stop<E>,
    ) -> Emitted<(usize, X), Stop<E>, E>
        ensures { (dedup_with_count_rule X.eq).stops p.old stop result p.new }
    {
        let_go(p.0.take(), stop)
    }

    #[inline(always)]
    fn answer_due(&self, due: Stop<E>) -> AnswerAndDue<(usize, X), Stop<E>, E> {
        (stop_answer(due), None)
    }

    ghost is_stage = { is_stage_count (calls_function (are_equal X.eq)) };
}

/// The first of adjacent items that the closure finds the same beside their number. It is buffered until an item that differs comes, or a stop: `Ok(None)` or a failure, which the next call returns. The closure's failure is a stop.
#[derive(Clone, Debug, Drop)]
pub struct DedupByWithCount<I: FallibleIterator, F> {
    pub(crate) it: I,
    // the number of items that are the same so far and the first of them, which wasn't yielded yet, and the closure; and the stop that is due: `Ok(None)`, or a failure
    pub(crate) stage: ((Option<(usize, I::Item)>, F), Option<Stop<I::Error>>),
}

impl<I: FallibleIterator, F> DedupByWithCount<I, F> {
    /// Creates it. It draws nothing.
    #[inline(always)]
    pub fn new(it: I, same: F) -> DedupByWithCount<I, F>
        ensures { dedup_by_with_count_parts result ≡ (it, ((None, same), None)) }
    {
        DedupByWithCount {
            it,
            stage: ((None, same), None),
        }
    }
}

impl<I: FallibleIterator, F: FnMut(&I::Item, &I::Item) -> Result<bool, I::Error>> FallibleIterator
    for DedupByWithCount<I, F>
where
    I::Item: Drop,
    I::Error: Drop,
{
    type Item = (usize, I::Item);

    type Error = I::Error;

    ghost contract = { parts_as dedup_by_with_count_parts
        (dedup_by_with_count_contract F.FnMut I.contract) };

    /// Returns the stop that is due, without a draw. Otherwise it draws until an item differs from the buffered one, or a stop comes.
    fn next(&mut self) -> Result<Option<(usize, I::Item)>, I::Error> {
        next_until(&mut self.it, &mut self.stage, &SameCount)
    }

    fn size_hint(&self) -> (usize, Option<usize>) {
        hint_with_held(&self.it, &self.stage.1, &self.stage.0.0)
    }

    fn drive<C, R, K: Turn<C, (usize, I::Item), R>>(
        &mut self,
        state: &mut C,
        turn: &K,
    ) -> Result<Option<R>, I::Error> {
        drive_stage(&mut self.it, &mut self.stage, &SameCount, state, turn)
    }

    ghost lawful = { lawful_parts dedup_by_with_count_made
        (lawful_dedup_by_with_count F.FnMut I.lawful) };
}

// An item is counted if the closure finds it the same as the buffered one.
#[derive(Drop)]
struct SameCount;

impl<X: Drop, E, F: FnMut(&X, &X) -> Result<bool, E>> Stage<(Option<(usize, X)>, F), X, E>
    for SameCount {
    type Kept = (usize, X);

    type Due = Stop<E>;

    ghost rule = { dedup_by_with_count_rule F.FnMut };

    #[inline(always)]
    fn on_item(&self, p: &mut (Option<(usize, X)>, F), item: X) -> Emitted<(usize, X), Stop<E>, E> {
        match p.0.take() {
            None => {
                p.0 = Some((1, item));
                None
            }
            Some((count, first)) => {
                let same = (p.1)(&first, &item);
                let (kept, emitted) = by_same_counted(count, first, item, same);
                p.0 = kept;
                emitted
            }
        }
    }

    #[inline(always)]
    fn on_stop(
        &self,
        p: &mut (Option<(usize, X)>, F),
        stop: Stop<E>,
    ) -> Emitted<(usize, X), Stop<E>, E>
        ensures { (dedup_by_with_count_rule F.FnMut).stops p.old stop result p.new }
    {
        let_go(p.0.take(), stop)
    }

    #[inline(always)]
    fn answer_due(&self, due: Stop<E>) -> AnswerAndDue<(usize, X), Stop<E>, E> {
        (stop_answer(due), None)
    }

    ghost is_stage = { is_stage_count (same_call F.FnMut) };
}

// What is buffered of the two items then, and what is emitted.
#[inline(always)]
fn by_same_counted<X: Drop, E>(
    count: usize,
    first: X,
    item: X,
    same: Result<bool, E>,
) -> (Option<(usize, X)>, Emitted<(usize, X), Stop<E>, E>)
    ensures { IsTransition (counted_by (count, first) item same) result.1 result.0 }
{
    match same {
        Ok(true) => (Some((count.saturating_add(1), first)), None),
        Ok(false) => (Some((1, item)), one(Ok(Some((count, first))))),
        Err(e) => (None, let_go(Some((count, first)), Some(e))),
    }
}
