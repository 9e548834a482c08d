// The adapters that yield batches of items, and groups of adjacent items with equal keys.
ghost use Rattle.std.specs.Prelude.{◌≡◌, MatchResult, None, Option, Result, max, Ok, true};
ghost use Rattle.std.specs.Int.{div_ceil};
ghost use Rattle.std.specs.declared.alloc.Global.{Global};
ghost use Rattle.std.specs.declared.vec.Vec.{Vec};
ghost use Rattle.fallible_iterator.specs.Contract.{parts_as};
ghost use Rattle.fallible_iterator.specs.Laws.Contract.{lawful_parts};
ghost use Rattle.fallible_itertools_adapters.specs.Chunks.{GrownTo, NoRoom, Put, PutsLastOrRefused, SameHeld, chunk_by_contract, chunk_by_made, chunk_by_parts, chunks_contract, chunks_made, chunks_parts, chunks_plan, chunks_stops, group_by, items_of_key, puts, vec_count, chunk_by_rule, chunks_rule};
ghost use Rattle.fallible_itertools_adapters.specs.Staging.{DrawsUpTo, IsTransition, plan_meets, stop_comes};
ghost use Rattle.fallible_itertools_adapters.specs.Laws.Chunks.{is_stage_chunk_by, is_stage_chunks, lawful_chunk_by, lawful_chunks};

use crate::staging::{
    AnswerAndDue, Emitted, Stage, Stop, drive_stage, emitted_of, hint_with_held, let_go,
    next_until, one, put_due, stop_answer, with_held,
};
use fallible_iterator::extending::{alone, pushed};
use fallible_iterator::{FallibleIterator, Turn};
use std::alloc::{AllocError, Global};
use std::mem::replace;

/// Batches of n items. A batch before a stop may have fewer. A batch is buffered until it has n items, or a stop comes: `Ok(None)` or a failure, which the next call returns.
///
/// Memory: if an allocation for an item fails, the failure converted from `AllocError` is a stop. Then that item is lost, and no other.
#[derive(Clone, Debug, Drop)]
pub struct Chunks<I: FallibleIterator> {
    pub(crate) it: I,
    pub(crate) alloc: Global,
    // how many items a batch has, the buffered batch, if it has any, and whether the batch before it was whole, or there was none; and the stop that is due: `Ok(None)`, or a failure
    pub(crate) stage: (
        ((usize, Option<Vec<I::Item>>), bool),
        Option<Stop<I::Error>>,
    ),
}

impl<I: FallibleIterator> Chunks<I> {
    /// Creates it. It draws nothing.
    #[inline(always)]
    pub fn new(it: I, alloc: Global, n: usize) -> Chunks<I>
        ensures { chunks_parts result ≡ (it, (((n, None), true), None)) }
    {
        Chunks {
            it,
            alloc,
            stage: (((n, None), true), None),
        }
    }
}

impl<I: FallibleIterator> FallibleIterator for Chunks<I>
where
    I::Item: Drop,
    I::Error: Drop + From<AllocError>,
{
    type Item = Vec<I::Item>;

    type Error = I::Error;

    ghost contract = { parts_as chunks_parts (chunks_contract I.Error.from_gives I.contract) };

    /// Returns the stop that is due, without a draw. Otherwise it draws until the batch has n items, or a stop comes.
    fn next(&mut self) -> Result<Option<Vec<I::Item>>, I::Error> {
        match self.stage.1.take() {
            Some(stop) => stop_answer(stop),
            None => {
                let adapter = ChunksStage { alloc: self.alloc };
                let (answer, due) = filled(&mut self.it, &mut self.stage.0, &adapter);
                put_due(&mut self.stage.1, due);
                answer
            }
        }
    }

    fn size_hint(&self) -> (usize, Option<usize>) {
        match self.stage.1 {
            Some(None) => (0, Some(0)),
            _ => {
                let hint = self.it.size_hint();
                let low = batches(hint.0, self.stage.0.0.0);
                (low, with_held(hint, &self.stage.0.0.1).1)
            }
        }
    }

    fn drive<C, R, K: Turn<C, Vec<I::Item>, R>>(
        &mut self,
        state: &mut C,
        turn: &K,
    ) -> Result<Option<R>, I::Error> {
        let adapter = ChunksStage { alloc: self.alloc };
        drive_stage(&mut self.it, &mut self.stage, &adapter, state, turn)
    }

    ghost lawful = { lawful_parts chunks_made (lawful_chunks I.Error.from_gives I.lawful) };
}

// Draws until a batch is full or a stop comes, at most as often as a batch has items: the answer, and what is due after it. Nothing is due before.
fn filled<I: FallibleIterator>(
    it: &mut I,
    held: &mut ((usize, Option<Vec<I::Item>>), bool),
    adapter: &ChunksStage,
) -> AnswerAndDue<Vec<I::Item>, Stop<I::Error>, I::Error>
where
    I::Item: Drop,
    I::Error: Drop + From<AllocError>,
    requires can_next { I.contract.can_next it.old }
    ensures { DrawsUpTo stop_comes
        (plan_meets (puts I.Error.from_gives) (chunks_plan vec_count) chunks_stops) I.contract.steps
        it.old held.old result.0 it.new (held.new, result.1) }
{
    loop {
        match emitted_of(it.draw(), held, adapter) {
            Some(emitted) => return emitted,
            None => {}
        }
    }
}

// What becomes of an item after the buffered batch.
#[derive(Drop)]
struct ChunksStage {
    alloc: Global,
}

impl<X: Drop, E: From<AllocError>> Stage<((usize, Option<Vec<X>>), bool), X, E> for ChunksStage {
    type Kept = Vec<X>;

    type Due = Stop<E>;

    ghost rule = { chunks_rule E.from_gives };

    #[inline(always)]
    fn on_item(
        &self,
        p: &mut ((usize, Option<Vec<X>>), bool),
        item: X,
    ) -> Emitted<Vec<X>, Stop<E>, E> {
        match grown(self.alloc, p.0.0, &mut p.1, &mut p.0.1, item) {
            Ok(count) => {
                if count < p.0.0 {
                    None
                } else {
                    p.1 = true;
                    match p.0.1.take() {
                        Some(whole) => one(Ok(Some(whole))),
                        None => unreachable!(),
                    }
                }
            }
            Err(refused) => let_go(p.0.1.take(), Some(E::from(refused))),
        }
    }

    #[inline(always)]
    fn on_stop(
        &self,
        p: &mut ((usize, Option<Vec<X>>), bool),
        stop: Stop<E>,
    ) -> Emitted<Vec<X>, Stop<E>, E>
        ensures { (chunks_rule E.from_gives).stops p.old stop result p.new }
    {
        let_go(p.0.1.take(), stop)
    }

    #[inline(always)]
    fn answer_due(&self, due: Stop<E>) -> AnswerAndDue<Vec<X>, Stop<E>, E> {
        (stop_answer(due), None)
    }

    ghost is_stage = { is_stage_chunks E.from_gives };
}

// Appends the item to the buffered batch, or to a new one, and returns how many items the batch has then. A new one has room for n at once, if the one before it was whole; after one that a stop cut it grows.
#[inline(always)]
fn grown<X: Drop>(
    alloc: Global,
    n: usize,
    whole: &mut bool,
    held: &mut Option<Vec<X>>,
    item: X,
) -> Result<usize, AllocError>
    ensures { MatchResult result (GrownTo held.old item held.new)
        (λ _. NoRoom held.old × SameHeld held.old held.new) }
{
    match held {
        Some(batch) => {
            pushed(batch, item)?;
            Ok(batch.len())
        }
        None => {
            let room = if replace(whole, false) { n } else { n.min(4) };
            let batch = alone(alloc, room, item)?;
            let count = batch.len();
            *held = Some(batch);
            Ok(count)
        }
    }
}

// How many batches of n items so many items make.
fn batches(items: usize, n: usize) -> usize
    ensures { result ≡ div_ceil items (max n 1) }
{
    let n = n.max(1);
    items / n + (items % n).min(1)
}

/// Groups of adjacent items with equal keys, each with its key. A group is buffered until an item with another key comes, or a stop: `Ok(None)` or a failure, which the next call returns. The closure's failure is a stop. Then the item is lost, and no other.
///
/// Memory: a failed allocation is a stop too, at which the item is lost, and no other.
#[derive(Clone, Debug, Drop)]
pub struct ChunkBy<I: FallibleIterator, K, F> {
    pub(crate) it: I,
    pub(crate) alloc: Global,
    // the buffered group, if there is one, and the closure; and the stop that is due: `Ok(None)`, or a failure
    pub(crate) stage: ((Option<(K, Vec<I::Item>)>, F), Option<Stop<I::Error>>),
}

impl<I: FallibleIterator, K, F> ChunkBy<I, K, F> {
    /// Creates it. It draws nothing.
    #[inline(always)]
    pub fn new(it: I, alloc: Global, key: F) -> ChunkBy<I, K, F>
        ensures { chunk_by_parts result ≡ (it, ((None, key), None)) }
    {
        ChunkBy {
            it,
            alloc,
            stage: ((None, key), None),
        }
    }
}

impl<
    I: FallibleIterator,
    K: PartialEq + Drop,
    F: FnMut(&I::Item) -> Result<K, I::Error>,
> FallibleIterator for ChunkBy<I, K, F>
where
    I::Item: Drop,
    I::Error: Drop + From<AllocError>,
{
    type Item = (K, Vec<I::Item>);

    type Error = I::Error;

    ghost contract = { parts_as chunk_by_parts
        (chunk_by_contract I.Error.from_gives K.eq F.FnMut I.contract) };

    /// Returns the stop that is due, without a draw. Otherwise it draws until an item has another key than the buffered group, or a stop comes.
    fn next(&mut self) -> Result<Option<(K, Vec<I::Item>)>, I::Error> {
        let adapter = ChunkByStage { alloc: self.alloc };
        next_until(&mut self.it, &mut self.stage, &adapter)
    }

    fn size_hint(&self) -> (usize, Option<usize>) {
        hint_with_held(&self.it, &self.stage.1, &self.stage.0.0)
    }

    fn drive<C, R, T: Turn<C, (K, Vec<I::Item>), R>>(
        &mut self,
        state: &mut C,
        turn: &T,
    ) -> Result<Option<R>, I::Error> {
        let adapter = ChunkByStage { alloc: self.alloc };
        drive_stage(&mut self.it, &mut self.stage, &adapter, state, turn)
    }

    ghost lawful = { lawful_parts chunk_by_made
        (lawful_chunk_by I.Error.from_gives K.eq F.FnMut I.lawful) };
}

// What becomes of an item after the buffered group.
#[derive(Drop)]
struct ChunkByStage {
    alloc: Global,
}

impl<X: Drop, K: PartialEq + Drop, E: From<AllocError>, F: FnMut(&X) -> Result<K, E>> Stage<
    (Option<(K, Vec<X>)>, F),
    X,
    E,
> for ChunkByStage {
    type Kept = (K, Vec<X>);

    type Due = Stop<E>;

    ghost rule = { chunk_by_rule E.from_gives K.eq F.FnMut };

    #[inline(always)]
    fn on_item(
        &self,
        p: &mut (Option<(K, Vec<X>)>, F),
        item: X,
    ) -> Emitted<(K, Vec<X>), Stop<E>, E> {
        match (p.1)(&item) {
            Ok(key) => grouped(self.alloc, &mut p.0, key, item),
            Err(e) => let_go(p.0.take(), Some(e)),
        }
    }

    #[inline(always)]
    fn on_stop(
        &self,
        p: &mut (Option<(K, Vec<X>)>, F),
        stop: Stop<E>,
    ) -> Emitted<(K, Vec<X>), Stop<E>, E>
        ensures { (chunk_by_rule E.from_gives K.eq F.FnMut).stops p.old stop result p.new }
    {
        let_go(p.0.take(), stop)
    }

    #[inline(always)]
    fn answer_due(&self, due: Stop<E>) -> AnswerAndDue<(K, Vec<X>), Stop<E>, E> {
        (stop_answer(due), None)
    }

    ghost is_stage = { is_stage_chunk_by E.from_gives K.eq F.FnMut };
}

// What becomes of an item of that key. A new group has room for as many items as the one that it follows, up to 1024.
fn grouped<X: Drop, K: PartialEq + Drop, E: From<AllocError>>(
    alloc: Global,
    group: &mut Option<(K, Vec<X>)>,
    key: K,
    item: X,
) -> Emitted<(K, Vec<X>), Stop<E>, E>
    ensures { (v : Put (Vec X Global) E) × PutsLastOrRefused E.from_gives (items_of_key K.eq group.old key) item v
        × IsTransition (group_by K.eq group.old (Ok (key, v))) result group.new }
{
    let room = match group {
        Some((of, items)) => {
            if *of == key {
                return match pushed(items, item) {
                    Ok(()) => None,
                    Err(refused) => let_go(group.take(), Some(E::from(refused))),
                };
            }
            items.len()
        }
        None => 0,
    };
    match alone(alloc, room, item) {
        Ok(first) => match group.replace((key, first)) {
            Some(whole) => one(Ok(Some(whole))),
            None => None,
        },
        Err(refused) => let_go(group.take(), Some(E::from(refused))),
    }
}
