// The adapters that leave items out by what came before: equal items, equal keys, or all that came once.
ghost use Rattle.std.specs.Prelude.{◌≡◌, ⊤, false, Option, Result, Ok};
ghost use Rattle.std.specs.HashMap as hash;
ghost use Rattle.std.specs.HashSet.{IsEmpty, contains};
ghost use Rattle.fallible_iterator.specs.Closures.{call_by_reference, takes_by_reference};
ghost use Rattle.fallible_iterator.specs.Contract.{parts_as};
ghost use Rattle.fallible_iterator.specs.Laws.Contract.{lawful_parts};
ghost use Rattle.fallible_itertools_adapters.specs.Unique.{adds_key, duplicates_asks, duplicates_came, duplicates_contract, duplicates_made, duplicates_parts, duplicates_source, is_full, kept_unless, key_asks, key_takes, keyed_by, unique_asks, unique_by_closure, unique_by_contract, unique_by_keys, unique_by_made, unique_by_parts, unique_by_source, unique_contract, unique_made, unique_parts, unique_seen, unique_source, unique_unseen};
ghost use Rattle.fallible_itertools_adapters.specs.Laws.Unique.{lawful_duplicates, lawful_unique, lawful_unique_by};

use fallible_iterator::extending::{FirstTurn, Outcome, Pass, drive_passing};
use fallible_iterator::{FallibleIterator, Turn};
use std::alloc::{AllocError, Global};
use std::collections::{HashMap, HashSet};
use std::hash::Hash;

/// Of equal items the first. A set has a clone of each item that was yielded.
///
/// Memory: if the clone or the room for it can't be allocated, the failure converted from `AllocError` is yielded, and the item is lost.
#[derive(Clone, Debug, Drop)]
pub struct Unique<I: FallibleIterator>
where
    I::Item: Eq + Hash,
{
    pub(crate) it: I,
    // clones of the items that were yielded
    pub(crate) seen: HashSet<I::Item>,
}

impl<I: FallibleIterator> Unique<I>
where
    I::Item: Eq + Hash,
{
    /// Creates it. It draws nothing.
    #[inline(always)]
    pub fn new(it: I, alloc: Global) -> Unique<I>
        ensures source { unique_source result ≡ it }
        ensures empty { IsEmpty (unique_seen result) }
    {
        Unique {
            it,
            seen: HashSet::new(alloc),
        }
    }
}

impl<I: FallibleIterator> FallibleIterator for Unique<I>
where
    I::Item: Clone + Drop + Eq + Hash,
    I::Error: From<AllocError>,
{
    type Item = I::Item;

    type Error = I::Error;

    ghost contract = { parts_as unique_parts
        (unique_contract I.Item.eq I.Item.is_clone I.Item.is_infallible I.Error.from_gives
        I.contract) };

    /// Draws until an item comes that equals none before it, or a failure or an `Ok(None)`.
    fn next(&mut self) -> Result<Option<I::Item>, I::Error> {
        self.drive(&mut (), &FirstTurn)
    }

    fn size_hint(&self) -> (usize, Option<usize>) {
        (0, self.it.size_hint().1)
    }

    fn drive<C, R, K: Turn<C, I::Item, R>>(
        &mut self,
        state: &mut C,
        turn: &K,
    ) -> Result<Option<R>, I::Error> {
        drive_passing(&mut self.it, &mut self.seen, &UniquePass, state, turn)
    }

    ghost lawful = { lawful_parts unique_made
        (lawful_unique I.Item.eq I.Item.is_clone I.Item.is_infallible I.Error.from_gives
        I.lawful) };
}

// An item after those before it.
#[derive(Drop)]
struct UniquePass;

impl<X: Clone + Drop + Eq + Hash, E: From<AllocError>> Pass<HashSet<X>, X, E> for UniquePass {
    type Kept = X;

    type Answer = Outcome<X, E>;

    ghost can_pass = { λ _ seen x. ⊤ };

    ghost call = { λ _ seen x o more.
        unique_asks X.eq X.is_clone X.is_infallible E.from_gives seen x o more };

    ghost outcome = { λ _ _ o. o };

    #[inline(always)]
    fn pass(&self, state: &mut HashSet<X>, item: X) -> Outcome<X, E> {
        if state.contains(&item) {
            Outcome::LeftOut
        } else {
            kept(state, item)
        }
    }
}

// An item that equals none of the set's.
fn kept<X: Clone + Drop + Eq + Hash, E: From<AllocError>>(
    seen: &mut HashSet<X>,
    item: X,
) -> Outcome<X, E>
    ensures { unique_unseen X.eq X.is_clone X.is_infallible E.from_gives seen.old item result seen.new }
{
    match item.clone() {
        Ok(copy) => match seen.insert(copy) {
            Ok(_) => Outcome::Kept(item),
            Err(refused) => Outcome::Failure(E::from(AllocError::from(refused))),
        },
        Err(refused) => Outcome::Failure(E::from(refused)),
    }
}

/// The first item of each key. A set has the keys of the items that were yielded.
///
/// Memory: if the room for a key can't be allocated, the failure converted from `AllocError` is yielded, and the item is lost.
#[derive(Clone, Debug, Drop)]
pub struct UniqueBy<I, K, F>
where
    K: Eq + Hash,
{
    pub(crate) it: I,
    // the keys of the items that were yielded, and the closure
    pub(crate) keying: (HashSet<K>, F),
}

impl<I, K: Eq + Hash, F> UniqueBy<I, K, F> {
    /// Creates it. It draws nothing.
    #[inline(always)]
    pub fn new(it: I, alloc: Global, f: F) -> UniqueBy<I, K, F>
        ensures source { unique_by_source result ≡ it }
        ensures empty { IsEmpty (unique_by_keys result) }
        ensures closure { unique_by_closure result ≡ f }
    {
        UniqueBy {
            it,
            keying: (HashSet::new(alloc), f),
        }
    }
}

impl<
    I: FallibleIterator,
    K: Eq + Hash + Drop,
    F: FnMut(&I::Item) -> Result<K, I::Error>,
> FallibleIterator for UniqueBy<I, K, F>
where
    I::Item: Drop,
    I::Error: From<AllocError>,
{
    type Item = I::Item;

    type Error = I::Error;

    ghost contract = { parts_as unique_by_parts
        (unique_by_contract K.eq I.Error.from_gives I.contract F.FnMut) };

    /// Draws until an item comes whose key equals none before it, or a failure or an `Ok(None)`. It calls the closure on each item.
    fn next(&mut self) -> Result<Option<I::Item>, I::Error> {
        self.drive(&mut (), &FirstTurn)
    }

    fn size_hint(&self) -> (usize, Option<usize>) {
        (0, self.it.size_hint().1)
    }

    fn drive<C, R, T: Turn<C, I::Item, R>>(
        &mut self,
        state: &mut C,
        turn: &T,
    ) -> Result<Option<R>, I::Error> {
        drive_passing(&mut self.it, &mut self.keying, &KeyPass, state, turn)
    }

    ghost lawful = { lawful_parts unique_by_made
        (lawful_unique_by K.eq I.Error.from_gives F.FnMut I.lawful) };
}

// What becomes of an item by its key.
#[derive(Drop)]
struct KeyPass;

impl<X: Drop, E: From<AllocError>, K: Eq + Hash + Drop, F: FnMut(&X) -> Result<K, E>> Pass<
    (HashSet<K>, F),
    X,
    E,
> for KeyPass {
    type Kept = X;

    type Answer = Outcome<X, E>;

    ghost can_pass = { λ _ p x. key_takes (takes_by_reference F.FnMut) p x };

    ghost call = { λ _ p x o q. key_asks K.eq E.from_gives (call_by_reference F.FnMut) p x o q };

    ghost outcome = { λ _ _ o. o };

    #[inline(always)]
    fn pass(&self, state: &mut (HashSet<K>, F), item: X) -> Outcome<X, E> {
        match (state.1)(&item) {
            Ok(key) => first_of_key(&mut state.0, key, item),
            Err(e) => Outcome::Failure(e),
        }
    }
}

// An item with its key after those before it.
fn first_of_key<X: Drop, E: From<AllocError>, K: Eq + Hash + Drop>(
    keys: &mut HashSet<K>,
    key: K,
    item: X,
) -> Outcome<X, E>
    ensures { keyed_by (adds_key K.eq) is_full E.from_gives K.eq keys.old item (Ok key) result keys.new }
{
    if keys.contains(&key) {
        return Outcome::LeftOut;
    }
    match keys.insert(key) {
        Ok(_) => Outcome::Kept(item),
        Err(refused) => Outcome::Failure(E::from(AllocError::from(refused))),
    }
}

/// Of equal items the second. A map has the first of equal items, and whether the second was yielded.
///
/// Memory: if the room for an item can't be allocated, the failure converted from `AllocError` is yielded, and the item is lost.
#[derive(Clone, Debug, Drop)]
pub struct Duplicates<I: FallibleIterator>
where
    I::Item: Eq + Hash,
{
    pub(crate) it: I,
    // the first of equal items, each beside whether one that equals it was yielded
    pub(crate) came: HashMap<I::Item, bool>,
}

impl<I: FallibleIterator> Duplicates<I>
where
    I::Item: Eq + Hash,
{
    /// Creates it. It draws nothing.
    #[inline(always)]
    pub fn new(it: I, alloc: Global) -> Duplicates<I>
        ensures source { duplicates_source result ≡ it }
        ensures empty { hash.IsEmpty (duplicates_came result) }
    {
        Duplicates {
            it,
            came: HashMap::new(alloc),
        }
    }
}

impl<I: FallibleIterator> FallibleIterator for Duplicates<I>
where
    I::Item: Drop + Eq + Hash,
    I::Error: From<AllocError>,
{
    type Item = I::Item;

    type Error = I::Error;

    ghost contract = { parts_as duplicates_parts
        (duplicates_contract I.Item.eq I.Error.from_gives I.contract) };

    /// Draws until an item comes that equals exactly one before it, or a failure or an `Ok(None)`.
    fn next(&mut self) -> Result<Option<I::Item>, I::Error> {
        self.drive(&mut (), &FirstTurn)
    }

    fn size_hint(&self) -> (usize, Option<usize>) {
        (0, self.it.size_hint().1)
    }

    fn drive<C, R, K: Turn<C, I::Item, R>>(
        &mut self,
        state: &mut C,
        turn: &K,
    ) -> Result<Option<R>, I::Error> {
        drive_passing(&mut self.it, &mut self.came, &SecondPass, state, turn)
    }

    ghost lawful = { lawful_parts duplicates_made
        (lawful_duplicates I.Item.eq I.Error.from_gives I.lawful) };
}

// An item after those before it.
#[derive(Drop)]
struct SecondPass;

impl<X: Drop + Eq + Hash, E: From<AllocError>> Pass<HashMap<X, bool>, X, E> for SecondPass {
    type Kept = X;

    type Answer = Outcome<X, E>;

    ghost can_pass = { λ _ came x. ⊤ };

    ghost call = { λ _ came x o more. duplicates_asks X.eq E.from_gives came x o more };

    ghost outcome = { λ _ _ o. o };

    #[inline(always)]
    fn pass(&self, state: &mut HashMap<X, bool>, item: X) -> Outcome<X, E> {
        if let Some(yielded) = state.get_mut(&item) {
            let before = *yielded;
            *yielded = true;
            return unless_yielded(before, item);
        }
        match state.insert(item, false) {
            Ok(_) => Outcome::LeftOut,
            Err(refused) => Outcome::Failure(E::from(AllocError::from(refused))),
        }
    }
}

// The item, unless one that equals it was yielded.
fn unless_yielded<X: Drop, E>(yielded: bool, item: X) -> Outcome<X, E>
    ensures { result ≡ kept_unless yielded item }
{
    if yielded {
        Outcome::LeftOut
    } else {
        Outcome::Kept(item)
    }
}
