//! Items by their keys: beside them, how often each comes, each key beside its values, and folds of these.
ghost use Rattle.std.specs.Prelude.{Result, Option, ◌≡◌, None};
ghost use Rattle.std.specs.HashMap as hash;
ghost use Rattle.std.specs.HashMap.{IsEmpty, IsUnique};
ghost use Rattle.fallible_iterator.specs.Closures.{call_by_reference, takes_by_reference};
ghost use Rattle.fallible_iterator.specs.Contract.{parts_as};
ghost use Rattle.fallible_iterator.specs.Folds.{call_with, takes_with};
ghost use Rattle.fallible_iterator.specs.Laws.Contract.{lawful_parts};
ghost use Rattle.fallible_itertools.specs.Keyed.{GroupRefuses, IsGrouping, IsKeyFoldTurn, IsTally, keyed_contract, keyed_made, keyed_outcome, keyed_parts, value_at};
ghost use Rattle.fallible_itertools.specs.Laws.Keyed.{lawful_keyed};

use fallible_iterator::extending::{Outcome, Pass, drive_passing, passed, pushed};
use fallible_iterator::{Collect, FallibleIterator, Fault, Turn};
use std::alloc::{AllocError, Global};
use std::collections::HashMap;
use std::hash::Hash;
use std::ops::ControlFlow;

/// Each item of the source beside the key that the closure makes of it. An item on which the closure fails is lost, and its failure is yielded.
#[derive(Drop)]
pub struct Keyed<I, F> {
    /// the source
    pub it: I,
    /// the closure
    pub f: F,
}

impl<I: FallibleIterator, K, F: FnMut(&I::Item) -> Result<K, I::Error>> FallibleIterator
    for Keyed<I, F>
where
    I::Item: Drop,
{
    type Item = (K, I::Item);

    type Error = I::Error;

    ghost contract = { parts_as keyed_parts (keyed_contract I.contract F.FnMut) };

    /// Draws once, and calls the closure on an item.
    fn next(&mut self) -> Result<Option<(K, I::Item)>, I::Error> {
        passed(self.it.next(), &mut self.f, &KeyPass)
    }

    fn size_hint(&self) -> (usize, Option<usize>) {
        self.it.size_hint()
    }

    fn drive<C, R, T: Turn<C, (K, I::Item), R>>(
        &mut self,
        state: &mut C,
        turn: &T,
    ) -> Result<Option<R>, I::Error> {
        drive_passing(&mut self.it, &mut self.f, &KeyPass, state, turn)
    }

    ghost lawful = { lawful_parts keyed_made (lawful_keyed F.FnMut I.lawful) };
}

// What becomes of an item by the closure's result.
#[derive(Drop)]
struct KeyPass;

impl<X: Drop, K, E, F: FnMut(&X) -> Result<K, E>> Pass<F, X, E> for KeyPass {
    type Kept = (K, X);

    type Answer = Result<K, E>;

    ghost can_pass = { λ _ f x. takes_by_reference F.FnMut f x };

    ghost call = { λ _ f x v g. call_by_reference F.FnMut f x v g };

    ghost outcome = { λ _ x v. keyed_outcome x v };

    #[inline(always)]
    fn pass(&self, state: &mut F, item: X) -> Outcome<(K, X), E> {
        match state(&item) {
            Ok(key) => Outcome::Kept((key, item)),
            Err(e) => Outcome::Failure(e),
        }
    }
}

/// A map from each item to the number of times that it was pushed: a collection that `collect` makes. A number wraps at `usize::MAX`.
#[derive(Drop)]
pub struct Tally<K: Eq + Hash> {
    /// how often each item was pushed
    pub counts: HashMap<K, usize>,
}

// Of equal items the first is the key. Only for a new item an allocation may fail, if no room is spare.
impl<K: Eq + Hash + Drop> Collect<K> for Tally<K> {
    ghost made = { λ items t. IsTally K.eq items t.counts };

    ghost empty_refuses = { ⊥ };

    ghost push_refuses = { λ t x. (hash.get K.eq t.counts x ≡ None) × (hash.spare t.counts ≡ 0) };

    fn empty(alloc: Global) -> Result<Tally<K>, AllocError> {
        Ok(Tally {
            counts: HashMap::new(alloc),
        })
    }

    fn push_one(&mut self, item: K) -> Result<(), AllocError> {
        if let Some(count) = self.counts.get_mut(&item) {
            *count = count.wrapping_add(1);
            return Ok(());
        }
        match self.counts.insert(item, 1) {
            Ok(_) => Ok(()),
            Err(refused) => Err(AllocError::from(refused)),
        }
    }
}

/// A map from each key of the pairs pushed to a `Vec` of its values, in order: a collection that `collect` makes.
#[derive(Drop)]
pub struct GroupMap<K: Eq + Hash, V> {
    /// the values of each key
    pub groups: HashMap<K, Vec<V>>,
    // where the `Vec` of a new key is allocated
    alloc: Global,
}

// Of equal keys the first is the key. An allocation may fail for a new key, and where the `Vec` of the key is full.
impl<K: Eq + Hash + Drop, V: Drop> Collect<(K, V)> for GroupMap<K, V> {
    ghost made = { λ pairs g. IsGrouping K.eq pairs g.groups };

    ghost empty_refuses = { ⊥ };

    ghost push_refuses = { λ g p. GroupRefuses K.eq g.groups p };

    fn empty(alloc: Global) -> Result<GroupMap<K, V>, AllocError> {
        Ok(GroupMap {
            groups: HashMap::new(alloc),
            alloc,
        })
    }

    fn push_one(&mut self, item: (K, V)) -> Result<(), AllocError> {
        let (key, value) = item;
        if let Some(values) = self.groups.get_mut(&key) {
            pushed(values, value)?;
            return Ok(());
        }
        let mut values = Vec::new(self.alloc);
        pushed(&mut values, value)?;
        match self.groups.insert(key, values) {
            Ok(_) => Ok(()),
            Err(refused) => Err(AllocError::from(refused)),
        }
    }
}

/// The turn of `fold_by_key`, whose state is the map of the values so far and the closure.
#[derive(Drop)]
pub struct FoldByKeyTurn<B> {
    /// what the fold of each key begins with
    pub init: B,
}

impl<K: Eq + Hash + Drop, X, B: Copy + Drop, E, F: FnMut(B, X) -> Result<B, E>> Turn<
    (HashMap<K, B>, F),
    (K, X),
    Fault<E>,
> for FoldByKeyTurn<B> {
    ghost can_turn = { λ t p x. takes_with F.FnMut p.1 (value_at K.eq t.init p.0 x.0) x.1 };

    ghost turns = { λ t p x r q. IsKeyFoldTurn (call_with F.FnMut) K.eq t.init p x r q };

    /// Calls the closure on the value of the key so far and the item, and puts what it returns in the place of that value.
    #[inline(always)]
    fn turn(&self, state: &mut (HashMap<K, B>, F), item: (K, X)) -> ControlFlow<Fault<E>, ()> {
        let (key, value) = item;
        if let Some(so_far) = state.0.get_mut(&key) {
            match (state.1)(*so_far, value) {
                Ok(folded) => {
                    *so_far = folded;
                    return ControlFlow::Continue(());
                }
                Err(e) => return ControlFlow::Break(Fault::Source(e)),
            }
        }
        match (state.1)(self.init, value) {
            Ok(folded) => match state.0.insert(key, folded) {
                Ok(_) => ControlFlow::Continue(()),
                Err(refused) => ControlFlow::Break(Fault::Memory(AllocError::from(refused))),
            },
            Err(e) => ControlFlow::Break(Fault::Source(e)),
        }
    }
}
