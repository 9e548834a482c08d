//! Collections that are made of items, and the turns of the folds that fill them.
ghost use Rattle.std.specs.Prelude.{◌≡◌, ℕ, ◌≤◌, List, [], ◌∷◌, ◌++◌, MatchResult, IfOk, ⊤, vec_len, vec_capacity};
ghost use Rattle.fallible_contract.specs.Closures.{call_by_reference, takes_by_reference};
ghost use Rattle.fallible_contract.specs.Collecting.{IsCollectTurn, IsUnzipTurn, IsPartitionTurn};

mod deque;
mod hashed;
mod sorted;

use crate::folds::Turn;
use std::alloc::{AllocError, Global};
use std::ops::ControlFlow;

/// A collection that is made empty and filled item by item.
pub trait Collect<T>: Drop + Sized {
    // Holds of the items pushed so far and of the collection that they made.
    ghost made: { List T → Self → Type 0 };

    // Holds if creating the empty collection may fail.
    ghost empty_refuses: { Type 0 };

    // Holds of a collection and an item that it may reject, since an allocation may fail.
    ghost push_refuses: { Self → T → Type 0 };

    /// Creates the collection of no items. It fails only if an allocation fails.
    fn empty(alloc: Global) -> Result<Self, AllocError>
        ensures { MatchResult result (made []) (λ _. empty_refuses) };

    /// Appends one item to the others.
    ///
    /// Memory: if it fails, an allocation failed, and the item is dropped.
    fn push_one(&mut self, item: T) -> Result<(), AllocError>
        ensures { MatchResult result
            (λ _. (items : List T) → made items self.old → made (items ++ item ∷ []) self.new)
            (λ _. push_refuses self.old item) };
}

/// Why a collection was not made: the source failed, or an allocation did.
#[derive(Debug, Drop)]
pub enum Fault<E> {
    /// the first failure of the source or of a closure
    Source(E),
    /// an allocation of the collection failed
    Memory(AllocError),
}

impl<E> From<E> for Fault<E> {
    ghost use Rattle.fallible_contract.specs.declared.collecting.Fault.TheVariants.{Source};

    ghost from_gives = { λ e fault. fault ≡ Source e };

    /// The source's failure.
    fn from(error: E) -> Fault<E> {
        Fault::Source(error)
    }
}

impl<T: Drop> Collect<T> for Vec<T> {
    ghost made = { λ items v. v.items ≡ items };

    ghost empty_refuses = { ⊥ };

    ghost push_refuses = { λ v _. vec_capacity v ≤ vec_len v };

    /// Nothing is allocated.
    fn empty(alloc: Global) -> Result<Vec<T>, AllocError>
        ensures made { MatchResult result (λ v. v.items ≡ []) (λ _. ⊥) }
        ensures no_room { IfOk result (λ v. vec_capacity v ≡ 0) }
    {
        Ok(Vec::new(alloc))
    }

    fn push_one(&mut self, item: T) -> Result<(), AllocError> {
        match self.push(item) {
            Ok(()) => Ok(()),
            Err(refused) => Err(AllocError::from(refused)),
        }
    }
}

/// The turn of `collect`, whose state is the collection. It stops if that rejects an item.
#[derive(Drop)]
pub struct CollectTurn;

impl<A, C: Collect<A>> Turn<C, A, AllocError> for CollectTurn {
    ghost can_turn = { λ _ _ _. ⊤ };

    ghost turns = { λ _ c x r d. IsCollectTurn C.made C.push_refuses c x r d };

    /// Appends the item to the others.
    #[inline(always)]
    fn turn(&self, state: &mut C, item: A) -> ControlFlow<AllocError, ()> {
        match state.push_one(item) {
            Ok(()) => ControlFlow::Continue(()),
            Err(refused) => ControlFlow::Break(refused),
        }
    }
}

/// The turn of `partition`, whose state is the predicate and both collections.
#[derive(Drop)]
pub struct PartitionTurn;

impl<A: Drop, E, B: Collect<A>, F: FnMut(&A) -> Result<bool, E>> Turn<(F, (B, B)), A, Fault<E>>
    for PartitionTurn {
    ghost can_turn = { λ _ c x. takes_by_reference F.FnMut c.0 x };

    ghost turns = { λ _ c x r d. IsPartitionTurn (call_by_reference F.FnMut) B.made B.push_refuses
        c x r d };

    /// Calls the predicate once, and pushes the item to the side that it returns.
    #[inline(always)]
    fn turn(&self, state: &mut (F, (B, B)), item: A) -> ControlFlow<Fault<E>, ()> {
        let answer = match (state.0)(&item) {
            Ok(answer) => answer,
            Err(e) => return ControlFlow::Break(Fault::Source(e)),
        };
        if answer {
            match state.1.0.push_one(item) {
                Ok(()) => ControlFlow::Continue(()),
                Err(refused) => ControlFlow::Break(Fault::Memory(refused)),
            }
        } else {
            match state.1.1.push_one(item) {
                Ok(()) => ControlFlow::Continue(()),
                Err(refused) => ControlFlow::Break(Fault::Memory(refused)),
            }
        }
    }
}

/// The turn of `unzip`, whose state is both collections.
#[derive(Drop)]
pub struct UnzipTurn;

impl<A, B: Drop, C: Collect<A>, D: Collect<B>> Turn<(C, D), (A, B), AllocError> for UnzipTurn {
    ghost can_turn = { λ _ _ _. ⊤ };

    ghost turns = { λ _ c x r d. IsUnzipTurn C.made D.made C.push_refuses D.push_refuses
        c x r d };

    /// Pushes the first half to the first collection, and then the second half to the second.
    #[inline(always)]
    fn turn(&self, state: &mut (C, D), item: (A, B)) -> ControlFlow<AllocError, ()> {
        let (a, b) = item;
        match state.0.push_one(a) {
            Ok(()) => {}
            Err(refused) => return ControlFlow::Break(refused),
        }
        match state.1.push_one(b) {
            Ok(()) => ControlFlow::Continue(()),
            Err(refused) => ControlFlow::Break(refused),
        }
    }
}
