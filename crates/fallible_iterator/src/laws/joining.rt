// What is finite and listed of the adapters that join inner iterators or rounds.
ghost use Rattle.std.specs.Prelude.{◌≡◌, ℕ, IfSome, List, ◌∷◌, Option, Result};
ghost use Rattle.fallible_contract.specs.Lists.{Lists, items};
ghost use Rattle.fallible_core.specs.Cutting.Take.{take_parts};
ghost use Rattle.fallible_core.specs.Joining.Cycle.{cycle_kept, cycle_source};
ghost use Rattle.fallible_core.specs.Joining.FlatMap.{flat_map_mapped, flat_map_source, flat_map_inner};
ghost use Rattle.fallible_core.specs.Joining.Flatten.{flatten_source, flatten_inner};
ghost use Rattle.fallible_core.specs.Refusing.{ListsUntilRefused};
ghost use Rattle.fallible_iterator.specs.Cycled.{cycled};

use fallible_core::cutting::Take;
use fallible_core::joining::{Cycle, FlatMap, Flatten};
use fallible_core::one_to_one::Map;
use fallible_core::traits::FallibleIterator;
use fallible_core::traits::conversion::IntoFallibleIterator;
use std::alloc::AllocError;

/// The first n answers of a `Cycle` of items: those of one round after another. It requires that the clone of the kept source doesn't fail, and that each clone lists the same items.
pub fn law_cycle_taken<I: FallibleIterator + Clone>()
where
    I::Error: From<AllocError>,
    ensures { (s : Take (Cycle I)) (made : Cycle I) (n : ℕ) (kept : I) (xs : List I.Item)
        → take_parts s ≡ (made, n)
        → cycle_kept made ≡ kept → I.is_clone kept (cycle_source made)
        → I.is_infallible kept
        → ((c : I) → I.is_clone kept c → Lists I.contract.steps c (items xs))
        → Lists ⟦<Take<Cycle<I>> as FallibleIterator>⟧.contract.steps s (cycled n xs) }
{}

/// The first n answers of a `Cycle` of items up to an allocation failure: clones of the items of one round after another. It requires that each clone of the kept source lists clones of the same items, up to such a failure, and that there is an item: over none a failed clone would stand in the place of the end.
pub fn law_cycle_until_refused<I: FallibleIterator + Clone>()
where
    I::Item: Clone,
    I::Error: From<AllocError>,
    ensures { (s : Take (Cycle I)) (made : Cycle I) (n : ℕ) (kept : I) (x : I.Item)
        (xs : List I.Item)
        → take_parts s ≡ (made, n)
        → cycle_kept made ≡ kept → I.is_clone kept (cycle_source made)
        → ((c : I) → I.is_clone kept c
        → ListsUntilRefused I.Item.is_clone I.contract.steps I.Error.from_gives c
        (items (x ∷ xs)))
        → ListsUntilRefused I.Item.is_clone
        ⟦<Take<Cycle<I>> as FallibleIterator>⟧.contract.steps I.Error.from_gives s
        (cycled n (x ∷ xs)) }
{}

/// A `Flatten` is finite if its outer source and the current inner iterator are, and `each` is a bound of each inner iterator that may come. So a drain of it needs no term if a caller names that number.
pub fn law_flatten_finite<U: IntoFallibleIterator, I: FallibleIterator<Item = U, Error = U::Error>>(
    it: &Flatten<I>,
    each: usize,
)
where
    requires outer { I.contract.is_finite (flatten_source it.now) }
    requires in_hand { IfSome (flatten_inner it.now) U.IntoFallibleIter.contract.is_finite }
    requires inner { (x : U) (c : U.IntoFallibleIter) → I.contract.may_give (flatten_source it.now) x
        → U.into_gives x c → U.IntoFallibleIter.contract.bound c each }
    ensures { ⟦<Flatten<I> as FallibleIterator>⟧.contract.is_finite it.now }
{}

/// A `FlatMap` is finite if its source and the current inner iterator are, and `each` is a bound of each inner iterator that the closure may make. So a drain of it needs no term if a caller names that number.
pub fn law_flat_map_finite<
    I: FallibleIterator,
    U: IntoFallibleIterator<Error = I::Error>,
    F: FnMut(I::Item) -> Result<U, I::Error>,
>(it: &FlatMap<I, U, F>, each: usize)
where
    requires outer { I.contract.is_finite (flat_map_source it.now) }
    requires in_hand { IfSome (flat_map_inner it.now) U.IntoFallibleIter.contract.is_finite }
    requires inner { (x : U) (c : U.IntoFallibleIter)
        → ⟦<Map<I, F> as FallibleIterator>⟧.contract.may_give (flat_map_mapped it.now) x
        → U.into_gives x c → U.IntoFallibleIter.contract.bound c each }
    ensures { ⟦<FlatMap<I, U, F> as FallibleIterator>⟧.contract.is_finite it.now }
{}
