//! The sorted collections of std as collections that are made of items.
ghost use Rattle.std.specs.Prelude.{◌≡◌, false, None, List};
ghost use Rattle.std.specs.BTreeSet as sorted;
ghost use Rattle.std.specs.BTreeMap as tree;
ghost use Rattle.fallible_contract.specs.Collecting.Keyed.{IsSortedSetOf, IsSortedMapOf};

use crate::collecting::Collect;
use std::alloc::{AllocError, Global};
use std::collections::{BTreeMap, BTreeSet};

// The items, in order, of equal ones the first. Only for a new one an allocation may fail.
impl<K: Ord + Drop> Collect<K> for BTreeSet<K> {
    ghost made = { λ items s. IsSortedSetOf K.cmp items s };

    ghost empty_refuses = { ⊥ };

    ghost push_refuses = { λ s x. sorted.contains K.cmp s x ≡ false };

    fn empty(alloc: Global) -> Result<BTreeSet<K>, AllocError> {
        Ok(BTreeSet::new(alloc))
    }

    fn push_one(&mut self, item: K) -> Result<(), AllocError> {
        match self.insert(item) {
            Ok(_) => Ok(()),
            Err(refused) => Err(AllocError::from(refused)),
        }
    }
}

// The keys, in order, of equal ones the first, and each with its last value. Only for a new key an allocation may fail.
impl<K: Ord + Drop, V: Drop> Collect<(K, V)> for BTreeMap<K, V> {
    ghost made = { λ items m. IsSortedMapOf K.cmp items m };

    ghost empty_refuses = { ⊥ };

    ghost push_refuses = { λ m x. tree.get K.cmp m x.0 ≡ None };

    fn empty(alloc: Global) -> Result<BTreeMap<K, V>, AllocError> {
        Ok(BTreeMap::new(alloc))
    }

    fn push_one(&mut self, item: (K, V)) -> Result<(), AllocError> {
        let (key, value) = item;
        match self.insert(key, value) {
            Ok(_) => Ok(()),
            Err(refused) => Err(AllocError::from(refused)),
        }
    }
}
