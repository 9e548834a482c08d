//! The hashed collections of std as collections that are made of items.
ghost use Rattle.std.specs.Prelude.{◌≡◌, false, None, List};
ghost use Rattle.std.specs.HashSet as bag;
ghost use Rattle.std.specs.HashMap as hash;
ghost use Rattle.fallible_contract.specs.Collecting.Keyed.{IsHashedSetOf, IsHashedMapOf};

use crate::collecting::Collect;
use std::alloc::{AllocError, Global};
use std::collections::{HashMap, HashSet};
use std::hash::Hash;

// The items, of equal ones the first. Only for a new one an allocation may fail, if no room is spare.
impl<K: Eq + Hash + Drop> Collect<K> for HashSet<K> {
    ghost made = { λ items s. IsHashedSetOf K.eq items s };

    ghost empty_refuses = { ⊥ };

    ghost push_refuses = { λ s x. (bag.contains K.eq s x ≡ false) × (bag.spare s ≡ 0) };

    fn empty(alloc: Global) -> Result<HashSet<K>, AllocError> {
        Ok(HashSet::new(alloc))
    }

    fn push_one(&mut self, item: K) -> Result<(), AllocError> {
        match self.insert(item) {
            Ok(_) => Ok(()),
            Err(refused) => Err(AllocError::from(refused)),
        }
    }
}

// The keys, of equal ones the first, and each with its last value. Only for a new key an allocation may fail, if no room is spare.
impl<K: Eq + Hash + Drop, V: Drop> Collect<(K, V)> for HashMap<K, V> {
    ghost made = { λ items m. IsHashedMapOf K.eq items m };

    ghost empty_refuses = { ⊥ };

    ghost push_refuses = { λ m x. (hash.get K.eq m x.0 ≡ None) × (hash.spare m ≡ 0) };

    fn empty(alloc: Global) -> Result<HashMap<K, V>, AllocError> {
        Ok(HashMap::new(alloc))
    }

    fn push_one(&mut self, item: (K, V)) -> Result<(), AllocError> {
        let (key, value) = item;
        match self.insert(key, value) {
            Ok(_) => Ok(()),
            Err(refused) => Err(AllocError::from(refused)),
        }
    }
}
