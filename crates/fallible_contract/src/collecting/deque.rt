//! A deque as a collection that is made of items.
ghost use Rattle.std.specs.Prelude.{◌≡◌, List, ◌≤◌};
ghost use Rattle.std.specs.VecDeque.{deque_len, deque_capacity};

use crate::collecting::Collect;
use std::alloc::{AllocError, Global};
use std::collections::VecDeque;

// The items in order.
impl<T: Drop> Collect<T> for VecDeque<T> {
    ghost made = { λ items v. v.items ≡ items };

    ghost empty_refuses = { ⊥ };

    ghost push_refuses = { λ v _. deque_capacity v ≤ deque_len v };

    fn empty(alloc: Global) -> Result<VecDeque<T>, AllocError> {
        Ok(VecDeque::new(alloc))
    }

    fn push_one(&mut self, item: T) -> Result<(), AllocError> {
        match self.push_back(item) {
            Ok(()) => Ok(()),
            Err(refused) => Err(AllocError::from(refused)),
        }
    }
}
