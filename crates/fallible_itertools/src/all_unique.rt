//! Whether no two items are equal.
ghost use Rattle.std.specs.Prelude.{◌≡◌, ⊤};
ghost use Rattle.fallible_itertools.specs.AllUnique.{is_unique_turn, unique_or_fault_of};

use fallible_iterator::{Fault, Turn};
use std::alloc::AllocError;
use std::collections::HashSet;
use std::hash::Hash;
use std::ops::ControlFlow;

/// The turn of `all_unique`, whose state is the set of the items so far: it stops at an item that equals one of them.
///
/// Memory: it also stops where room for an item can't be allocated.
#[derive(Drop)]
pub struct AllUniqueTurn;

impl<A: Eq + Hash + Drop> Turn<HashSet<A>, A, Option<AllocError>> for AllUniqueTurn {
    ghost can_turn = { λ _ _ _. ⊤ };

    ghost turns = { λ _ seen x r more. is_unique_turn A.eq seen x r more };

    /// Moves the item into the set, or drops it where one equals it.
    #[inline(always)]
    fn turn(&self, state: &mut HashSet<A>, item: A) -> ControlFlow<Option<AllocError>, ()> {
        match state.insert(item) {
            Ok(true) => ControlFlow::Continue(()),
            Ok(false) => ControlFlow::Break(None),
            Err(refused) => ControlFlow::Break(Some(AllocError::from(refused))),
        }
    }
}

/// Whether the fold met the end, or what it stopped at.
pub fn unique_or_fault<E>(answer: Result<Option<Option<AllocError>>, E>) -> Result<bool, Fault<E>>
    ensures { result ≡ unique_or_fault_of answer }
{
    match answer {
        Ok(None) => Ok(true),
        Ok(Some(None)) => Ok(false),
        Ok(Some(Some(refused))) => Err(Fault::Memory(refused)),
        Err(e) => Err(Fault::Source(e)),
    }
}
