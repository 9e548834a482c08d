//! The last items, in a queue.
ghost use Rattle.std.specs.Prelude.{◌≡◌, ◌∷◌, ◌++◌, ◌≤◌, [], MatchResult, length, ⊤};
ghost use Rattle.std.specs.VecDeque.{deque_capacity, deque_items, deque_len};
ghost use Rattle.fallible_itertools.specs.Tail.{IsTailTurn, TailRefuses, tail_of};

use fallible_iterator::Turn;
use std::alloc::AllocError;
use std::collections::VecDeque;
use std::ops::ControlFlow;

// Puts the item at the end.
#[inline(always)]
fn put_last<A: Drop>(items: &mut VecDeque<A>, item: A) -> Result<(), AllocError>
    ensures { MatchResult result
        (λ _. items.new.items ≡ items.old.items ++ item ∷ [])
        (λ _. deque_capacity items.old ≤ deque_len items.old) }
{
    match items.push_back(item) {
        Ok(()) => Ok(()),
        Err(refused) => Err(AllocError::from(refused)),
    }
}

// Puts the item at the end of at most n. If there are n, the first is dropped before; of none nothing is kept.
#[inline(always)]
fn keep_last<A: Drop>(items: &mut VecDeque<A>, n: usize, item: A) -> Result<(), AllocError>
    ensures { MatchResult result
        (λ _. length items.old.items ≤ n → items.new.items ≡ tail_of n (items.old.items ++ item ∷ []))
        (λ _. TailRefuses deque_len deque_capacity n items.old item) }
{
    if items.len() < n {
        return put_last(items, item);
    }
    match items.pop_front() {
        Some(_) => put_last(items, item),
        None => Ok(()),
    }
}

/// The turn of `tail`, whose state is the last items so far.
#[derive(Drop)]
pub struct TailTurn {
    /// how many items are kept at most
    pub n: usize,
}

impl<A: Drop> Turn<VecDeque<A>, A, AllocError> for TailTurn {
    ghost can_turn = { λ _ _ _. ⊤ };

    ghost turns = { λ k q x r p. IsTailTurn deque_len deque_capacity k.n deque_items q x r p };

    /// Keeps the item, and no more than n.
    #[inline(always)]
    fn turn(&self, state: &mut VecDeque<A>, item: A) -> ControlFlow<AllocError, ()> {
        match keep_last(state, self.n, item) {
            Ok(()) => ControlFlow::Continue(()),
            Err(refused) => ControlFlow::Break(refused),
        }
    }
}
