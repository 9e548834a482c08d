//! A source of listed answers, ends among them.
ghost use Rattle.std.specs.Prelude.{◌≡◌, ◌+◌, ◌≤◌, MatchResult, MatchOption};
ghost use Rattle.std.proofs.Common.{rules};
ghost use Rattle.std.specs.Vec.Iter.{into_iter_len};
ghost use Rattle.fallible_iterator.specs.Contract.{counted_contract};
ghost use Rattle.fallible_iterator.specs.Ends.{counted_ends};

use fallible_iterator::{DoubleEndedFallibleIterator, FallibleIterator};
use std::alloc::{AllocError, Global};
use std::vec::IntoIter;

/// Yields the answers, and then ends.
#[derive(Clone, Drop)]
pub struct Script<T, E> {
    /// the answers that are left
    pub answers: IntoIter<Result<Option<T>, E>>,
}

impl<T: Drop, E: Drop> FallibleIterator for Script<T, E> {
    type Item = T;

    type Error = E;

    ghost contract = { counted_contract (λ s r t. MatchResult r
        (λ o. MatchOption o (into_iter_len t.answers ≤ into_iter_len s.answers)
        (λ _. into_iter_len t.answers + 1 ≡ into_iter_len s.answers))
        (λ _. into_iter_len t.answers ≤ into_iter_len s.answers))
        (λ s. into_iter_len s.answers) };

    fn next(&mut self) -> Result<Option<T>, E> {
        match self.answers.next() {
            Some(answer) => answer,
            None => Ok(None),
        }
    }

    fn size_hint(&self) -> (usize, Option<usize>) {
        (0, None)
    }

    ghost lawful = { Prim.search rules };
}

// From the back it yields the last answer first.
impl<T: Drop, E: Drop> DoubleEndedFallibleIterator for Script<T, E> {
    ghost ends = { counted_ends (λ s r t. MatchResult r
        (λ o. MatchOption o (into_iter_len t.answers ≤ into_iter_len s.answers)
        (λ _. into_iter_len t.answers + 1 ≡ into_iter_len s.answers))
        (λ _. into_iter_len t.answers ≤ into_iter_len s.answers)) };

    fn next_back(&mut self) -> Result<Option<T>, E> {
        match self.answers.next_back() {
            Some(answer) => answer,
            None => Ok(None),
        }
    }

    ghost lawful_ends = { Prim.search rules };
}

/// A source that yields these answers, and then ends.
pub fn scripted<T: Drop, E: Drop, const N: usize>(
    alloc: Global,
    answers: [Result<Option<T>, E>; N],
) -> Result<Script<T, E>, AllocError> {
    let answers = Vec::from_array(alloc, answers)?.into_iter();
    Ok(Script { answers })
}
