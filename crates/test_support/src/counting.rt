//! A source of which each clone allocates.
ghost use Rattle.std.specs.Prelude.{◌≡◌, ◌+◌, ◌-◌, ◌≤◌, MatchResult, MatchOption, Some};
ghost use Rattle.std.proofs.Common.{rules};
ghost use Rattle.fallible_iterator.specs.Contract.{counted_contract};
ghost use Rattle.fallible_iterator.specs.Ends.{counted_ends};

use crate::requests::Requests;
use crate::test_error::TestError;
use fallible_iterator::{DoubleEndedFallibleIterator, FallibleIterator};
use std::alloc::AllocError;

/// Yields the numbers from `from` on that are below `to`, and then ends.
#[derive(Debug, Drop)]
pub struct Counting<'a> {
    /// the next number
    pub from: u32,
    /// the number after the last
    pub to: u32,
    /// where clones allocate
    pub requests: &'a Requests,
}

impl<'a> Counting<'a> {
    /// From one number up to the one before the other. Its clones allocate where it says.
    pub fn new(from: u32, to: u32, requests: &'a Requests) -> Counting<'a> {
        Counting { from, to, requests }
    }
}

impl<'a> Clone for Counting<'a> {
    ghost is_clone = { λ s c. c ≡ s };

    fn clone(&self) -> Result<Counting<'a>, AllocError> {
        self.requests.ask()?;
        Ok(Counting {
            from: self.from,
            to: self.to,
            requests: self.requests,
        })
    }
}

impl<'a> FallibleIterator for Counting<'a> {
    type Item = u32;

    type Error = TestError;

    ghost contract = { let m = counted_contract (λ s r t. MatchResult r (λ o. MatchOption o (t.to - t.from ≤ s.to - s.from) (λ _. t.to - t.from + 1 ≤ s.to - s.from)) (λ _. ⊥)) (λ s. s.to - s.from) in record m { hints = λ s h. h ≡ (s.to - s.from, Some (s.to - s.from)) } };

    fn next(&mut self) -> Result<Option<u32>, TestError> {
        if self.from < self.to {
            let number = self.from;
            self.from += 1;
            Ok(Some(number))
        } else {
            Ok(None)
        }
    }

    fn size_hint(&self) -> (usize, Option<usize>) {
        let left = self.to.saturating_sub(self.from) as usize;
        (left, Some(left))
    }

    ghost lawful = { Prim.search rules };
}

impl<'a> DoubleEndedFallibleIterator for Counting<'a> {
    ghost ends = { counted_ends (λ s r t. MatchResult r (λ o. MatchOption o (t.to - t.from ≤ s.to - s.from) (λ _. t.to - t.from + 1 ≤ s.to - s.from)) (λ _. ⊥)) };

    fn next_back(&mut self) -> Result<Option<u32>, TestError> {
        if self.from < self.to {
            self.to -= 1;
            Ok(Some(self.to))
        } else {
            Ok(None)
        }
    }

    ghost lawful_ends = { Prim.search rules };
}

/// Yields references to two numbers, the first of them for each odd number that it counts, and then ends.
#[derive(Debug, Drop)]
pub struct Pointing<'a> {
    /// what counts
    pub counting: Counting<'a>,
    /// what is pointed to
    pub numbers: &'a [u32; 2],
}

impl<'a> Pointing<'a> {
    /// Points to these numbers. Its clones allocate where `counting` does.
    pub fn new(counting: Counting<'a>, numbers: &'a [u32; 2]) -> Pointing<'a> {
        Pointing { counting, numbers }
    }
}

impl<'a> Clone for Pointing<'a> {
    fn clone(&self) -> Result<Pointing<'a>, AllocError> {
        let counting = self.counting.clone()?;
        Ok(Pointing::new(counting, self.numbers))
    }
}

impl<'a> FallibleIterator for Pointing<'a> {
    type Item = &'a u32;

    type Error = TestError;

    ghost contract = { let m = counted_contract (λ s r t. MatchResult r (λ o. MatchOption o (t.counting.to - t.counting.from ≤ s.counting.to - s.counting.from) (λ _. t.counting.to - t.counting.from + 1 ≤ s.counting.to - s.counting.from)) (λ _. ⊥)) (λ s. s.counting.to - s.counting.from) in record m { hints = λ s h. h ≡ (s.counting.to - s.counting.from, Some (s.counting.to - s.counting.from)) } };

    fn next(&mut self) -> Result<Option<&'a u32>, TestError> {
        match self.counting.next() {
            Ok(Some(number)) => {
                if number % 2 == 1 {
                    Ok(Some(&self.numbers[0]))
                } else {
                    Ok(Some(&self.numbers[1]))
                }
            }
            Ok(None) => Ok(None),
            Err(e) => Err(e),
        }
    }

    fn size_hint(&self) -> (usize, Option<usize>) {
        self.counting.size_hint()
    }

    ghost lawful = { Prim.search rules };
}
