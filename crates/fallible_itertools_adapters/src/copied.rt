//! The adapter that copies what each item points to.
ghost use Rattle.std.specs.Prelude.{⊤, Result, Option, ◌≡◌};
ghost use Rattle.fallible_iterator.specs.Contract.{parts_as};
ghost use Rattle.fallible_iterator.specs.Ends.{from_back, ends_of, ends_parts_as};
ghost use Rattle.fallible_iterator.specs.Laws.Contract.{lawful_parts};
ghost use Rattle.fallible_iterator.specs.Laws.Ends.{lawful_ends_parts};
ghost use Rattle.fallible_itertools_adapters.specs.Copied.{copied_call, copied_contract, copied_outcome, copied_of_parts, copied_parts};
ghost use Rattle.fallible_itertools_adapters.specs.Laws.Copied.{lawful_copied, lawful_ends_copied};

use fallible_iterator::extending::{Outcome, Pass, drive_back_passing, drive_passing, passed};
use fallible_iterator::{DoubleEndedFallibleIterator, FallibleIterator, Turn};

/// A copy of what each item points to. Failures and `Ok(None)` pass.
#[derive(Clone, Debug, Drop)]
pub struct Copied<I> {
    pub(crate) it: I,
}

impl<I> Copied<I> {
    /// Creates it. It draws nothing.
    #[inline(always)]
    pub fn new(it: I) -> Copied<I>
        ensures { copied_parts result ≡ (it, tt) }
    {
        Copied { it }
    }
}

impl<'a, T: Copy + 'a, I: FallibleIterator<Item = &'a T>> FallibleIterator for Copied<I> {
    type Item = T;

    type Error = I::Error;

    ghost contract = { parts_as copied_parts (copied_contract I.contract) };

    /// Draws once, and returns a copy of what the item points to.
    fn next(&mut self) -> Result<Option<T>, I::Error> {
        passed(self.it.next(), &mut (), &CopyPass)
    }

    fn size_hint(&self) -> (usize, Option<usize>) {
        self.it.size_hint()
    }

    fn drive<C, R, K: Turn<C, T, R>>(
        &mut self,
        state: &mut C,
        turn: &K,
    ) -> Result<Option<R>, I::Error> {
        drive_passing(&mut self.it, &mut (), &CopyPass, state, turn)
    }

    ghost lawful = { lawful_parts copied_of_parts (lawful_copied I.lawful) };
}

impl<'a, T: Copy + 'a, I: DoubleEndedFallibleIterator<Item = &'a T>> DoubleEndedFallibleIterator
    for Copied<I> {
    ghost ends = { ends_parts_as copied_parts
        (ends_of (copied_contract (from_back I.contract I.ends))) };

    /// Draws once from the back, and returns a copy of what the item points to.
    fn next_back(&mut self) -> Result<Option<T>, I::Error> {
        passed(self.it.next_back(), &mut (), &CopyPass)
    }

    fn drive_back<C, R, K: Turn<C, T, R>>(
        &mut self,
        state: &mut C,
        turn: &K,
    ) -> Result<Option<R>, I::Error> {
        drive_back_passing(&mut self.it, &mut (), &CopyPass, state, turn)
    }

    ghost lawful_ends = { lawful_ends_parts copied_of_parts (lawful_ends_copied I.lawful_ends) };
}

// A copy of what an item points to. It keeps no state.
#[derive(Drop)]
struct CopyPass;

impl<'b, T: Copy + 'b, E> Pass<(), &'b T, E> for CopyPass {
    type Kept = T;

    type Answer = ();

    ghost can_pass = { λ _ _ _. ⊤ };

    ghost call = { λ _ u x v w. copied_call u x v w };

    ghost outcome = { λ _ x v. copied_outcome x v };

    #[inline(always)]
    fn pass(&self, _state: &mut (), item: &'b T) -> Outcome<T, E> {
        Outcome::Kept(*item)
    }
}
