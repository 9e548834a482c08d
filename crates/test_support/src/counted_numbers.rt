//! A source of numbers whose calls are counted.
ghost use Rattle.std.proofs.Common.{rules};
ghost use Rattle.fallible_iterator.specs.Contract.{seen_as};
ghost use Rattle.fallible_iterator.specs.Ends.{ends_seen_as};
ghost use Rattle.fallible_iterator.specs.Laws.Contract.{lawful_seen};
ghost use Rattle.fallible_iterator.specs.Laws.Ends.{lawful_ends_seen};

use crate::counted::{Log, add};
use crate::number_list::{NumberList, listed_numbers};
use fallible_iterator::{DoubleEndedFallibleIterator, FallibleIterator, Goal, Turn};

/// Yields answers in a slice, and adds to its log what `Counted` adds. It has no type parameters.
#[derive(Clone, Drop)]
pub struct CountedNumbers<'a> {
    it: NumberList<'a>,
    log: &'a Log,
}

impl<'a> FallibleIterator for CountedNumbers<'a> {
    type Item = u32;

    type Error = u32;

    ghost contract = { seen_as (λ s. s.it)
        ⟦<NumberList<'a> as FallibleIterator>⟧.contract };

    fn next(&mut self) -> Result<Option<u32>, u32> {
        add(&self.log.nexts);
        self.it.next()
    }

    fn size_hint(&self) -> (usize, Option<usize>) {
        self.it.size_hint()
    }

    fn drive<C, R, K: Turn<C, u32, R>>(
        &mut self,
        state: &mut C,
        turn: &K,
    ) -> Result<Option<R>, u32> {
        add(&self.log.folds);
        self.it.drive(state, turn)
    }

    fn drive_to(&mut self, goal: &mut Goal<u32>) -> Result<Option<u32>, u32> {
        match goal {
            Goal::Count(_) => self.log.add_count(),
            Goal::Last(_) => self.log.add_last(),
            Goal::Nth(_) => self.log.add_nth(),
        }
        self.it.drive_to(goal)
    }

    ghost lawful = { lawful_seen {m = ⟦<NumberList<'a> as FallibleIterator>⟧.contract} (λ s. s.it) (Prim.search rules) };
}

impl<'a> DoubleEndedFallibleIterator for CountedNumbers<'a> {
    ghost ends = { ends_seen_as (λ s. s.it)
        ⟦<NumberList<'a> as DoubleEndedFallibleIterator>⟧.ends };

    fn next_back(&mut self) -> Result<Option<u32>, u32> {
        add(&self.log.next_backs);
        self.it.next_back()
    }

    fn drive_back<C, R, K: Turn<C, u32, R>>(
        &mut self,
        state: &mut C,
        turn: &K,
    ) -> Result<Option<R>, u32> {
        add(&self.log.rfolds);
        self.it.drive_back(state, turn)
    }

    ghost lawful_ends = { lawful_ends_seen {m = ⟦<NumberList<'a> as FallibleIterator>⟧.contract}
        {e = ⟦<NumberList<'a> as DoubleEndedFallibleIterator>⟧.ends} (λ s. s.it) (Prim.search rules) };
}

/// Yields the answers, and adds its calls to `log`.
pub fn counted<'a>(answers: &'a [Result<u32, u32>], log: &'a Log) -> CountedNumbers<'a> {
    CountedNumbers {
        it: listed_numbers(answers),
        log,
    }
}
