//! An iterator that counts the calls which it gets.
ghost use Rattle.std.specs.Prelude.{◌≡◌, Result, Option};
ghost use Rattle.std.proofs.Common.{refl};
ghost use Rattle.fallible_iterator.specs.Contract.{around};
ghost use Rattle.fallible_iterator.specs.Ends.{ends_around};
ghost use Rattle.fallible_iterator.specs.Laws.Contract.{lawful_around};
ghost use Rattle.fallible_iterator.specs.Laws.Ends.{lawful_ends_around};

use crate::calls::Calls;
use fallible_iterator::{DoubleEndedFallibleIterator, FallibleIterator, Goal, Turn};
use std::cell::Cell;

/// How often each call came from outside. A call that types override counts as the one that callers make of it.
#[derive(Drop)]
pub struct Log {
    /// of `next`
    pub nexts: Cell<u32>,
    /// of `next_back`
    pub next_backs: Cell<u32>,
    /// of `drive`, through which `try_fold`, `fold` and `find` go
    pub folds: Cell<u32>,
    /// of `drive_back`, through which `try_rfold` and `rfold` go
    pub rfolds: Cell<u32>,
    /// of `count`
    pub counts: Cell<u32>,
    /// of `last`
    pub lasts: Cell<u32>,
    /// of `nth`
    pub nths: Cell<u32>,
}

impl Log {
    /// No call yet.
    pub fn new() -> Log {
        Log {
            nexts: Cell::new(0),
            next_backs: Cell::new(0),
            folds: Cell::new(0),
            rfolds: Cell::new(0),
            counts: Cell::new(0),
            lasts: Cell::new(0),
            nths: Cell::new(0),
        }
    }

    /// The numbers so far.
    pub fn calls(&self) -> Calls {
        Calls {
            nexts: self.nexts.get(),
            next_backs: self.next_backs.get(),
            folds: self.folds.get(),
            rfolds: self.rfolds.get(),
            counts: self.counts.get(),
            lasts: self.lasts.get(),
            nths: self.nths.get(),
        }
    }

    /// One more `count`.
    pub fn add_count(&self) {
        add(&self.counts);
    }

    /// One more `last`.
    pub fn add_last(&self) {
        add(&self.lasts);
    }

    /// One more `nth`.
    pub fn add_nth(&self) {
        add(&self.nths);
    }

    /// The numbers so far, and no call from here on.
    pub fn take(&self) -> Calls {
        Calls {
            nexts: self.nexts.replace(0),
            next_backs: self.next_backs.replace(0),
            folds: self.folds.replace(0),
            rfolds: self.rfolds.replace(0),
            counts: self.counts.replace(0),
            lasts: self.lasts.replace(0),
            nths: self.nths.replace(0),
        }
    }
}

/// A fallible iterator that adds one to its log for each call from outside, and returns what the one returns that it holds. Each of its calls is that one's call of the same name, which is not counted.
#[derive(Drop)]
pub struct Counted<'a, I> {
    it: I,
    log: &'a Log,
}

impl<'a, I> Counted<'a, I> {
    /// Counts the calls of `it` in `log`.
    pub fn new(it: I, log: &'a Log) -> Counted<'a, I>
        ensures { result.it ≡ it }
    {
        Counted { it, log }
    }
}

// One more.
pub(crate) fn add(number: &Cell<u32>) {
    number.set(number.get().wrapping_add(1));
}

impl<'a, I: FallibleIterator> FallibleIterator for Counted<'a, I> {
    type Item = I::Item;

    type Error = I::Error;

    ghost contract = { around (λ s. s.it) I.contract };

    fn next(&mut self) -> Result<Option<I::Item>, I::Error> {
        add(&self.log.nexts);
        self.it.next()
    }

    fn size_hint(&self) -> (usize, Option<usize>) {
        self.it.size_hint()
    }

    fn drive<C, R, K: Turn<C, I::Item, R>>(
        &mut self,
        state: &mut C,
        turn: &K,
    ) -> Result<Option<R>, I::Error> {
        add(&self.log.folds);
        self.it.drive(state, turn)
    }

    fn drive_to(&mut self, goal: &mut Goal<I::Item>) -> Result<Option<I::Item>, I::Error>
    where
        I::Item: Drop,
    {
        match goal {
            Goal::Count(_) => self.log.add_count(),
            Goal::Last(_) => self.log.add_last(),
            Goal::Nth(_) => self.log.add_nth(),
        }
        self.it.drive_to(goal)
    }

    ghost lawful = { lawful_around
        (record { put = λ s it. record s { it = it }; has = λ s it. refl }) I.lawful };
}

impl<'a, I: DoubleEndedFallibleIterator> DoubleEndedFallibleIterator for Counted<'a, I> {
    ghost ends = { ends_around (λ s. s.it) I.ends };

    fn next_back(&mut self) -> Result<Option<I::Item>, I::Error> {
        add(&self.log.next_backs);
        self.it.next_back()
    }

    fn drive_back<C, R, K: Turn<C, I::Item, R>>(
        &mut self,
        state: &mut C,
        turn: &K,
    ) -> Result<Option<R>, I::Error> {
        add(&self.log.rfolds);
        self.it.drive_back(state, turn)
    }

    ghost lawful_ends = { lawful_ends_around
        (record { put = λ s it. record s { it = it }; has = λ s it. refl }) I.lawful_ends };
}
