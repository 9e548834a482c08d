//! The trait of fallible iterators: one call that each type writes, and all that comes with it.
ghost use Rattle.std.specs.Prelude.{◌≡◌, true, false, ◌+◌, ◌-◌, ◌≤◌, ◌<◌, ◌^◌, List, Option, Result, Some, None, Ok, MatchResult, IfOk, ◌⊎◌, Err};
ghost use Rattle.std.specs.Iterator.Runs.{EachRunFrom, ItemsAre};
ghost use Rattle.fallible_contract.specs.Clauses.{OverList, OverListWith, OverBoth};
ghost use Rattle.fallible_contract.specs.Contract.{Contract, AtMost, Lawful, Stays, NeverFails, seen_as, parts_as};
ghost use Rattle.fallible_contract.specs.Closures.{IsCallable, call_by_value, takes_by_value, call_by_reference, takes_by_reference};
ghost use Rattle.fallible_contract.specs.Collecting as collecting;
ghost use Rattle.fallible_contract.specs.Lists as list;
ghost use Rattle.fallible_contract.specs.Comparing as comparing;
ghost use Rattle.fallible_contract.specs.Picking as pick;
ghost use Rattle.fallible_contract.specs.Searching as search;
ghost use Rattle.fallible_contract.specs.Failing.{failures_mapped};
ghost use Rattle.fallible_contract.specs.Folds as fold;
ghost use Rattle.fallible_contract.specs.Goals.{Reachable, goal_turns};
ghost use Rattle.fallible_core.specs.OneToOne.Enumerate.{IsNumberable, enumerate_parts, enumerate_contract, numbered};
ghost use Rattle.fallible_core.specs.Filtering.SkipWhile as skip_while;
ghost use Rattle.fallible_core.specs.OneToOne.Scan as scan;
ghost use Rattle.fallible_core.specs.OneToOne.Map.{map_parts, map_contract, mapped, map_source, map_closure};
ghost use Rattle.fallible_core.specs.OneToOne.Inspect.{inspect_parts, inspect_contract, inspected};
ghost use Rattle.fallible_core.specs.Filtering.Filter.{filter_parts, filter_contract, filtered};
ghost use Rattle.fallible_core.specs.Filtering.FilterMap.{filter_map_parts, filter_map_contract, filter_mapped};
ghost use Rattle.fallible_core.specs.OneToOne.MapWhile.{map_while_parts, map_while_contract, mapped_while};
ghost use Rattle.fallible_core.specs.OneToOne.MapErr.{map_err_parts, map_err_contract};
ghost use Rattle.fallible_core.specs.OneToOne.Cloned.{cloned_parts, cloned_contract, pointed_to};
ghost use Rattle.fallible_core.specs.Refusing.{ListsUntilRefused};
ghost use Rattle.fallible_core.specs.Ends.Rev.{rev_parts, rev_contract};
ghost use Rattle.fallible_core.specs.Cutting.Take.{take_parts, take_contract, taken};
ghost use Rattle.fallible_core.specs.Cutting.TakeWhile as take_while;
ghost use Rattle.fallible_core.specs.Cutting.Fuse.{fuse_parts, fuse_contract};
ghost use Rattle.fallible_core.specs.Cutting.Skip.{skip_parts, skip_contract, skipped};
ghost use Rattle.fallible_core.specs.Cutting.StepBy as step_by;
ghost use Rattle.fallible_core.specs.Joining.Chain as chain;
ghost use Rattle.fallible_core.specs.Joining.Zip as zip;
ghost use Rattle.fallible_core.specs.Joining.Flatten as flatten;
ghost use Rattle.fallible_core.specs.Joining.FlatMap as flat_map;
ghost use Rattle.fallible_core.specs.Borrowed.{borrowed};
ghost use Rattle.fallible_core.specs.Bridges.Iterator.{iterator_parts, iterator_steps};
ghost use Rattle.fallible_core.specs.Bridges.Unwrap.{unwrap_parts, unwrap_steps, unwrapped};
ghost use Rattle.fallible_core.specs.Peeking.Peekable.{peekable_parts, peekable_contract};
ghost use Rattle.fallible_core.specs.Joining.Cycle.{cycle_kept, cycle_source};
ghost use Rattle.std.specs.declared.cmp.Ordering.{Ordering};
ghost use Rattle.std.specs.declared.cmp.Ordering.TheVariants.{Less, Greater};
ghost use Rattle.fallible_contract.specs.declared.collecting.Fault.TheVariants.{Source};
ghost use Rattle.fallible_core.specs.declared.joining.chain.StillDrawn.TheVariants.{Both};

mod borrowed;
mod boxed;
pub mod conversion;
pub mod double_ended;

use crate::bridges::{Iterator, Unwrap};
use crate::comparing::{compare, compare_read};
use crate::cutting::{Fuse, Skip, StepBy, Take, TakeWhile};
use crate::ends::Rev;
use crate::filtering::{Filter, FilterMap, SkipWhile};
use crate::joining::{Chain, Cycle, FlatMap, Flatten, StillDrawn, Zip};
use crate::number::Number;
use crate::one_to_one::{Cloned, Enumerate, Inspect, Map, MapErr, MapWhile, Scan};
use crate::peeking::Peekable;
use crate::picking::{best_by, best_by_key};
use crate::traits::conversion::IntoFallibleIterator;
use crate::traits::double_ended::DoubleEndedFallibleIterator;
use fallible_contract::collecting::{Collect, CollectTurn, Fault, PartitionTurn, UnzipTurn};
use fallible_contract::comparing::{
    ByCmp, ByEq, ByPartialCmp, ReadEq, ReadGe, ReadGt, ReadLe, ReadLt, ReadNe, ordered,
};
use fallible_contract::folds::{CountTurn, LastTurn, ReduceTurn, TryFoldTurn, Turn};
use fallible_contract::goals::Goal;
use fallible_contract::picking::without_key;
use fallible_contract::searching::{
    AllTurn, AnyTurn, FindMapTurn, FindTest, FindTurn, ForEachTurn, PositionTurn, answer_or,
    answer_or_none, found,
};
use std::alloc::{AllocError, Global};
use std::cmp::Ordering;
use std::fmt::Debug;
use std::marker::PhantomData;
use std::ops::ControlFlow;

/// An iterator whose `next` may fail. It may go on after `Ok(None)` and after a failure.
///
/// A type of one's own writes `next` and `size_hint`, which has a default in Rust.
///
/// Proof: it also writes `contract`: its step, and what it says of what is still to come. `counted_contract` of `specs/Contract` makes that of a step and a bound, and a search then finds `lawful`; `listing` of `specs/Showing` makes it of the list that a value shows.
pub trait FallibleIterator: Drop + Sized {
    /// The type of its items.
    type Item;

    /// The type of its failures.
    type Error;

    // All that the contract says of the values of this type.
    ghost contract: { Contract Self Self.Item Self.Error };

    /// Returns the next item, a failure or `Ok(None)`.
    ///
    /// It is one draw. After that `next` may be called again.
    ///
    /// Requires: the type's own condition, `can_next`, holds. A search finds it for what sources and adapters make, and each draw keeps it.
    ///
    /// Proof: the type's step says what it returns, where it fails and what is left. That `next` may be called again is the type's law.
    ///
    /// ```
    /// let mut it = convert([Ok::<u32, u8>(150), Err(9)].into_iter());
    /// let drawn = [it.next(), it.next(), it.next()];
    /// assert_eq!(rt; drawn, [Ok(Some(150)), Err(9), Ok(None)]);
    /// ```
    fn next(&mut self) -> Result<Option<Self::Item>, Self::Error>
        requires { contract.can_next self.old }
        ensures { contract.steps self.old result self.new };

    /// Returns bounds on the number of items up to the first `Ok(None)`, if no failure comes before it. A type that knows no bounds returns `(0, None)`.
    ///
    /// It draws nothing and never fails. The iterator is as before.
    ///
    /// Proof: the clause says the type's rule. That such bounds hold is said by `laws::hints` of `fallible_iterator`.
    ///
    /// ```
    /// let mut it = once::<u32, u8>(150);
    /// assert_eq!(rt; it.size_hint(), (1, Some(1)));
    /// assert_eq!(rt; it.next(), Ok(Some(150)));
    /// assert_eq!(rt; it.size_hint(), (0, Some(0)));
    /// ```
    fn size_hint(&self) -> (usize, Option<usize>)
        ensures { contract.hints self.now result };

    /// Returns a bound, for a loop of one's own to count down by. It has no bytes.
    ///
    /// It draws nothing and never fails. The iterator is as before.
    ///
    /// Precondition: the iterator is finite.
    ///
    /// Proof: only clauses read it. `let mut left = it.number();` stands before the loop, `left = left.one_less();` after each item, and `left.value` is the measure. The invariant is that `next` may be called, and that some bound of the iterator is at most `left.value`.
    ///
    /// ```
    /// let mut left = (*it).number();
    /// while let Some(_) = it.draw()? {
    ///     left = left.one_less();
    /// }
    /// ```
    fn number(&self) -> Number
        requires { contract.is_finite self.now }
        ensures { contract.bound self.now result.value }
    {
        Number {
            marker: PhantomData,
        }
    }

    /// For types that override folds: draws until `Ok(None)`, a failure or a turn that stops the fold. It returns what `next` could: `Ok(None)`, the failure, or what the turn stopped with. `state` points to all that changes from turn to turn. Every fold goes through it. A caller uses `try_fold`.
    fn drive<C, R, K: Turn<C, Self::Item, R>>(
        &mut self,
        state: &mut C,
        turn: &K,
    ) -> Result<Option<R>, Self::Error>
    where
        requires can_next { contract.can_next self.old }
        requires finite { contract.is_finite self.old }
        requires callable { fold.CallableDriving contract.steps (K.turns turn.now)
            (K.can_turn turn.now) self.old state.old }
        ensures { fold.Driven contract.steps (K.turns turn.now) self.old state.old result
            self.new state.new }
    {
        let mut left = (*self).number();
        loop {
            match self.next() {
                Ok(Some(x)) => match turn.turn(state, x) {
                    ControlFlow::Continue(()) => {}
                    ControlFlow::Break(stop) => return Ok(Some(stop)),
                },
                Ok(None) => return Ok(None),
                Err(e) => return Err(e),
            }
            left = left.one_less();
        }
    }

    /// For types that override `count`, `last` or `nth`: draws until `Ok(None)`, a failure or the item that the goal asks for. The goal goes on at each item, also before a failure. These three calls go through it, which a caller uses.
    fn drive_to(&mut self, goal: &mut Goal<Self::Item>) -> Result<Option<Self::Item>, Self::Error>
    where
        Self::Item: Drop,
        requires can_next { contract.can_next self.old }
        requires reachable { Reachable contract self.old goal.old }
        ensures { fold.Driven contract.steps goal_turns self.old goal.old result
            self.new goal.new }
    {
        match goal {
            Goal::Count(number) => match self.drive(number, &CountTurn) {
                Ok(None) => Ok(None),
                Ok(Some(never)) => match never {},
                Err(e) => Err(e),
            },
            Goal::Last(item) => match self.drive(item, &LastTurn) {
                Ok(None) => Ok(None),
                Ok(Some(never)) => match never {},
                Err(e) => Err(e),
            },
            Goal::Nth(left) => {
                while 0 < *left {
                    match self.next() {
                        Ok(Some(_)) => {}
                        Ok(None) => return Ok(None),
                        Err(e) => return Err(e),
                    }
                    *left -= 1;
                }
                self.next()
            }
        }
    }

    /// Returns the number of items up to `Ok(None)`.
    ///
    /// It draws up to `Ok(None)` or the first failure. It fails with that failure. It consumes the iterator.
    ///
    /// Precondition: at most `usize::MAX` items are left.
    ///
    /// Requires: `next` may be called.
    ///
    /// Proof: no clause says what is left.
    ///
    /// ```
    /// let readings = [Ok::<u32, u8>(150), Ok(7), Ok(700)];
    /// assert_eq!(rt; convert(readings.into_iter()).count(), Ok(3));
    ///
    /// let cut = [Ok::<u32, u8>(150), Err(9), Ok(700)];
    /// assert_eq!(rt; convert(cut.into_iter()).count(), Err(9));
    /// ```
    final fn count(mut self) -> Result<usize, Self::Error>
    where
        Self::Item: Drop,
        requires can_next { contract.can_next self }
        requires fits { AtMost contract self (2 ^ 64 - 1) }
        ensures counted { (after : Self) × fold.CountDrains contract.steps self result after }
        ensures value { OverList contract.steps self (λ l. result ≡ list.counted l) }
    {
        let mut goal = Goal::Count(0);
        match self.drive_to(&mut goal) {
            Ok(_) => match goal {
                Goal::Count(number) => Ok(number),
                _ => unreachable!(),
            },
            Err(e) => Err(e),
        }
    }

    /// Returns the last item before `Ok(None)`; `Ok(None)` if there is none.
    ///
    /// Draws and errors: as `count`. It consumes the iterator too.
    ///
    /// Precondition: the iterator is finite.
    ///
    /// Requires: `next` may be called.
    ///
    /// ```
    /// let readings = [Ok::<u32, u8>(150), Ok(7), Ok(700)];
    /// assert_eq!(rt; convert(readings.into_iter()).last(), Ok(Some(700)));
    ///
    /// let cut = [Ok::<u32, u8>(150), Err(9), Ok(700)];
    /// assert_eq!(rt; convert(cut.into_iter()).last(), Err(9));
    /// ```
    final fn last(mut self) -> Result<Option<Self::Item>, Self::Error>
    where
        Self::Item: Drop,
        requires can_next { contract.can_next self }
        requires finite { contract.is_finite self }
        ensures last { (after : Self) × fold.LastDrains contract.steps self result after }
        ensures value { OverList contract.steps self (λ l. result ≡ list.last_of l) }
    {
        let mut goal = Goal::Last(None);
        match self.drive_to(&mut goal) {
            Ok(_) => match goal {
                Goal::Last(item) => Ok(item),
                _ => unreachable!(),
            },
            Err(e) => Err(e),
        }
    }

    /// Returns the item with n items before it; `Ok(None)` if the iterator ends first.
    ///
    /// It draws at most n + 1 times: up to that item, or a failure or `Ok(None)` before it. It fails with that failure. Nothing is drawn after that, and the iterator may be used again.
    ///
    /// Requires: `next` may be called.
    ///
    /// ```
    /// let mut it = convert([Ok::<u32, u8>(0), Ok(1), Ok(2), Err(9), Ok(4)].into_iter());
    /// let drawn = [it.nth(1), it.nth(5), it.nth(0), it.nth(0)];
    /// assert_eq!(rt; drawn, [Ok(Some(1)), Err(9), Ok(Some(4)), Ok(None)]);
    /// ```
    final fn nth(&mut self, n: usize) -> Result<Option<Self::Item>, Self::Error>
    where
        Self::Item: Drop,
        requires { contract.can_next self.old }
        ensures nth { fold.NthDrains contract.steps self.old n result self.new }
        ensures value { OverList contract.steps self.old (λ l. result ≡ list.nth_of n l) }
        ensures rest { OverList contract.steps self.old
            (λ l. ¬ (result ≡ Ok None) → list.Lists contract.steps self.new (list.rest_nth n l)) }
        ensures stays { Stays contract self.old self.new }
    {
        let mut goal = Goal::Nth(n);
        self.drive_to(&mut goal)
    }

    /// Calls the closure on the value so far and each item in order, and returns the last value at `Ok(None)`.
    ///
    /// It draws up to `Ok(None)`, the first failure or an item on which the closure fails. It fails with the iterator's failure, converted, or with the closure's error. Nothing is drawn after that, and the iterator may be used again.
    ///
    /// Precondition: the iterator is finite.
    ///
    /// Requires: `next` may be called, and the closure may be called on the value so far and each item that may come.
    ///
    /// ```
    /// let mut it = convert([Ok::<u8, &str>(100), Ok(100), Ok(100), Ok(7)].into_iter());
    /// let sum: Result<u8, &str> = it.try_fold(
    ///     0,
    ///     |sum: u8, x: u8| sum.checked_add(x).ok_or("too large"),
    /// );
    /// assert_eq!(rt; sum, Err("too large"));
    /// assert_eq!(rt; it.next(), Ok(Some(7)));
    /// ```
    final fn try_fold<B, E, F>(&mut self, init: B, f: F) -> Result<B, E>
    where
        B: Drop,
        E: From<Self::Error>,
        F: FnMut(B, Self::Item) -> Result<B, E>,
        requires can_next { contract.can_next self.old }
        requires finite { contract.is_finite self.old }
        requires callable { fold.CallableInFold contract.steps (fold.call_with F.FnMut)
            (fold.takes_with F.FnMut) self.old f init }
        ensures folded { fold.FoldDrains contract.steps (fold.call_with F.FnMut) E.from_gives
            self.old init f result self.new }
        ensures value { (convert : Self.Error → E) → list.Converts E.from_gives convert
            → OverListWith (list.ActsWith (fold.call_with F.FnMut) f) contract.steps self.old
            (λ h l. result ≡ list.folded convert h init l) }
        ensures rest { OverListWith (list.ActsWith (fold.call_with F.FnMut) f) contract.steps
            self.old (λ h l. (e : E) → result ≡ Err e
            → list.Lists contract.steps self.new (list.rest_fold h init l)) }
        ensures stays { Stays contract self.old self.new }
    {
        let mut state = (Some(init), f);
        let answer = self.drive(&mut state, &TryFoldTurn);
        let (value, _) = state;
        match answer {
            Ok(None) => match value {
                Some(value) => Ok(value),
                None => unreachable!(),
            },
            Ok(Some(e)) => Err(e),
            Err(e) => Err(E::from(e)),
        }
    }

    /// As `try_fold`, but the closure fails with the iterator's own error, and the iterator is consumed.
    ///
    /// It draws up to `Ok(None)`, the first failure or an item on which the closure fails. It fails with the first failure, of this iterator or of the closure.
    ///
    /// Precondition: the iterator is finite.
    ///
    /// Requires: what `try_fold` requires.
    ///
    /// Proof: no clause says what is left.
    ///
    /// ```
    /// let readings = [Ok::<u32, u8>(150), Ok(7), Ok(700)];
    /// let sum = convert(readings.into_iter()).fold(0, |sum: u32, reading: u32| {
    ///     Ok(sum.wrapping_add(reading))
    /// });
    /// assert_eq!(rt; sum, Ok(857));
    /// ```
    final fn fold<B, F>(mut self, init: B, f: F) -> Result<B, Self::Error>
    where
        B: Drop,
        F: FnMut(B, Self::Item) -> Result<B, Self::Error>,
        requires can_next { contract.can_next self }
        requires finite { contract.is_finite self }
        requires callable { fold.CallableInFold contract.steps (fold.call_with F.FnMut)
            (fold.takes_with F.FnMut) self f init }
        ensures folded { (left : Self) × fold.FoldDrains contract.steps (fold.call_with F.FnMut)
            (λ e d. d ≡ e) self init f result left }
        ensures value { OverListWith (list.ActsWith (fold.call_with F.FnMut) f) contract.steps self
            (λ h l. result ≡ list.folded (λ e. e) h init l) }
    {
        self.try_fold(init, f)
    }

    /// As `fold`, from the first item on: that item is the value so far, and the closure is called on it and each further item. It returns `Ok(None)` if no item comes.
    ///
    /// Draws, errors and precondition: as `fold`. It consumes the iterator too.
    ///
    /// ```
    /// let readings = [Ok::<u32, u8>(150), Ok(7), Ok(700)];
    /// let sum = convert(readings.into_iter()).reduce(|sum, reading| Ok(sum.wrapping_add(reading)));
    /// assert_eq!(rt; sum, Ok(Some(857)));
    /// ```
    final fn reduce<F>(mut self, f: F) -> Result<Option<Self::Item>, Self::Error>
    where
        Self::Item: Drop,
        F: FnMut(Self::Item, Self::Item) -> Result<Self::Item, Self::Error>,
        requires can_next { contract.can_next self }
        requires finite { contract.is_finite self }
        requires callable { fold.CallableInFold contract.steps
            (fold.ReduceCall (fold.call_with F.FnMut))
            (fold.reduce_takes (fold.takes_with F.FnMut)) self f None }
        ensures reduced { (left : Self) × fold.FoldDrains contract.steps
            (fold.ReduceCall (fold.call_with F.FnMut)) (λ e d. d ≡ e) self None f result left }
        ensures value { OverListWith (list.ActsWith (fold.call_with F.FnMut) f) contract.steps self
            (λ h l. result ≡ list.reduced h l) }
    {
        let mut state = (None, f);
        let answer = self.drive(&mut state, &ReduceTurn);
        let (value, _) = state;
        match answer {
            Ok(None) => Ok(value),
            Ok(Some(e)) => Err(e),
            Err(e) => Err(e),
        }
    }

    // What the other functions know of a draw: see `KeptByDraw`.
    ghost lawful: { Lawful contract };

    /// Yields what the closure returns for each item.
    ///
    /// Creating it draws nothing and calls nothing. `next` draws once. It fails as the source does. If the closure fails, its failure is yielded, and the item is lost. After a failure and after `Ok(None)` the next call draws again.
    ///
    /// Requires: the closure may be called on each item that may come, in each state that such calls bring it to.
    ///
    /// ```
    /// let readings = [Ok::<u32, u8>(150), Ok(7), Ok(700)];
    /// let mut it = convert(readings.into_iter()).map(|reading| if reading < 10 {
    ///     Err(9)
    /// } else {
    ///     Ok(reading / 10)
    /// });
    /// let drawn = [it.next(), it.next(), it.next(), it.next()];
    /// assert_eq!(rt; drawn, [Ok(Some(15)), Err(9), Ok(Some(70)), Ok(None)]);
    /// ```
    final fn map<F, B>(self, f: F) -> Map<Self, F>
    where
        F: FnMut(Self::Item) -> Result<B, Self::Error>,
        requires { IsCallable (call_by_value F.FnMut) (takes_by_value F.FnMut) (contract.may_give self) f }
        ensures parts { map_parts result ≡ (self, f) }
        ensures lists { OverListWith (list.Acts (call_by_value F.FnMut) f) contract.steps self
            (λ h l. list.Lists (parts_as map_parts (map_contract contract F.FnMut)).steps
            result (mapped h l)) }
    {
        Map { it: self, f }
    }

    /// Yields the items for which the predicate returns true. The others are dropped.
    ///
    /// Creating it draws nothing and calls nothing. `next` draws until an item is kept, or a failure or `Ok(None)` comes. It fails as the source does. If the predicate fails, its failure is yielded, and the item is lost. After a failure and after `Ok(None)` the next call draws again.
    ///
    /// Precondition: the iterator is finite, since one call may leave many items out.
    ///
    /// Requires: of the predicate what `map` requires of its closure. `next` requires `Item: Drop`.
    ///
    /// ```
    /// let readings = [Ok::<u32, u8>(150), Ok(7), Err(9), Ok(700)];
    /// let mut it = convert(readings.into_iter()).filter(|reading| Ok(*reading > 100));
    /// let drawn = [it.next(), it.next(), it.next(), it.next()];
    /// assert_eq!(rt; drawn, [Ok(Some(150)), Err(9), Ok(Some(700)), Ok(None)]);
    /// ```
    final fn filter<F>(self, f: F) -> Filter<Self, F>
    where
        F: FnMut(&Self::Item) -> Result<bool, Self::Error>,
        requires finite { contract.is_finite self }
        requires callable { IsCallable (call_by_reference F.FnMut) (takes_by_reference F.FnMut)
            (contract.may_give self) f }
        ensures parts { filter_parts result ≡ (self, f) }
        ensures lists { OverListWith (list.Acts (call_by_reference F.FnMut) f) contract.steps self
            (λ h l. list.Lists (parts_as filter_parts (filter_contract contract F.FnMut)).steps
            result (filtered h l)) }
    {
        Filter { it: self, f }
    }

    /// Yields the source's items up to the n-th, and then `Ok(None)`. Failures and `Ok(None)` of the source pass, and don't count.
    ///
    /// Creating it draws nothing. `next` draws once, and nothing after the n-th item. It fails as the source does. Behaviour after a failure and after `Ok(None)`, up to the n-th item: as `map`. After that item each call returns `Ok(None)`.
    ///
    /// ```
    /// let readings = [Ok::<u32, u8>(150), Err(9), Ok(7), Ok(700)];
    /// let mut it = convert(readings.into_iter()).take(2);
    /// let drawn = [it.next(), it.next(), it.next(), it.next()];
    /// assert_eq!(rt; drawn, [Ok(Some(150)), Err(9), Ok(Some(7)), Ok(None)]);
    /// ```
    final fn take(self, n: usize) -> Take<Self>
        ensures parts { take_parts result ≡ (self, n) }
        ensures lists { OverList contract.steps self
            (λ l. list.Lists (parts_as take_parts (take_contract contract)).steps result
            (taken n l)) }
        ensures repeats { (x : Self.Item) → list.Repeats contract.steps self (Ok x)
            → list.Lists (parts_as take_parts (take_contract contract)).steps result
            (list.repeated n x) }
    {
        Take {
            it: self,
            to_take: n,
        }
    }

    /// Yields the items before the first one that the predicate rejects. That one is lost, and the adapter is exhausted.
    ///
    /// Up to the rejected item: laziness, draws, errors and behaviour after `Ok(None)` as `map`. After that item it draws nothing, and each call returns `Ok(None)`.
    ///
    /// Requires: of the predicate what `map` requires of its closure. `next` requires `Item: Drop`.
    ///
    /// ```
    /// let readings = [Ok::<u32, u8>(150), Ok(7), Ok(700)];
    /// let mut it = convert(readings.into_iter()).take_while(|reading| Ok(*reading > 100));
    /// let drawn = [it.next(), it.next(), it.next()];
    /// assert_eq!(rt; drawn, [Ok(Some(150)), Ok(None), Ok(None)]);
    /// ```
    final fn take_while<P>(self, predicate: P) -> TakeWhile<Self, P>
    where
        P: FnMut(&Self::Item) -> Result<bool, Self::Error>,
        requires { IsCallable (call_by_reference P.FnMut)
            (takes_by_reference P.FnMut) (contract.may_give self) predicate }
        ensures source { take_while.take_while_source result ≡ self }
        ensures predicate { take_while.take_while_predicate result ≡ predicate }
        ensures refused { take_while.take_while_refused result ≡ false }
        ensures lists { OverListWith (list.Acts (call_by_reference P.FnMut) predicate) contract.steps self
            (λ h l. list.Lists (seen_as take_while.take_while_parts
            (take_while.take_while_contract contract P.FnMut)).steps
            result (take_while.taken_while h l)) }
    {
        TakeWhile {
            it: self,
            taking: (false, predicate),
        }
    }

    /// Yields what the source yields up to its first `Ok(None)`. From there on each call returns `Ok(None)`.
    ///
    /// Creating it draws nothing. `next` draws once, and nothing after that `Ok(None)`. It fails as the source does. A failure doesn't exhaust it: the next call draws again.
    ///
    /// ```
    /// let mut calls = 0u32;
    /// let mut it = from_fn(|| -> Result<Option<u32>, u8> {
    ///     calls = calls.wrapping_add(1);
    ///     Ok(if calls == 2 { None } else { Some(calls) })
    /// })
    /// .fuse();
    /// let drawn = [it.next(), it.next(), it.next()];
    /// assert_eq!(rt; drawn, [Ok(Some(1)), Ok(None), Ok(None)]);
    /// ```
    final fn fuse(self) -> Fuse<Self>
        ensures parts { fuse_parts result ≡ (self, false) }
        ensures lists { OverList contract.steps self
            (λ l. list.Lists (parts_as fuse_parts (fuse_contract contract)).steps result l) }
        ensures for_good { OverList contract.steps self
            (λ l. list.ListsForGood (parts_as fuse_parts (fuse_contract contract)).steps result l) }
    {
        Fuse {
            it: self,
            ended: false,
        }
    }

    /// Skips the first n items.
    ///
    /// Creating it draws nothing. `next` draws at most n + 1 times. It fails as the source does. A failure or an `Ok(None)` among the first n items is returned, and the rest of them is skipped after it.
    ///
    /// Requires: nothing. `next` requires `Item: Drop`.
    ///
    /// ```
    /// let readings = [Ok::<u32, u8>(150), Err(9), Ok(7), Ok(700)];
    /// let mut it = convert(readings.into_iter()).skip(2);
    /// let drawn = [it.next(), it.next(), it.next()];
    /// assert_eq!(rt; drawn, [Err(9), Ok(Some(700)), Ok(None)]);
    /// ```
    final fn skip(self, n: usize) -> Skip<Self>
        ensures parts { skip_parts result ≡ (self, n) }
        ensures lists { OverList contract.steps self
            (λ l. list.Lists (parts_as skip_parts (skip_contract contract)).steps result
            (skipped n l)) }
    {
        Skip {
            it: self,
            to_skip: n,
        }
    }

    /// Yields the first item, and then every `step`-th one. Failures and `Ok(None)` pass, and don't count.
    ///
    /// Creating it draws nothing. `next` draws at most `step` times. It fails as the source does. After a failure and after `Ok(None)` it goes on counting.
    ///
    /// In Rust it panics if the step is 0.
    ///
    /// Requires: the step is at least 1. `next` requires `Item: Drop`.
    ///
    /// ```
    /// let numbers = [Ok::<u32, u8>(0), Ok(1), Ok(2), Ok(3), Ok(4)];
    /// let mut it = convert(numbers.into_iter()).step_by(2);
    /// let drawn = [it.next(), it.next(), it.next(), it.next()];
    /// assert_eq!(rt; drawn, [Ok(Some(0)), Ok(Some(2)), Ok(Some(4)), Ok(None)]);
    /// ```
    final fn step_by(self, step: usize) -> StepBy<Self>
        requires { 1 ≤ step }
        ensures source { step_by.step_by_source result ≡ self }
        ensures between { step_by.step_by_between result ≡ step - 1 }
        ensures to_skip { step_by.step_by_to_skip result ≡ 0 }
        ensures lists { OverList contract.steps self
            (λ l. list.Lists (seen_as step_by.step_by_parts
            (step_by.step_by_contract contract)).steps result (step_by.stepped (step - 1) 0 l)) }
    {
        StepBy {
            it: self,
            between: step - 1,
            to_skip: 0,
        }
    }

    /// Yields the values that the closure returns for the items. An item for which it returns `None` is left out.
    ///
    /// Laziness, draws, errors and behaviour after `Ok(None)`: as `filter`.
    ///
    /// Precondition: the iterator is finite, as for `filter`.
    ///
    /// Requires: of the closure what `map` requires.
    ///
    /// ```
    /// let words = [Ok::<&str, u8>("150"), Ok("none"), Err(9), Ok("700")];
    /// let mut it = convert(words.into_iter()).filter_map(|word| Ok(word.parse::<u32>().ok()));
    /// let drawn = [it.next(), it.next(), it.next(), it.next()];
    /// assert_eq!(rt; drawn, [Ok(Some(150)), Err(9), Ok(Some(700)), Ok(None)]);
    /// ```
    final fn filter_map<B, F>(self, f: F) -> FilterMap<Self, F>
    where
        F: FnMut(Self::Item) -> Result<Option<B>, Self::Error>,
        requires finite { contract.is_finite self }
        requires callable { IsCallable (call_by_value F.FnMut) (takes_by_value F.FnMut)
            (contract.may_give self) f }
        ensures parts { filter_map_parts result ≡ (self, f) }
        ensures lists { OverListWith (list.Acts (call_by_value F.FnMut) f) contract.steps self
            (λ h l. list.Lists (parts_as filter_map_parts
            (filter_map_contract contract F.FnMut)).steps result (filter_mapped h l)) }
    {
        FilterMap { it: self, f }
    }

    /// Calls the closure on a reference to each item, and then yields the item.
    ///
    /// Laziness, draws, errors and behaviour after `Ok(None)`: as `map`.
    ///
    /// Requires: what `map` requires, of calls on a reference to each item. `next` requires `Item: Drop`.
    ///
    /// ```
    /// let readings = [Ok::<u32, u8>(150), Err(9), Ok(700)];
    /// let mut sum = 0u32;
    /// let drained = convert(readings.into_iter())
    ///     .inspect(|reading| {
    ///         sum = sum.wrapping_add(*reading);
    ///         Ok(())
    ///     })
    ///     .count();
    /// assert_eq!(rt; (drained, sum), (Err(9), 150));
    /// ```
    final fn inspect<F>(self, f: F) -> Inspect<Self, F>
    where
        F: FnMut(&Self::Item) -> Result<(), Self::Error>,
        requires { IsCallable (call_by_reference F.FnMut) (takes_by_reference F.FnMut) (contract.may_give self) f }
        ensures parts { inspect_parts result ≡ (self, f) }
        ensures lists { OverListWith (list.Acts (call_by_reference F.FnMut) f) contract.steps self
            (λ h l. list.Lists (parts_as inspect_parts (inspect_contract contract F.FnMut)).steps
            result (inspected h l)) }
    {
        Inspect { it: self, f }
    }

    /// Replaces each failure by what the closure returns for it. The closure is called once on each failure, and on nothing else.
    ///
    /// Laziness, draws and behaviour after `Ok(None)`: as `map`. It fails where the source does, with what the closure returns.
    ///
    /// Requires: the closure may be called on each failure that may come.
    ///
    /// ```
    /// let readings = [Ok::<u32, u8>(150), Err(9)];
    /// let mut it = convert(readings.into_iter()).map_err(|code| (code, "no reading"));
    /// let drawn = [it.next(), it.next(), it.next()];
    /// assert_eq!(rt; drawn, [Ok(Some(150)), Err((9, "no reading")), Ok(None)]);
    /// ```
    final fn map_err<B, F>(self, f: F) -> MapErr<Self, F>
    where
        F: FnMut(Self::Error) -> B,
        requires { IsCallable (call_by_value F.FnMut) (takes_by_value F.FnMut) (contract.may_fail self) f }
        ensures parts { map_err_parts result ≡ (self, f) }
        ensures lists { OverListWith (list.Acts (call_by_value F.FnMut) f) contract.steps self
            (λ h l. list.Lists (parts_as map_err_parts (map_err_contract contract F.FnMut)).steps
            result (failures_mapped h l)) }
    {
        MapErr { it: self, f }
    }

    /// Pairs each item with the number of items before it, from 0 on. Failures and `Ok(None)` don't count.
    ///
    /// Laziness, draws and behaviour after `Ok(None)`: as `map`. It fails as the source does.
    ///
    /// Precondition: at most `usize::MAX` items are still to come, so that each number fits.
    ///
    /// Requires: nothing else. `next` requires `Item: Drop`, and so do its `count` and `nth`.
    ///
    /// ```
    /// let letters = [Ok::<char, u8>('a'), Err(9), Ok('b')];
    /// let mut it = convert(letters.into_iter()).enumerate();
    /// let drawn = [it.next(), it.next(), it.next(), it.next()];
    /// assert_eq!(rt;
    ///     drawn,
    ///     [Ok(Some((0, 'a'))), Err(9), Ok(Some((1, 'b'))), Ok(None)]
    /// );
    /// ```
    final fn enumerate(self) -> Enumerate<Self>
        requires { AtMost contract self (2 ^ 64 - 1) }
        ensures parts { enumerate_parts result ≡ (self, 0) }
        ensures numberable { contract.can_next self → IsNumberable contract self 0 }
        ensures lists { OverList contract.steps self
            (λ l. list.Lists (parts_as enumerate_parts (enumerate_contract contract)).steps
            result (numbered 0 l)) }
    {
        Enumerate { it: self, count: 0 }
    }

    /// Skips the items before the first one for which the predicate returns false. The predicate isn't called after that.
    ///
    /// Laziness, draws, errors and behaviour after `Ok(None)`: as `filter`. If the predicate fails, the skipping goes on.
    ///
    /// Precondition: the iterator is finite, as for `filter`.
    ///
    /// Requires: the predicate may be called on a reference to each item that may come until it first returns false. `next` requires `Item: Drop`.
    ///
    /// ```
    /// let readings = [Ok::<u32, u8>(7), Ok(150), Ok(8)];
    /// let mut it = convert(readings.into_iter()).skip_while(|reading| Ok(*reading < 100));
    /// let drawn = [it.next(), it.next(), it.next()];
    /// assert_eq!(rt; drawn, [Ok(Some(150)), Ok(Some(8)), Ok(None)]);
    /// ```
    final fn skip_while<P>(self, predicate: P) -> SkipWhile<Self, P>
    where
        P: FnMut(&Self::Item) -> Result<bool, Self::Error>,
        requires finite { contract.is_finite self }
        requires callable { IsCallable (skip_while.skip_call (call_by_reference P.FnMut))
            (skip_while.skip_takes (takes_by_reference P.FnMut)) (contract.may_give self) (false, predicate) }
        ensures source { skip_while.skip_while_source result ≡ self }
        ensures found { skip_while.skip_while_found result ≡ false }
        ensures predicate { skip_while.skip_while_predicate result ≡ predicate }
        ensures lists { OverListWith (list.Acts (call_by_reference P.FnMut) predicate) contract.steps self
            (λ h l. list.Lists (seen_as skip_while.skip_while_parts
            (skip_while.skip_while_contract contract P.FnMut)).steps
            result (skip_while.skipped_while h l)) }
    {
        SkipWhile {
            it: self,
            skipping: (false, predicate),
        }
    }

    /// Yields the values that the closure returns for the items. Where it returns `None`, the adapter returns `Ok(None)`.
    ///
    /// Laziness, draws, errors, precondition and behaviour after `Ok(None)`: as `map`, also after a `None` of the closure.
    ///
    /// ```
    /// let words = [Ok::<&str, u8>("150"), Ok("none"), Ok("700")];
    /// let mut it = convert(words.into_iter()).map_while(|word| Ok(word.parse::<u32>().ok()));
    /// let drawn = [it.next(), it.next(), it.next(), it.next()];
    /// assert_eq!(rt; drawn, [Ok(Some(150)), Ok(None), Ok(Some(700)), Ok(None)]);
    /// ```
    final fn map_while<F, B>(self, f: F) -> MapWhile<Self, F>
    where
        F: FnMut(Self::Item) -> Result<Option<B>, Self::Error>,
        requires { IsCallable (call_by_value F.FnMut) (takes_by_value F.FnMut) (contract.may_give self) f }
        ensures parts { map_while_parts result ≡ (self, f) }
        ensures lists { OverListWith (list.Acts (call_by_value F.FnMut) f) contract.steps self
            (λ h l. list.Lists (parts_as map_while_parts (map_while_contract contract F.FnMut)).steps
            result (mapped_while h l)) }
    {
        MapWhile { it: self, f }
    }

    /// Yields the values that the closure returns for the state and each item. Where it returns `None`, the adapter returns `Ok(None)`.
    ///
    /// Laziness, draws, errors and behaviour after `Ok(None)`: as `map`, also after a `None` of the closure. The state stays as the closure left it.
    ///
    /// Requires: the closure may be called on each item that may come, with each state that such calls lead to.
    ///
    /// ```
    /// let readings = [Ok::<u32, u8>(150), Ok(7), Ok(700)];
    /// let mut sums = convert(readings.into_iter()).scan(0, |sum: &mut u32, reading: u32| {
    ///     *sum = sum.wrapping_add(reading);
    ///     Ok(Some(*sum))
    /// });
    /// let drawn = [sums.next(), sums.next(), sums.next(), sums.next()];
    /// assert_eq!(rt;
    ///     drawn,
    ///     [Ok(Some(150)), Ok(Some(157)), Ok(Some(857)), Ok(None)]
    /// );
    /// ```
    final fn scan<St, B, F>(self, initial_state: St, f: F) -> Scan<Self, St, F>
    where
        F: FnMut(&mut St, Self::Item) -> Result<Option<B>, Self::Error>,
        requires { IsCallable (scan.scan_call F.FnMut) (scan.scan_takes F.FnMut)
            (contract.may_give self) (initial_state, f) }
        ensures source { scan.scan_source result ≡ self }
        ensures state { scan.scan_state result ≡ initial_state }
        ensures closure { scan.scan_closure result ≡ f }
        ensures lists { OverListWith (list.ActsWithState (scan.scan_call F.FnMut) f) contract.steps
            self
            (λ next l. list.Lists
            (seen_as scan.scan_parts (scan.scan_contract contract F.FnMut)).steps
            result (scan.scanned next initial_state l)) }
    {
        Scan {
            it: self,
            scanning: (initial_state, f),
        }
    }

    /// Yields a clone of what each item points to.
    ///
    /// Laziness, draws and behaviour after `Ok(None)`: as `map`. It fails as the source does.
    ///
    /// Memory: if a clone can't be allocated, the failure converted from `AllocError` is yielded, and the item is lost.
    ///
    /// Proof: where a clone may fail, clones of the list are listed up to the first allocation failure.
    ///
    /// ```
    /// let readings = [150, 7];
    /// let mut it = convert(readings.iter().map(Ok::<&u32, AllocError>)).cloned();
    /// let drawn = [it.next(), it.next(), it.next()];
    /// assert_eq!(rt; drawn, [Ok(Some(150)), Ok(Some(7)), Ok(None)]);
    /// ```
    final fn cloned<'a, T: 'a>(self) -> Cloned<Self>
    where
        Self: FallibleIterator<Item = &'a T>,
        T: Clone,
        Self::Error: From<AllocError>,
        ensures parts { cloned_parts result ≡ (self, tt) }
        ensures lists { OverList contract.steps self
            (λ l. ((x y : T) → T.is_clone x y → y ≡ x) → ((x : T) → T.is_infallible x)
            → list.Lists (parts_as cloned_parts (cloned_contract T.is_clone T.is_infallible
            Self.Error.from_gives contract)).steps result (pointed_to l)) }
        ensures until_refused { OverList contract.steps self
            (λ l. ListsUntilRefused T.is_clone (parts_as cloned_parts (cloned_contract T.is_clone
            T.is_infallible Self.Error.from_gives contract)).steps Self.Error.from_gives result
            (pointed_to l)) }
    {
        Cloned { it: self }
    }

    /// Swaps the two ends: a draw from the front of the adapter is a draw from the back of the source, and the other way round.
    ///
    /// Each call draws once, from the other end. It fails as that draw does. Laziness and behaviour after `Ok(None)`: as `map`.
    ///
    /// Requires: nothing. `next` requires that `next` and `next_back` may be called on the source.
    ///
    /// ```
    /// let readings = [Ok::<u32, u8>(150), Ok(7), Err(9)];
    /// let mut it = convert(readings.into_iter()).rev();
    /// let drawn = [it.next(), it.next(), it.next(), it.next()];
    /// assert_eq!(rt; drawn, [Err(9), Ok(Some(7)), Ok(Some(150)), Ok(None)]);
    /// ```
    final fn rev(self) -> Rev<Self>
    where
        Self: DoubleEndedFallibleIterator,
        ensures parts { rev_parts result ≡ self }
        ensures lists { OverList Self.DoubleEndedFallibleIterator.ends.steps self
            (λ l. list.Lists (parts_as rev_parts
            (rev_contract contract Self.DoubleEndedFallibleIterator.ends)).steps result l) }
    {
        Rev { it: self }
    }

    /// Yields what this iterator yields up to its first `Ok(None)`, and then what `it` yields.
    ///
    /// Creating it draws nothing. It keeps the iterator that `it` becomes. `next` draws once; if that draw is the first `Ok(None)`, it draws `it` in the same call. It fails as the side does that is drawn. A failure passes, and changes no side. From the first `Ok(None)` on only `it` is drawn.
    ///
    /// Requires: nothing. `next` requires that it may be called on both sides.
    ///
    /// Proof: `into_fallible_iter` is called once.
    ///
    /// ```
    /// let first = convert([Ok::<u32, u8>(150), Err(9)].into_iter());
    /// let second = convert([Ok(700)].into_iter());
    /// let mut it = first.chain(second);
    /// let drawn = [it.next(), it.next(), it.next(), it.next()];
    /// assert_eq!(rt; drawn, [Ok(Some(150)), Err(9), Ok(Some(700)), Ok(None)]);
    /// ```
    final fn chain<I>(self, it: I) -> Chain<Self, I::IntoFallibleIter>
    where
        I: IntoFallibleIterator<Item = Self::Item, Error = Self::Error>,
        ensures first { chain.chain_first result ≡ self }
        ensures second { I.into_gives it (chain.chain_second result) }
        ensures still_drawn { chain.chain_still_drawn result ≡ Both }
        ensures lists { OverBoth contract.steps self I.into_gives it
            I.IntoFallibleIter.contract.steps
            (λ a b. list.Lists (seen_as chain.chain_parts (chain.chain_contract contract
            I.IntoFallibleIter.contract)).steps result (chain.chained a b)) }
    {
        Chain {
            first: self,
            second: it.into_fallible_iter(),
            still_drawn: StillDrawn::Both,
        }
    }

    /// Pairs each item with one of `o`. If neither side fails and one of them returns `Ok(None)`, so does the adapter.
    ///
    /// Laziness: as `chain`. `next` draws once. Then, unless that failed, it draws `o` once, also after an `Ok(None)`. It fails as this iterator does, or else as `o` does. An item beside a failure or an `Ok(None)` is lost, and the next call draws both again.
    ///
    /// Requires: nothing. `next` requires that it may be called on both sides, and `Item: Drop`.
    ///
    /// ```
    /// let letters = convert([Ok::<char, u8>('a'), Ok('b'), Ok('c')].into_iter());
    /// let numbers = convert([Ok(1), Err(9), Ok(2)].into_iter());
    /// let mut it = letters.zip(numbers);
    /// let drawn = [it.next(), it.next(), it.next(), it.next()];
    /// assert_eq!(rt;
    ///     drawn,
    ///     [Ok(Some(('a', 1))), Err(9), Ok(Some(('c', 2))), Ok(None)]
    /// );
    /// ```
    final fn zip<I>(self, o: I) -> Zip<Self, I::IntoFallibleIter>
    where
        I: IntoFallibleIterator<Error = Self::Error>,
        ensures left { zip.zip_left result ≡ self }
        ensures right { I.into_gives o (zip.zip_right result) }
        ensures lists { OverBoth contract.steps self I.into_gives o
            I.IntoFallibleIter.contract.steps
            (λ a b. zip.NoFailureAtEnd a b
            → list.Lists (seen_as zip.zip_parts (zip.zip_contract contract
            I.IntoFallibleIter.contract)).steps result (zip.zipped a b)) }
        ensures items { OverList contract.steps self
            (λ a. (b : List I.Item)
            → ((right : I.IntoFallibleIter) → I.into_gives o right
            → list.Lists I.IntoFallibleIter.contract.steps right (list.items b))
            → list.Lists (seen_as zip.zip_parts (zip.zip_contract contract
            I.IntoFallibleIter.contract)).steps result (zip.zipped a (list.items b))) }
    {
        Zip {
            left: self,
            right: o.into_fallible_iter(),
        }
    }

    /// Turns each item into an inner iterator, and yields what these yield, one after another. The current one is drawn until its `Ok(None)`, and is dropped then. Then the next item is drawn.
    ///
    /// Creating it draws nothing. `next` draws the current inner iterator, and this one only if there is no current one, or it ended. It fails as either does. After a failure of the inner iterator it stays the current one. After a failure or an `Ok(None)` of this iterator the next call draws this iterator again.
    ///
    /// Precondition: the iterator is finite, since many inner iterators may end in one call.
    ///
    /// Requires: nothing else. `next` requires that it may be called on the current inner iterator and on each that may come. A drain also requires that the current one is finite, and one bound that serves for each that may come.
    ///
    /// ```
    /// let inner = [
    ///     convert([Ok::<u32, u8>(1), Err(9)].into_iter()),
    ///     convert([Ok(2), Ok(3)].into_iter()),
    /// ];
    /// let mut it = convert(inner.into_iter().map(Ok)).flatten();
    /// let drawn = [it.next(), it.next(), it.next(), it.next(), it.next()];
    /// assert_eq!(rt;
    ///     drawn,
    ///     [Ok(Some(1)), Err(9), Ok(Some(2)), Ok(Some(3)), Ok(None)]
    /// );
    /// ```
    final fn flatten(self) -> Flatten<Self>
    where
        Self::Item: IntoFallibleIterator<Error = Self::Error>,
        requires { contract.is_finite self }
        ensures source { flatten.flatten_source result ≡ self }
        ensures inner { flatten.flatten_inner result ≡ None }
        ensures lists { OverListWith
            (flatten.EachLists Self.Item.into_gives Self.Item.IntoFallibleIter.contract.steps)
            contract.steps self
            (λ inner l. list.Lists (seen_as flatten.flatten_parts (flatten.flatten_contract contract
            Self.Item.into_gives Self.Item.IntoFallibleIter.contract)).steps
            result (flatten.flattened inner l)) }
    {
        Flatten {
            it: self,
            in_hand: None,
        }
    }

    /// Yields what the inner iterators yield that the closure returns for the items, as `flatten`.
    ///
    /// Laziness, draws, errors and behaviour after `Ok(None)`: as `flatten` of `map`.
    ///
    /// Precondition: the iterator is finite, as for `flatten`.
    ///
    /// Requires: what `flatten` requires, at its creation, at `next` and at a drain, and of the closure what `map` requires.
    ///
    /// ```
    /// let bounds = [Ok(2), Ok(0), Ok(1)];
    /// let mut it = convert(bounds.into_iter()).flat_map(|bound: u32| Ok((0..bound).into_fallible()));
    /// let drawn = [it.next(), it.next(), it.next(), it.next()];
    /// assert_eq!(rt; drawn, [Ok(Some(0)), Ok(Some(1)), Ok(Some(0)), Ok(None)]);
    /// ```
    final fn flat_map<U, F>(self, f: F) -> FlatMap<Self, U, F>
    where
        U: IntoFallibleIterator<Error = Self::Error>,
        F: FnMut(Self::Item) -> Result<U, Self::Error>,
        requires finite { contract.is_finite self }
        requires callable { IsCallable (call_by_value F.FnMut) (takes_by_value F.FnMut)
            (contract.may_give self) f }
        ensures source { flat_map.flat_map_source result ≡ self }
        ensures closure { flat_map.flat_map_closure result ≡ f }
        ensures inner { flat_map.flat_map_inner result ≡ None }
        ensures lists { (inner : U → List (Result U.Item Self.Error))
            → flatten.EachLists U.into_gives U.IntoFallibleIter.contract.steps inner
            → OverListWith (list.Acts (call_by_value F.FnMut) f) contract.steps self
            (λ h l. list.Lists (seen_as flat_map.flat_map_parts
            (flat_map.flat_map_contract contract F.FnMut
            U.into_gives U.IntoFallibleIter.contract)).steps
            result (flatten.flattened inner (mapped h l))) }
    {
        FlatMap {
            it: self.map(f),
            in_hand: None,
            made: PhantomData,
        }
    }

    /// Returns a collection of the items up to `Ok(None)`. In Rattle a set keeps the first of equal items, and a map the first of equal keys with its last value; so do the collections of `partition` and `unzip`. In Rust that is the collection's own rule.
    ///
    /// It draws up to `Ok(None)` or the first failure. It fails with that failure. It consumes the iterator.
    ///
    /// Precondition: the iterator is finite.
    ///
    /// Requires: `next` may be called.
    ///
    /// Memory: that failure is a `Fault::Source`. It also stops at an item that the collection rejects. It fails with `Fault::Memory` if the collection fails with an `AllocError`: at its creation, if that of its type may fail, or at the last item drawn. For a collection that never fails `Fault::Memory` is never returned. Tested, not proved: the collection is created before the first draw, so nothing is drawn if that fails, and no capacity is reserved.
    ///
    /// Proof: no clause says what is left.
    ///
    /// ```
    /// let readings = [Ok::<u32, u8>(150), Ok(7), Ok(700)];
    /// let all: Vec<u32> = convert(readings.into_iter()).collect(rt.alloc())?;
    /// assert_eq!(rt; all, vec![in rt.alloc(); 150, 7, 700]?);
    ///
    /// let cut = [Ok::<u32, u8>(150), Err(9), Ok(700)];
    /// let all: Result<Vec<u32>, Fault<u8>> = convert(cut.into_iter()).collect(rt.alloc());
    /// assert!(rt; matches!(all, Err(Fault::Source(9))));
    /// ```
    final fn collect<C: Collect<Self::Item>>(
        mut self,
        alloc: Global,
    ) -> Result<C, Fault<Self::Error>>
    where
        requires can_next { contract.can_next self }
        requires finite { contract.is_finite self }
        ensures collects { collecting.Collects contract.steps C.made C.empty_refuses C.push_refuses
            self result }
        ensures value { OverList contract.steps self (λ l. list.CollectedAs C.made l result) }
        ensures contents { OverList contract.steps self
            (λ l. IfOk result (list.MadeOf C.made (list.collected l))) }
        ensures failure { OverList contract.steps self
            (λ l. (e : Self.Error) → result ≡ Err (Source e) → list.collected l ≡ Err e) }
    {
        let mut made = match C::empty(alloc) {
            Ok(made) => made,
            Err(refused) => return Err(Fault::Memory(refused)),
        };
        match self.drive(&mut made, &CollectTurn) {
            Ok(None) => Ok(made),
            Ok(Some(refused)) => Err(Fault::Memory(refused)),
            Err(e) => Err(Fault::Source(e)),
        }
    }

    /// Returns two collections of the items up to `Ok(None)`: of those for which the predicate returns true, and of the others. The predicate is called once on each item.
    ///
    /// Draws and errors: as `collect`. It consumes the iterator too. If the predicate fails, it stops and fails with that failure.
    ///
    /// Precondition: the iterator is finite.
    ///
    /// Requires: `next` may be called, and the predicate may be called on each item that may come.
    ///
    /// Memory: that failure is a `Fault::Source` too.
    ///
    /// ```
    /// let readings = [Ok::<u32, u8>(150), Ok(7), Ok(700)];
    /// let (above, below): (Vec<u32>, Vec<u32>) = convert(readings.into_iter()).partition(
    ///     rt.alloc(),
    ///     |reading| Ok(*reading > 100),
    /// )?;
    /// assert_eq!(rt; above, vec![in rt.alloc(); 150, 700]?);
    /// assert_eq!(rt; below, vec![in rt.alloc(); 7]?);
    /// ```
    final fn partition<B: Collect<Self::Item>, F>(
        mut self,
        alloc: Global,
        f: F,
    ) -> Result<(B, B), Fault<Self::Error>>
    where
        Self::Item: Drop,
        F: FnMut(&Self::Item) -> Result<bool, Self::Error>,
        requires can_next { contract.can_next self }
        requires finite { contract.is_finite self }
        requires callable { fold.HoldsAtEachTurn contract.steps (collecting.Asks (call_by_reference F.FnMut))
            (takes_by_reference F.FnMut) self f }
        ensures partitions { collecting.Partitions contract.steps (call_by_reference F.FnMut) B.made
            B.empty_refuses B.push_refuses self f result }
        ensures value { OverListWith (list.Acts (call_by_reference F.FnMut) f) contract.steps self
            (λ h l. list.PartitionedAs B.made h l result) }
        ensures contents { OverListWith (list.Acts (call_by_reference F.FnMut) f) contract.steps self
            (λ h l. IfOk result (list.MadeOf (list.MadeOfSides B.made) (list.partitioned h l))) }
        ensures failure { OverListWith (list.Acts (call_by_reference F.FnMut) f) contract.steps self
            (λ h l. (e : Self.Error) → result ≡ Err (Source e) → list.partitioned h l ≡ Err e) }
    {
        let first = match B::empty(alloc) {
            Ok(made) => made,
            Err(refused) => return Err(Fault::Memory(refused)),
        };
        let second = match B::empty(alloc) {
            Ok(made) => made,
            Err(refused) => return Err(Fault::Memory(refused)),
        };
        let mut state = (f, (first, second));
        let answer = self.drive(&mut state, &PartitionTurn);
        let (_, sides) = state;
        match answer {
            Ok(None) => Ok(sides),
            Ok(Some(fault)) => Err(fault),
            Err(e) => Err(Fault::Source(e)),
        }
    }

    /// Returns the first halves of the pairs up to `Ok(None)` in one collection, and the second halves in another.
    ///
    /// Draws, errors and precondition: as `collect`. It consumes the iterator too.
    ///
    /// Memory: before a failure of the source all pairs were accepted. A pair that is rejected is lost.
    ///
    /// ```
    /// let pairs = [Ok::<(u32, char), u8>((1, 'a')), Ok((2, 'b'))];
    /// let (numbers, letters): (Vec<u32>, Vec<char>) = convert(pairs.into_iter()).unzip(rt.alloc())?;
    /// assert_eq!(rt; numbers, vec![in rt.alloc(); 1, 2]?);
    /// assert_eq!(rt; letters, vec![in rt.alloc(); 'a', 'b']?);
    /// ```
    final fn unzip<A, B, FromA: Collect<A>, FromB: Collect<B>>(
        mut self,
        alloc: Global,
    ) -> Result<(FromA, FromB), Fault<Self::Error>>
    where
        Self: FallibleIterator<Item = (A, B)>,
        B: Drop,
        requires can_next { contract.can_next self }
        requires finite { contract.is_finite self }
        ensures collects { collecting.Collects contract.steps
            (collecting.MadeOfPairs FromA.made FromB.made)
            (FromA.empty_refuses ⊎ FromB.empty_refuses)
            (collecting.PairRefused FromA.made FromB.made FromA.push_refuses FromB.push_refuses)
            self result }
        ensures value { OverList contract.steps self
            (λ l. list.UnzippedAs FromA.made FromB.made l result) }
        ensures contents { OverList contract.steps self
            (λ l. IfOk result (list.MadeOf (collecting.MadeOfPairs FromA.made FromB.made)
            (list.collected l))) }
        ensures failure { OverList contract.steps self
            (λ l. (e : Self.Error) → result ≡ Err (Source e) → list.collected l ≡ Err e) }
    {
        let first = match FromA::empty(alloc) {
            Ok(made) => made,
            Err(refused) => return Err(Fault::Memory(refused)),
        };
        let second = match FromB::empty(alloc) {
            Ok(made) => made,
            Err(refused) => return Err(Fault::Memory(refused)),
        };
        let mut both = (first, second);
        match self.drive(&mut both, &UnzipTurn) {
            Ok(None) => Ok(both),
            Ok(Some(refusal)) => Err(Fault::Memory(refusal)),
            Err(e) => Err(Fault::Source(e)),
        }
    }

    /// Calls the closure on each item in order, up to `Ok(None)`.
    ///
    /// Draws and errors: as `fold`. It consumes the iterator too.
    ///
    /// Precondition: the iterator is finite.
    ///
    /// Requires: `next` may be called, and the closure may be called on each item that may come.
    ///
    /// ```
    /// let readings = [Ok::<u32, u8>(150), Err(9), Ok(700)];
    /// let mut sum = 0u32;
    /// let drained = convert(readings.into_iter()).for_each(|reading| {
    ///     sum = sum.wrapping_add(reading);
    ///     Ok(())
    /// });
    /// assert_eq!(rt; (drained, sum), (Err(9), 150));
    /// ```
    final fn for_each<F>(mut self, f: F) -> Result<(), Self::Error>
    where
        F: FnMut(Self::Item) -> Result<(), Self::Error>,
        requires can_next { contract.can_next self }
        requires finite { contract.is_finite self }
        requires callable { search.CallableInSearch (call_by_value F.FnMut) search.for_each_pick
            contract.steps (takes_by_value F.FnMut) self f }
        ensures searched { (left : Self) × (g : F)
            × search.SearchDrains (call_by_value F.FnMut) search.for_each_pick contract.steps tt self f result
            left g }
        ensures value { OverListWith (list.Acts (call_by_value F.FnMut) f) contract.steps self
            (λ h l. result ≡ list.each_done h l) }
    {
        let mut f = f;
        answer_or(self.drive(&mut f, &ForEachTurn), ())
    }

    /// Returns whether the predicate returns true for each item up to `Ok(None)`.
    ///
    /// It draws up to the first item on which the predicate returns false or fails, the first failure or `Ok(None)`. It fails with the first failure, of this iterator or of the predicate. Nothing is drawn after that, and the iterator may be used again.
    ///
    /// Precondition: the iterator is finite.
    ///
    /// Requires: `next` may be called, and the predicate may be called on each item that may come until it decides.
    ///
    /// ```
    /// let mut it = convert([Ok::<u32, u8>(150), Ok(7), Err(9)].into_iter());
    /// assert_eq!(rt; it.all(|reading| Ok(reading > 100)), Ok(false));
    /// assert_eq!(rt; it.all(|reading| Ok(reading > 100)), Err(9));
    /// assert_eq!(rt; it.all(|reading| Ok(reading > 100)), Ok(true));
    /// ```
    final fn all<F>(&mut self, f: F) -> Result<bool, Self::Error>
    where
        F: FnMut(Self::Item) -> Result<bool, Self::Error>,
        requires can_next { contract.can_next self.old }
        requires finite { contract.is_finite self.old }
        requires callable { search.CallableInSearch (call_by_value F.FnMut) search.all_pick contract.steps
            (takes_by_value F.FnMut) self.old f }
        ensures searched { (g : F) × search.SearchDrains (call_by_value F.FnMut) search.all_pick
            contract.steps true self.old f result self.new g }
        ensures value { OverListWith (list.Acts (call_by_value F.FnMut) f) contract.steps self.old
            (λ h l. result ≡ list.all_of h l) }
        ensures rest { OverListWith (list.Acts (call_by_value F.FnMut) f) contract.steps self.old
            (λ h l. ¬ (result ≡ Ok true)
            → list.Lists contract.steps self.new (list.rest_false h l)) }
        ensures stays { Stays contract self.old self.new }
    {
        let mut f = f;
        answer_or(self.drive(&mut f, &AllTurn), true)
    }

    /// Returns whether the predicate returns true for an item before `Ok(None)`.
    ///
    /// It draws up to the first item on which the predicate returns true or fails, the first failure or `Ok(None)`. Errors, precondition and what is left: as `all`.
    ///
    /// ```
    /// let mut it = convert([Ok::<u32, u8>(7), Ok(150), Err(9)].into_iter());
    /// assert_eq!(rt; it.any(|reading| Ok(reading > 100)), Ok(true));
    /// assert_eq!(rt; it.any(|reading| Ok(reading > 100)), Err(9));
    /// assert_eq!(rt; it.any(|reading| Ok(reading > 100)), Ok(false));
    /// ```
    final fn any<F>(&mut self, f: F) -> Result<bool, Self::Error>
    where
        F: FnMut(Self::Item) -> Result<bool, Self::Error>,
        requires can_next { contract.can_next self.old }
        requires finite { contract.is_finite self.old }
        requires callable { search.CallableInSearch (call_by_value F.FnMut) search.any_pick contract.steps
            (takes_by_value F.FnMut) self.old f }
        ensures searched { (g : F) × search.SearchDrains (call_by_value F.FnMut) search.any_pick
            contract.steps false self.old f result self.new g }
        ensures value { OverListWith (list.Acts (call_by_value F.FnMut) f) contract.steps self.old
            (λ h l. result ≡ list.any_of h l) }
        ensures rest { OverListWith (list.Acts (call_by_value F.FnMut) f) contract.steps self.old
            (λ h l. ¬ (result ≡ Ok false)
            → list.Lists contract.steps self.new (list.rest_true h l)) }
        ensures stays { Stays contract self.old self.new }
    {
        let mut f = f;
        answer_or(self.drive(&mut f, &AnyTurn), false)
    }

    /// Returns the first item for which the predicate returns true; `Ok(None)` if there is none.
    ///
    /// It draws up to the first item on which the predicate returns true or fails, the first failure or `Ok(None)`. It calls the predicate on a reference to each item drawn, in order. Errors, precondition and what is left: as `all`.
    ///
    /// ```
    /// let mut it = convert([Ok::<u32, u8>(7), Ok(150), Ok(8), Err(9)].into_iter());
    /// assert_eq!(rt; it.find(|reading| Ok(*reading > 100)), Ok(Some(150)));
    /// assert_eq!(rt; it.find(|reading| Ok(*reading > 100)), Err(9));
    /// assert_eq!(rt; it.find(|reading| Ok(*reading > 100)), Ok(None));
    /// ```
    final fn find<F>(&mut self, f: F) -> Result<Option<Self::Item>, Self::Error>
    where
        Self::Item: Drop,
        F: FnMut(&Self::Item) -> Result<bool, Self::Error>,
        requires can_next { contract.can_next self.old }
        requires finite { contract.is_finite self.old }
        requires callable { search.CallableInSearch (call_by_reference F.FnMut) search.find_pick
            contract.steps (takes_by_reference F.FnMut) self.old f }
        ensures searched { (g : F) × search.SearchDrains (call_by_reference F.FnMut) search.find_pick
            contract.steps None self.old f result self.new g }
        ensures value { OverListWith (list.Acts (call_by_reference F.FnMut) f) contract.steps self.old
            (λ h l. result ≡ list.found h l) }
        ensures rest { OverListWith (list.Acts (call_by_reference F.FnMut) f) contract.steps self.old
            (λ h l. ¬ (result ≡ Ok None)
            → list.Lists contract.steps self.new (list.rest_true h l)) }
        ensures stays { Stays contract self.old self.new }
    {
        let mut f = f;
        found(self.drive(&mut f, &FindTurn { test: &FindTest }))
    }

    /// Returns the first value that the closure returns for the items in order; `Ok(None)` if there is none. The closure is called once on each item drawn.
    ///
    /// It draws up to the first item on which the closure returns a value or fails, the first failure or `Ok(None)`. Errors, precondition and what is left: as `all`.
    ///
    /// ```
    /// let mut it = convert([Ok::<&str, u8>("none"), Ok("150"), Ok("700")].into_iter());
    /// let first = it.find_map(|word| Ok(word.parse::<u32>().ok()));
    /// assert_eq!(rt; first, Ok(Some(150)));
    /// assert_eq!(rt; it.next(), Ok(Some("700")));
    /// ```
    final fn find_map<B, F>(&mut self, f: F) -> Result<Option<B>, Self::Error>
    where
        F: FnMut(Self::Item) -> Result<Option<B>, Self::Error>,
        requires can_next { contract.can_next self.old }
        requires finite { contract.is_finite self.old }
        requires callable { search.CallableInSearch (call_by_value F.FnMut) search.find_map_pick
            contract.steps (takes_by_value F.FnMut) self.old f }
        ensures searched { (g : F) × search.SearchDrains (call_by_value F.FnMut) search.find_map_pick
            contract.steps None self.old f result self.new g }
        ensures value { OverListWith (list.Acts (call_by_value F.FnMut) f) contract.steps self.old
            (λ h l. result ≡ list.find_mapped h l) }
        ensures rest { OverListWith (list.Acts (call_by_value F.FnMut) f) contract.steps self.old
            (λ h l. ¬ (result ≡ Ok None)
            → list.Lists contract.steps self.new (list.rest_value h l)) }
        ensures stays { Stays contract self.old self.new }
    {
        let mut f = f;
        answer_or_none(self.drive(&mut f, &FindMapTurn))
    }

    /// Returns how many items come before the first one for which the predicate returns true; `Ok(None)` if there is none.
    ///
    /// It draws up to the first item on which the predicate returns true or fails, the first failure or `Ok(None)`. Errors and what is left: as `all`.
    ///
    /// Precondition: at most `usize::MAX` items are left.
    ///
    /// Requires: what `all` requires, but no bound.
    ///
    /// ```
    /// let mut it = convert([Ok::<u32, u8>(7), Ok(150), Ok(700)].into_iter());
    /// assert_eq!(rt; it.position(|reading| Ok(reading > 100)), Ok(Some(1)));
    /// assert_eq!(rt; it.position(|reading| Ok(reading > 100)), Ok(Some(0)));
    /// assert_eq!(rt; it.position(|reading| Ok(reading > 100)), Ok(None));
    /// ```
    final fn position<F>(&mut self, f: F) -> Result<Option<usize>, Self::Error>
    where
        F: FnMut(Self::Item) -> Result<bool, Self::Error>,
        requires can_next { contract.can_next self.old }
        requires fits { AtMost contract self.old (2 ^ 64 - 1) }
        requires callable { search.CallableInSearch (call_by_value F.FnMut) search.position_pick
            contract.steps (takes_by_value F.FnMut) self.old f }
        ensures searched { (g : F) × search.SearchDrains (call_by_value F.FnMut) search.position_pick
            contract.steps None self.old f result self.new g }
        ensures value { OverListWith (list.Acts (call_by_value F.FnMut) f) contract.steps self.old
            (λ h l. result ≡ list.position_in h l) }
        ensures rest { OverListWith (list.Acts (call_by_value F.FnMut) f) contract.steps self.old
            (λ h l. ¬ (result ≡ Ok None)
            → list.Lists contract.steps self.new (list.rest_true h l)) }
        ensures stays { Stays contract self.old self.new }
    {
        answer_or_none(self.drive(&mut (0, f), &PositionTurn))
    }

    /// Returns the greatest item, of equal ones the last; `Ok(None)` if no item comes.
    ///
    /// Draws and errors: as `count`. It consumes the iterator too.
    ///
    /// Precondition: the iterator is finite.
    ///
    /// Requires: `next` may be called.
    ///
    /// ```
    /// let readings = [Ok::<u32, u8>(150), Ok(700), Ok(7)];
    /// assert_eq!(rt; convert(readings.into_iter()).max(), Ok(Some(700)));
    /// ```
    final fn max(self) -> Result<Option<Self::Item>, Self::Error>
    where
        Self::Item: Ord + Drop,
        requires can_next { contract.can_next self }
        requires finite { contract.is_finite self }
        ensures best { pick.BestDrains Greater Self.Item.cmp contract.steps self result }
        ensures value { OverList contract.steps self (λ l. result ≡ list.greatest Self.Item.cmp l) }
    {
        let compare = |best: &Self::Item, x: &Self::Item| -> Result<Ordering, Self::Error>
            ensures { result ≡ Ok (Self.Item.cmp best.now x.now) }
        { Ok(best.cmp(x)) };
        best_by(self, Ordering::Greater, compare)
    }

    /// Returns the least item, of equal ones the last; `Ok(None)` if no item comes. Draws, errors and precondition: as `max`.
    ///
    /// ```
    /// let readings = [Ok::<u32, u8>(150), Ok(7), Ok(700)];
    /// assert_eq!(rt; convert(readings.into_iter()).min(), Ok(Some(7)));
    /// ```
    final fn min(self) -> Result<Option<Self::Item>, Self::Error>
    where
        Self::Item: Ord + Drop,
        requires can_next { contract.can_next self }
        requires finite { contract.is_finite self }
        ensures best { pick.BestDrains Less Self.Item.cmp contract.steps self result }
        ensures value { OverList contract.steps self (λ l. result ≡ list.least Self.Item.cmp l) }
    {
        let compare = |best: &Self::Item, x: &Self::Item| -> Result<Ordering, Self::Error>
            ensures { result ≡ Ok (Self.Item.cmp best.now x.now) }
        { Ok(best.cmp(x)) };
        best_by(self, Ordering::Less, compare)
    }

    /// Returns the item with the greatest key, of equal ones the last; `Ok(None)` if no item comes. The closure is called once on each item, in order, and returns its key.
    ///
    /// Draws and errors: as `fold`. It consumes the iterator too.
    ///
    /// Precondition: the iterator is finite.
    ///
    /// Requires: `next` may be called, and the closure may be called on each item that may come.
    ///
    /// ```
    /// let words = [Ok::<&str, u8>("to"), Ok("the"), Ok("sea")];
    /// assert_eq!(rt;
    ///     convert(words.into_iter()).max_by_key(|word| Ok(word.len())),
    ///     Ok(Some("sea"))
    /// );
    /// ```
    final fn max_by_key<B, F>(self, f: F) -> Result<Option<Self::Item>, Self::Error>
    where
        Self::Item: Drop,
        B: Ord + Drop,
        F: FnMut(&Self::Item) -> Result<B, Self::Error>,
        requires can_next { contract.can_next self }
        requires finite { contract.is_finite self }
        requires callable { fold.CallableInFold contract.steps
            (pick.KeyCall Greater B.cmp (call_by_reference F.FnMut))
            (λ g best x. takes_by_reference F.FnMut g x) self f None }
        ensures best { pick.BestByKeyDrains Greater B.cmp (call_by_reference F.FnMut) contract.steps self f
            result }
        ensures value { OverListWith (list.Acts (call_by_reference F.FnMut) f) contract.steps self
            (λ h l. result ≡ list.best_by_key Greater B.cmp h l) }
    {
        without_key(best_by_key(self, Ordering::Greater, f))
    }

    /// Returns the item with the least key, of equal ones the last; `Ok(None)` if no item comes. Draws, errors and precondition: as `max_by_key`.
    ///
    /// ```
    /// let words = [Ok::<&str, u8>("the"), Ok("to"), Ok("at")];
    /// assert_eq!(rt;
    ///     convert(words.into_iter()).min_by_key(|word| Ok(word.len())),
    ///     Ok(Some("at"))
    /// );
    /// ```
    final fn min_by_key<B, F>(self, f: F) -> Result<Option<Self::Item>, Self::Error>
    where
        Self::Item: Drop,
        B: Ord + Drop,
        F: FnMut(&Self::Item) -> Result<B, Self::Error>,
        requires can_next { contract.can_next self }
        requires finite { contract.is_finite self }
        requires callable { fold.CallableInFold contract.steps
            (pick.KeyCall Less B.cmp (call_by_reference F.FnMut))
            (λ g best x. takes_by_reference F.FnMut g x) self f None }
        ensures best { pick.BestByKeyDrains Less B.cmp (call_by_reference F.FnMut) contract.steps self f
            result }
        ensures value { OverListWith (list.Acts (call_by_reference F.FnMut) f) contract.steps self
            (λ h l. result ≡ list.best_by_key Less B.cmp h l) }
    {
        without_key(best_by_key(self, Ordering::Less, f))
    }

    /// Returns the greatest item by the closure, of equal ones the last; `Ok(None)` if no item comes. The closure is called on the best item so far and the next one.
    ///
    /// Draws and errors: as `fold`. It consumes the iterator too.
    ///
    /// Precondition: the iterator is finite.
    ///
    /// Requires: `next` may be called, and the closure may be called on the best item so far and each item that may come.
    ///
    /// ```
    /// let pairs = [Ok::<(u32, char), u8>((1, 'a')), Ok((3, 'b')), Ok((3, 'c'))];
    /// let greatest = convert(pairs.into_iter()).max_by(|best, pair| Ok(best.0.cmp(&pair.0)));
    /// assert_eq!(rt; greatest, Ok(Some((3, 'c'))));
    /// ```
    final fn max_by<F>(self, f: F) -> Result<Option<Self::Item>, Self::Error>
    where
        Self::Item: Drop,
        F: FnMut(&Self::Item, &Self::Item) -> Result<Ordering, Self::Error>,
        requires can_next { contract.can_next self }
        requires finite { contract.is_finite self }
        requires callable { fold.CallableInFold contract.steps
            (pick.PickCall Greater (pick.call_at_two F.FnMut))
            (pick.takes_in_pick (pick.takes_at_two F.FnMut)) self f None }
        ensures picked { pick.PickDrains Greater (pick.call_at_two F.FnMut) contract.steps self f
            result }
        ensures value { OverListWith (list.ActsWith (pick.call_at_two F.FnMut) f) contract.steps
            self (λ h l. result ≡ list.best_by Greater h l) }
    {
        best_by(self, Ordering::Greater, f)
    }

    /// Returns the least item by the closure, of equal ones the last; `Ok(None)` if no item comes. Draws, errors and precondition: as `max_by`.
    ///
    /// ```
    /// let pairs = [Ok::<(u32, char), u8>((3, 'a')), Ok((1, 'b')), Ok((1, 'c'))];
    /// let least = convert(pairs.into_iter()).min_by(|best, pair| Ok(best.0.cmp(&pair.0)));
    /// assert_eq!(rt; least, Ok(Some((1, 'c'))));
    /// ```
    final fn min_by<F>(self, f: F) -> Result<Option<Self::Item>, Self::Error>
    where
        Self::Item: Drop,
        F: FnMut(&Self::Item, &Self::Item) -> Result<Ordering, Self::Error>,
        requires can_next { contract.can_next self }
        requires finite { contract.is_finite self }
        requires callable { fold.CallableInFold contract.steps
            (pick.PickCall Less (pick.call_at_two F.FnMut))
            (pick.takes_in_pick (pick.takes_at_two F.FnMut)) self f None }
        ensures picked { pick.PickDrains Less (pick.call_at_two F.FnMut) contract.steps self f
            result }
        ensures value { OverListWith (list.ActsWith (pick.call_at_two F.FnMut) f) contract.steps
            self (λ h l. result ≡ list.best_by Less h l) }
    {
        best_by(self, Ordering::Less, f)
    }

    /// Compares two iterators by the order of their items. The first two that aren't equal decide. If there are none, the side that ends alone is less.
    ///
    /// It draws in rounds, this iterator and then the other, until a failure, an `Ok(None)` or two items that decide. If this one returned `Ok(None)`, the other is still drawn in that round; if this one failed, it is not. It fails with the first failure: in each round one of this iterator comes before one of the other. It consumes both.
    ///
    /// Precondition: one of the two is finite.
    ///
    /// Requires: `next` may be called on both sides.
    ///
    /// Proof: no clause says what is left.
    ///
    /// ```
    /// let left = convert([Ok::<u32, u8>(1), Ok(2), Err(9)].into_iter());
    /// let right = convert([Ok(1), Ok(3)].into_iter());
    /// assert_eq!(rt; left.cmp(right), Ok(Ordering::Less));
    /// ```
    final fn cmp<I>(self, other: I) -> Result<Ordering, Self::Error>
    where
        I: IntoFallibleIterator<Item = Self::Item, Error = Self::Error>,
        Self::Item: Ord + Drop,
        requires can_next { contract.can_next self }
        requires right { (right : I.IntoFallibleIter) → I.into_gives other right
            → I.IntoFallibleIter.contract.can_next right }
        requires finite { comparing.OneIsFinite contract I.into_gives I.IntoFallibleIter.contract
            self other }
        ensures compared { comparing.ComparedWith (comparing.by_cmp Self.Item.cmp) I.into_gives
            contract.steps
            I.IntoFallibleIter.contract.steps self other (comparing.read_as (λ o. Some o) result) }
        ensures value { OverBoth contract.steps self I.into_gives other
            I.IntoFallibleIter.contract.steps
            (λ a b. comparing.read_as (λ o. Some o) result ≡ list.compared
            (comparing.by_cmp Self.Item.cmp) a b) }
    {
        let answer = compare::<Self, I::IntoFallibleIter, ByCmp>(self, other.into_fallible_iter());
        ordered(answer)
    }

    /// Compares two iterators by the partial order of their items. The first two that aren't equal decide; if they can't be compared, it returns `Ok(None)`. If there are none, the side that ends alone is less.
    ///
    /// Draws, errors and precondition: as `cmp`.
    ///
    /// ```
    /// let left = convert([Ok::<f64, u8>(1.0), Ok(f64::NAN)].into_iter());
    /// let right = convert([Ok(1.0), Ok(2.0)].into_iter());
    /// assert_eq!(rt; left.partial_cmp(right), Ok(None));
    /// ```
    final fn partial_cmp<I>(self, other: I) -> Result<Option<Ordering>, Self::Error>
    where
        I: IntoFallibleIterator<Item = Self::Item, Error = Self::Error>,
        Self::Item: PartialOrd + Drop,
        requires can_next { contract.can_next self }
        requires right { (right : I.IntoFallibleIter) → I.into_gives other right
            → I.IntoFallibleIter.contract.can_next right }
        requires finite { comparing.OneIsFinite contract I.into_gives I.IntoFallibleIter.contract
            self other }
        ensures compared { comparing.ComparedWith Self.Item.partial_cmp I.into_gives contract.steps
            I.IntoFallibleIter.contract.steps self other result }
        ensures value { OverBoth contract.steps self I.into_gives other
            I.IntoFallibleIter.contract.steps
            (λ a b. result ≡ list.compared Self.Item.partial_cmp a b) }
    {
        compare::<Self, I::IntoFallibleIter, ByPartialCmp>(self, other.into_fallible_iter())
    }

    /// Returns whether the two yield equal items, one by one, and end together.
    ///
    /// Draws, errors and precondition: as `cmp`.
    ///
    /// ```
    /// let left = convert([Ok::<u32, u8>(1), Ok(2)].into_iter());
    /// let right = convert([Ok(1), Err(9)].into_iter());
    /// assert_eq!(rt; left.eq(right), Err(9));
    /// ```
    final fn eq<I>(self, other: I) -> Result<bool, Self::Error>
    where
        I: IntoFallibleIterator<Item = Self::Item, Error = Self::Error>,
        Self::Item: PartialEq + Drop,
        requires can_next { contract.can_next self }
        requires right { (right : I.IntoFallibleIter) → I.into_gives other right
            → I.IntoFallibleIter.contract.can_next right }
        requires finite { comparing.OneIsFinite contract I.into_gives I.IntoFallibleIter.contract
            self other }
        ensures compared { comparing.ReadWith (comparing.by_eq Self.Item.eq) comparing.reads_eq
            I.into_gives contract.steps I.IntoFallibleIter.contract.steps self other result }
        ensures value { OverBoth contract.steps self I.into_gives other
            I.IntoFallibleIter.contract.steps
            (λ a b. result ≡ comparing.read_as comparing.reads_eq
            (list.compared (comparing.by_eq Self.Item.eq) a b)) }
    {
        compare_read::<Self, I, ByEq, ReadEq>(self, other)
    }

    /// Returns whether the two differ: the opposite of `eq`.
    ///
    /// Draws, errors and precondition: as `cmp`.
    ///
    /// ```
    /// let left = convert([Ok::<u32, u8>(1), Ok(2)].into_iter());
    /// let right = convert([Ok(1)].into_iter());
    /// assert_eq!(rt; left.ne(right), Ok(true));
    /// ```
    final fn ne<I>(self, other: I) -> Result<bool, Self::Error>
    where
        I: IntoFallibleIterator<Item = Self::Item, Error = Self::Error>,
        Self::Item: PartialEq + Drop,
        requires can_next { contract.can_next self }
        requires right { (right : I.IntoFallibleIter) → I.into_gives other right
            → I.IntoFallibleIter.contract.can_next right }
        requires finite { comparing.OneIsFinite contract I.into_gives I.IntoFallibleIter.contract
            self other }
        ensures compared { comparing.ReadWith (comparing.by_eq Self.Item.eq) comparing.reads_ne
            I.into_gives contract.steps I.IntoFallibleIter.contract.steps self other result }
        ensures value { OverBoth contract.steps self I.into_gives other
            I.IntoFallibleIter.contract.steps
            (λ a b. result ≡ comparing.read_as comparing.reads_ne
            (list.compared (comparing.by_eq Self.Item.eq) a b)) }
    {
        compare_read::<Self, I, ByEq, ReadNe>(self, other)
    }

    /// Returns whether this one is less than the other, by `partial_cmp`; false if two items can't be compared.
    ///
    /// Draws, errors and precondition: as `cmp`.
    ///
    /// ```
    /// let left = convert([Ok::<u32, u8>(1)].into_iter());
    /// let right = convert([Ok(1), Ok(0)].into_iter());
    /// assert_eq!(rt; left.lt(right), Ok(true));
    /// ```
    final fn lt<I>(self, other: I) -> Result<bool, Self::Error>
    where
        I: IntoFallibleIterator<Item = Self::Item, Error = Self::Error>,
        Self::Item: PartialOrd + Drop,
        requires can_next { contract.can_next self }
        requires right { (right : I.IntoFallibleIter) → I.into_gives other right
            → I.IntoFallibleIter.contract.can_next right }
        requires finite { comparing.OneIsFinite contract I.into_gives I.IntoFallibleIter.contract
            self other }
        ensures compared { comparing.ReadWith Self.Item.partial_cmp comparing.reads_lt I.into_gives
            contract.steps I.IntoFallibleIter.contract.steps self other result }
        ensures value { OverBoth contract.steps self I.into_gives other
            I.IntoFallibleIter.contract.steps
            (λ a b. result ≡ comparing.read_as comparing.reads_lt
            (list.compared Self.Item.partial_cmp a b)) }
    {
        compare_read::<Self, I, ByPartialCmp, ReadLt>(self, other)
    }

    /// Returns whether this one is less than the other or equal, by `partial_cmp`; false if two items can't be compared.
    ///
    /// Draws, errors and precondition: as `cmp`.
    ///
    /// ```
    /// let left = convert([Ok::<u32, u8>(1), Ok(2)].into_iter());
    /// let right = convert([Ok(1), Ok(2)].into_iter());
    /// assert_eq!(rt; left.le(right), Ok(true));
    /// ```
    final fn le<I>(self, other: I) -> Result<bool, Self::Error>
    where
        I: IntoFallibleIterator<Item = Self::Item, Error = Self::Error>,
        Self::Item: PartialOrd + Drop,
        requires can_next { contract.can_next self }
        requires right { (right : I.IntoFallibleIter) → I.into_gives other right
            → I.IntoFallibleIter.contract.can_next right }
        requires finite { comparing.OneIsFinite contract I.into_gives I.IntoFallibleIter.contract
            self other }
        ensures compared { comparing.ReadWith Self.Item.partial_cmp comparing.reads_le I.into_gives
            contract.steps I.IntoFallibleIter.contract.steps self other result }
        ensures value { OverBoth contract.steps self I.into_gives other
            I.IntoFallibleIter.contract.steps
            (λ a b. result ≡ comparing.read_as comparing.reads_le
            (list.compared Self.Item.partial_cmp a b)) }
    {
        compare_read::<Self, I, ByPartialCmp, ReadLe>(self, other)
    }

    /// Returns whether this one is greater than the other, by `partial_cmp`; false if two items can't be compared.
    ///
    /// Draws, errors and precondition: as `cmp`.
    ///
    /// ```
    /// let left = convert([Ok::<u32, u8>(2), Err(9)].into_iter());
    /// let right = convert([Ok(1)].into_iter());
    /// assert_eq!(rt; left.gt(right), Ok(true));
    /// ```
    final fn gt<I>(self, other: I) -> Result<bool, Self::Error>
    where
        I: IntoFallibleIterator<Item = Self::Item, Error = Self::Error>,
        Self::Item: PartialOrd + Drop,
        requires can_next { contract.can_next self }
        requires right { (right : I.IntoFallibleIter) → I.into_gives other right
            → I.IntoFallibleIter.contract.can_next right }
        requires finite { comparing.OneIsFinite contract I.into_gives I.IntoFallibleIter.contract
            self other }
        ensures compared { comparing.ReadWith Self.Item.partial_cmp comparing.reads_gt I.into_gives
            contract.steps I.IntoFallibleIter.contract.steps self other result }
        ensures value { OverBoth contract.steps self I.into_gives other
            I.IntoFallibleIter.contract.steps
            (λ a b. result ≡ comparing.read_as comparing.reads_gt
            (list.compared Self.Item.partial_cmp a b)) }
    {
        compare_read::<Self, I, ByPartialCmp, ReadGt>(self, other)
    }

    /// Returns whether this one is greater than the other or equal, by `partial_cmp`; false if two items can't be compared.
    ///
    /// Draws, errors and precondition: as `cmp`.
    ///
    /// ```
    /// let left = convert([Ok::<u32, u8>(1)].into_iter());
    /// let right = convert([Ok(1), Ok(0)].into_iter());
    /// assert_eq!(rt; left.ge(right), Ok(false));
    /// ```
    final fn ge<I>(self, other: I) -> Result<bool, Self::Error>
    where
        I: IntoFallibleIterator<Item = Self::Item, Error = Self::Error>,
        Self::Item: PartialOrd + Drop,
        requires can_next { contract.can_next self }
        requires right { (right : I.IntoFallibleIter) → I.into_gives other right
            → I.IntoFallibleIter.contract.can_next right }
        requires finite { comparing.OneIsFinite contract I.into_gives I.IntoFallibleIter.contract
            self other }
        ensures compared { comparing.ReadWith Self.Item.partial_cmp comparing.reads_ge I.into_gives
            contract.steps I.IntoFallibleIter.contract.steps self other result }
        ensures value { OverBoth contract.steps self I.into_gives other
            I.IntoFallibleIter.contract.steps
            (λ a b. result ≡ comparing.read_as comparing.reads_ge
            (list.compared Self.Item.partial_cmp a b)) }
    {
        compare_read::<Self, I, ByPartialCmp, ReadGe>(self, other)
    }

    /// Lets `peek` look at what comes next. What `peek` saw, an item or an `Ok(None)`, is buffered, and comes first.
    ///
    /// Creating it draws nothing, and buffers nothing. `next` draws once, and nothing if something is buffered. It fails as the source does. Behaviour after a failure and after `Ok(None)`: as `map`.
    ///
    /// ```
    /// let mut it = convert([Ok::<u32, u8>(150), Ok(7)].into_iter()).peekable();
    /// assert_eq!(rt; it.peek(), Ok(Some(&150)));
    /// assert_eq!(rt; it.next(), Ok(Some(150)));
    /// assert_eq!(rt; it.next(), Ok(Some(7)));
    /// ```
    final fn peekable(self) -> Peekable<Self>
        ensures parts { peekable_parts result ≡ (self, None) }
        ensures lists { OverList contract.steps self
            (λ l. list.Lists (parts_as peekable_parts (peekable_contract contract)).steps result l) }
    {
        Peekable {
            it: self,
            held: None,
        }
    }

    /// Starts anew at each `Ok(None)`, with a clone of this iterator, which is kept.
    ///
    /// Creating it makes one clone, for the first run, and draws nothing. `next` draws once, and at a run's `Ok(None)` once more, from a fresh clone.
    ///
    /// `next` fails as the run does, and the run goes on after that. It may have no end, and is drained through `take`.
    ///
    /// Requires: `next` may be called on each of its clones, as is so if clones equal their originals.
    ///
    /// Memory: if the clone for the first run can't be allocated, this iterator is dropped and the call returns `Err(AllocError)`. If a later clone can't be allocated, `next` fails with the failure converted from `AllocError`, and the run goes on after that.
    ///
    /// Proof: it states no bound.
    ///
    /// ```
    /// let readings = convert([Ok::<u32, AllocError>(150), Ok(7)].into_iter());
    /// let mut it = readings.cycle()?;
    /// let drawn = [it.next(), it.next(), it.next()];
    /// assert_eq!(rt; drawn, [Ok(Some(150)), Ok(Some(7)), Ok(Some(150))]);
    /// ```
    final fn cycle(self) -> Result<Cycle<Self>, AllocError>
    where
        Self: Clone,
        Self::Error: From<AllocError>,
        requires { (c : Self) → Self.is_clone self c → contract.can_next c }
        ensures { MatchResult result
            (λ made. Self.is_clone self (cycle_source made) × (cycle_kept made ≡ self))
            (λ _. ¬ (Self.is_infallible self)) }
    {
        let run = self.clone()?;
        Ok(Cycle {
            it: run,
            kept: self,
        })
    }

    /// Returns what `next` returns. Over a list it is the first.
    ///
    /// It is one draw, and fails as `next` does. `next` may be called again. Over a list it leaves the rest.
    ///
    /// Requires: `next` may be called.
    ///
    /// Proof: the clauses of `next` don't say that it may be called again. So a caller that draws several times by hand takes this call, and its proof goes on by itself.
    ///
    /// ```
    /// let mut it = convert([Ok::<u32, u8>(150), Err(9)].into_iter());
    /// let drawn = [it.draw(), it.draw(), it.draw()];
    /// assert_eq!(rt; drawn, [Ok(Some(150)), Err(9), Ok(None)]);
    /// ```
    final fn draw(&mut self) -> Result<Option<Self::Item>, Self::Error>
        requires { contract.can_next self.old }
        ensures drawn { contract.steps self.old result self.new }
        ensures value { OverList contract.steps self.old (λ l. result ≡ list.nth_of 0 l) }
        ensures rest { OverList contract.steps self.old
            (λ l. ¬ (result ≡ Ok None) → list.Lists contract.steps self.new (list.rest_first l)) }
        ensures stays { Stays contract self.old self.new }
    {
        Self::next(self)
    }

    /// Borrows the iterator: what is drawn from the borrow is drawn from it.
    ///
    /// Creating it draws nothing and never fails. `next` of the borrow returns and fails as that of the iterator does.
    ///
    /// ```
    /// let mut it = convert([Ok::<u32, u8>(150), Ok(7), Ok(700)].into_iter());
    /// assert_eq!(rt; it.by_ref().take(2).count(), Ok(2));
    /// assert_eq!(rt; it.next(), Ok(Some(700)));
    /// ```
    final fn by_ref(&mut self) -> &mut Self
        ensures value { result.now ≡ self.old }
        ensures same_reference { result.ghost_name ≡ self.entry.ghost_name }
        ensures lists { OverList contract.steps self.old
            (λ l. list.Lists (borrowed contract).steps result l) }
    {
        self
    }

    /// Returns a std iterator: each item is an `Ok`, each failure an `Err`, and `Ok(None)` is `None`.
    ///
    /// Creating it draws nothing. Its `next` draws once, and never fails. After a `None` it draws again.
    ///
    /// Requires: nothing. A std loop over it requires a bound on the items and failures together. `convert` and `into_fallible` have one if their std iterator does, and so have the adapters over them but `flatten`, `flat_map` and `cycle`; `chain` and `zip` if both sides have. If there is none, std's `take` makes one.
    ///
    /// ```
    /// let readings = [Ok::<u32, u8>(150), Err(9), Ok(700)];
    /// let mut failures = 0u32;
    /// for reading in convert(readings.into_iter()).iterator() {
    ///     if reading.is_err() {
    ///         failures = failures.wrapping_add(1);
    ///     }
    /// }
    /// assert_eq!(rt; failures, 1);
    /// ```
    final fn iterator(self) -> Iterator<Self>
        ensures parts { iterator_parts result ≡ self }
        ensures reads { OverList contract.steps self
            (λ l. EachRunFrom (iterator_steps contract.steps) result (λ p. ItemsAre p l)) }
    {
        Iterator { it: self }
    }

    /// Returns a std iterator over the items.
    ///
    /// Laziness and draws: as `iterator`.
    ///
    /// In Rust it panics at a failure.
    ///
    /// Requires: no failure can ever come, and so it never panics.
    ///
    /// ```
    /// let readings = [150u32, 7].into_iter().into_fallible();
    /// let mut sum = 0u32;
    /// for reading in readings.unwrap() {
    ///     sum = sum.wrapping_add(reading);
    /// }
    /// assert_eq!(rt; sum, 157);
    /// ```
    final fn unwrap<T>(self) -> Unwrap<Self>
    where
        Self: FallibleIterator<Item = T>,
        Self::Error: Debug,
        requires sure { NeverFails contract self }
        ensures parts { unwrap_parts result ≡ self }
        ensures reads { OverList contract.steps self
            (λ l. EachRunFrom (unwrap_steps contract.steps) result
            (λ p. ItemsAre p (unwrapped l))) }
    {
        Unwrap { it: self }
    }
}
