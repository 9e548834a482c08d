// The adapters that yield positions, alone or beside their items.
ghost use Rattle.std.specs.Prelude.{Result, Option, ◌≡◌, None};
ghost use Rattle.fallible_iterator.specs.Closures.{call_by_value, takes_by_value};
ghost use Rattle.fallible_iterator.specs.Contract.{seen_as, parts_as};
ghost use Rattle.fallible_iterator.specs.OneToOne.Enumerate.{enumerate_contract, enumerate_made, enumerate_parts};
ghost use Rattle.fallible_iterator.specs.Laws.Contract.{lawful_seen, lawful_parts};
ghost use Rattle.fallible_iterator.specs.Laws.OneToOne.Enumerate.{lawful_enumerate};
ghost use Rattle.fallible_itertools_adapters.specs.Positions.{positions_contract, positions_outcome, positions_made, positions_parts, position_before_item, position_before_stop, positioned_last, with_position_contract, with_position_made, with_position_parts, position_rule};
ghost use Rattle.fallible_itertools_adapters.specs.Laws.Positions.{is_stage_position, lawful_positions, lawful_with_position};

use crate::staging::{
    AnswerAndDue, Emitted, Stage, Stop, drive_stage, let_go, next_stage, one, stop_answer,
};
use fallible_iterator::extending::{FirstTurn, Outcome, Pass, drive_passing, sum};
use fallible_iterator::{Enumerate, FallibleIterator, Turn};
use std::mem::replace;

/// The positions of the items for which the closure returns true. Each item counts, also one on which the closure fails; its failure is yielded.
#[derive(Clone, Debug, Drop)]
pub struct Positions<I, F> {
    pub(crate) it: Enumerate<I>,
    pub(crate) f: F,
}

impl<I, F> Positions<I, F> {
    /// Creates it. It draws nothing.
    #[inline(always)]
    pub fn new(it: Enumerate<I>, f: F) -> Positions<I, F>
        ensures { positions_parts result ≡ (it, f) }
    {
        Positions { it, f }
    }
}

impl<I: FallibleIterator, F: FnMut(I::Item) -> Result<bool, I::Error>> FallibleIterator
    for Positions<I, F>
where
    I::Item: Drop,
{
    type Item = usize;

    type Error = I::Error;

    ghost contract = { parts_as positions_parts
        (positions_contract (parts_as enumerate_parts (enumerate_contract I.contract)) F.FnMut) };

    /// Draws until the closure returns true, or a failure or an `Ok(None)` comes. It calls the closure on each item.
    fn next(&mut self) -> Result<Option<usize>, I::Error> {
        self.drive(&mut (), &FirstTurn)
    }

    fn size_hint(&self) -> (usize, Option<usize>) {
        (0, self.it.size_hint().1)
    }

    fn drive<C, R, K: Turn<C, usize, R>>(
        &mut self,
        state: &mut C,
        turn: &K,
    ) -> Result<Option<R>, I::Error> {
        drive_passing(&mut self.it, &mut self.f, &PositionsPass, state, turn)
    }

    ghost lawful = { lawful_parts positions_made
        (lawful_positions F.FnMut (lawful_parts enumerate_made (lawful_enumerate I.lawful))) };
}

// What becomes of an item beside its position, by the closure's result.
#[derive(Drop)]
struct PositionsPass;

impl<X, E, F: FnMut(X) -> Result<bool, E>> Pass<F, (usize, X), E> for PositionsPass {
    type Kept = usize;

    type Answer = Result<bool, E>;

    ghost can_pass = { λ _ f p. takes_by_value F.FnMut f p.1 };

    ghost call = { λ _ f p v g. call_by_value F.FnMut f p.1 v g };

    ghost outcome = { λ _ p v. positions_outcome p v };

    #[inline(always)]
    fn pass(&self, state: &mut F, item: (usize, X)) -> Outcome<usize, E> {
        match state(item.1) {
            Ok(true) => Outcome::Kept(item.0),
            Ok(false) => Outcome::LeftOut,
            Err(e) => Outcome::Failure(e),
        }
    }
}

/// Where an item stands among the items between two stops. A stop is `Ok(None)` or a failure.
#[derive(Clone, Copy, Debug, PartialEq, Eq)]
pub enum Position {
    /// the first of several items
    First,
    /// neither the first nor the last
    Middle,
    /// the last of several items
    Last,
    /// the only item
    Only,
}

/// The items, each with its [`Position`]. An item is buffered until another one comes, or a stop: `Ok(None)` or a failure, which the next call returns.
#[derive(Clone, Debug, Drop)]
pub struct WithPosition<I: FallibleIterator> {
    pub(crate) it: I,
    // the item that wasn't yielded yet, and whether an item since the last stop came before it; and the stop that is due: `Ok(None)`, or a failure
    pub(crate) stage: ((Option<(bool, I::Item)>, ()), Option<Stop<I::Error>>),
}

impl<I: FallibleIterator> WithPosition<I> {
    /// Creates it. It draws nothing.
    #[inline(always)]
    pub fn new(it: I) -> WithPosition<I>
        ensures { with_position_parts result ≡ (it, ((None, tt), None)) }
    {
        WithPosition {
            it,
            stage: ((None, ()), None),
        }
    }
}

impl<I: FallibleIterator> FallibleIterator for WithPosition<I>
where
    I::Item: Drop,
    I::Error: Drop,
{
    type Item = (Position, I::Item);

    type Error = I::Error;

    ghost contract = { parts_as with_position_parts (with_position_contract I.contract) };

    /// Returns the stop that is due, without a draw. Otherwise it draws once if an item is buffered, and otherwise twice, or up to a stop.
    fn next(&mut self) -> Result<Option<(Position, I::Item)>, I::Error> {
        match self.stage.1.take() {
            Some(stop) => stop_answer(stop),
            None => match &self.stage.0.0 {
                Some(_) => next_stage(&mut self.it, &mut self.stage, &PositionStage),
                None => match self.it.draw() {
                    Ok(Some(first)) => {
                        self.stage.0.0 = Some((false, first));
                        next_stage(&mut self.it, &mut self.stage, &PositionStage)
                    }
                    Ok(None) => Ok(None),
                    Err(e) => Err(e),
                },
            },
        }
    }

    fn size_hint(&self) -> (usize, Option<usize>) {
        match self.stage.1 {
            Some(None) => (0, Some(0)),
            _ => {
                let held = if self.stage.0.0.is_some() { 1 } else { 0 };
                sum(self.it.size_hint(), (held, Some(held)))
            }
        }
    }

    fn drive<C, R, K: Turn<C, (Position, I::Item), R>>(
        &mut self,
        state: &mut C,
        turn: &K,
    ) -> Result<Option<R>, I::Error> {
        drive_stage(&mut self.it, &mut self.stage, &PositionStage, state, turn)
    }

    ghost lawful = { lawful_parts with_position_made (lawful_with_position I.lawful) };
}

// An item is buffered until it is known what comes after it.
#[derive(Drop)]
struct PositionStage;

impl<X: Drop, E> Stage<(Option<(bool, X)>, ()), X, E> for PositionStage {
    type Kept = (Position, X);

    type Due = Stop<E>;

    ghost rule = { position_rule };

    #[inline(always)]
    fn on_item(
        &self,
        p: &mut (Option<(bool, X)>, ()),
        item: X,
    ) -> Emitted<(Position, X), Stop<E>, E> {
        let is_later = p.0.is_some();
        match replace(&mut p.0, Some((is_later, item))) {
            Some((was_later, before)) => one(Ok(Some((first_or_middle(was_later), before)))),
            None => None,
        }
    }

    #[inline(always)]
    fn on_stop(
        &self,
        p: &mut (Option<(bool, X)>, ()),
        stop: Stop<E>,
    ) -> Emitted<(Position, X), Stop<E>, E>
        ensures { (position_rule {A = X} {E = E}).stops p.old stop result p.new }
    {
        let_go(placed_last(p.0.take()), stop)
    }

    #[inline(always)]
    fn answer_due(&self, due: Stop<E>) -> AnswerAndDue<(Position, X), Stop<E>, E> {
        (stop_answer(due), None)
    }

    ghost is_stage = { is_stage_position };
}

// The buffered item with its position before a stop.
#[inline(always)]
fn placed_last<X>(held: Option<(bool, X)>) -> Option<(Position, X)>
    ensures { result ≡ positioned_last held }
{
    match held {
        Some((is_later, last)) => Some((only_or_last(is_later), last)),
        None => None,
    }
}

// The position of an item that another item comes after.
#[inline(always)]
fn first_or_middle(is_later: bool) -> Position
    ensures { result ≡ position_before_item is_later }
{
    if is_later {
        Position::Middle
    } else {
        Position::First
    }
}

// The position of an item that a stop comes after.
#[inline(always)]
fn only_or_last(is_later: bool) -> Position
    ensures { result ≡ position_before_stop is_later }
{
    if is_later {
        Position::Last
    } else {
        Position::Only
    }
}
