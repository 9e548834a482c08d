//! Searches: the first item that passes or else the last, the position beside it, those whose closure fails with an error of its own, and why there isn't exactly one item.
ghost use Rattle.std.specs.Prelude.{◌≡◌, ◌-◌, ◌^◌, ◌<◌, is_some};
ghost use Rattle.fallible_iterator.specs.Closures.{call_by_reference, takes_by_reference};
ghost use Rattle.fallible_iterator.specs.Searching.{IsPositionTurn};
ghost use Rattle.fallible_itertools_adapters.specs.Staging.{plan_takes};
ghost use Rattle.fallible_itertools.specs.Find.{ConvertsTo, find_flow, find_position_pick, first_kept, first_two, last_kept};
ghost use Rattle.fallible_itertools.specs.Stepping.{StepTurns, by_call};

use fallible_iterator::Turn;
use std::ops::ControlFlow;

/// The turn of `find_or_last`, whose state is the last item, if one came, and the predicate: it stops at the first item on which the predicate returns true or fails.
#[derive(Drop)]
pub struct FindLastTurn;

impl<A: Drop, E, F: FnMut(&A) -> Result<bool, E>> Turn<(Option<A>, F), A, Result<Option<A>, E>>
    for FindLastTurn {
    ghost can_turn = { λ _ p x. plan_takes (takes_by_reference F.FnMut) (by_call (find_flow {E = E} last_kept)) p x };

    ghost turns = { λ _ p x r q. StepTurns (call_by_reference F.FnMut) (by_call (find_flow last_kept)) p x r q };

    /// Calls the predicate once. The item is the last one then.
    #[inline(always)]
    fn turn(&self, state: &mut (Option<A>, F), item: A) -> ControlFlow<Result<Option<A>, E>, ()> {
        match (state.1)(&item) {
            Ok(true) => ControlFlow::Break(Ok(Some(item))),
            Ok(false) => {
                state.0 = Some(item);
                ControlFlow::Continue(())
            }
            Err(e) => ControlFlow::Break(Err(e)),
        }
    }
}

// The item is kept if none was.
#[inline(always)]
fn keep_first<A: Drop>(kept: &mut Option<A>, item: A)
    ensures { kept.new ≡ first_kept kept.old item }
{
    if kept.is_none() {
        *kept = Some(item);
    }
}

/// The turn of `find_or_first`. It keeps the first item instead.
#[derive(Drop)]
pub struct FindFirstTurn;

impl<A: Drop, E, F: FnMut(&A) -> Result<bool, E>> Turn<(Option<A>, F), A, Result<Option<A>, E>>
    for FindFirstTurn {
    ghost can_turn = { λ _ p x. plan_takes (takes_by_reference F.FnMut) (by_call (find_flow {E = E} first_kept)) p x };

    ghost turns = { λ _ p x r q. StepTurns (call_by_reference F.FnMut) (by_call (find_flow first_kept)) p x r q };

    /// Calls the predicate once. The item is kept if it is the first.
    #[inline(always)]
    fn turn(&self, state: &mut (Option<A>, F), item: A) -> ControlFlow<Result<Option<A>, E>, ()> {
        match (state.1)(&item) {
            Ok(true) => ControlFlow::Break(Ok(Some(item))),
            Ok(false) => {
                keep_first(&mut state.0, item);
                ControlFlow::Continue(())
            }
            Err(e) => ControlFlow::Break(Err(e)),
        }
    }
}

/// The turn of `find_position`, whose state is the number of items before and the predicate: it stops at the first item on which that returns true, or fails.
#[derive(Drop)]
pub struct FindPositionTurn;

impl<A: Drop, E, F: FnMut(&A) -> Result<bool, E>> Turn<(usize, F), A, Result<Option<(usize, A)>, E>>
    for FindPositionTurn {
    ghost can_turn = { λ _ p x. takes_by_reference F.FnMut p.1 x × (p.0 < 2 ^ 64 - 1) };

    ghost turns = { λ _ p x r q. IsPositionTurn (call_by_reference F.FnMut) find_position_pick p x r q };

    /// Calls the predicate once, and adds one for the next item.
    #[inline(always)]
    fn turn(
        &self,
        state: &mut (usize, F),
        item: A,
    ) -> ControlFlow<Result<Option<(usize, A)>, E>, ()> {
        match (state.1)(&item) {
            Ok(true) => ControlFlow::Break(Ok(Some((state.0, item)))),
            Ok(false) => {
                state.0 += 1;
                ControlFlow::Continue(())
            }
            Err(e) => ControlFlow::Break(Err(e)),
        }
    }
}

/// What a fold returned, with the source's failure converted.
pub fn converted<R, E, D: From<E>>(answer: Result<Option<R>, E>) -> Result<Option<R>, D>
    ensures { ConvertsTo D.from_gives answer result }
{
    match answer {
        Ok(answer) => Ok(answer),
        Err(e) => Err(D::from(e)),
    }
}

/// What `exactly_one` found instead of one item.
#[derive(Clone, Copy, Debug, PartialEq, Eq, Drop)]
pub enum NotOne<T> {
    /// no item came
    NoItem,
    /// more than one came: the first two
    More(T, T),
}

impl<T> NotOne<T> {
    /// Returns the first two items, if more than one came.
    pub fn into_items(self) -> Option<(T, T)>
        ensures { result ≡ first_two self }
    {
        match self {
            NotOne::NoItem => None,
            NotOne::More(first, second) => Some((first, second)),
        }
    }

    /// Returns whether more than one item came.
    pub fn is_more(&self) -> bool
        ensures { result ≡ is_some (first_two self.now) }
    {
        matches!(self, NotOne::More(_, _))
    }
}
