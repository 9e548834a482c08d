//! The least and the greatest item in one pass, by their order or by a closure, and their positions.
ghost use Rattle.std.specs.Prelude.{◌≡◌, ⊤};
ghost use Rattle.fallible_iterator.specs.Closures.{call_by_reference, takes_by_reference};
ghost use Rattle.fallible_iterator.specs.Folds.{CallableInFold, FoldDrains};
ghost use Rattle.fallible_iterator.specs.Picking.{call_at_two, takes_at_two};
ghost use Rattle.fallible_itertools.specs.MinMax.{MinMaxCall, MinMaxKeyCall, MinMaxKeyDrains, WidensBoth, WidensBothBy, least_and_greatest, or_less, place_of, takes_beside, two_in_order, widened_or_failure, with_item, with_keyed};
ghost use Rattle.fallible_itertools.specs.declared.minmax.MinMaxResult.TheVariants.{MinMax, NoElements, OneElement};

use fallible_iterator::{FallibleIterator, Turn};
use std::cmp::Ordering;
use std::convert::Infallible;
use std::ops::ControlFlow;

/// What `minmax` finds.
#[derive(Clone, Copy, Debug, PartialEq, Eq, Drop)]
pub enum MinMaxResult<T> {
    /// no item came
    NoElements,
    /// one item came
    OneElement(T),
    /// the least item and the greatest
    MinMax(T, T),
}

impl<T: Copy> MinMaxResult<T> {
    /// Returns the least item and the greatest, which are one and the same if one item came; `None` if no item came.
    pub fn into_option(self) -> Option<(T, T)>
        ensures { result ≡ least_and_greatest self }
    {
        match self {
            MinMaxResult::NoElements => None,
            MinMaxResult::OneElement(only) => Some((only, only)),
            MinMaxResult::MinMax(least, greatest) => Some((least, greatest)),
        }
    }
}

/// Returns the lesser and the greater of two items, by the order of the first beside the second; of equal ones the first is the lesser.
pub fn lesser_first<A>(order: Ordering, first: A, second: A) -> (A, A)
    ensures { MinMax result.0 result.1 ≡ two_in_order first second order }
{
    if order.is_gt() {
        (second, first)
    } else {
        (first, second)
    }
}

// The item replaces the least one if it is less. Otherwise it replaces the greatest one, unless it is less than that.
#[inline(always)]
fn widen<A: Ord + Drop>(least: &mut A, greatest: &mut A, item: A)
    ensures { MinMax least.new greatest.new ≡ with_item A.cmp (MinMax least.old greatest.old) item }
{
    if (*least).cmp(&item).is_gt() {
        *least = item;
    } else if !(*greatest).cmp(&item).is_gt() {
        *greatest = item;
    }
}

/// The turn of `minmax`, whose state is the least and the greatest item so far.
#[derive(Drop)]
pub struct MinMaxTurn;

impl<A: Ord + Drop> Turn<(A, A), A, Infallible> for MinMaxTurn {
    ghost can_turn = { λ _ _ _. ⊤ };

    ghost turns = { λ _ p x r q. WidensBoth A.cmp p x r q };

    /// Compares the item with those that are kept.
    #[inline(always)]
    fn turn(&self, state: &mut (A, A), item: A) -> ControlFlow<Infallible, ()> {
        widen(&mut state.0, &mut state.1, item);
        ControlFlow::Continue(())
    }
}

// ---- The least and the greatest item by a closure, in one pass

// The item replaces the least one if the closure finds that greater. Otherwise it replaces the greatest one, unless the closure finds that greater.
#[inline(always)]
fn widen_by<A: Drop, E, F: FnMut(&A, &A) -> Result<Ordering, E>>(
    least: &mut A,
    greatest: &mut A,
    item: A,
    f: &mut F,
) -> Result<(), E>
    requires { takes_beside (call_at_two F.FnMut) (takes_at_two F.FnMut) f.old
        (MinMax least.old greatest.old) item }
    ensures { MinMaxCall (call_at_two F.FnMut) f.old (MinMax least.old greatest.old) item
        (widened_or_failure least.new greatest.new result) f.new }
{
    match f(&*least, &item) {
        Ok(order) => {
            if order.is_gt() {
                *least = item;
                return Ok(());
            }
            match f(&*greatest, &item) {
                Ok(order) => {
                    if order.is_gt() {
                        return Ok(());
                    }
                    *greatest = item;
                    Ok(())
                }
                Err(e) => Err(e),
            }
        }
        Err(e) => Err(e),
    }
}

/// The turn of `minmax_by`, whose state is the least and the greatest item so far, and the closure.
#[derive(Drop)]
pub struct MinMaxByTurn;

impl<A: Drop, E, F: FnMut(&A, &A) -> Result<Ordering, E>> Turn<((A, A), F), A, E> for MinMaxByTurn {
    ghost can_turn = { λ _ p x. takes_beside (call_at_two F.FnMut) (takes_at_two F.FnMut) p.1
        (MinMax p.0.0 p.0.1) x };

    ghost turns = { λ _ p x r q. WidensBothBy (MinMaxCall (call_at_two F.FnMut)) p x r q };

    /// Calls the closure on what is kept and the item.
    #[inline(always)]
    fn turn(&self, state: &mut ((A, A), F), item: A) -> ControlFlow<E, ()> {
        match widen_by(&mut state.0.0, &mut state.0.1, item, &mut state.1) {
            Ok(()) => ControlFlow::Continue(()),
            Err(e) => ControlFlow::Break(e),
        }
    }
}

/// Finds the least and the greatest item by the closure: it draws two items, and folds the others beside these.
pub fn find_both_by<I, F>(mut it: I, mut f: F) -> Result<MinMaxResult<I::Item>, I::Error>
where
    I: FallibleIterator,
    I::Item: Drop,
    F: FnMut(&I::Item, &I::Item) -> Result<Ordering, I::Error>,
    requires can_next { I.contract.can_next it }
    requires finite { I.contract.is_finite it }
    requires callable { CallableInFold I.contract.steps (MinMaxCall (call_at_two F.FnMut))
        (takes_beside (call_at_two F.FnMut) (takes_at_two F.FnMut)) it f NoElements }
    ensures { (left : I) × FoldDrains I.contract.steps (MinMaxCall (call_at_two F.FnMut))
        (λ e d. d ≡ e) it NoElements f result left }
{
    let first = match it.draw() {
        Ok(Some(first)) => first,
        Ok(None) => return Ok(MinMaxResult::NoElements),
        Err(e) => return Err(e),
    };
    let second = match it.draw() {
        Ok(Some(second)) => second,
        Ok(None) => return Ok(MinMaxResult::OneElement(first)),
        Err(e) => return Err(e),
    };
    let order = match f(&first, &second) {
        Ok(order) => order,
        Err(e) => return Err(e),
    };
    let mut state = (lesser_first(order, first, second), f);
    match it.drive(&mut state, &MinMaxByTurn) {
        Ok(None) => {
            let (least, greatest) = state.0;
            Ok(MinMaxResult::MinMax(least, greatest))
        }
        Ok(Some(e)) => Err(e),
        Err(e) => Err(e),
    }
}

// The item replaces the one with the least key if its own is less. Otherwise it replaces the one with the greatest key, unless its own is less than that.
#[inline(always)]
fn widen_by_key<A: Drop, K: Ord + Drop>(least: &mut (K, A), greatest: &mut (K, A), item: (K, A))
    ensures { MinMax least.new greatest.new ≡ with_keyed K.cmp (MinMax least.old greatest.old) item }
{
    if least.0.cmp(&item.0).is_gt() {
        *least = item;
    } else if !greatest.0.cmp(&item.0).is_gt() {
        *greatest = item;
    }
}

/// The turn of `minmax_by_key`, whose state is the items with the least and the greatest key so far, with their keys, and the closure.
#[derive(Drop)]
pub struct MinMaxKeyTurn;

impl<A: Drop, E, K: Ord + Drop, F: FnMut(&A) -> Result<K, E>> Turn<(((K, A), (K, A)), F), A, E>
    for MinMaxKeyTurn {
    ghost can_turn = { λ _ p x. takes_by_reference F.FnMut p.1 x };

    ghost turns = { λ _ p x r q. WidensBothBy (MinMaxKeyCall K.cmp (call_by_reference F.FnMut)) p x r
        q };

    /// Calls the closure once for the key, and compares it with those that are kept.
    #[inline(always)]
    fn turn(&self, state: &mut (((K, A), (K, A)), F), item: A) -> ControlFlow<E, ()> {
        match (state.1)(&item) {
            Ok(key) => {
                widen_by_key(&mut state.0.0, &mut state.0.1, (key, item));
                ControlFlow::Continue(())
            }
            Err(e) => ControlFlow::Break(e),
        }
    }
}

/// Finds the items with the least and the greatest key: it draws two items, and folds the others beside these.
pub fn find_both_by_key<I, K, F>(mut it: I, mut f: F) -> Result<MinMaxResult<I::Item>, I::Error>
where
    I: FallibleIterator,
    I::Item: Drop,
    K: Ord + Drop,
    F: FnMut(&I::Item) -> Result<K, I::Error>,
    requires can_next { I.contract.can_next it }
    requires finite { I.contract.is_finite it }
    requires callable { CallableInFold I.contract.steps
        (MinMaxKeyCall K.cmp (call_by_reference F.FnMut)) (λ g c x. takes_by_reference F.FnMut g x) it f
        NoElements }
    ensures { MinMaxKeyDrains K.cmp (call_by_reference F.FnMut) I.contract.steps it f result }
{
    let first = match it.draw() {
        Ok(Some(first)) => first,
        Ok(None) => return Ok(MinMaxResult::NoElements),
        Err(e) => return Err(e),
    };
    let first_key = match f(&first) {
        Ok(key) => key,
        Err(e) => return Err(e),
    };
    let second = match it.draw() {
        Ok(Some(second)) => second,
        Ok(None) => return Ok(MinMaxResult::OneElement(first)),
        Err(e) => return Err(e),
    };
    let second_key = match f(&second) {
        Ok(key) => key,
        Err(e) => return Err(e),
    };
    let mut state = (
        lesser_first(
            first_key.cmp(&second_key),
            (first_key, first),
            (second_key, second),
        ),
        f,
    );
    match it.drive(&mut state, &MinMaxKeyTurn) {
        Ok(None) => {
            let (least, greatest) = state.0;
            Ok(MinMaxResult::MinMax(least.1, greatest.1))
        }
        Ok(Some(e)) => Err(e),
        Err(e) => Err(e),
    }
}

/// Returns the number beside the item found.
pub fn place_alone<A: Drop, E>(found: Result<Option<(usize, A)>, E>) -> Result<Option<usize>, E>
    ensures { result ≡ place_of found }
{
    match found {
        Ok(Some(placed)) => Ok(Some(placed.0)),
        Ok(None) => Ok(None),
        Err(e) => Err(e),
    }
}

/// Returns an order in which the first of equal items is the lesser.
pub fn first_is_less(order: Ordering) -> Ordering
    ensures { result ≡ or_less order }
{
    match order {
        Ordering::Less => Ordering::Less,
        Ordering::Equal => Ordering::Less,
        Ordering::Greater => Ordering::Greater,
    }
}
