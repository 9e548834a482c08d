// Folds over a std iterator through its own `try_fold` and `try_rfold`.
//
// `let _ = &*state;`: only of a reference that is read does the check learn what it points to at the return.
ghost use Rattle.std.specs.Prelude.{◌≡◌, IfOk, Option, Result, Some, Ok, Err};
ghost use Rattle.std.specs.Iterator.{IsFinite};
ghost use Rattle.fallible_contract.specs.Folds.{CallableDriving, Driven};
ghost use Rattle.fallible_contract.specs.Lists.{result_answer};
ghost use Rattle.fallible_iterator.specs.Sources.IntoFallible.{never};
ghost use Rattle.fallible_iterator.specs.Sources.Std.{std_element, std_step};
ghost use Rattle.fallible_iterator.specs.Sources.StdFold.{progressing, ElementTurn, lent};
ghost use Rattle.fallible_iterator.specs.Laws.Sources.Std.{std_element_of_item_answer_is_some, std_element_of_result_answer_is_some};

use fallible_contract::folds::Turn;
use std::convert::Infallible;
use std::ops::ControlFlow;

// What an element of a std iterator is: an item or a failure.
pub(crate) trait Element<Z, A, E> {
    // The element that an item, and a failure, comes from.
    ghost of_item: { A → Z };

    ghost of_failure: { E → Z };

    // The result that an element is.
    ghost read: { Z → Result A E };

    fn read(&self, element: Z) -> Result<A, E>
        ensures { result ≡ read element };

    // The answer that an element is comes from that element.
    ghost reads: { (z : Z) → std_element of_item of_failure (result_answer (read z)) ≡ Some z };
}

// Each `Ok` is an item, and each `Err` a failure.
#[derive(Drop)]
pub(crate) struct AsResult;

impl<A, E> Element<Result<A, E>, A, E> for AsResult {
    ghost of_item = { Ok };

    ghost of_failure = { Err };

    ghost read = { λ z. z };

    #[inline(always)]
    fn read(&self, element: Result<A, E>) -> Result<A, E> {
        element
    }

    ghost reads = { std_element_of_result_answer_is_some };
}

// Each element is an item.
#[derive(Drop)]
pub(crate) struct AsItem;

impl<A> Element<A, A, Infallible> for AsItem {
    ghost of_item = { λ x. x };

    ghost of_failure = { never };

    ghost read = { Ok };

    #[inline(always)]
    fn read(&self, element: A) -> Result<A, Infallible> {
        Ok(element)
    }

    ghost reads = { std_element_of_item_answer_is_some };
}

// A std iterator that a reference points to, each of whose calls is known besides to have made progress.
#[derive(Drop)]
pub(crate) struct Progressing<'a, I> {
    pub(crate) it: &'a mut I,
}

impl<'a, I: std::iter::Iterator> std::iter::Iterator for Progressing<'a, I> {
    type Item = I::Item;

    ghost can_next = { λ s. I.can_next s.it.now };

    ghost next_gives = { λ s r t. progressing I.can_next I.next_gives I.remaining s.it r t.it };

    ghost remaining = { λ s. I.remaining s.it.now };

    fn next(&mut self) -> Option<I::Item> {
        self.it.next()
    }
}

impl<'a, I: std::iter::DoubleEndedIterator> std::iter::DoubleEndedIterator for Progressing<'a, I> {
    ghost can_next_back = { λ s. I.can_next_back s.it.now };

    ghost next_back_gives = { λ s r t. progressing I.can_next_back I.next_back_gives I.remaining
        s.it r t.it };

    fn next_back(&mut self) -> Option<I::Item> {
        self.it.next_back()
    }
}

// The fold of a std iterator from the front.
pub(crate) fn drive_std<
    I: std::iter::Iterator,
    A,
    E,
    M: Element<I::Item, A, E>,
    C,
    R,
    K: Turn<C, A, R>,
>(it: &mut I, elements: &M, state: &mut C, turn: &K) -> Result<Option<R>, E>
where
    requires can { I.can_next it.old }
    requires finite { IsFinite (I.remaining it.old) }
    requires callable { CallableDriving (std_step M.of_item M.of_failure I.can_next I.next_gives
        I.remaining) (K.turns turn.now) (K.can_turn turn.now) it.old state.old }
    ensures { Driven (std_step M.of_item M.of_failure I.can_next I.next_gives I.remaining)
        (K.turns turn.now) it.old state.old result it.new state.new }
{
    let mut drawn = Progressing { it };
    match drawn.try_fold(
        state,
        |state, element| turn_of_element(turn, elements, state, element),
    ) {
        Ok(state) => {
            let _ = &*state;
            Ok(None)
        }
        Err((state, answer)) => {
            let _ = &*state;
            answer
        }
    }
}

// The fold of a std iterator from the back.
pub(crate) fn drive_back_std<
    I: std::iter::DoubleEndedIterator,
    A,
    E,
    M: Element<I::Item, A, E>,
    C,
    R,
    K: Turn<C, A, R>,
>(it: &mut I, elements: &M, state: &mut C, turn: &K) -> Result<Option<R>, E>
where
    requires can { I.can_next_back it.old }
    requires finite { IsFinite (I.remaining it.old) }
    requires callable { CallableDriving (std_step M.of_item M.of_failure I.can_next_back
        I.next_back_gives I.remaining) (K.turns turn.now) (K.can_turn turn.now) it.old state.old }
    ensures { Driven (std_step M.of_item M.of_failure I.can_next_back I.next_back_gives
        I.remaining) (K.turns turn.now) it.old state.old result it.new state.new }
{
    let mut drawn = Progressing { it };
    match drawn.try_rfold(
        state,
        |state, element| turn_of_element(turn, elements, state, element),
    ) {
        Ok(state) => {
            let _ = &*state;
            Ok(None)
        }
        Err((state, answer)) => {
            let _ = &*state;
            answer
        }
    }
}

// One turn of std's fold: the caller's turn on an item. A failure stops the fold. The caller's state is what std's fold carries.
#[inline(always)]
fn turn_of_element<'a, Z, A, E, M: Element<Z, A, E>, C, R, K: Turn<C, A, R>>(
    turn: &K,
    elements: &M,
    state: &'a mut C,
    element: Z,
) -> Result<&'a mut C, (&'a mut C, Result<Option<R>, E>)>
    requires { IfOk (M.read element) (λ x. K.can_turn turn.now state.old x) }
    ensures { ElementTurn (lent (K.turns turn.now)) state.entry (M.read element) result }
{
    match elements.read(element) {
        Ok(x) => match turn.turn(state, x) {
            ControlFlow::Continue(()) => Ok(state),
            ControlFlow::Break(stop) => Err((state, Ok(Some(stop)))),
        },
        Err(e) => Err((state, Err(e))),
    }
}
