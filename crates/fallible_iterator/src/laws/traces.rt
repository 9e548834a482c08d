//! Traces that a test or a caller can look at.
ghost use Rattle.std.specs.Prelude.{◌≡◌, ℕ, ◌+◌, ◌≤◌, List, length, take, drop, IfOk, IfErr, Result, Option};
ghost use Rattle.fallible_contract.specs.Contract.{Contract, KeptByDraws, Stays};
ghost use Rattle.fallible_contract.specs.Ends.{from_front};
ghost use Rattle.fallible_contract.specs.ShownTraces.{answer_of, IsAnswers, IsAnswersAt, answers_of};
ghost use Rattle.fallible_contract.specs.Lists.{Lists};
ghost use Rattle.fallible_contract.specs.BothEnds.{step_at, ListsBothEnds};
ghost use Rattle.fallible_iterator.specs.Answering.{answers_at_ends, rest_ends};

use fallible_contract::answers::{Answer, Side};
use fallible_core::{DoubleEndedFallibleIterator, FallibleIterator};
use std::alloc::{AllocError, Global};

/// Returns the answers of `n` draws, in order.
///
/// It draws n times. It fails with `AllocError` if the allocation of its `Vec` fails: it allocates first, and nothing was drawn then. The iterator may be used again. Over a list of n answers or more it lists those after them.
///
/// Requires: `next` may be called.
///
/// ```
/// let mut it = convert([Ok::<u32, u8>(150), Err(9)].into_iter());
/// let drawn = answers(rt.alloc(), &mut it, 3)?;
/// let expected = [Answer::Item(150), Answer::Failure(9), Answer::End];
/// assert_eq!(rt; drawn.as_slice(), expected.as_slice());
/// ```
pub fn answers<I: FallibleIterator>(
    alloc: Global,
    it: &mut I,
    n: usize,
) -> Result<Vec<Answer<I::Item, I::Error>>, AllocError>
where
    requires { I.contract.can_next it.old }
    ensures drawn { IfOk result (λ v. IsAnswers I.contract.steps it.old n v.items it.new) }
    ensures value { (l : List (Result I.Item I.Error)) → n ≤ length l + 1
        → Lists I.contract.steps it.old l → IfOk result (λ v. v.items ≡ take n (answers_of l)) }
    ensures rest { (l : List (Result I.Item I.Error)) → n ≤ length l → Lists I.contract.steps it.old l
        → IfOk result (λ _. Lists I.contract.steps it.new (drop n l)) }
    ensures refused { IfErr result (λ _. it.new ≡ it.old) }
    ensures stays { Stays I.contract it.old it.new }
{
    let mut made = Vec::with_capacity(alloc, n)?;
    while made.len() < n {
        let answer = draw(it);
        made.push_reserved(answer);
    }
    Ok(made)
}

/// Returns the answers of one draw for each of the sides, from the end that it names, in order.
///
/// It draws once for each side. It fails with `AllocError` if the allocation of its `Vec` fails: it allocates first, and nothing was drawn then. The iterator may be used again, from either end. Over what both ends list they list what is between.
///
/// Requires: `next` and `next_back` may be called.
///
/// ```
/// let mut it = convert([Ok::<u32, u8>(1), Ok(2), Err(9)].into_iter());
/// let drawn = answers_at(rt.alloc(), &mut it, &[Side::Back, Side::Front, Side::Back])?;
/// let expected = [Answer::Failure(9), Answer::Item(1), Answer::Item(2)];
/// assert_eq!(rt; drawn.as_slice(), expected.as_slice());
/// ```
pub fn answers_at<I: DoubleEndedFallibleIterator>(
    alloc: Global,
    it: &mut I,
    sides: &[Side],
) -> Result<Vec<Answer<I::Item, I::Error>>, AllocError>
where
    requires { I.ends.can_next it.old }
    ensures drawn { IfOk result
        (λ v. IsAnswersAt I.contract.steps I.ends.steps it.old sides.now v.items it.new) }
    ensures value { (l : List (Result I.Item I.Error))
        → ListsBothEnds I.contract.steps I.ends.steps it.old l
        → IfOk result (λ v. v.items ≡ answers_at_ends sides.now l) }
    ensures rest { (l : List (Result I.Item I.Error))
        → ListsBothEnds I.contract.steps I.ends.steps it.old l
        → IfOk result (λ _. ListsBothEnds I.contract.steps I.ends.steps it.new
        (rest_ends sides.now l)) }
    ensures refused { IfErr result (λ _. it.new ≡ it.old) }
    ensures kept { KeptByDraws (from_front I.contract I.ends) it.old it.new }
{
    let mut given = Vec::with_capacity(alloc, sides.len())?;
    for side in sides {
        let answer = draw_at(it, side);
        given.push_reserved(answer);
    }
    Ok(given)
}

fn draw<I: FallibleIterator>(it: &mut I) -> Answer<I::Item, I::Error>
where
    requires { I.contract.can_next it.old }
    ensures { (r : Result (Option I.Item) I.Error) × I.contract.steps it.old r it.new
        × (result ≡ answer_of r) }
{
    told(it.next())
}

fn draw_at<I: DoubleEndedFallibleIterator>(it: &mut I, side: &Side) -> Answer<I::Item, I::Error>
where
    requires { I.ends.can_next it.old }
    ensures { (r : Result (Option I.Item) I.Error)
        × step_at I.contract.steps I.ends.steps side.now it.old r it.new × (result ≡ answer_of r) }
{
    match side {
        Side::Front => told(it.next()),
        Side::Back => told(it.next_back()),
    }
}

// An answer as a value.
fn told<T, E>(answer: Result<Option<T>, E>) -> Answer<T, E>
    ensures { result ≡ answer_of answer }
{
    match answer {
        Ok(Some(x)) => Answer::Item(x),
        Ok(None) => Answer::End,
        Err(e) => Answer::Failure(e),
    }
}
