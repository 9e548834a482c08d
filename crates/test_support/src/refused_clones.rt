//! Clones of which each allocation fails in turn, and what clones and their originals return.
ghost use Rattle.fallible_iterator.specs.Contract.{KeptByDraws};

use crate::answered::expect_answers;
use crate::asking::Number;
use crate::course::Hint;
use crate::requests::Requests;
use crate::test_error::TestError;
use fallible_iterator::laws::answers;
use fallible_iterator::{Answer, FallibleIterator};
use std::alloc::{AllocError, Global};
use std::fmt::Debug;
use std::test::Fail;

/// What a value that is cloned hints, allocates and returns.
#[derive(Debug, Drop)]
pub struct Case<'a, T, E> {
    /// what is cloned
    pub name: &'a str,
    /// how many requests a clone makes
    pub requests: u32,
    /// what is hinted at first, and after all answers
    pub hints: [Hint; 2],
    /// what the draws before the first clone answer
    pub first: &'a [Answer<T, E>],
    /// what each clone returns then, and the original after all of them
    pub expected: &'a [Answer<T, E>],
}

/// The name of a case, how many requests a clone makes, and what is hinted at first and after all answers.
pub type Asks<'a> = (&'a str, u32, [Hint; 2]);

/// Fails each allocation of a clone in turn, and then none. Fails the test where a clone is made though its allocation failed, or that changes a hint, where a clone makes other requests, or where a clone, made before one of the answers expected, or the original, which is drawn from after that, doesn't yield those that are left. It does so too where the hint isn't that of the case, or a clone hints otherwise than its original.
pub fn expect_refused_clones<I: FallibleIterator + Clone>(
    rt: &HostRuntime,
    requests: &Requests,
    it: &mut I,
    case: &Case<'_, I::Item, I::Error>,
) -> Result<(), Fail>
where
    I::Item: Debug + Drop + PartialEq,
    I::Error: Debug + Drop + PartialEq,
    requires can_next { I.contract.can_next it.old }
    requires clones { (s c : I) → I.contract.can_next s → I.is_clone s c
        → I.contract.can_next c }
{
    let asks = (case.name, case.requests, case.hints);
    expect_refused_clones_that(rt, requests, it, asks, case.first, case.expected)
}

/// The same, with the answers beside the rest: no `const` holds items that borrow.
pub fn expect_refused_clones_that<I: FallibleIterator + Clone>(
    rt: &HostRuntime,
    requests: &Requests,
    it: &mut I,
    asks: Asks<'_>,
    first: &[Answer<I::Item, I::Error>],
    expected: &[Answer<I::Item, I::Error>],
) -> Result<(), Fail>
where
    I::Item: Debug + Drop + PartialEq,
    I::Error: Debug + Drop + PartialEq,
    requires can_next { I.contract.can_next it.old }
    requires clones { (s c : I) → I.contract.can_next s → I.is_clone s c
        → I.contract.can_next c }
{
    let (name, parts, [hint, last_hint]) = asks;
    expect_hint(name, it.size_hint(), hint)?;
    expect(rt, name, it, first)?;
    expect_refusals(rt, requests, it, name, parts, expected)?;
    let mut last = it.clone()?;
    let mut drawn = it.clone()?;
    expect_clones(rt, &mut drawn, name, expected)?;
    expect(rt, name, it, expected)?;
    expect_hint(name, it.size_hint(), last_hint)?;
    expect(rt, name, &mut last, expected)?;
    expect_hint(name, last.size_hint(), last_hint)
}

// Fails the test where a clone is made though its allocation failed, or that changes the hint, where a clone after it doesn't yield the answers expected, or where a clone that doesn't fail makes other requests.
fn expect_refusals<I: FallibleIterator + Clone>(
    rt: &HostRuntime,
    requests: &Requests,
    it: &I,
    name: &str,
    parts: u32,
    expected: &[Answer<I::Item, I::Error>],
) -> Result<(), Fail>
where
    I::Item: Debug + Drop + PartialEq,
    I::Error: Debug + Drop + PartialEq,
    requires clones { (c : I) → I.is_clone it.now c → I.contract.can_next c }
{
    let hint = it.size_hint();
    for number in 0..parts {
        requests.refuse(number);
        let made: Result<I, AllocError> = it.clone();
        requests.refuse_none();
        if made.is_ok() {
            return Err(Fail::new(format_args!(
                "{name}: request {number} of a clone: wanted a refusal, got a clone"
            )));
        }
        expect_hint(name, it.size_hint(), hint)?;
        expect(rt, name, &mut it.clone()?, expected)?;
    }
    requests.refuse(parts);
    let made: Result<I, AllocError> = it.clone();
    let met = requests.made();
    requests.refuse_none();
    if made.is_ok() && met == parts {
        expect(rt, name, &mut made?, expected)
    } else {
        Err(Fail::new(format_args!(
            "{name}: wanted a clone of {parts} requests, got {met} requests, refused {}",
            made.is_err()
        )))
    }
}

// Fails the test where a clone, made before one of the answers expected, hints otherwise than its original, or doesn't yield those that are left.
fn expect_clones<I: FallibleIterator + Clone>(
    rt: &HostRuntime,
    it: &mut I,
    name: &str,
    expected: &[Answer<I::Item, I::Error>],
) -> Result<(), Fail>
where
    I::Item: Debug + Drop + PartialEq,
    I::Error: Debug + Drop + PartialEq,
    requires can_next { I.contract.can_next it.old }
    requires clones { (s c : I) → I.contract.can_next s → I.is_clone s c
        → I.contract.can_next c }
    ensures { KeptByDraws I.contract it.old it.new }
{
    for number in 0..expected.len() {
        let mut clone = it.clone()?;
        expect_hint(name, clone.size_hint(), it.size_hint())?;
        expect(rt, name, &mut clone, &expected[number..])?;
        let _ = it.next();
    }
    Ok(())
}

// Fails the test where the hint is another.
fn expect_hint(case: &str, hint: Hint, expected: Hint) -> Result<(), Fail> {
    if hint == expected {
        Ok(())
    } else {
        Err(Fail::new(format_args!("{case}: wanted the hint {expected:?}, got {hint:?}")))
    }
}

// Fails the test where the next draws return otherwise.
fn expect<I: FallibleIterator>(
    rt: &HostRuntime,
    case: &str,
    it: &mut I,
    expected: &[Answer<I::Item, I::Error>],
) -> Result<(), Fail>
where
    I::Item: Debug + Drop + PartialEq,
    I::Error: Debug + Drop + PartialEq,
    requires { I.contract.can_next it.old }
    ensures { KeptByDraws I.contract it.old it.new }
{
    let drawn = answers(rt.alloc(), it, expected.len())?;
    if drawn.as_slice() == expected {
        Ok(())
    } else {
        Err(Fail::new(format_args!("{case}: wanted {expected:?}, got {drawn:?}")))
    }
}

/// The same of numbers: of one type of item and of failure, so that a call takes less of the proof.
pub fn expect_refused_clones_of_numbers<I: FallibleIterator<Item = u32, Error = TestError> + Clone>(
    rt: &HostRuntime,
    requests: &Requests,
    it: &mut I,
    case: &Case<'_, u32, TestError>,
) -> Result<(), Fail>
where
    requires can_next { I.contract.can_next it.old }
    requires clones { (s c : I) → I.contract.can_next s → I.is_clone s c
        → I.contract.can_next c }
{
    expect_refused_clones(rt, requests, it, case)
}

/// The same of items that allocate, of which the case has the numbers.
pub fn expect_refused_clones_of_asking<
    'a,
    I: FallibleIterator<Item = Number<'a>, Error = TestError> + Clone,
>(
    rt: &HostRuntime,
    requests: &'a Requests,
    it: &mut I,
    case: &Case<'_, u32, TestError>,
) -> Result<(), Fail>
where
    requires can_next { I.contract.can_next it.old }
    requires clones { (s c : I) → I.contract.can_next s → I.is_clone s c
        → I.contract.can_next c }
{
    let first = asking(rt.alloc(), requests, case.first)?;
    let expected = asking(rt.alloc(), requests, case.expected)?;
    let asks = (case.name, case.requests, case.hints);
    expect_refused_clones_that(
        rt,
        requests,
        it,
        asks,
        first.as_slice(),
        expected.as_slice(),
    )
}

/// Fails one allocation, and draws items that allocate. Fails the test where they don't yield the numbers expected, or make other requests.
pub fn expect_refused_draw_of_asking<'a, I: FallibleIterator<Item = Number<'a>, Error = TestError>>(
    rt: &HostRuntime,
    requests: &'a Requests,
    it: &mut I,
    refused: u32,
    made: u32,
    expected: &[Answer<u32, TestError>],
) -> Result<(), Fail>
where
    requires { I.contract.can_next it.old }
    ensures { KeptByDraws I.contract it.old it.new }
{
    requests.refuse(refused);
    expect_answers(rt, it, asking(rt.alloc(), requests, expected)?.as_slice())?;
    let met = requests.made();
    if met == made {
        Ok(())
    } else {
        Err(Fail::new(format_args!("request {refused} refused: {met} requests, and not {made}")))
    }
}

// The answers, with items that ask.
fn asking<'a>(
    alloc: Global,
    requests: &'a Requests,
    answers: &[Answer<u32, TestError>],
) -> Result<Vec<Answer<Number<'a>, TestError>>, AllocError> {
    let mut made = Vec::new(alloc);
    for answer in answers {
        made.push(match answer {
            Answer::Item(value) => Answer::Item(Number::new(*value, requests)),
            Answer::Failure(failure) => Answer::Failure(failure.clone()?),
            Answer::End => Answer::End,
        })?;
    }
    Ok(made)
}
