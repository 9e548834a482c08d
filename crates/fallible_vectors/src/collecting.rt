// Collections.
ghost use Rattle.std.specs.Prelude.{⊤};

use fallible_iterator::{Collect, FallibleIterator, Fault, IntoFallible, IteratorExt};
use std::alloc::{AllocError, Global};
use std::convert::Infallible;
use std::ops::Range;
use std::test::Fail;
use test_support::closures::{even_thirds, ten_more_of_even};
use test_support::collected::{expect_collected, expect_refused, expect_source_fault};
use test_support::listed::listed;
use test_support::number_list::listed_numbers;

// What `collect` through a reference makes of the answers, and what the next draw returns.
fn collected(
    alloc: Global,
    answers: &[Result<u32, u32>],
) -> (Result<Vec<u32>, Fault<u32>>, Result<Option<u32>, u32>) {
    let mut it = listed_numbers(answers);
    (it.by_ref().collect(alloc), it.next())
}

// What is collected: the items, or the failure of the source.
type Made = Result<&'static [u32], u32>;

// Collects, and fails the test where anything else comes.
fn expect_collects<I: FallibleIterator<Item = u32, Error = u32>>(
    rt: &HostRuntime,
    it: I,
    expected: Result<&[u32], u32>,
) -> Result<(), Fail>
where
    requires can_next { I.contract.can_next it }
    requires finite { I.contract.is_finite it }
{
    let made = it.collect::<Vec<u32>>(rt.alloc());
    match expected {
        Ok(items) => expect_collected(made, items),
        Err(failure) => expect_source_fault(made, failure),
    }
}

const UP_TO_FOUR: [Result<u32, u32>; 5] = [Ok(0), Ok(1), Ok(2), Ok(3), Ok(4)];

const DOUBLED: Made = Ok(&[0, 2, 4, 6, 8]);

// How much greater failures are, what the source yields, and what is collected.
const WITH_GREATER_FAILURES: [(u32, &[Result<u32, u32>], Made); 2] = [
    (100, &[Ok(1), Err(5)], Err(105)),
    (0, &[Ok(0), Err(1), Ok(2), Err(3)], Err(1)),
];

// What the source of `filter` with `even_thirds` yields, and what is collected.
const EVEN_THIRDS: [(&[Result<u32, u32>], Made); 2] = [
    (&[Ok(0), Ok(2), Ok(4), Ok(6)], Ok(&[0, 6])),
    (&[Ok(0), Ok(1), Ok(2), Ok(3)], Err(1)),
];

// What the source of `filter_map` with `ten_more_of_even` yields, and what is collected.
const TEN_MORE_OF_EVEN: [(&[Result<u32, u32>], Made); 2] = [
    (&[Ok(0), Ok(2), Ok(3), Ok(4), Ok(6)], Ok(&[10, 12, 14, 16])),
    (&[Ok(0), Ok(1), Ok(2), Ok(3), Ok(4), Ok(5), Ok(6)], Err(1)),
];

#[test]
fn collect_over_an_adapter_makes_its_items_or_fails_as_it_does(
    rt: HostRuntime,
) -> Result<(), Fail> {
    {
        let it = listed_numbers(&UP_TO_FOUR).map(|x: u32| Ok(x.wrapping_mul(2)));
        expect_collects(&rt, it, DOUBLED)?;
    }
    for (more, given, made) in &WITH_GREATER_FAILURES {
        let it = listed_numbers(given).map_err(|e: u32| e.wrapping_add(*more));
        expect_collects(&rt, it, *made)?;
    }
    for (given, made) in &EVEN_THIRDS {
        expect_collects(&rt, listed_numbers(given).filter(even_thirds), *made)?;
    }
    for (given, made) in &TEN_MORE_OF_EVEN {
        expect_collects(
            &rt,
            listed_numbers(given).filter_map(ten_more_of_even),
            *made,
        )?;
    }
    Ok(())
}

// What `collect` makes of the numbers of a range.
fn collected_range(
    alloc: Global,
    it: IntoFallible<Range<u32>>,
) -> Result<Vec<u32>, Fault<Infallible>> {
    it.collect(alloc)
}

const ZERO_TO_THREE: [u32; 4] = [0, 1, 2, 3];

#[test]
fn collect_from_a_std_iterator_goes_on_where_its_room_is_full(rt: HostRuntime) -> Result<(), Fail> {
    let made = collected_range(rt.alloc(), IntoFallible::from(0..4));
    expect_collected(made, &ZERO_TO_THREE)?;
    let made = collected_range(rt.alloc(), (0..4).into_fallible());
    expect_collected(made, &ZERO_TO_THREE)?;
    // It has no room at first, and asks for more again and again.
    let made = collected_range(rt.alloc(), IntoFallible::from(0..1000));
    let items = made.expect(&rt, "a collection");
    assert_eq!(rt; items.len(), 1000);
    for (number, item) in (0..).zip(&items) {
        assert_eq!(rt; *item, number);
    }
    Ok(())
}

// A collection of a user's own, which counts and never fails.
#[derive(Drop)]
struct Total {
    count: u64,
}

impl Collect<u32> for Total {
    ghost made = { λ _ _. ⊤ };

    ghost empty_refuses = { ⊥ };

    ghost push_refuses = { λ _ _. ⊥ };

    fn empty(_alloc: Global) -> Result<Total, AllocError> {
        Ok(Total { count: 0 })
    }

    fn push_one(&mut self, _item: u32) -> Result<(), AllocError> {
        self.count = self.count.wrapping_add(1);
        Ok(())
    }
}

// A collection that asks for more room at each push than there is.
#[derive(Drop)]
struct Hungry {
    items: Vec<u32>,
    alloc: Global,
}

impl Collect<u32> for Hungry {
    ghost made = { λ _ _. ⊤ };

    ghost empty_refuses = { ⊥ };

    ghost push_refuses = { λ _ _. ⊤ };

    fn empty(alloc: Global) -> Result<Hungry, AllocError> {
        Ok(Hungry {
            items: Vec::new(alloc),
            alloc,
        })
    }

    fn push_one(&mut self, item: u32) -> Result<(), AllocError> {
        let mut items = Vec::with_capacity(self.alloc, 1 << 60)?;
        items.push(item)?;
        self.items = items;
        Ok(())
    }
}

// The gate meets every request, and `rt try --test --fail-alloc N` refuses the N-th: the one that the `Vec` makes for its first item is its only one.
#[test]
fn collect_into_a_vec_whose_request_may_be_refused(rt: HostRuntime) -> Result<(), Fail> {
    let mut it = listed::<u32, u32, 3>(rt.alloc(), [Ok(1), Ok(2), Ok(3)])?;
    let made: Result<Vec<u32>, Fault<u32>> = it.by_ref().collect(rt.alloc());
    match made {
        Ok(items) => assert_eq!(rt; items.as_slice(), [1, 2, 3].as_slice()),
        Err(Fault::Memory(_)) => assert_eq!(rt; it.next(), Ok(Some(2))),
        Err(Fault::Source(failure)) => panic!(rt; "the source failed: {failure}"),
    }
    Ok(())
}

// What a source that fails with 1 yields: `collect` leaves 2 as its next draw.
const FAILING: [&[Result<u32, u32>]; 2] = [
    &[Ok(0), Err(1), Ok(2), Err(3)],
    &[Ok(0), Err(1), Ok(2)],
];

const ONE_TO_THREE: [Result<u32, u32>; 3] = [Ok(1), Ok(2), Ok(3)];

#[test]
fn collect_draws_no_more_after_a_failure_or_a_refusal(rt: HostRuntime) -> Result<(), Fail> {
    for given in &FAILING {
        let (made, next) = collected(rt.alloc(), given);
        expect_source_fault(made, 1)?;
        assert_eq!(rt; next, Ok(Some(2)));
    }
    let mut it = listed_numbers(&ONE_TO_THREE);
    expect_refused(it.by_ref().collect::<Hungry>(rt.alloc()))?;
    assert_eq!(rt; it.next(), Ok(Some(2)));
    Ok(())
}

#[test]
fn collect_takes_no_room_ahead_and_counts_into_a_counter(rt: HostRuntime) -> Result<(), Fail> {
    // A `Vec` grows with its items, by a factor: for five of them it has nowhere near 1,000 places.
    let (made, _) = collected(rt.alloc(), &UP_TO_FOUR);
    assert!(rt; made.expect(&rt, "a collection").capacity() < 1_000);
    let made = listed_numbers(&ONE_TO_THREE).collect::<Total>(rt.alloc());
    assert_eq!(rt; made.expect(&rt, "a collection").count, 3);
    // A failure becomes a fault of the source.
    expect_source_fault::<(), u32>(Err(Fault::from(7)), 7)
}
