// Borrowed sources.
use fallible_iterator::Answer::{End, Failure, Item};
use fallible_iterator::{Answer, FallibleIterator};
use std::test::Fail;
use test_support::expected_numbers::expect_numbers;
use test_support::listed::listed;
use test_support::number_list::listed_numbers;

const ONE_A_FAILURE_AND_AN_END: [Answer<u32, u32>; 3] = [Item(1), Failure(2), End];

// What is drawn from a borrow is drawn from it.
#[test]
fn a_borrow_and_a_box_answer_as_what_they_hold(rt: HostRuntime) -> Result<(), Fail> {
    {
        let answers = [Ok(1), Err(2), Ok(3)];
        let mut it = listed_numbers(&answers);
        assert_eq!(rt; it.by_ref().next(), Ok(Some(1)));
        assert_eq!(rt; it.next(), Err(2));
        assert_eq!(rt; it.by_ref().count(), Ok(1));
        assert_eq!(rt; it.next(), Ok(None));
    }
    let it = listed::<u32, u32, 2>(rt.alloc(), [Ok(1), Err(2)])?;
    let mut boxed = Box::new(rt.alloc(), it)?;
    expect_numbers(&rt, &mut boxed, &ONE_A_FAILURE_AND_AN_END)
}
