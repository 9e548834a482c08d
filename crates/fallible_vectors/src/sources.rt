// Sources.
use fallible_iterator::Answer::{End, Failure, Item};
use fallible_iterator::{
    Answer, FallibleIterator, IteratorExt, convert_fused, empty, from_fn, once, once_err, repeat,
    repeat_err,
};
use std::cell::Cell;
use std::test::Fail;
use test_support::answered::expect_answers;
use test_support::collected::expect_collected;
use test_support::expected_numbers::expect_numbers;
use test_support::test_error::TestError;
use test_support::text::Text;

const GOING_ON: [Answer<u32, u32>; 4] = [Item(1), End, Item(2), End];

const ENDING_FOR_GOOD: [Answer<u32, u32>; 5] = [Item(1), Failure(9), Item(3), End, End];

#[test]
fn from_fn_convert_fused_and_transposed_give_each_answer(rt: HostRuntime) -> Result<(), Fail> {
    // It goes on after an end.
    {
        let mut calls = 0u32;
        let mut it = from_fn(move || {
            calls = calls.wrapping_add(1);
            match calls {
                1 => Ok::<Option<u32>, u32>(Some(1)),
                3 => Ok(Some(2)),
                _ => Ok(None),
            }
        });
        expect_numbers(&rt, &mut it, &GOING_ON)?;
    }
    // It only ends after its first end.
    {
        let mut calls = 0u32;
        let source = from_fn(move || {
            calls = calls.wrapping_add(1);
            match calls {
                2 => Err(9),
                4 => Ok(None),
                number => Ok::<Option<u32>, u32>(Some(number)),
            }
        });
        let mut it = convert_fused(source.iterator());
        expect_numbers(&rt, &mut it, &ENDING_FOR_GOOD)?;
    }
    let answers: [Result<u32, u32>; 2] = [Ok(1), Err(2)];
    let mut it = answers.iter().copied().transpose_into_fallible();
    let drawn = [it.next(), it.next(), it.next()];
    assert_eq!(rt; drawn, [Ok(Some(1)), Err(2), Ok(None)]);
    Ok(())
}

const NO_DRAW: [Answer<u32, u32>; 0] = [];

#[test]
fn empty_once_and_once_err_end(rt: HostRuntime) -> Result<(), Fail> {
    {
        let mut it = empty::<u32, u32>();
        assert_eq!(rt; [it.next(), it.next()], [Ok(None), Ok(None)]);
    }
    {
        let mut it = once::<u32, u32>(5);
        assert_eq!(rt; [it.next(), it.next()], [Ok(Some(5)), Ok(None)]);
    }
    {
        let mut it = once::<u32, u32>(5);
        expect_numbers(&rt, &mut it, &NO_DRAW)?;
        assert_eq!(rt; it.next(), Ok(Some(5)));
    }
    let mut it = once_err::<u32, u32>(4);
    assert_eq!(rt;
        [it.next(), it.next(), it.next()],
        [Err(4), Ok(None), Ok(None)]
    );
    Ok(())
}

const SECOND_REFUSED: [Answer<&str, TestError>; 3] = [
    Item("x"),
    Failure(TestError::Memory),
    Item("x"),
];

#[test]
fn repeat_and_repeat_err_go_on(rt: HostRuntime) -> Result<(), Fail> {
    let mut it = repeat_err::<u32, TestError>(TestError::Number(4));
    let failure = || Err(TestError::Number(4));
    assert_eq!(rt;
        [it.next(), it.next(), it.next()],
        [failure(), failure(), failure()]
    );
    // The second clone fails.
    let clones = Cell::new(0);
    let value = Text {
        text: "x",
        clones: &clones,
    };
    let mut it = repeat::<Text<'_>, TestError>(value).map(|clone: Text<'_>| Ok(clone.text));
    expect_answers(&rt, &mut it, &SECOND_REFUSED)?;
    let it = repeat::<u32, TestError>(5).take(2);
    expect_collected(it.collect(rt.alloc()), &[5, 5])
}
