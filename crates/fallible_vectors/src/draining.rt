// Nothing is drawn after the answer that decides, so a borrowed source still yields the rest.
ghost use Rattle.std.specs.Prelude.{⊤};

use fallible_iterator::{Collect, FallibleIterator};
use std::alloc::{AllocError, Global};
use std::test::Fail;
use test_support::collected::expect_refused;
use test_support::number_list::listed_numbers;

// The sum, which fails with an item above 4.
fn low_sum(sum: u32, x: u32) -> Result<u32, u32> {
    if x > 4 {
        Err(x)
    } else {
        Ok(sum.wrapping_add(x))
    }
}

// A collection that asks for more room at the start than there is.
#[derive(Drop)]
struct Greedy {
    items: Vec<u32>,
}

impl Collect<u32> for Greedy {
    ghost made = { λ _ _. ⊤ };

    ghost empty_refuses = { ⊤ };

    ghost push_refuses = { λ _ _. ⊤ };

    fn empty(alloc: Global) -> Result<Greedy, AllocError> {
        let items = Vec::with_capacity(alloc, 1 << 60)?;
        Ok(Greedy { items })
    }

    fn push_one(&mut self, item: u32) -> Result<(), AllocError> {
        match self.items.push(item) {
            Ok(()) => Ok(()),
            Err(refused) => Err(AllocError::from(refused)),
        }
    }
}

const FAILING_SECOND: [Result<u32, u32>; 3] = [Ok(1), Err(2), Ok(3)];

const ABOVE_FOUR_SECOND: [Result<u32, u32>; 3] = [Ok(1), Ok(5), Ok(3)];

const ONE_AND_TWO: [Result<u32, u32>; 2] = [Ok(1), Ok(2)];

#[test]
fn count_fold_and_collect_draw_nothing_after_what_decides(rt: HostRuntime) -> Result<(), Fail> {
    {
        let mut it = listed_numbers(&FAILING_SECOND);
        assert_eq!(rt; (it.by_ref().count(), it.next()), (Err(2), Ok(Some(3))));
    }
    // Its closure fails.
    {
        let mut it = listed_numbers(&ABOVE_FOUR_SECOND);
        assert_eq!(rt;
            (it.by_ref().fold(0, low_sum), it.next()),
            (Err(5), Ok(Some(3)))
        );
    }
    // The allocation of its collection fails.
    let mut it = listed_numbers(&ONE_AND_TWO);
    expect_refused(it.by_ref().collect::<Greedy>(rt.alloc()))?;
    assert_eq!(rt; it.next(), Ok(Some(1)));
    Ok(())
}
