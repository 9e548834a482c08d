// A fallible iterator whose one bound is the number of its items, and no greater one.
ghost use Rattle.std.specs.Prelude.{◌≡◌, ◌+◌, MatchResult, MatchOption};
ghost use Rattle.std.proofs.Common.{rules};
ghost use Rattle.fallible_iterator.specs.Contract.{counted_contract};

use fallible_iterator::Answer::{End, Item};
use fallible_iterator::{Answer, FallibleIterator};
use std::test::Fail;
use test_support::answered::expect_answers;

// Yields 3 as many times as is left, and then ends.
#[derive(Drop)]
struct Threes {
    left: u64,
}

impl FallibleIterator for Threes {
    type Item = u32;

    type Error = ();

    ghost contract = { let m = counted_contract (λ s r t. MatchResult r
        (λ o. MatchOption o ((s.left ≡ 0) × (t.left ≡ 0)) (λ x. (x ≡ 3) × (t.left + 1 ≡ s.left)))
        (λ _. ⊥))
        (λ s. s.left)
        in record m { bound = λ s n. s.left ≡ n } };

    fn next(&mut self) -> Result<Option<u32>, ()> {
        if self.left == 0 {
            return Ok(None);
        }
        self.left -= 1;
        Ok(Some(3))
    }

    fn size_hint(&self) -> (usize, Option<usize>) {
        (0, None)
    }

    ghost lawful = { Prim.search rules };
}

const NUMBERED_THREES: [Answer<(usize, u32), ()>; 3] = [Item((0, 3)), Item((1, 3)), End];

#[test]
fn is_counted_and_numbered(rt: HostRuntime) -> Result<(), Fail> {
    assert_eq!(rt; Threes { left: 4 }.count(), Ok(4));
    let mut it = Threes { left: 2 }.enumerate();
    expect_answers(&rt, &mut it, &NUMBERED_THREES)?;
    // It is counted after it is numbered.
    let it = Threes { left: 4 };
    assert_eq!(rt; it.enumerate().map(|(n, _)| Ok(n)).count(), Ok(4));
    Ok(())
}
