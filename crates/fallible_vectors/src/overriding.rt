// A fallible iterator of a user's own that writes its own fold.
ghost use Rattle.std.proofs.Common.{refl};
ghost use Rattle.fallible_iterator.specs.Contract.{around};
ghost use Rattle.fallible_iterator.specs.Laws.Contract.{lawful_around};

use fallible_iterator::{FallibleIterator, Turn};
use std::cell::Cell;
use test_support::number_list::listed_numbers;

// Numbers from a source, and how often their fold was called.
#[derive(Drop)]
struct Watched<'a, I> {
    it: I,
    folds: &'a Cell<u32>,
}

impl<'a, I: FallibleIterator<Item = u32, Error = u32>> FallibleIterator for Watched<'a, I> {
    type Item = u32;

    type Error = u32;

    ghost contract = { around (λ w. w.it) I.contract };

    fn next(&mut self) -> Result<Option<u32>, u32> {
        self.it.next()
    }

    fn size_hint(&self) -> (usize, Option<usize>) {
        self.it.size_hint()
    }

    fn drive<C, R, K: Turn<C, u32, R>>(
        &mut self,
        state: &mut C,
        turn: &K,
    ) -> Result<Option<R>, u32> {
        self.folds.set(self.folds.get().wrapping_add(1));
        self.it.drive(state, turn)
    }

    ghost lawful = { lawful_around
        (record { put = λ w it. record w { it = it }; has = λ w it. refl }) I.lawful };
}

// The sum, which stops with a power of two after a sum of 1.
fn up_to_a_power(sum: u32, x: u32) -> Result<u32, u32> {
    if x.is_power_of_two() && sum == 1 {
        Err(x)
    } else {
        Ok(x.wrapping_add(sum))
    }
}

const POWERS_OF_TWO: [Result<u32, u32>; 4] = [Ok(1), Ok(2), Ok(4), Ok(8)];

const FAILING_SECOND: [Result<u32, u32>; 3] = [Ok(1), Err(7), Ok(2)];

#[test]
fn folds_go_through_its_own_fold(rt: HostRuntime) {
    let folds = Cell::new(0);
    let mut watched = Watched {
        it: listed_numbers(&POWERS_OF_TWO),
        folds: &folds,
    };
    let stopped = watched.try_fold(0, up_to_a_power);
    assert_eq!(rt; (stopped, folds.get()), (Err(2), 1));
    assert_eq!(rt; watched.next(), Ok(Some(4)));
    // It fails as its source.
    folds.set(0);
    let watched = Watched {
        it: listed_numbers(&FAILING_SECOND),
        folds: &folds,
    };
    let failed = watched.fold(0, |sum, x| Ok(x.wrapping_add(sum)));
    assert_eq!(rt; (failed, folds.get()), (Err(7), 1));
}
