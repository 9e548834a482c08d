//! Callers of the adapters that let items pass: each states what it computes, and the contracts of the calls prove it.
ghost use Rattle.std.specs.Prelude.{◌≡◌, ℕ, ◌+◌, ◌-◌, ◌%◌, ◌^◌, List, Ok, Result, nat_lt};
ghost use Rattle.fallible_iterator.specs.Contract.{AtMost};
ghost use Rattle.fallible_iterator.specs.Lists.{Lists, counted, folded, pointed_to, results, taken_while};
ghost use Rattle.fallible_itertools.specs.TakeWhileInclusive.{taken_while_inclusive};

use fallible_iterator::{FallibleIterator, Peekable, convert};
use fallible_itertools::{FallibleItertools, PeekingNext};

/// The sum of what the readings point to, modulo 2 ^ 64, or the first failure.
pub fn sum_of_copies(readings: Vec<Result<&u32, u8>>) -> Result<u64, u8>
    ensures { result ≡ folded (λ e. e) (λ s x. Ok ((s + x) % 2 ^ 64)) 0
        (pointed_to (results readings.entry.items)) }
{
    convert(readings.into_iter()).copied().fold(
        0,
        |sum: u64, reading: u32| Ok(sum.wrapping_add(u64::from(reading))),
    )
}

/// How many readings come up to the first one that isn't above 100, and with it, or the first failure before.
pub fn up_to_a_low_one(readings: Vec<Result<u32, u8>>) -> Result<usize, u8>
    ensures { result ≡ counted
        (taken_while_inclusive (λ x. Ok (nat_lt 100 x)) (results readings.items)) }
{
    convert(readings.into_iter())
        .take_while_inclusive(|reading| Ok(*reading > 100))
        .count()
}

/// How many readings stand before the first one that isn't above 100, or the first failure before.
pub fn before_a_low_one<I: FallibleIterator<Item = u32>>(
    ahead: &mut Peekable<I>,
) -> Result<usize, I::Error>
where
    requires can_next { ⟦<Peekable<I> as FallibleIterator>⟧.contract.can_next ahead.old }
    requires fits { AtMost ⟦<Peekable<I> as FallibleIterator>⟧.contract ahead.old (2 ^ 64 - 1) }
    ensures { (l : List (Result ℕ I.Error))
        → Lists ⟦<Peekable<I> as FallibleIterator>⟧.contract.steps ahead.old l
        → result ≡ counted (taken_while (λ x. Ok (nat_lt 100 x)) l) }
{
    ahead
        .peeking_take_while(|reading| Ok(*reading > 100))
        .count()
}
