//! Callers over any fallible iterator, and over what becomes one.
ghost use Rattle.std.specs.Prelude.{◌≡◌, ◌+◌, ◌%◌, ◌^◌, ℕ, List, Result, Ok, Err};
ghost use Rattle.std.specs.Iterator.{IsFinite};
ghost use Rattle.fallible_iterator.specs.Lists.{Lists, RunsRead, results, folded};
ghost use Rattle.fallible_iterator.specs.Sources.Std.{IsAskable};

use fallible_iterator::{FallibleIterator, IntoFallibleIterator, convert};

/// The sum of the items, modulo 2 ^ 64, or the first failure.
pub fn sum_of<I: FallibleIterator<Item = u32>>(it: I) -> Result<u64, I::Error>
where
    requires can_next { I.contract.can_next it }
    requires finite { I.contract.is_finite it }
    ensures { (l : List (Result ℕ I.Error)) → Lists I.contract.steps it l
        → result ≡ folded (λ e. e) (λ s x. Ok ((s + x) % 2 ^ 64)) 0 l }
{
    it.fold(
        0,
        |sum: u64, item: u32| Ok(sum.wrapping_add(u64::from(item))),
    )
}

/// The sum of the items of what becomes a fallible iterator, modulo 2 ^ 64, or the first failure.
pub fn sum_of_all<T: IntoFallibleIterator<Item = u32>>(all: T) -> Result<u64, T::Error>
where
    requires can_next { (it : T.IntoFallibleIter) → T.into_gives all it
        → T.IntoFallibleIter.contract.can_next it }
    requires finite { (it : T.IntoFallibleIter) → T.into_gives all it
        → T.IntoFallibleIter.contract.is_finite it }
    ensures { (l : List (Result ℕ T.Error))
        → ((it : T.IntoFallibleIter) → T.into_gives all it
        → Lists T.IntoFallibleIter.contract.steps it l)
        → result ≡ folded (λ e. e) (λ s x. Ok ((s + x) % 2 ^ 64)) 0 l }
{
    sum_of(all.into_fallible_iter())
}

/// The sum of the rows that any std iterator yields, modulo 2 ^ 64, or the first failure.
pub fn sum_of_rows<R: Iterator<Item = Result<u32, u8>> + Drop>(rows: R) -> Result<u64, u8>
where
    requires askable { IsAskable Ok Err R.can_next R.next_gives R.remaining rows }
    requires finite { IsFinite (R.remaining rows) }
    ensures { (l : List (Result ℕ ℕ)) → RunsRead R.next_gives (λ y. y) rows l
        → result ≡ folded (λ e. e) (λ s x. Ok ((s + x) % 2 ^ 64)) 0 (results l) }
{
    sum_of(convert(rows))
}
