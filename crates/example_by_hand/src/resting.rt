//! What is left after a call through a borrow.
ghost use Rattle.std.specs.Prelude.{◌≡◌, ◌-◌, ◌^◌, ℕ, eqb, List, Option, Result, Ok, Err, Some, None};
ghost use Rattle.fallible_iterator.specs.Contract.{AtMost};
ghost use Rattle.fallible_iterator.specs.Lists.{Lists, rest_true, counted, found, rest_look, nth_of, on_value, position_in, results};

use fallible_iterator::{FallibleIterator, convert};

/// The reading after the first one that is 0; `None` if there is no such one, and the first failure before.
pub fn reading_after_zero(readings: Vec<Result<u32, u8>>) -> Result<Option<u32>, u8>
    ensures some { (x : ℕ) → found (λ r. Ok (eqb r 0)) (results readings.items) ≡ Ok (Some x)
        → result ≡ nth_of 0 (rest_true (λ r. Ok (eqb r 0)) (results readings.items)) }
    ensures none { found (λ r. Ok (eqb r 0)) (results readings.items) ≡ Ok None
        → result ≡ Ok None }
    ensures fails { (e : ℕ) → found (λ r. Ok (eqb r 0)) (results readings.items) ≡ Err e
        → result ≡ Err e }
{
    let mut left = convert(readings.into_iter());
    match left.find(|reading| Ok(*reading == 0))? {
        Some(_) => left.nth(0),
        None => Ok(None),
    }
}

/// How many items come after the first one that is 0; 0 if there is no such one, and the first failure.
pub fn count_after_zero<I: FallibleIterator<Item = u32>>(mut it: I) -> Result<usize, I::Error>
where
    requires can_next { I.contract.can_next it }
    requires fits { AtMost I.contract it (2 ^ 64 - 1) }
    ensures some { (l : List (Result ℕ I.Error)) (n : ℕ)
        → Lists I.contract.steps it l
        → position_in (λ x. Ok (eqb x 0)) l ≡ Ok (Some n)
        → result ≡ counted (rest_true (λ x. Ok (eqb x 0)) l) }
    ensures none { (l : List (Result ℕ I.Error))
        → Lists I.contract.steps it l
        → position_in (λ x. Ok (eqb x 0)) l ≡ Ok None → result ≡ Ok 0 }
    ensures fails { (l : List (Result ℕ I.Error)) (e : I.Error)
        → Lists I.contract.steps it l
        → position_in (λ x. Ok (eqb x 0)) l ≡ Err e → result ≡ Err e }
{
    match it.position(|x| Ok(x == 0))? {
        Some(_) => it.count(),
        None => Ok(0),
    }
}

/// The first item, which is looked at, and how many there are, or the first failure.
pub fn first_and_count<I: FallibleIterator<Item = u32>>(
    it: I,
) -> Result<(Option<u32>, usize), I::Error>
where
    requires can_next { I.contract.can_next it }
    requires fits { AtMost I.contract it (2 ^ 64 - 1) }
    ensures { (l : List (Result ℕ I.Error)) → Lists I.contract.steps it l
        → result ≡ on_value (nth_of 0 l)
        (λ first. on_value (counted (rest_look l)) (λ n. Ok (first, n))) }
{
    let mut ahead = it.peekable();
    let first = ahead.peek_copied()?;
    Ok((first, ahead.count()?))
}
