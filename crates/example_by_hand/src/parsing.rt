//! The idioms of parsers: how many of each kind, a sum or why there is none, and what comes after the items that were added up.
ghost use Rattle.std.specs.Prelude.{◌≡◌, ◌+◌, ◌%◌, ◌^◌, ℕ, length, List, Result, Ok, Err, Option, IfOk, false, nat_lt, if◌then◌else◌, nat_eq, is_some};
ghost use Rattle.std.specs.Fmt.{decimal};
ghost use Rattle.std.specs.String.{string_bytes};
ghost use Rattle.fallible_iterator.specs.Fault.{Fault};
ghost use Rattle.fallible_iterator.specs.Lists.{Lists, all_of, rest_false, folded, mapped, nth_of, numbered, on_value, partitioned, results, taken_while, first_if, rest_if};
ghost use Rattle.fallible_iterator.specs.Making.{CollectedMade};
ghost use Rattle.example_by_hand.specs.Full.{SideFull};
ghost use Rattle.example_by_hand.specs.declared.parsing.NoSum.{NoSum};
ghost use Rattle.example_by_hand.specs.declared.parsing.NoText.{NoText};
ghost use Rattle.std.specs.declared.alloc.AllocError.{AllocError};

use fallible_iterator::{FallibleIterator, Fault, Peekable, convert};
use std::alloc::{AllocError, Global};

/// How many of the readings are above 100, and how many are not, or the first failure, unless an allocation fails. That may be only if a vector of one side is full when a reading comes to it.
pub fn how_many_each(
    alloc: Global,
    readings: Vec<Result<u32, u8>>,
) -> Result<(usize, usize), Fault<u8>>
    ensures value { IfOk result (λ both. Ok both ≡ on_value
        (partitioned (λ x. Ok (nat_lt 100 x)) (results readings.items))
        (λ sides. Ok (length sides.0, length sides.1))) }
    ensures failure { (e : ℕ) → result ≡ Err (Fault.Source e)
        → partitioned (λ x. Ok (nat_lt 100 x)) (results readings.items) ≡ Err e }
    ensures memory { (a : AllocError) → result ≡ Err (Fault.Memory a)
        → SideFull (λ x. Ok (nat_lt 100 x)) (results readings.items) }
{
    let (above, others): (Vec<u32>, Vec<u32>) = convert(readings.into_iter()).partition(
        alloc,
        |reading| Ok(*reading > 100),
    )?;
    Ok((above.len(), others.len()))
}

/// Why there is no sum.
#[derive(Debug, Drop, PartialEq)]
pub enum NoSum {
    /// The reading at this place, from 0 on, is above 100.
    Above(usize),
    /// A reading failed, with this code.
    Failed(u8),
}

impl From<u8> for NoSum {
    ghost use Rattle.example_by_hand.specs.declared.parsing.NoSum.TheVariants.{Failed};

    ghost from_gives = { λ code why. why ≡ Failed code };

    /// `NoSum::Failed`
    fn from(code: u8) -> NoSum {
        NoSum::Failed(code)
    }
}

/// The sum of the readings, modulo 2 ^ 64. If one is above 100, the position of the first such, and if one failed before, its code.
pub fn sum_or_place(readings: Vec<Result<u32, u8>>) -> Result<u64, NoSum>
    ensures { result ≡ folded (λ code. NoSum.Failed code)
        (λ s p. if nat_lt 100 p.1 then Err (NoSum.Above p.0) else Ok ((s + p.1) % 2 ^ 64)) 0
        (numbered 0 (results readings.items)) }
{
    convert(readings.into_iter()).enumerate().try_fold(
        0,
        |sum: u64, placed: (usize, u32)| if placed.1 > 100 {
            Err(NoSum::Above(placed.0))
        } else {
            Ok(sum.wrapping_add(u64::from(placed.1)))
        },
    )
}

/// Why there is no text.
#[derive(Debug, Drop, PartialEq)]
pub enum NoText {
    /// A reading failed, with this code.
    Failed(u8),
    /// An allocation failed.
    Memory,
}

impl From<AllocError> for NoText {
    ghost use Rattle.example_by_hand.specs.declared.parsing.NoText.TheVariants.{Memory};

    ghost from_gives = { λ refused why. why ≡ Memory };

    /// `NoText::Memory`
    fn from(_: AllocError) -> NoText {
        NoText::Memory
    }
}

/// The readings as texts, or the first failure, up to a failed allocation. The closure allocates for each reading.
pub fn texts_of(
    alloc: Global,
    readings: Vec<Result<u32, NoText>>,
) -> Result<Vec<String>, Fault<NoText>>
    ensures { CollectedMade (λ bytes text. string_bytes text ≡ bytes)
        (λ refused why. why ≡ NoText.Memory) (λ texts v. v.items ≡ texts)
        (mapped (λ x. Ok (decimal x)) (results readings.items)) result }
{
    convert(readings.into_iter())
        .map(|reading: u32| Ok(reading.to_string(alloc)?))
        .collect(alloc)
}

/// The sum of the items below 10 that stand first, modulo 2 ^ 64, which are taken of a borrow. The item that ends them is drawn and lost.
pub fn sum_below_ten<I: FallibleIterator<Item = u32>>(tokens: &mut I) -> Result<u64, I::Error>
where
    requires can_next { I.contract.can_next tokens.old }
    requires finite { I.contract.is_finite tokens.old }
    ensures value { (l : List (Result ℕ I.Error)) → Lists I.contract.steps tokens.old l
        → result ≡ folded (λ e. e) (λ s x. Ok ((s + x) % 2 ^ 64)) 0
        (taken_while (λ x. Ok (nat_lt x 10)) l) }
    ensures rest { (l : List (Result ℕ I.Error)) (sum : ℕ)
        → Lists I.contract.steps tokens.old l
        → result ≡ Ok sum → all_of (λ x. Ok (nat_lt x 10)) l ≡ Ok false
        → Lists I.contract.steps tokens.new (rest_false (λ x. Ok (nat_lt x 10)) l) }
    ensures can_next { I.contract.can_next tokens.new }
{
    (&mut *tokens).take_while(|token| Ok(*token < 10)).try_fold(
        0,
        |sum: u64, token: u32| Ok(sum.wrapping_add(u64::from(token))),
    )
}

/// The sum of the tokens below 10 that stand first, modulo 2 ^ 64, and the token after the one that ends them, or the first failure among them. No clause says what it returns if no token ends them.
pub fn sum_and_next<I: FallibleIterator<Item = u32>>(
    mut tokens: I,
) -> Result<(u64, Option<u32>), I::Error>
where
    requires can_next { I.contract.can_next tokens }
    requires finite { I.contract.is_finite tokens }
    ensures value { (l : List (Result ℕ I.Error)) → Lists I.contract.steps tokens l
        → all_of (λ x. Ok (nat_lt x 10)) l ≡ Ok false
        → result ≡ on_value (folded (λ e. e) (λ s x. Ok ((s + x) % 2 ^ 64)) 0
        (taken_while (λ x. Ok (nat_lt x 10)) l)) (λ sum. on_value
        (nth_of 0 (rest_false (λ x. Ok (nat_lt x 10)) l)) (λ next. Ok (sum, next))) }
    ensures fails { (l : List (Result ℕ I.Error)) (e : I.Error) → Lists I.contract.steps tokens l
        → folded (λ e. e) (λ s x. Ok ((s + x) % 2 ^ 64)) 0
        (taken_while (λ x. Ok (nat_lt x 10)) l) ≡ Err e → result ≡ Err e }
{
    let sum = sum_below_ten(&mut tokens)?;
    Ok((sum, tokens.draw()?))
}

/// Whether the next item is this one, which is taken then. Another item stays, and so does an `Ok(None)`; or a failure in its place.
pub fn takes<I: FallibleIterator<Item = u8>>(
    ahead: &mut Peekable<I>,
    expected: u8,
) -> Result<bool, I::Error>
where
    requires { ⟦<Peekable<I> as FallibleIterator>⟧.contract.can_next ahead.old }
    ensures value { (l : List (Result ℕ I.Error))
        → Lists ⟦<Peekable<I> as FallibleIterator>⟧.contract.steps ahead.old l
        → result ≡ on_value (first_if (λ x. nat_eq x expected) l) (λ taken. Ok (is_some taken)) }
    ensures rest { (l : List (Result ℕ I.Error))
        → Lists ⟦<Peekable<I> as FallibleIterator>⟧.contract.steps ahead.old l
        → Lists ⟦<Peekable<I> as FallibleIterator>⟧.contract.steps ahead.new
        (rest_if (λ x. nat_eq x expected) l) }
{
    Ok(ahead.next_if_eq(&expected)?.is_some())
}
