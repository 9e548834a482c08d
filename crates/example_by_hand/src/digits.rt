//! The number at the front of a text, digit by digit.
ghost use Rattle.std.specs.Prelude.{◌≡◌, ◌+◌, ◌-◌, ◌*◌, ◌%◌, ◌^◌, ℕ, List, Result, Ok};
ghost use Rattle.std.specs.Char.{is_ascii_digit};
ghost use Rattle.fallible_iterator.specs.Contract.{Stays};
ghost use Rattle.fallible_iterator.specs.Lists.{Lists, folded_if, rest_fold_if};

use fallible_iterator::{FallibleIterator, Peekable, fold_if};

/// The number that the digits at the front make, modulo 2 ^ 32, or the first failure among them. What comes after the digits is left, and may be drawn.
pub fn number_ahead<I: FallibleIterator<Item = u8>>(
    ahead: &mut Peekable<I>,
) -> Result<u32, I::Error>
where
    requires can_next { ⟦<Peekable<I> as FallibleIterator>⟧.contract.can_next ahead.old }
    requires finite { ⟦<Peekable<I> as FallibleIterator>⟧.contract.is_finite ahead.old }
    ensures value { (l : List (Result ℕ I.Error))
        → Lists ⟦<Peekable<I> as FallibleIterator>⟧.contract.steps ahead.old l
        → result ≡ folded_if (λ x. Ok (is_ascii_digit x))
        (λ n x. Ok ((n * 10 + (x - 48)) % 2 ^ 32)) 0 l }
    ensures rest { (l : List (Result ℕ I.Error))
        → Lists ⟦<Peekable<I> as FallibleIterator>⟧.contract.steps ahead.old l
        → Lists ⟦<Peekable<I> as FallibleIterator>⟧.contract.steps ahead.new
        (rest_fold_if (λ x. Ok (is_ascii_digit x)) (λ n x. Ok ((n * 10 + (x - 48)) % 2 ^ 32))
        0 l) }
    ensures stays { Stays ⟦<Peekable<I> as FallibleIterator>⟧.contract ahead.old ahead.new }
{
    fold_if(
        ahead,
        0,
        |c: &u8| Ok(c.is_ascii_digit()),
        |number: u32, digit: u8| Ok(
            number
                .wrapping_mul(10)
                .wrapping_add(u32::from(digit.saturating_sub(b'0'))),
        ),
    )
}
