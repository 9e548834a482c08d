//! Searches whose closure fails with an error of its own.
ghost use Rattle.std.specs.Prelude.{◌≡◌, ◌-◌, ◌^◌, ℕ, eqb, List, Result, Some, None, Ok, Err, if◌then◌else◌, nat_lt};
ghost use Rattle.fallible_iterator.specs.Contract.{AtMost};
ghost use Rattle.fallible_iterator.specs.Lists.{Lists, filtered, nth_of, results};
ghost use Rattle.fallible_itertools.specs.Find.{rest_try_true, try_each_done, try_found, try_position_in};
ghost use Rattle.example_consumers.specs.declared.trying.Trouble.{Trouble};

use fallible_iterator::{FallibleIterator, convert};
use fallible_itertools::FallibleItertools;

/// Why a reading is of no use.
#[derive(Clone, Copy, Debug, Drop, PartialEq)]
pub enum Trouble {
    /// It is this one, which is too large.
    TooLarge(u32),
    /// It failed, with this code.
    Failed(u8),
}

impl From<u8> for Trouble {
    ghost use Rattle.example_consumers.specs.declared.trying.Trouble.TheVariants.{Failed};

    ghost from_gives = { λ code why. why ≡ Failed code };

    /// `Trouble::Failed`
    fn from(code: u8) -> Trouble {
        Trouble::Failed(code)
    }
}

/// Nothing, if no reading above 0 is above 100; or the trouble that comes first.
pub fn check_each(readings: Vec<Result<u32, u8>>) -> Result<(), Trouble>
    ensures { result ≡ try_each_done (λ code. Trouble.Failed code)
        (λ x. if nat_lt 100 x then Err (Trouble.TooLarge x) else Ok tt)
        (filtered (λ x. Ok (nat_lt 0 x)) (results readings.items)) }
{
    convert(readings.into_iter())
        .filter(|reading| Ok(*reading > 0))
        .try_for_each(|reading: u32| if reading > 100 {
            Err(Trouble::TooLarge(reading))
        } else {
            Ok(())
        })
}

/// The first reading that is 7, before any trouble.
pub fn find_seven(readings: Vec<Result<u32, u8>>) -> Result<Option<u32>, Trouble>
    ensures { result ≡ try_found (λ code. Trouble.Failed code)
        (λ x. if nat_lt 100 x then Err (Trouble.TooLarge x) else Ok (eqb x 7))
        (results readings.items) }
{
    convert(readings.into_iter()).try_find(|reading: &u32| if *reading > 100 {
        Err(Trouble::TooLarge(*reading))
    } else {
        Ok(*reading == 7)
    })
}

/// How many items stand before the first one that is 7, before any trouble.
pub fn place_of_seven<I: FallibleIterator<Item = u32, Error = u8>>(
    mut it: I,
) -> Result<Option<usize>, Trouble>
where
    requires can_next { I.contract.can_next it }
    requires fits { AtMost I.contract it (2 ^ 64 - 1) }
    ensures { (l : List (Result ℕ ℕ)) → Lists I.contract.steps it l
        → result ≡ try_position_in (λ code. Trouble.Failed code)
        (λ x. if nat_lt 100 x then Err (Trouble.TooLarge x) else Ok (eqb x 7)) l }
{
    it.try_position(|reading: u32| if reading > 100 {
        Err(Trouble::TooLarge(reading))
    } else {
        Ok(reading == 7)
    })
}

/// The item after the first one that is 7; `None` if there is no such one, and the trouble that comes first.
pub fn after_seven<I: FallibleIterator<Item = u32, Error = u8>>(
    mut it: I,
) -> Result<Option<u32>, Trouble>
where
    requires can_next { I.contract.can_next it }
    requires finite { I.contract.is_finite it }
    ensures some { (l : List (Result ℕ ℕ)) (x y : ℕ) → Lists I.contract.steps it l
        → try_found (λ code. Trouble.Failed code)
        (λ x. if nat_lt 100 x then Err (Trouble.TooLarge x) else Ok (eqb x 7)) l ≡ Ok (Some x)
        → nth_of 0 (rest_try_true
        (λ x. if nat_lt 100 x then Err (Trouble.TooLarge x) else Ok (eqb x 7)) l) ≡ Ok (Some y)
        → result ≡ Ok (Some y) }
    ensures none { (l : List (Result ℕ ℕ)) → Lists I.contract.steps it l
        → try_found (λ code. Trouble.Failed code)
        (λ x. if nat_lt 100 x then Err (Trouble.TooLarge x) else Ok (eqb x 7)) l ≡ Ok None
        → result ≡ Ok None }
    ensures fails { (l : List (Result ℕ ℕ)) (e : Trouble) → Lists I.contract.steps it l
        → try_found (λ code. Trouble.Failed code)
        (λ x. if nat_lt 100 x then Err (Trouble.TooLarge x) else Ok (eqb x 7)) l ≡ Err e
        → result ≡ Err e }
{
    let found = it.try_find(|reading: &u32| if *reading > 100 {
        Err(Trouble::TooLarge(*reading))
    } else {
        Ok(*reading == 7)
    })?;
    match found {
        Some(_) => Ok(it.draw()?),
        None => Ok(None),
    }
}
