//! Sums and products that may overflow.
ghost use Rattle.std.specs.Prelude.{◌≡◌, ◌^◌, ⊤, Option, Result, ℤ, pos};
ghost use Rattle.fallible_itertools.specs.CheckedSum.{IsTotalTurn, total_by, sum_below, product_below, sum_within, product_within};

use fallible_iterator::Turn;
use std::ops::ControlFlow;

/// Numbers whose sums and products may overflow: those of every integer type.
pub trait CheckedTotal: Drop + Sized {
    // What sums begin with.
    ghost zero: { Self };

    // What products begin with.
    ghost one: { Self };

    // The sum of two, where it fits.
    ghost plus: { Self → Self → Option Self };

    // The product of two, where it fits.
    ghost times: { Self → Self → Option Self };

    /// Returns what sums begin with: 0.
    fn zero() -> Self
        ensures { result ≡ zero };

    /// Returns what products begin with: 1.
    fn one() -> Self
        ensures { result ≡ one };

    /// Returns the sum of the two; `None` if it overflows.
    fn plus(&self, other: Self) -> Option<Self>
        ensures { result ≡ plus self.now other };

    /// Returns the product of the two; `None` if it overflows.
    fn times(&self, other: Self) -> Option<Self>
        ensures { result ≡ times self.now other };
}

impl CheckedTotal for u8 {
    ghost zero = { 0 };

    ghost one = { 1 };

    ghost plus = { sum_below (2 ^ 8) };

    ghost times = { product_below (2 ^ 8) };

    fn zero() -> u8 {
        0
    }

    fn one() -> u8 {
        1
    }

    fn plus(&self, other: u8) -> Option<u8> {
        self.checked_add(other)
    }

    fn times(&self, other: u8) -> Option<u8> {
        self.checked_mul(other)
    }
}

impl CheckedTotal for u16 {
    ghost zero = { 0 };

    ghost one = { 1 };

    ghost plus = { sum_below (2 ^ 16) };

    ghost times = { product_below (2 ^ 16) };

    fn zero() -> u16 {
        0
    }

    fn one() -> u16 {
        1
    }

    fn plus(&self, other: u16) -> Option<u16> {
        self.checked_add(other)
    }

    fn times(&self, other: u16) -> Option<u16> {
        self.checked_mul(other)
    }
}

impl CheckedTotal for u32 {
    ghost zero = { 0 };

    ghost one = { 1 };

    ghost plus = { sum_below (2 ^ 32) };

    ghost times = { product_below (2 ^ 32) };

    fn zero() -> u32 {
        0
    }

    fn one() -> u32 {
        1
    }

    fn plus(&self, other: u32) -> Option<u32> {
        self.checked_add(other)
    }

    fn times(&self, other: u32) -> Option<u32> {
        self.checked_mul(other)
    }
}

impl CheckedTotal for u64 {
    ghost zero = { 0 };

    ghost one = { 1 };

    ghost plus = { sum_below (2 ^ 64) };

    ghost times = { product_below (2 ^ 64) };

    fn zero() -> u64 {
        0
    }

    fn one() -> u64 {
        1
    }

    fn plus(&self, other: u64) -> Option<u64> {
        self.checked_add(other)
    }

    fn times(&self, other: u64) -> Option<u64> {
        self.checked_mul(other)
    }
}

impl CheckedTotal for u128 {
    ghost zero = { 0 };

    ghost one = { 1 };

    ghost plus = { sum_below (2 ^ 128) };

    ghost times = { product_below (2 ^ 128) };

    fn zero() -> u128 {
        0
    }

    fn one() -> u128 {
        1
    }

    fn plus(&self, other: u128) -> Option<u128> {
        self.checked_add(other)
    }

    fn times(&self, other: u128) -> Option<u128> {
        self.checked_mul(other)
    }
}

impl CheckedTotal for usize {
    ghost zero = { 0 };

    ghost one = { 1 };

    ghost plus = { sum_below (2 ^ 64) };

    ghost times = { product_below (2 ^ 64) };

    fn zero() -> usize {
        0
    }

    fn one() -> usize {
        1
    }

    fn plus(&self, other: usize) -> Option<usize> {
        self.checked_add(other)
    }

    fn times(&self, other: usize) -> Option<usize> {
        self.checked_mul(other)
    }
}

impl CheckedTotal for i8 {
    ghost zero = { pos 0 };

    ghost one = { pos 1 };

    ghost plus = { sum_within (2 ^ 7) };

    ghost times = { product_within (2 ^ 7) };

    fn zero() -> i8 {
        0
    }

    fn one() -> i8 {
        1
    }

    fn plus(&self, other: i8) -> Option<i8> {
        self.checked_add(other)
    }

    fn times(&self, other: i8) -> Option<i8> {
        self.checked_mul(other)
    }
}

impl CheckedTotal for i16 {
    ghost zero = { pos 0 };

    ghost one = { pos 1 };

    ghost plus = { sum_within (2 ^ 15) };

    ghost times = { product_within (2 ^ 15) };

    fn zero() -> i16 {
        0
    }

    fn one() -> i16 {
        1
    }

    fn plus(&self, other: i16) -> Option<i16> {
        self.checked_add(other)
    }

    fn times(&self, other: i16) -> Option<i16> {
        self.checked_mul(other)
    }
}

impl CheckedTotal for i32 {
    ghost zero = { pos 0 };

    ghost one = { pos 1 };

    ghost plus = { sum_within (2 ^ 31) };

    ghost times = { product_within (2 ^ 31) };

    fn zero() -> i32 {
        0
    }

    fn one() -> i32 {
        1
    }

    fn plus(&self, other: i32) -> Option<i32> {
        self.checked_add(other)
    }

    fn times(&self, other: i32) -> Option<i32> {
        self.checked_mul(other)
    }
}

impl CheckedTotal for i64 {
    ghost zero = { pos 0 };

    ghost one = { pos 1 };

    ghost plus = { sum_within (2 ^ 63) };

    ghost times = { product_within (2 ^ 63) };

    fn zero() -> i64 {
        0
    }

    fn one() -> i64 {
        1
    }

    fn plus(&self, other: i64) -> Option<i64> {
        self.checked_add(other)
    }

    fn times(&self, other: i64) -> Option<i64> {
        self.checked_mul(other)
    }
}

impl CheckedTotal for i128 {
    ghost zero = { pos 0 };

    ghost one = { pos 1 };

    ghost plus = { sum_within (2 ^ 127) };

    ghost times = { product_within (2 ^ 127) };

    fn zero() -> i128 {
        0
    }

    fn one() -> i128 {
        1
    }

    fn plus(&self, other: i128) -> Option<i128> {
        self.checked_add(other)
    }

    fn times(&self, other: i128) -> Option<i128> {
        self.checked_mul(other)
    }
}

impl CheckedTotal for isize {
    ghost zero = { pos 0 };

    ghost one = { pos 1 };

    ghost plus = { sum_within (2 ^ 63) };

    ghost times = { product_within (2 ^ 63) };

    fn zero() -> isize {
        0
    }

    fn one() -> isize {
        1
    }

    fn plus(&self, other: isize) -> Option<isize> {
        self.checked_add(other)
    }

    fn times(&self, other: isize) -> Option<isize> {
        self.checked_mul(other)
    }
}

/// The turn of `checked_sum`, whose state is the sum so far: it stops at the first item at which the sum overflows.
#[derive(Drop)]
pub struct SumTurn;

impl<N: CheckedTotal> Turn<N, N, ()> for SumTurn {
    ghost can_turn = { λ _ _ _. ⊤ };

    ghost turns = { λ _ t x r u. IsTotalTurn N.plus t x r u };

    /// The item, added.
    #[inline(always)]
    fn turn(&self, state: &mut N, item: N) -> ControlFlow<(), ()> {
        match state.plus(item) {
            Some(sum) => {
                *state = sum;
                ControlFlow::Continue(())
            }
            None => ControlFlow::Break(()),
        }
    }
}

/// The turn of `checked_product`, whose state is the product so far: it stops at the first item at which the product overflows.
#[derive(Drop)]
pub struct ProductTurn;

impl<N: CheckedTotal> Turn<N, N, ()> for ProductTurn {
    ghost can_turn = { λ _ _ _. ⊤ };

    ghost turns = { λ _ t x r u. IsTotalTurn N.times t x r u };

    /// The item, multiplied.
    #[inline(always)]
    fn turn(&self, state: &mut N, item: N) -> ControlFlow<(), ()> {
        match state.times(item) {
            Some(product) => {
                *state = product;
                ControlFlow::Continue(())
            }
            None => ControlFlow::Break(()),
        }
    }
}

/// What a checked total returns, from what its fold returned and the total that it left: the total at `Ok(None)`, `Ok(None)` if the fold stopped, or the source's failure.
pub fn total_or_none<N: Drop, E>(answer: Result<Option<()>, E>, total: N) -> Result<Option<N>, E>
    ensures { result ≡ total_by total answer }
{
    match answer {
        Ok(None) => Ok(Some(total)),
        Ok(Some(())) => Ok(None),
        Err(e) => Err(e),
    }
}
