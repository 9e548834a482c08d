//! Sums and products that don't overflow.
ghost use lib.Ieee as Ieee;
ghost use lib.Ieee.{binary32, binary64};
ghost use Rattle.std.specs.Prelude.{◌≡◌, ⊤, from_bits, Result};
ghost use Rattle.fallible_itertools.specs.Total.{Adds, total_of};

use fallible_iterator::Turn;
use std::convert::Infallible;
use std::ops::ControlFlow;

/// Numbers whose sums and products never overflow: floats.
pub trait Total: Drop + Sized {
    // What sums begin with.
    ghost zero: { Self };

    // What products begin with.
    ghost one: { Self };

    // The sum of two.
    ghost plus: { Self → Self → Self };

    // The product of two.
    ghost times: { Self → Self → Self };

    /// Returns what sums begin with: 0, of floats -0.0.
    fn zero() -> Self
        ensures { result ≡ zero };

    /// Returns what products begin with: 1.
    fn one() -> Self
        ensures { result ≡ one };

    /// Returns the sum of the two.
    fn plus(&self, other: Self) -> Self
        ensures { result ≡ plus self.now other };

    /// Returns the product of the two.
    fn times(&self, other: Self) -> Self
        ensures { result ≡ times self.now other };
}

impl Total for f32 {
    ghost zero = { Ieee.neg (from_bits binary32 0) };

    ghost one = { from_bits binary32 0x3f80_0000 };

    ghost plus = { λ a b. Ieee.add binary32 a b };

    ghost times = { λ a b. Ieee.mul binary32 a b };

    fn zero() -> f32 {
        -0.0
    }

    fn one() -> f32 {
        1.0
    }

    fn plus(&self, other: f32) -> f32 {
        *self + other
    }

    fn times(&self, other: f32) -> f32 {
        *self * other
    }
}

impl Total for f64 {
    ghost zero = { Ieee.neg (from_bits binary64 0) };

    ghost one = { from_bits binary64 0x3ff0_0000_0000_0000 };

    ghost plus = { λ a b. Ieee.add binary64 a b };

    ghost times = { λ a b. Ieee.mul binary64 a b };

    fn zero() -> f64 {
        -0.0
    }

    fn one() -> f64 {
        1.0
    }

    fn plus(&self, other: f64) -> f64 {
        *self + other
    }

    fn times(&self, other: f64) -> f64 {
        *self * other
    }
}

/// The turn of `sum`, whose state is the sum so far.
#[derive(Drop)]
pub struct AddTurn;

impl<N: Total> Turn<N, N, Infallible> for AddTurn {
    ghost can_turn = { λ _ _ _. ⊤ };

    ghost turns = { λ _ t x r u. Adds N.plus t x r u };

    /// The item, added.
    #[inline(always)]
    fn turn(&self, state: &mut N, item: N) -> ControlFlow<Infallible, ()> {
        *state = state.plus(item);
        ControlFlow::Continue(())
    }
}

/// The turn of `product`, whose state is the product so far.
#[derive(Drop)]
pub struct MultiplyTurn;

impl<N: Total> Turn<N, N, Infallible> for MultiplyTurn {
    ghost can_turn = { λ _ _ _. ⊤ };

    ghost turns = { λ _ t x r u. Adds N.times t x r u };

    /// The item, multiplied.
    #[inline(always)]
    fn turn(&self, state: &mut N, item: N) -> ControlFlow<Infallible, ()> {
        *state = state.times(item);
        ControlFlow::Continue(())
    }
}

/// What a total returns, from what its fold returned and the total that it left: the total at `Ok(None)`, or the source's failure.
pub fn total_or_failure<N: Drop, E>(answer: Result<Option<Infallible>, E>, total: N) -> Result<N, E>
    ensures { result ≡ total_of total answer }
{
    match answer {
        Ok(None) => Ok(total),
        Ok(Some(never)) => match never {},
        Err(e) => Err(e),
    }
}
