//! Values of which each clone allocates.
ghost use Rattle.std.specs.Prelude.{nat_eq};
ghost use Rattle.std.specs.Ordering.{on};
ghost use Rattle.std.specs.Cmp.{on_per, partial_equiv_from_equiv, nat_eq_equiv};

use crate::requests::Requests;
use std::alloc::AllocError;

/// A number, and the requests that its clones make. Two are equal where the numbers are.
#[derive(Debug, Drop)]
pub struct Number<'a> {
    /// the number
    pub value: u32,
    /// where it allocates
    pub requests: &'a Requests,
}

impl<'a> Number<'a> {
    /// That number.
    pub fn new(value: u32, requests: &'a Requests) -> Number<'a> {
        Number { value, requests }
    }
}

impl<'a> Clone for Number<'a> {
    fn clone(&self) -> Result<Number<'a>, AllocError> {
        self.requests.ask()?;
        Ok(Number::new(self.value, self.requests))
    }
}

/// What allocates where it is kept.
pub trait Asking: Drop + Sized {
    /// Its number, where the request is met.
    fn keep(self) -> Result<u32, AllocError>;
}

impl<'a> Asking for Number<'a> {
    fn keep(self) -> Result<u32, AllocError> {
        self.requests.ask()?;
        Ok(self.value)
    }
}

impl PartialEq for Number<'_> {
    ghost eq = { on (λ x. x.value) nat_eq };

    ghost laws = { on_per (λ x. x.value) (partial_equiv_from_equiv nat_eq_equiv) };

    fn eq(&self, other: &Number<'_>) -> bool {
        self.value == other.value
    }
}

/// A failure whose own clone allocates, or the one that an allocation failure becomes.
#[derive(Clone, Debug, PartialEq, Drop)]
pub enum Failure<'a> {
    /// a failure that is no allocation failure
    Own(Number<'a>),
    /// what a failed allocation becomes
    Memory,
}

impl<'a> From<AllocError> for Failure<'a> {
    fn from(_refused: AllocError) -> Failure<'a> {
        Failure::Memory
    }
}
