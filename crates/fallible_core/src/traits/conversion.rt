//! What becomes a fallible iterator.
ghost use Rattle.std.specs.Prelude.{◌≡◌};

use crate::traits::FallibleIterator;

/// A value that becomes a fallible iterator. Every fallible iterator is one, and becomes itself.
pub trait IntoFallibleIterator {
    /// The type of its items.
    type Item;

    /// The type of its failures.
    type Error;

    /// The fallible iterator that the value becomes.
    type IntoFallibleIter: FallibleIterator<Item = Self::Item, Error = Self::Error>;

    // Holds of the value and of what it may become.
    ghost into_gives: { Self → Self.IntoFallibleIter → Type 0 };

    /// Returns the fallible iterator that the value becomes. A fallible iterator returns itself, and draws nothing.
    ///
    /// Proof: `into_gives` says what it becomes.
    fn into_fallible_iter(self) -> Self::IntoFallibleIter
        ensures { into_gives self result };
}

impl<I: FallibleIterator> IntoFallibleIterator for I {
    type Item = I::Item;

    type Error = I::Error;

    type IntoFallibleIter = I;

    ghost into_gives = { λ it result. result ≡ it };

    fn into_fallible_iter(self) -> I {
        self
    }
}
