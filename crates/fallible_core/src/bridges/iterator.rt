// The std iterator over what a fallible iterator returns.
ghost use Rattle.std.specs.Prelude.{◌≡◌, Some, None, IfSome};
ghost use Rattle.std.specs.Iterator.{UpTo};
ghost use Rattle.std.specs.Iterator.SizeHint.{IsWithinCount};
ghost use Rattle.fallible_core.specs.Bridges.Iterator.{iterator_parts, iterator_steps};

use crate::traits::FallibleIterator;
use crate::traits::double_ended::DoubleEndedFallibleIterator;

/// A std iterator over results: each item is an `Ok`, each failure an `Err`, and `Ok(None)` is `None`. After a failure and after a `None` the next call draws again.
///
/// It is double-ended if its source is.
#[derive(Clone, Debug, Drop)]
pub struct Iterator<I> {
    pub(crate) it: I,
}

impl<I: FallibleIterator> std::iter::Iterator for Iterator<I> {
    type Item = Result<I::Item, I::Error>;

    ghost can_next = { λ s. I.contract.can_next (iterator_parts s) };

    ghost next_gives = { iterator_steps I.contract.steps };

    ghost remaining = { λ s. I.contract.remaining (iterator_parts s) };

    /// Draws the source once.
    fn next(&mut self) -> Option<Result<I::Item, I::Error>> {
        self.it.next().transpose()
    }

    /// Returns `(0, None)`: a source's hint counts items alone, and here failures are elements too.
    fn size_hint(&self) -> (usize, Option<usize>)
        ensures lower { IsWithinCount result.0 (I.contract.remaining (iterator_parts self.now)) }
        ensures upper { IfSome result.1 (UpTo (I.contract.remaining (iterator_parts self.now))) }
        ensures value { result ≡ (0, None) }
    {
        (0, None)
    }
}

impl<I: DoubleEndedFallibleIterator> std::iter::DoubleEndedIterator for Iterator<I> {
    ghost can_next_back = { λ s. I.ends.can_next (iterator_parts s) };

    ghost next_back_gives = { iterator_steps I.ends.steps };

    /// Draws the source once from the back.
    fn next_back(&mut self) -> Option<Result<I::Item, I::Error>> {
        self.it.next_back().transpose()
    }
}
