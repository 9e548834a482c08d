// The std iterator over the items of a fallible iterator that never fails.
ghost use Rattle.std.specs.Prelude.{◌≡◌, None, IfSome};
ghost use Rattle.std.specs.Iterator.{UpTo};
ghost use Rattle.std.specs.Iterator.SizeHint.{IsWithinCount};
ghost use Rattle.fallible_contract.specs.Contract.{NeverFails};
ghost use Rattle.fallible_core.specs.Bridges.Unwrap.{unwrap_parts, unwrap_steps};

use crate::traits::FallibleIterator;

/// A std iterator over the items of a source that can never fail again; `Ok(None)` is `None`. After a `None` the next call draws again.
#[derive(Clone, Debug, Drop)]
pub struct Unwrap<I> {
    pub(crate) it: I,
}

impl<I: FallibleIterator> std::iter::Iterator for Unwrap<I> {
    type Item = I::Item;

    ghost can_next = { λ s. I.contract.can_next (unwrap_parts s)
        × NeverFails I.contract (unwrap_parts s) };

    ghost next_gives = { unwrap_steps I.contract.steps };

    ghost remaining = { λ s. I.contract.remaining (unwrap_parts s) };

    /// Draws the source once. It doesn't fail.
    fn next(&mut self) -> Option<I::Item> {
        self.it.next().unwrap()
    }

    /// Returns `(0, None)`, as `Iterator`.
    fn size_hint(&self) -> (usize, Option<usize>)
        ensures lower { IsWithinCount result.0 (I.contract.remaining (unwrap_parts self.now)) }
        ensures upper { IfSome result.1 (UpTo (I.contract.remaining (unwrap_parts self.now))) }
        ensures value { result ≡ (0, None) }
    {
        (0, None)
    }
}
