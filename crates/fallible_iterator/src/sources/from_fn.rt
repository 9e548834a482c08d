// The fallible iterator of a closure.
ghost use Rattle.std.specs.Prelude.{Result, Option};
ghost use Rattle.fallible_contract.specs.Contract.{parts_as};
ghost use Rattle.fallible_contract.specs.Laws.Contract.{lawful_parts};
ghost use Rattle.fallible_iterator.specs.Sources.FromFn.{from_fn_contract, from_fn_made, from_fn_parts};
ghost use Rattle.fallible_iterator.specs.Laws.Sources.FromFn.{lawful_from_fn};

use fallible_core::FallibleIterator;

/// The fallible iterator of a closure: each `next` is one call, and returns what the closure returns.
#[derive(Clone, Debug, Drop)]
pub struct FromFn<F> {
    pub(crate) fun: F,
}

impl<T, E, F: FnMut() -> Result<Option<T>, E>> FallibleIterator for FromFn<F> {
    type Item = T;

    type Error = E;

    ghost contract = { parts_as from_fn_parts (from_fn_contract F.FnMut) };

    /// Calls the closure once.
    fn next(&mut self) -> Result<Option<T>, E> {
        (self.fun)()
    }

    fn size_hint(&self) -> (usize, Option<usize>) {
        (0, None)
    }

    ghost lawful = { lawful_parts from_fn_made (lawful_from_fn F.FnMut) };
}
