// What each adapter with two ends lists, of what its source lists.
ghost use Rattle.fallible_iterator.specs.BothEnds.{ListsBothEnds};
ghost use Rattle.fallible_iterator.specs.Closures.{call_by_value};
ghost use Rattle.fallible_iterator.specs.Listing.{ListsChanged};
ghost use Rattle.fallible_iterator.specs.Lists.{pointed_to};
ghost use Rattle.fallible_itertools_adapters.specs.Copied.{copied_source};
ghost use Rattle.fallible_itertools_adapters.specs.Failing.{ListsConverted, ListsRecovered, inspect_err_source};
ghost use Rattle.fallible_itertools_adapters.specs.Laws.Listed.{copied_listed, err_into_listed, inspect_err_listed, or_else_listed};

use crate::copied::Copied;
use crate::failing::{ErrInto, InspectErr, OrElse};
use fallible_iterator::DoubleEndedFallibleIterator;
use fallible_iterator::laws::Listed;

/// What the items of its source's list point to.
impl<'a, T: Copy + 'a, I: DoubleEndedFallibleIterator<Item = &'a T>> Listed for Copied<I> {
    ghost lists = { ListsChanged copied_source pointed_to
        (ListsBothEnds I.contract.steps I.ends.steps) };

    ghost listed = { copied_listed I.contract.steps I.ends.steps };

    fn lists_as_defined(&self) {}
}

/// What its source lists.
impl<I: DoubleEndedFallibleIterator, F: FnMut(&I::Error)> Listed for InspectErr<I, F> {
    ghost lists = { λ s l. ListsBothEnds I.contract.steps I.ends.steps (inspect_err_source s) l };

    ghost listed = { inspect_err_listed F.FnMut I.contract.steps I.ends.steps };

    fn lists_as_defined(&self) {}
}

/// What its source lists, with what each failure is converted to in its place.
impl<I: DoubleEndedFallibleIterator, E: From<I::Error>> Listed for ErrInto<I, E> {
    ghost lists = { ListsConverted E.from_gives (ListsBothEnds I.contract.steps I.ends.steps) };

    ghost listed = { err_into_listed E.from_gives I.contract.steps I.ends.steps };

    fn lists_as_defined(&self) {}
}

/// What its source lists, each failure replaced by what its closure makes of it, if the closure acts as a function.
impl<I: DoubleEndedFallibleIterator, E, F: FnMut(I::Error) -> Result<Option<I::Item>, E>> Listed
    for OrElse<I, F> {
    ghost lists = { ListsRecovered (call_by_value F.FnMut)
        (ListsBothEnds I.contract.steps I.ends.steps) };

    ghost listed = { or_else_listed F.FnMut I.contract.steps I.ends.steps };

    fn lists_as_defined(&self) {}
}
