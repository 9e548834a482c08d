// What each source with two ends lists.
ghost use Rattle.std.specs.Prelude.{◌≡◌, [], Ok, Err};
ghost use Rattle.fallible_contract.specs.Lists.{results, items};
ghost use Rattle.fallible_iterator.specs.Sources.Convert.{convert_parts};
ghost use Rattle.fallible_iterator.specs.Sources.IntoFallible.{into_fallible_parts, never};
ghost use Rattle.fallible_iterator.specs.Sources.Once.{once_parts};
ghost use Rattle.fallible_iterator.specs.Sources.OnceErr.{once_err_parts};
ghost use Rattle.fallible_iterator.specs.Listing.{ListsElements, ListsOne};
ghost use Rattle.fallible_iterator.specs.Laws.Sources.Listed.{convert_listed, into_fallible_listed, once_listed, once_err_listed, empty_listed};

use super::Listed;
use crate::sources::{Convert, Empty, IntoFallible, Once, OnceErr};

/// What the std iterator lists, call by call from both ends; so also what is left of one whose state shows that, if each `next` returns the first of it and each `next_back` the last.
impl<T, E, I: std::iter::DoubleEndedIterator<Item = Result<T, E>>> Listed for Convert<I> {
    ghost lists = { ListsElements convert_parts Ok Err results I.next_gives I.next_back_gives };

    ghost listed = { convert_listed I.can_next I.can_next_back I.next_gives I.next_back_gives
        I.remaining };

    fn lists_as_defined(&self) {}
}

/// What the std iterator lists, each element an item; so also what is left of one whose state shows that.
impl<T, I: std::iter::DoubleEndedIterator<Item = T>> Listed for IntoFallible<I> {
    ghost lists = { ListsElements into_fallible_parts (λ x. x) never items I.next_gives
        I.next_back_gives };

    ghost listed = { into_fallible_listed I.can_next I.can_next_back I.next_gives
        I.next_back_gives I.remaining };

    fn lists_as_defined(&self) {}
}

/// Its item, and nothing once that was drawn.
impl<T: Drop, E> Listed for Once<T, E> {
    ghost lists = { ListsOne once_parts (λ x. Ok x) };

    ghost listed = { once_listed };

    fn lists_as_defined(&self) {}
}

/// Its failure, and nothing once that was drawn.
impl<T, E: Drop> Listed for OnceErr<T, E> {
    ghost lists = { ListsOne once_err_parts (λ e. Err e) };

    ghost listed = { once_err_listed };

    fn lists_as_defined(&self) {}
}

/// Nothing.
impl<T, E> Listed for Empty<T, E> {
    ghost lists = { λ s l. l ≡ [] };

    ghost listed = { empty_listed };

    fn lists_as_defined(&self) {}
}
