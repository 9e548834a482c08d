// What one draw, and one look ahead, returns and leaves of a list.
ghost use Rattle.std.specs.Prelude.{◌≡◌, List, Option, Result, Ok, None};
ghost use Rattle.fallible_contract.specs.Traces.{Answered};
ghost use Rattle.fallible_contract.specs.Lists.{Lists, rest_first, nth_of};
ghost use Rattle.fallible_core.specs.Peeking.Peekable.{Peeks, rest_look, peekable_parts};
ghost use Rattle.fallible_core.specs.declared.peeking.peekable.Peekable.{Peekable};

use fallible_core::peeking::Peekable;
use fallible_core::traits::FallibleIterator;

/// A step of any type that lists l, which is what `next` makes: it returns the first of l, and leaves l without it, unless it returns `Ok(None)`.
pub fn law_next<I: FallibleIterator>()
    ensures value { (s t : I) (r : Answered I.Item I.Error) (l : List (Result I.Item I.Error))
        → Lists I.contract.steps s l → I.contract.steps s r t → r ≡ nth_of 0 l }
    ensures rest { (s t : I) (r : Answered I.Item I.Error) (l : List (Result I.Item I.Error))
        → Lists I.contract.steps s l → I.contract.steps s r t → ¬ (r ≡ Ok None)
        → Lists I.contract.steps t (rest_first l) }
{}

/// A peek of a `Peekable` that lists l, which is what `peek` makes: it returns the first of l, and leaves l without a failure that stands first.
pub fn law_peek<I: FallibleIterator>()
where
    I::Item: Drop,
    ensures value { (s : Peekable I I.Item I.Error) (r : Answered I.Item I.Error)
        (q : I × Option (Option I.Item)) (l : List (Result I.Item I.Error))
        → Lists ⟦<Peekable<I> as FallibleIterator>⟧.contract.steps s l
        → Peeks I.contract.steps (peekable_parts s) r q → r ≡ nth_of 0 l }
    ensures rest { (s t : Peekable I I.Item I.Error) (r : Answered I.Item I.Error)
        (l : List (Result I.Item I.Error))
        → Lists ⟦<Peekable<I> as FallibleIterator>⟧.contract.steps s l
        → Peeks I.contract.steps (peekable_parts s) r (peekable_parts t)
        → Lists ⟦<Peekable<I> as FallibleIterator>⟧.contract.steps t (rest_look l) }
{}
