//! What a value lists from both ends, as its type defines it.
ghost use Rattle.std.specs.Prelude.{◌≡◌, List, Result, Bool};
ghost use Rattle.fallible_contract.specs.Closures.{call_by_value, call_by_reference};
ghost use Rattle.fallible_contract.specs.Traces.{Answered};
ghost use Rattle.fallible_contract.specs.Lists.{Lists, Acts};
ghost use Rattle.fallible_contract.specs.BothEnds.{ListsBothEnds};
ghost use Rattle.fallible_core.specs.OneToOne.Map.{mapped, map_parts};
ghost use Rattle.fallible_core.specs.Filtering.Filter.{filtered, filter_parts};
ghost use Rattle.fallible_core.specs.Joining.Chain.{chain_parts, chained};
ghost use Rattle.fallible_iterator.specs.Listing.{DrawsInterleave};
ghost use Rattle.fallible_contract.specs.declared.answers.Side.{Side};
ghost use Rattle.fallible_core.specs.declared.joining.chain.StillDrawn.TheVariants.{Both};

mod adapters;
mod sources;

use fallible_core::ends::Rev;
use fallible_core::filtering::Filter;
use fallible_core::joining::Chain;
use fallible_core::one_to_one::Map;
use fallible_core::traits::FallibleIterator;
use fallible_core::traits::double_ended::DoubleEndedFallibleIterator;

/// A type with two ends that defines what its values list from both. An adapter says it of what its sources list, which may be a value of any type with two ends, your own among them.
pub trait Listed: DoubleEndedFallibleIterator {
    // The definition: from both ends the value lists this.
    ghost lists: { Self → List (Result Self.Item Self.Error) → Type 0 };

    /// Does nothing: a block that bounds a closure has a method of its own. A caller uses `law_lists`.
    fn lists_as_defined(&self);

    // So it is.
    ghost listed: { (s : Self) (l : List (Result Self.Item Self.Error)) → lists s l
        → ListsBothEnds Self.FallibleIterator.contract.steps
        Self.DoubleEndedFallibleIterator.ends.steps s l };
}

/// The third part of the headline, of every type that defines what it lists: from both ends a value lists what its definition says. So of draws from both ends, in any order, what came from the front, what is left, and what came from the back, reversed, make that list.
pub fn law_listed<I: Listed>()
    ensures both { (s : I) (l : List (Result I.Item I.Error)) → I.lists s l
        → ListsBothEnds I.contract.steps I.ends.steps s l }
    ensures interleaves { (s t : I) (l : List (Result I.Item I.Error))
        (drawn : List (Side × Answered I.Item I.Error)) → I.lists s l
        → DrawsInterleave I.contract.steps I.ends.steps l s drawn t }
{
    super::ends::law_interleave::<I>();
}

/// The first clause of `law_listed`, of one value, which is passed to the law, so that no type need be named.
pub fn law_lists<I: Listed>(s: &I)
    ensures { (l : List (Result I.Item I.Error)) → I.lists s.now l
        → ListsBothEnds I.contract.steps I.ends.steps s.now l }
{
    let _value = s;
    law_listed::<I>();
}

// ---- from the back alone, of one value, which is passed to the law

/// From the back a `Map` lists what its closure returns for each item that its source lists there, in the item's place.
pub fn law_lists_map<I: DoubleEndedFallibleIterator, B, F: FnMut(I::Item) -> Result<B, I::Error>>(
    s: &Map<I, F>,
)
where
    ensures back { (it : I) (f : F) (h : I.Item → Result B I.Error)
        (l : List (Result I.Item I.Error))
        → map_parts s.now ≡ (it, f) → Acts (call_by_value F.FnMut) f h
        → Lists I.ends.steps it l
        → Lists ⟦<Map<I, F> as DoubleEndedFallibleIterator>⟧.ends.steps s.now (mapped h l) }
{}

/// From the back a `Filter` lists what its source lists there without the rejected items, with the predicate's failure in the place of each item on which it failed.
pub fn law_lists_filter<
    I: DoubleEndedFallibleIterator,
    F: FnMut(&I::Item) -> Result<bool, I::Error>,
>(s: &Filter<I, F>)
where
    I::Item: Drop,
    ensures back { (it : I) (f : F) (h : I.Item → Result Bool I.Error)
        (l : List (Result I.Item I.Error))
        → filter_parts s.now ≡ (it, f) → Acts (call_by_reference F.FnMut) f h
        → Lists I.ends.steps it l
        → Lists ⟦<Filter<I, F> as DoubleEndedFallibleIterator>⟧.ends.steps s.now
        (filtered h l) }
{}

/// From the back a `Chain` lists what its second lists there and then what its first does.
pub fn law_lists_chain<
    T: DoubleEndedFallibleIterator,
    U: DoubleEndedFallibleIterator<Item = T::Item, Error = T::Error>,
>(s: &Chain<T, U>)
    ensures back { (t : T) (u : U) (a b : List (Result T.Item T.Error))
        → chain_parts s.now ≡ (t, u, Both)
        → Lists T.ends.steps t a → Lists U.ends.steps u b
        → Lists ⟦<Chain<T, U> as DoubleEndedFallibleIterator>⟧.ends.steps s.now (chained b a) }
{}
