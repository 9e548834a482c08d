//! What a call drew, as the definition of what it drew from says it. The record of each call has a run; `law_headline` turns that into the definition.
ghost use Rattle.std.specs.Prelude.{◌≡◌, ◌++◌, ◌∷◌, [], ℕ, Bool, false, List, Option, None, Result, IfOk, length, map, vec_items};
ghost use Rattle.fallible_iterator.specs.Closures.{IsCallable, call_by_reference, takes_by_reference, call_by_value, takes_by_value};
ghost use Rattle.fallible_iterator.specs.Cutting.Fuse.{FuseTrace, fuse_parts};
ghost use Rattle.fallible_iterator.specs.Cutting.Take.{takes_all};
ghost use Rattle.fallible_iterator.specs.Folds.{CountExit};
ghost use Rattle.fallible_iterator.specs.OneToOne.Map.{MapTrace};
ghost use Rattle.fallible_iterator.specs.Searching.{CallableInSearch, SearchedBy, find_pick};
ghost use Rattle.fallible_iterator.specs.Traces.{Answered, item, end};

use fallible_iterator::laws::law_headline;
use fallible_iterator::{FallibleIterator, Fault, Fuse, Map, Take};
use std::alloc::Global;

/// How many of the first n items come before an end or a failure, or that failure. They are items of what `take` makes of answers that the definition of `it` allows.
pub fn count_of_first<I: FallibleIterator>(it: I, n: usize) -> Result<usize, I::Error>
where
    I::Item: Drop,
    requires { I.contract.can_next it }
    ensures { (items : List I.Item) × (last : Answered I.Item I.Error) × (left : I × ℕ)
        × takes_all I.contract.traces (it, n) (map item items ++ last ∷ []) left
        × CountExit (length items) last result }
{
    law_headline::<Take<I>>();
    it.take(n).count()
}

/// The first item that is wanted, before a failure or the end. What was looked at are items of what `fuse` makes of answers that the definition of `it` allows, and nothing was drawn after the item that decided.
pub fn first_wanted<I: FallibleIterator, W: FnMut(&I::Item) -> Result<bool, I::Error>>(
    it: I,
    wanted: W,
) -> Result<Option<I::Item>, I::Error>
where
    I::Item: Drop,
    requires can_next { I.contract.can_next it }
    requires finite { I.contract.is_finite it }
    requires callable { (s : Fuse I) → fuse_parts s ≡ (it, false)
        → CallableInSearch (call_by_reference W.FnMut) find_pick
        ⟦<Fuse<I> as FallibleIterator>⟧.contract.steps (takes_by_reference W.FnMut) s wanted }
    ensures { (items : List I.Item) × (last : Answered I.Item I.Error) × (left : I × Bool) × (after : W)
        × FuseTrace I.contract.traces (it, false) (map item items ++ last ∷ []) left
        × SearchedBy (call_by_reference W.FnMut) find_pick None wanted result after items last }
{
    law_headline::<Fuse<I>>();
    let mut once = it.fuse();
    once.find(wanted)
}

/// What a closure makes of all items, or the first failure. Where all were made, they are the items of what `map` makes, up to an end, of answers that the definition of `it` allows.
pub fn all_made<I: FallibleIterator, B: Drop, F: FnMut(I::Item) -> Result<B, I::Error>>(
    alloc: Global,
    it: I,
    make: F,
) -> Result<Vec<B>, Fault<I::Error>>
where
    requires can_next { I.contract.can_next it }
    requires finite { I.contract.is_finite it }
    requires callable { IsCallable (call_by_value F.FnMut) (takes_by_value F.FnMut)
        (I.contract.may_give it) make }
    ensures { IfOk result (λ made. (left : I × F)
        × MapTrace I.contract.traces F.FnMut (it, make) (map item (vec_items made) ++ end ∷ []) left) }
{
    law_headline::<Map<I, F>>();
    it.map(make).collect(alloc)
}
