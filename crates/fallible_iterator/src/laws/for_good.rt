// What is fused, of the adapters whose calls don't say so: after an end each further draw returns one.
ghost use Rattle.std.specs.Prelude.{◌≡◌, ℕ, ◌≤◌, Bool, true, false, List, length, Result, Ok};
ghost use Rattle.std.specs.List.{IsAmong};
ghost use Rattle.fallible_contract.specs.BothEnds.{items_listed};
ghost use Rattle.fallible_contract.specs.Closures.{call_by_reference};
ghost use Rattle.fallible_contract.specs.Lists.{Acts, EndsForGood, Lists, ListsForGood};
ghost use Rattle.fallible_contract.specs.Traces.{Answered, Run, items_in};
ghost use Rattle.fallible_core.specs.Cutting.Take.{take_parts, take_to_take, taken};
ghost use Rattle.fallible_core.specs.Cutting.TakeWhile.{take_while_parts, take_while_refused, taken_while};

use fallible_core::cutting::{Take, TakeWhile};
use fallible_core::traits::FallibleIterator;

/// After its n-th item a `Take` returns `Ok(None)` at each call, whatever its source does. So what it lists (`taken`) is fused, if its source lists n items or is fused. After an `Ok(None)` of the source that comes earlier it draws the source again.
pub fn law_take_for_good<I: FallibleIterator>(s: &Take<I>)
    ensures after_nth { (trace : List (Answered I.Item I.Error)) (t : Take I)
        → Run ⟦<Take<I> as FallibleIterator>⟧.contract.steps s.now trace t
        → take_to_take s.now ≤ items_in trace
        → EndsForGood ⟦<Take<I> as FallibleIterator>⟧.contract.steps t }
    ensures enough { (it : I) (n : ℕ) (l : List (Result I.Item I.Error))
        → take_parts s.now ≡ (it, n) → Lists I.contract.steps it l
        → n ≤ length (items_listed l)
        → ListsForGood ⟦<Take<I> as FallibleIterator>⟧.contract.steps s.now (taken n l) }
    ensures fused { (it : I) (n : ℕ) (l : List (Result I.Item I.Error))
        → take_parts s.now ≡ (it, n) → ListsForGood I.contract.steps it l
        → ListsForGood ⟦<Take<I> as FallibleIterator>⟧.contract.steps s.now (taken n l) }
{}

/// After an item that its predicate rejects a `TakeWhile` returns `Ok(None)` at each call, whatever its source does. So what it lists (`taken_while`) is fused, if its source lists an item that the predicate rejects, or is fused. After an `Ok(None)` of the source that comes earlier it draws the source again.
pub fn law_take_while_for_good<I: FallibleIterator, P: FnMut(&I::Item) -> Result<bool, I::Error>>(
    s: &TakeWhile<I, P>,
)
where
    I::Item: Drop,
    ensures after_rejected { (t : TakeWhile I P) → take_while_refused t ≡ true
        → EndsForGood ⟦<TakeWhile<I, P> as FallibleIterator>⟧.contract.steps t }
    ensures rejects { (it : I) (p : P) (h : I.Item → Result Bool I.Error)
        (l : List (Result I.Item I.Error)) (x : I.Item)
        → take_while_parts s.now ≡ ((it, p), false) → Acts (call_by_reference P.FnMut) p h
        → Lists I.contract.steps it l → IsAmong (items_listed l) x → h x ≡ Ok false
        → ListsForGood ⟦<TakeWhile<I, P> as FallibleIterator>⟧.contract.steps s.now
        (taken_while h l) }
    ensures fused { (it : I) (p : P) (h : I.Item → Result Bool I.Error)
        (l : List (Result I.Item I.Error))
        → take_while_parts s.now ≡ ((it, p), false) → Acts (call_by_reference P.FnMut) p h
        → ListsForGood I.contract.steps it l
        → ListsForGood ⟦<TakeWhile<I, P> as FallibleIterator>⟧.contract.steps s.now
        (taken_while h l) }
{}
