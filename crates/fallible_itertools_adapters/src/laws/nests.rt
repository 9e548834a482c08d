//! The headline of a nest of these adapters, by the definition of each type.
ghost use Rattle.std.specs.Prelude.{ℕ, Option, Result, List, ◌↔◌};
ghost use Rattle.fallible_iterator.specs.Closures.{call_by_value};
ghost use Rattle.fallible_iterator.specs.OneToOne.Enumerate.{enumerate_parts, numbers_all};
ghost use Rattle.fallible_iterator.specs.OneToOne.Map.{map_outcome, map_parts};
ghost use Rattle.fallible_iterator.specs.Passing.{passes_all};
ghost use Rattle.fallible_iterator.specs.Traces.{Answered, Run};
ghost use Rattle.fallible_itertools_adapters.specs.Copied.{CopiedTrace, copied_parts};
ghost use Rattle.fallible_itertools_adapters.specs.Failing.{ErrIntoTrace, InspectErrTrace, OrElseTrace, err_into_parts, inspect_err_parts, or_else_parts};
ghost use Rattle.fallible_itertools_adapters.specs.Positions.{PositionsTrace, positions_parts};

use crate::copied::Copied;
use crate::failing::{ErrInto, InspectErr, OrElse};
use crate::positions::Positions;
use fallible_iterator::laws::law_headline;
use fallible_iterator::{FallibleIterator, Map};

/// The headline of `it.copied().map(f).inspect_err(g).err_into().or_else(h).positions(p)`, over every source, by the definition of each type. Read from the inside: what `it` returns is copied, and that is mapped; of that each failure is shown to g, then converted, and then becomes an item, nothing or another failure by h; that is numbered, and of the items that p is true of the numbers are returned.
pub fn law_nest_of_six<
    'a,
    T: Copy + 'a,
    I: FallibleIterator<Item = &'a T>,
    B: Drop,
    F: FnMut(T) -> Result<B, I::Error>,
    G: FnMut(&I::Error),
    D: From<I::Error>,
    E,
    H: FnMut(D) -> Result<Option<B>, E>,
    P: FnMut(B) -> Result<bool, E>,
>()
where
    ensures { (s : Positions (OrElse (ErrInto (InspectErr (Map (Copied I) F) G) D) H) P)
        (trace : List (Answered ℕ E))
        (t : Positions (OrElse (ErrInto (InspectErr (Map (Copied I) F) G) D) H) P)
        → Run ⟦<Positions<OrElse<ErrInto<InspectErr<Map<Copied<I>, F>, G>, D>, H>, P> as FallibleIterator>⟧.contract.steps s trace t
        ↔ PositionsTrace (λ k numbered l. numbers_all (λ i recovered j.
        OrElseTrace (λ g converted h. ErrIntoTrace D.from_gives
        (λ e inspected f. InspectErrTrace (λ c mapped d. passes_all (λ a copied b.
        CopiedTrace I.contract.traces (copied_parts a) copied (copied_parts b))
        (call_by_value F.FnMut) map_outcome (map_parts c) mapped (map_parts d))
        G.FnMut (inspect_err_parts e) inspected (inspect_err_parts f))
        (err_into_parts g) converted (err_into_parts h))
        H.FnMut (or_else_parts i) recovered (or_else_parts j))
        (enumerate_parts k) numbered (enumerate_parts l))
        P.FnMut (positions_parts s) trace (positions_parts t) }
{
    law_headline::<Positions<OrElse<ErrInto<InspectErr<Map<Copied<I>, F>, G>, D>, H>, P>>();
}
