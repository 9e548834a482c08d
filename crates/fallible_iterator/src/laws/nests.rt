// The headline of two nests of adapters, with the definition of each type written out.
ghost use Rattle.std.specs.Prelude.{Result, List, ◌↔◌};
ghost use Rattle.fallible_contract.specs.Traces.{Answered, Run};
ghost use Rattle.fallible_core.specs.OneToOne.Map.{map_parts, MapTrace};
ghost use Rattle.fallible_core.specs.Filtering.Filter.{filter_parts, FilterTrace};
ghost use Rattle.fallible_core.specs.Cutting.Take.{take_parts, takes_all};
ghost use Rattle.fallible_core.specs.Cutting.Fuse.{fuse_parts, FuseTrace};
ghost use Rattle.fallible_core.specs.Joining.Chain.{chain_parts, chains_all};
ghost use Rattle.fallible_iterator.specs.Sources.Convert.{ConvertTrace, convert_parts};

use crate::sources::Convert;
use fallible_core::cutting::{Fuse, Take};
use fallible_core::filtering::Filter;
use fallible_core::headline::law_headline;
use fallible_core::joining::Chain;
use fallible_core::one_to_one::Map;
use fallible_core::traits::FallibleIterator;

/// The headline of `first.filter(p).map(f).take(n).chain(second).fuse()`, over every two sources, with the five definitions written out. Read from the inside: what `first` returns is filtered, that is mapped, that is cut, that is chained with what `second` returns, and that is fused.
pub fn law_nest<
    T: Drop,
    E,
    I: FallibleIterator<Item = T, Error = E>,
    P: FnMut(&T) -> Result<bool, E>,
    F: FnMut(T) -> Result<B, E>,
    B,
    U: FallibleIterator<Item = B, Error = E>,
>()
    ensures { (s : Fuse (Chain (Take (Map (Filter I P) F)) U)) (trace : List (Answered B E))
        (t : Fuse (Chain (Take (Map (Filter I P) F)) U))
        → Run ⟦<Fuse<Chain<Take<Map<Filter<I, P>, F>>, U>> as FallibleIterator>⟧.contract.steps
        s trace t
        ↔ FuseTrace (λ v chained w. chains_all (λ a cut b. takes_all (λ c mapped d. MapTrace
        (λ e kept f. FilterTrace I.contract.traces P.FnMut (filter_parts e) kept (filter_parts f))
        F.FnMut (map_parts c) mapped (map_parts d))
        (take_parts a) cut (take_parts b))
        U.contract.traces (chain_parts v) chained (chain_parts w))
        (fuse_parts s) trace (fuse_parts t) }
{
    law_headline::<Fuse<Chain<Take<Map<Filter<I, P>, F>>, U>>>();
}

/// The headline of `convert(it).map(f).filter(p)`, over every std iterator, with its lists written out. Read from the outside: what it returns is what `filter` makes of `made`, which is what `map` makes of `drawn`, which is what the std iterator returns.
pub fn law_nest_of_three<
    T,
    E,
    I: std::iter::Iterator<Item = Result<T, E>>,
    B: Drop,
    F: FnMut(T) -> Result<B, E>,
    P: FnMut(&B) -> Result<bool, E>,
>()
    ensures { (s : Filter (Map (Convert I) F) P) (trace : List (Answered B E))
        (t : Filter (Map (Convert I) F) P)
        → Run ⟦<Filter<Map<Convert<I>, F>, P> as FallibleIterator>⟧.contract.steps s trace t
        ↔ FilterTrace (λ a made b. MapTrace (λ c drawn d. ConvertTrace I.can_next I.next_gives
        I.remaining (convert_parts c) drawn (convert_parts d))
        F.FnMut (map_parts a) made (map_parts b))
        P.FnMut (filter_parts s) trace (filter_parts t) }
{
    law_headline::<Filter<Map<Convert<I>, F>, P>>();
}
