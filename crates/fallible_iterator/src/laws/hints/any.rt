// The hints of a nest.
ghost use Rattle.std.specs.Prelude.{Result};
ghost use Rattle.fallible_iterator.specs.SoundHints.{SoundHints};

use crate::sources::Convert;
use fallible_core::cutting::Take;
use fallible_core::filtering::Filter;
use fallible_core::headline::law_hints;
use fallible_core::one_to_one::Map;
use fallible_core::traits::FallibleIterator;

/// Of `convert(it).map(f).filter(g).take(n)`: every hint is sound, whatever the std iterator is.
pub fn law_hints_nest<
    T,
    E,
    I: std::iter::Iterator<Item = Result<T, E>>,
    B: Drop,
    F: FnMut(T) -> Result<B, E>,
    G: FnMut(&B) -> Result<bool, E>,
>()
where
    ensures sound { (s : Take (Filter (Map (Convert I) F) G))
        → SoundHints ⟦<Take<Filter<Map<Convert<I>, F>, G>> as FallibleIterator>⟧.contract s }
{
    law_hints::<Take<Filter<Map<Convert<I>, F>, G>>>();
}
