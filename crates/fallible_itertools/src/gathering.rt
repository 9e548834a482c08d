//! Folds whose state is a collection.
ghost use Rattle.std.specs.Prelude.{◌≡◌};
ghost use Rattle.fallible_itertools.specs.Gathering.{gathered};

use fallible_iterator::Fault;
use std::alloc::AllocError;

/// Returns the collection at an end, the failure, or the allocation failure that the fold stopped with.
pub fn gathered<D: Drop, E>(answer: Result<Option<AllocError>, E>, kept: D) -> Result<D, Fault<E>>
    ensures { result ≡ gathered answer kept }
{
    match answer {
        Ok(None) => Ok(kept),
        Ok(Some(refused)) => Err(Fault::Memory(refused)),
        Err(e) => Err(Fault::Source(e)),
    }
}
