//! What sources list, from both ends and from the back.
ghost use Rattle.std.specs.Prelude.{◌≡◌, List, Result, Ok};
ghost use Rattle.std.specs.Vec.Iter.{into_iter_items};
ghost use Rattle.fallible_contract.specs.Lists.{Lists, RunsReadBack, results, items, reversed};
ghost use Rattle.fallible_contract.specs.BothEnds.{ListsBothEnds};
ghost use Rattle.fallible_iterator.specs.Sources.Convert.{convert_parts};
ghost use Rattle.std.specs.declared.vec.IntoIter.{IntoIter};
ghost use Rattle.std.specs.declared.alloc.Global.{Global};
ghost use Rattle.fallible_iterator.specs.declared.sources.convert.Convert.{Convert};

use super::listed::law_listed;
use crate::sources::Convert;
use fallible_core::{DoubleEndedFallibleIterator, FallibleIterator};
use std::alloc::Global;
use std::vec;

/// From the back `Convert` lists what the std iterator reads from the back: of results, or of elements that are each an `Ok`.
pub fn law_back_convert<T, E, I: std::iter::DoubleEndedIterator<Item = Result<T, E>>>()
    ensures results_back { (s : Convert I) (l : List (Result T E))
        → RunsReadBack I.next_back_gives (λ y. y) (convert_parts s) l
        → Lists ⟦<Convert<I> as DoubleEndedFallibleIterator>⟧.ends.steps s (reversed (results l)) }
    ensures items_back { (s : Convert I) (l : List T)
        → RunsReadBack I.next_back_gives Ok (convert_parts s) l
        → Lists ⟦<Convert<I> as DoubleEndedFallibleIterator>⟧.ends.steps s (reversed (items l)) }
{}

/// `Convert` of a vector's iterator lists from both ends what is left of the vector.
pub fn law_listed_vec<T: Drop, E: Drop>()
    ensures listed { (s : Convert (IntoIter (Result T E) Global)) (l : List (Result T E))
        → into_iter_items (convert_parts s) ≡ l
        → ListsBothEnds
        ⟦<Convert<vec::IntoIter<Result<T, E>, Global>> as FallibleIterator>⟧.contract.steps
        ⟦<Convert<vec::IntoIter<Result<T, E>, Global>> as DoubleEndedFallibleIterator>⟧.ends.steps
        s l }
    ensures results { (s : Convert (IntoIter (Result T E) Global)) (l : List (Result T E))
        → into_iter_items (convert_parts s) ≡ l
        → ListsBothEnds
        ⟦<Convert<vec::IntoIter<Result<T, E>, Global>> as FallibleIterator>⟧.contract.steps
        ⟦<Convert<vec::IntoIter<Result<T, E>, Global>> as DoubleEndedFallibleIterator>⟧.ends.steps
        s (results l) }
{
    law_listed::<Convert<vec::IntoIter<Result<T, E>, Global>>>();
}
