//! More calls on every fallible iterator: items grouped, merged, paired and searched. Its adapters are two crates, which it hands on: those over one source, and those that join sources. All three stand on `fallible_iterator`.
//!
//! Import the trait [`FallibleItertools`] to have them, and [`DoubleEndedFallibleItertools`] for those from the back.
#![tactic(auto)]

pub mod all_unique;
pub mod checked_sum;
pub mod double_ended;
pub mod equal;
pub mod find;
pub mod fold_while;
pub mod gathering;
pub mod is_sorted;
pub mod join;
pub mod keyed;
pub mod laws;
pub mod minmax;
pub mod partition;
pub mod sorted;
pub mod tail;
pub mod total;
pub mod traits;
pub mod with_index;

pub use checked_sum::CheckedTotal;
pub use double_ended::DoubleEndedFallibleItertools;
pub use fallible_itertools_adapters::{
    ChunkBy, Chunks, Coalesce, Copied, Dedup, DedupBy, DedupByKey, DedupByWithCount,
    DedupWithCount, Duplicates, ErrInto, FuseAtFailure, InspectErr, Intersperse, IntersperseWith,
    OrElse, PeekingNext, PeekingTakeWhile, Position, Positions, StopAfter, TakeWhileInclusive,
    TupleWindows, Tuples, Unique, UniqueBy, WithPosition, staging,
};
pub use fallible_itertools_joins::kmerge_by::{kmerge, kmerge_by};
pub use fallible_itertools_joins::{
    EitherOrBoth, Interleave, KMerge, KMergeBy, Merge, MergeBy, MergeJoinBy, PadUsing, ZipEq,
    ZipLongest,
};
pub use find::NotOne;
pub use fold_while::FoldWhile;
pub use minmax::MinMaxResult;
pub use partition::Either;
pub use total::Total;
pub use traits::FallibleItertools;
pub use with_index::MapErrWithIndex;
