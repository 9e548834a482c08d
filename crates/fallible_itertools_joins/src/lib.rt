//! The adapters of `fallible_itertools` that join two sources or many, and what they share. A crate above names `fallible_itertools`.
#![tactic(auto)]

pub mod interleave;
pub mod kmerge;
pub mod kmerge_by;
pub mod merge;
mod sides;
pub mod zip;

pub use interleave::Interleave;
pub use kmerge::KMerge;
pub use kmerge_by::KMergeBy;
pub use merge::{Merge, MergeBy, MergeJoinBy};
pub use zip::{EitherOrBoth, PadUsing, ZipEq, ZipLongest};
