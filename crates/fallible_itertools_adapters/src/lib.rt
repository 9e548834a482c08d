//! The adapters of `fallible_itertools` over one source, what they share, and their laws. A crate above names `fallible_itertools`.
#![tactic(auto)]

pub mod chunks;
pub mod coalesce;
pub mod copied;
pub mod failing;
pub mod intersperse;
pub mod laws;
pub mod peeking_take_while;
pub mod positions;
pub mod staging;
pub mod take_while_inclusive;
pub mod tuples;
pub mod unique;

pub use chunks::{ChunkBy, Chunks};
pub use coalesce::{Coalesce, Dedup, DedupBy, DedupByKey, DedupByWithCount, DedupWithCount};
pub use copied::Copied;
pub use failing::{ErrInto, FuseAtFailure, InspectErr, OrElse, StopAfter};
pub use intersperse::{Intersperse, IntersperseWith};
pub use peeking_take_while::{PeekingNext, PeekingTakeWhile};
pub use positions::{Position, Positions, WithPosition};
pub use take_while_inclusive::TakeWhileInclusive;
pub use tuples::{TupleWindows, Tuples};
pub use unique::{Duplicates, Unique, UniqueBy};
