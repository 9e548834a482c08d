//! Fallible iterators: iterators whose `next` may fail, with adapters and folds, where every call is proved to meet its contract.
//!
//! A crate above names this one alone. The trait and its adapters are those of `fallible_core`, and what is said of them is `fallible_contract`; both are reexported, as are their specifications. The sources are this crate's own.
#![tactic(auto)]

pub mod batch;
pub mod conversion;
pub mod extending;
pub mod laws;
pub mod prelude;
pub mod sources;
pub mod taking;

pub use conversion::IteratorExt;
pub use fallible_contract::answers::{Answer, Side};
pub use fallible_contract::folds::Turn;
pub use fallible_contract::goals::Goal;
pub use fallible_contract::searching::Test;
pub use fallible_contract::{Collect, Fault};
pub use fallible_core::number::Number;
pub use fallible_core::{
    Chain, Cloned, Cycle, DoubleEndedFallibleIterator, Enumerate, FallibleIterator, Filter,
    FilterMap, FlatMap, Flatten, Fuse, Inspect, IntoFallibleIterator, Iterator, Map, MapErr,
    MapWhile, Peekable, Rev, Scan, Skip, SkipWhile, StepBy, Take, TakeWhile, Unwrap, Zip,
};
pub use sources::making::{
    convert, convert_fused, empty, from_fn, once, once_err, repeat, repeat_err,
};
pub use sources::{Convert, Empty, FromFn, IntoFallible, Once, OnceErr, Repeat, RepeatErr};
pub use taking::fold_if;
