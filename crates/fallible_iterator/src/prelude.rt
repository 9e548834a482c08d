//! What nearly each caller imports: the traits, and `convert`.
pub use crate::conversion::IteratorExt;
pub use crate::sources::making::convert;
pub use fallible_core::{DoubleEndedFallibleIterator, FallibleIterator, IntoFallibleIterator};
