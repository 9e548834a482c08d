//! Hints are sound where their type's contract says, by one law of all types.
mod any;

pub use any::law_hints_nest;
pub use fallible_core::headline::{law_hints, law_hints_back};
