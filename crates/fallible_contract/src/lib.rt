//! What is said of fallible iterators, and what the trait is made of: their contract, traces and lists, the turns of folds, searches and comparisons, the arithmetic of hints, and collections.
#![tactic(auto)]

pub mod answers;
pub mod collecting;
pub mod comparing;
pub mod failing;
pub mod folds;
pub mod goals;
pub mod hints;
pub mod passing;
pub mod picking;
pub mod searching;

pub use collecting::{Collect, Fault};
