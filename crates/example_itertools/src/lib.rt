//! Callers of the adapters of `fallible_itertools`: each states what it computes, and the contracts of the calls prove it.
#![tactic(auto)]

pub mod batching;
pub mod cloning;
pub mod failing;
pub mod grouping;
pub mod holding;
pub mod interspersing;
pub mod joining;
pub mod lines;
pub mod merging_many;
pub mod ordering;
pub mod passing;
pub mod reading;
pub mod rows;
