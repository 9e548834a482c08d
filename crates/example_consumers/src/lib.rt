//! Callers of the consumers of `fallible_itertools`: each states what it computes, and the contracts of the calls prove it.
#![tactic(auto)]

pub mod extremes;
pub mod kept;
pub mod settings;
pub mod stopping;
pub mod totals;
pub mod trying;
