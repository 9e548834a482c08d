//! Callers of `fallible_iterator` that draw by hand, from either end, or go on with what a call left; functions over any iterator; and sources of one's own. Each states what it computes by plain list functions, as those of `example_chains` do.
#![tactic(auto)]

pub mod ascii;
pub mod back;
pub mod by_definition;
pub mod byte_lines;
pub mod digits;
pub mod drawing;
pub mod faults;
pub mod generic;
pub mod idioms;
pub mod looping;
pub mod merging_all;
pub mod own;
pub mod pairing;
pub mod parsing;
pub mod reading;
pub mod resting;
pub mod retrying;
