//! What programs share: the words that they are given, what they write to, numbers in texts, why a run fails, and how a program ends.
#![tactic(auto)]

pub mod arguments;
pub mod ending;
pub mod fault;
pub mod numbers;
pub mod reading;
pub mod writing;
