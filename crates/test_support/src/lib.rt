//! What the tests share: sources over listed and scripted answers, closures, what draws are expected to return, iterators that count the calls which they get, and values and sources whose allocations fail.
#![tactic(auto)]

pub mod answered;
pub mod asking;
pub mod calls;
pub mod closures;
pub mod collected;
pub mod counted;
pub mod counted_numbers;
pub mod counting;
pub mod course;
pub mod expected_numbers;
pub mod listed;
pub mod number_list;
pub mod numbers;
pub mod refused_clones;
pub mod requests;
pub mod rows;
pub mod scripted;
pub mod steps;
pub mod steps_back;
pub mod test_error;
pub mod text;
