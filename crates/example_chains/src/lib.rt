//! Callers of `fallible_iterator`, as its users write them: each states what it computes by plain list functions, and the contracts of the calls prove it. Here each drains what it makes; those that draw by hand, or go on with what a call left, stand in `example_by_hand`.
#![tactic(auto)]

pub mod bridging;
pub mod collecting;
pub mod comparing;
pub mod computing;
pub mod consuming;
pub mod equal;
pub mod making;
pub mod placing;
pub mod ranges;
pub mod sources;
