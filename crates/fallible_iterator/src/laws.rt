//! The headline, of every type, and what else is said of all lists or of one type, as laws; and traces that a test or a caller can look at.
mod bridges;
mod draws;
mod ends;
mod for_good;
pub mod hints;
mod joining;
mod listed;
mod nests;
mod peeking;
mod sources;
mod traces;

pub use bridges::{law_back_iterator, law_iterator};
pub use draws::{law_next, law_peek};
pub use ends::{law_after_front, law_draws, law_interleave};
pub use fallible_contract::answers::{Answer, Side};
pub use fallible_core::headline::{law_headline, law_headline_back};
pub use for_good::{law_take_for_good, law_take_while_for_good};
pub use joining::{
    law_cycle_taken, law_cycle_until_refused, law_flat_map_finite, law_flatten_finite,
};
pub use listed::{Listed, law_listed, law_lists, law_lists_chain, law_lists_filter, law_lists_map};
pub use nests::{law_nest, law_nest_of_three};
pub use peeking::law_peekable;
pub use sources::{law_back_convert, law_listed_vec};
pub use traces::{answers, answers_at};
