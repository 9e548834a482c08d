//! The equations of the list words of some adapters, what each adapter with two ends lists, and the headline of a nest. What else is known of the list words is said by lemmas.

mod holding;
mod listed;
pub mod nests;

pub use holding::{law_coalesced, law_deduped, law_deduped_by, law_deduped_by_key, law_positioned};
